// Where loading stops, which deletions are passed over, and what stands then. Expected answers were worked out by hand.
use crate::building::{Lists, expect, formula_of, loader_of, take_all};
use sr_load::{Loader, Progress};
use std::alloc::Global;
use std::test::Fail;

/// Clauses and lines; where loading stops, and how many lemmas were loaded and deletions passed over.
type Row = (Lists, Lists, Progress, u32, u64);

/// Any two literals over 1 and 2: no unit, and a conflict as soon as a literal of 1 or 2 holds.
pub(crate) const SQUARE: Lists = &[&[1, 2], &[-1, 2], &[1, -2], &[-1, -2]];

/// The same over 2 and 3, which holds only while 1 does.
const GUARDED: Lists = &[&[1], &[-1, 2, 3], &[-1, 2, -3], &[-1, -2, 3], &[-1, -2, -3]];

/// 1 gives 2, and with 2 the literal 3 conflicts.
const CHAINED: Lists = &[&[1], &[-1, 2], &[-2, -3, 4], &[-2, -3, -4]];

fn stands(loader: &Loader, stop: Progress, lemmas: u32, passed: u64) -> bool {
    loader.state() == stop && loader.lemmas() == lemmas && loader.passed() == passed
}

/// Loads the n-th row, and fails where it doesn't end as the row says.
fn ends(alloc: Global, row: &Row, keep_units: bool, n: u64) -> Result<(), Fail> {
    let (clauses, lines, stop, lemmas, passed) = *row;
    let formula = formula_of(alloc, clauses)?;
    let mut loader = loader_of(alloc, formula, keep_units)?;
    let answer = take_all(alloc, &mut *loader, lines)?;
    expect(answer == Ok(stop), n, "another answer")?;
    expect(stands(&*loader, stop, lemmas, passed), n, "another end")
}

fn all_end(alloc: Global, rows: &[Row], keep_units: bool) -> Result<(), Fail> {
    let mut n = 0u64;
    for row in rows {
        n = n.wrapping_add(1);
        ends(alloc, row, keep_units, n)?;
    }
    Ok(())
}

#[test]
fn loading_stops_at_the_first_conflict(rt: HostRuntime) -> Result<(), Fail> {
    let rows: [Row; 8] = [
        (SQUARE, &[&[2], &[]], Progress::Conflict, 1, 0),
        (
            SQUARE,
            &[&[3], &[-3, 4], &[-1, -4], &[-1]],
            Progress::Conflict,
            3,
            0,
        ),
        (&[&[1], &[-1]], &[&[2]], Progress::Conflict, 0, 0),
        (&[&[1, 2], &[]], &[&[2]], Progress::Conflict, 0, 0),
        (
            &[&[-3, -1], &[-2, 3], &[-1, 2], &[1]],
            &[],
            Progress::Conflict,
            0,
            0,
        ),
        (&[&[1, 2]], &[&[3], &[-3, 1]], Progress::Going, 2, 0),
        (&[&[1, 2]], &[&[1, -1]], Progress::Going, 1, 0),
        (&[], &[&[1], &[2, 2], &[-2]], Progress::Conflict, 3, 0),
    ];
    all_end(rt.alloc(), &rows, false)
}

#[test]
fn an_empty_lemma_is_the_last_one(rt: HostRuntime) -> Result<(), Fail> {
    let rows: [Row; 3] = [
        (SQUARE, &[&[], &[2]], Progress::EmptyLemma(5), 1, 0),
        (
            &[&[1]],
            &[&[0, 2], &[], &[-1]],
            Progress::EmptyLemma(2),
            1,
            1,
        ),
        (
            &[],
            &[&[1], &[0, 1], &[], &[]],
            Progress::EmptyLemma(2),
            2,
            0,
        ),
    ];
    all_end(rt.alloc(), &rows, false)
}

#[test]
fn deletions_of_nothing_are_counted(rt: HostRuntime) -> Result<(), Fail> {
    let rows: [Row; 4] = [
        (
            &[&[1, 2]],
            &[&[0, 1], &[0, 1, 3], &[0, 1, 2, 3], &[0]],
            Progress::Going,
            0,
            4,
        ),
        (
            &[&[1, 2]],
            &[&[0, 2, 1], &[0, 1, 2], &[0, 2, 1]],
            Progress::Going,
            0,
            2,
        ),
        (
            &[&[1, 2], &[2, 1]],
            &[&[0, 2, 2, 1], &[0, 1, 2]],
            Progress::Going,
            0,
            0,
        ),
        (
            &[&[1, 2]],
            &[&[0, 3], &[3], &[0, 3], &[0, 3]],
            Progress::Going,
            1,
            2,
        ),
    ];
    all_end(rt.alloc(), &rows, false)
}

#[test]
fn a_deleted_reason_takes_back_what_it_derived(rt: HostRuntime) -> Result<(), Fail> {
    let copied: Lists = &[&[2, -1], &[1], &[-1, 2], &[-2, -3, 4], &[-2, -3, -4]];
    let rows: [Row; 8] = [
        (CHAINED, &[&[3]], Progress::Conflict, 1, 0),
        (CHAINED, &[&[0, -1, 2], &[3]], Progress::Going, 1, 0),
        (CHAINED, &[&[0, 1], &[3]], Progress::Going, 1, 0),
        (CHAINED, &[&[0, 1], &[3], &[1]], Progress::Conflict, 2, 0),
        (
            CHAINED,
            &[&[0, -1, 2], &[3], &[2]],
            Progress::Conflict,
            2,
            0,
        ),
        (copied, &[&[0, -1, 2], &[3]], Progress::Conflict, 1, 0),
        (
            copied,
            &[&[0, -1, 2], &[0, -1, 2], &[3]],
            Progress::Going,
            1,
            0,
        ),
        (GUARDED, &[&[0, 1], &[2]], Progress::Going, 1, 0),
    ];
    all_end(rt.alloc(), &rows, false)
}

#[test]
fn units_are_kept_on_request(rt: HostRuntime) -> Result<(), Fail> {
    let rows: [Row; 8] = [
        (GUARDED, &[&[0, 1], &[2]], Progress::Conflict, 1, 1),
        (CHAINED, &[&[0, -1, 2], &[3]], Progress::Conflict, 1, 1),
        (
            &[&[1], &[1, 2]],
            &[&[0, 2, 1], &[0, 1, 2]],
            Progress::Going,
            0,
            1,
        ),
        (
            &[&[1], &[-1, 2]],
            &[&[0, 2, -1], &[0, 2, -1]],
            Progress::Going,
            0,
            2,
        ),
        (&[&[-1, 2]], &[&[1], &[0, 2, -1]], Progress::Going, 1, 1),
        (
            &[&[-1, 2]],
            &[&[0, 2, -1], &[1], &[0, 2, -1]],
            Progress::Going,
            1,
            1,
        ),
        (
            &[&[1], &[-1, 2, 3]],
            &[&[0, 3, 2, -1], &[-2], &[-3]],
            Progress::Going,
            2,
            0,
        ),
        (
            &[&[1], &[1, -1]],
            &[&[0, -1, 1], &[0, 1, -1]],
            Progress::Going,
            0,
            2,
        ),
    ];
    all_end(rt.alloc(), &rows, true)
}
