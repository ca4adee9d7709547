// Limits of numbers and of cells: which comes first, and that a refused line changes nothing.
use crate::building::{Lists, alive, expect, finish, formula_of, new_loader, take_all};
use crate::loading::SQUARE;
use sr_base::Limits;
use sr_load::{LoadError, LoadedProof, Loader, Progress};
use std::alloc::Global;
use std::test::Fail;

/// The limits of numbers and of cells, and lines; what the last one is answered, and how many lemmas were loaded and
/// deletions passed over. The formula has four clauses of two literals, and so 24 cells.
type Row = (u32, u32, Lists, Result<Progress, LoadError>, u32, u64);

/// A loader of the square, or why there is none.
fn loader_within(
    alloc: Global,
    ids: u32,
    cells: u32,
) -> Result<Result<Box<Loader>, LoadError>, Fail> {
    let limits = Limits::new(9, ids, cells, 1_000).ok_or("no limits")?;
    let formula = formula_of(alloc, SQUARE)?;
    new_loader(alloc, formula, &limits, false)
}

fn counts(loader: &Loader, lemmas: u32, passed: u64) -> bool {
    loader.lemmas() == lemmas && loader.passed() == passed
}

/// Loads the n-th row, and fails where it isn't answered as the row says.
fn answers(alloc: Global, row: &Row, n: u64) -> Result<(), Fail> {
    let (ids, cells, lines, wanted, lemmas, passed) = *row;
    match loader_within(alloc, ids, cells)? {
        Err(error) => expect(Err(error) == wanted, n, "no loader"),
        Ok(mut loader) => {
            let answer = take_all(alloc, &mut *loader, lines)?;
            expect(answer == wanted, n, "another answer")?;
            expect(
                loader.state() == wanted.unwrap_or(Progress::Going),
                n,
                "another state",
            )?;
            expect(counts(&*loader, lemmas, passed), n, "other counts")
        }
    }
}

fn all_answer(alloc: Global, rows: &[Row]) -> Result<(), Fail> {
    let mut n = 0u64;
    for row in rows {
        n = n.wrapping_add(1);
        answers(alloc, row, n)?;
    }
    Ok(())
}

#[test]
fn cells_and_numbers_are_limited(rt: HostRuntime) -> Result<(), Fail> {
    let rows: [Row; 10] = [
        (9, 23, &[], Err(LoadError::Cells), 0, 0),
        (2, 23, &[], Err(LoadError::Cells), 0, 0),
        (2, 24, &[], Ok(Progress::Going), 0, 0),
        (9, 28, &[&[2]], Err(LoadError::Cells), 0, 0),
        (9, 29, &[&[2]], Ok(Progress::Conflict), 1, 0),
        (5, 29, &[&[2]], Err(LoadError::Ids), 0, 0),
        (6, 29, &[&[2]], Ok(Progress::Conflict), 1, 0),
        (5, 28, &[&[2]], Err(LoadError::Ids), 0, 0),
        (6, 24, &[&[]], Ok(Progress::EmptyLemma(5)), 1, 0),
        (5, 24, &[&[]], Err(LoadError::Ids), 0, 0),
    ];
    all_answer(rt.alloc(), &rows)
}

#[test]
fn deleted_clauses_keep_their_numbers_and_cells(rt: HostRuntime) -> Result<(), Fail> {
    let rows: [Row; 4] = [
        (9, 28, &[&[0, 1, 2], &[3]], Err(LoadError::Cells), 0, 0),
        (9, 29, &[&[0, 1, 2], &[3]], Ok(Progress::Going), 1, 0),
        (6, 99, &[&[3], &[0, 3], &[4]], Err(LoadError::Ids), 1, 0),
        (7, 99, &[&[3], &[0, 3], &[4]], Ok(Progress::Going), 2, 0),
    ];
    all_answer(rt.alloc(), &rows)
}

#[test]
fn refused_lines_change_nothing(rt: HostRuntime) -> Result<(), Fail> {
    let rows: [Row; 6] = [
        (9, 29, &[&[2, 3], &[2]], Ok(Progress::Conflict), 1, 0),
        (9, 29, &[&[3], &[2], &[2]], Err(LoadError::Cells), 1, 0),
        (9, 29, &[&[2, 3], &[0, 2, 3]], Ok(Progress::Going), 0, 1),
        (6, 99, &[&[3], &[2], &[]], Err(LoadError::Ids), 1, 0),
        (
            6,
            99,
            &[&[3], &[2], &[0, 2], &[0, 3]],
            Ok(Progress::Going),
            1,
            1,
        ),
        (6, 29, &[&[2, 3], &[]], Ok(Progress::EmptyLemma(5)), 1, 0),
    ];
    all_answer(rt.alloc(), &rows)
}

/// A proof of which two lines were refused.
fn loaded_between(alloc: Global) -> Result<Box<LoadedProof>, Fail> {
    let Ok(mut loader) = loader_within(alloc, 9, 29)? else {
        return Err(Fail::from("no loader"));
    };
    let _answer = take_all(alloc, &mut *loader, &[&[2, 3], &[1, 3], &[0, 2, 3], &[2]])?;
    finish(alloc, loader)
}

#[test]
fn a_refused_lemma_has_no_number(rt: HostRuntime) -> Result<(), Fail> {
    let proof = loaded_between(rt.alloc())?;
    let found = alive(rt.alloc(), &*proof)?;
    assert_eq!(rt; found.as_slice(), [1, 2, 3, 4, 5].as_slice());
    assert_eq!(rt; (proof.clauses(), proof.lemmas()), (4, 1));
    Ok(())
}
