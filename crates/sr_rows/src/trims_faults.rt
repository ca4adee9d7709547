// Words that `trim` doesn't take, files that it doesn't find, limits, and each call of the outside refused in turn.
ghost use Rattle.std.specs.Prelude.{◌≡◌};
ghost use Rattle.sr_desk.specs.MemoryView.{outside_of};

use crate::case::{FOUR, SIX, desk_of, last_line, status_of, wants};
use crate::trims::{SIX_LEMMAS, VERIFIED, make_case, trims};
use sr_base::{Limits, MOST_BYTES, MOST_CELLS, MOST_IDS, MOST_VARS};
use sr_desk::{CallKind, MemoryDesk};
use std::alloc::Global;
use std::test::Fail;

const REFUSED: &str = "e usage words\n";

const WORDS: [(&[&str], u8, &str); 14] = [
    (&["trim"], 2, REFUSED),
    (&["trim", "f"], 2, REFUSED),
    (&["trim", "f", "p", "q"], 2, REFUSED),
    (&["trim", "f", "p", "--lsr"], 2, REFUSED),
    (&["trim", "f", "p", "--lsr-form", "xml"], 2, REFUSED),
    (&["trim", "f", "p", "--strict"], 2, REFUSED),
    (
        &["trim", "f", "p", "--core", "k", "--core", "m"],
        2,
        REFUSED,
    ),
    (&["trim", "f", "p", "--stats", "--stats"], 2, REFUSED),
    (&["trim", "--core=k", "f", "--lsr=l", "p"], 0, VERIFIED),
    (&["trim", "f", "p", "--lsr-form", "binary"], 0, VERIFIED),
    (&["trim", "--keep-units", "f", "--", "p"], 0, VERIFIED),
    (&["trim", "g", "p"], 5, "e source formula\n"),
    (&["trim", "f", "q"], 5, "e source proof\n"),
    (&["trim", "g", "q"], 5, "e source formula\n"),
];

#[test]
fn words_and_missing_files_are_named(rt: HostRuntime) -> Result<(), Fail> {
    let alloc = rt.alloc();
    for (words, status, report) in WORDS {
        let mut desk = desk_of(alloc, FOUR, "2 0\n", 1000)?;
        let got = status_of(alloc, &Limits::shipped(), words, &mut desk)?;
        wants(status, report, got, desk.out_bytes())?;
    }
    Ok(())
}

const BINARY: [(&[u8], &str); 3] = [
    (&[0x62], "e text proof bad-word 0\n"),
    (&[0x61, 0x01, 0x00], "e text proof bad-number 1\n"),
    (&[0x61, 0x80], "e text proof unended 2\n"),
];

#[test]
fn binary_lines_that_are_not_spelled_are_placed(rt: HostRuntime) -> Result<(), Fail> {
    let alloc = rt.alloc();
    for (proof, report) in BINARY {
        let mut desk = desk_of(alloc, SIX, "", 1)?;
        desk.put_file("p", proof)?;
        desk.restart();
        let words = ["trim", "f", "p", "--proof-form", "binary"];
        let got = status_of(alloc, &Limits::shipped(), &words, &mut desk)?;
        wants(3, report, got, desk.out_bytes())?;
    }
    Ok(())
}

/// The limits of variables, numbers, cells and bytes, a formula, a proof, and the report.
const LIMITS: [(u32, u32, u32, u64, &str, &str, &str); 8] = [
    (
        1,
        MOST_IDS,
        MOST_CELLS,
        MOST_BYTES,
        FOUR,
        "2 0\n",
        "e limit formula vars\n",
    ),
    (
        2,
        MOST_IDS,
        MOST_CELLS,
        MOST_BYTES,
        FOUR,
        "3 0\n",
        "e limit proof vars\n",
    ),
    (
        MOST_VARS,
        4,
        MOST_CELLS,
        MOST_BYTES,
        FOUR,
        "2 0\n",
        "e limit formula ids\n",
    ),
    (
        MOST_VARS,
        MOST_IDS,
        23,
        MOST_BYTES,
        FOUR,
        "2 0\n",
        "e limit formula cells\n",
    ),
    (
        MOST_VARS,
        MOST_IDS,
        MOST_CELLS,
        37,
        FOUR,
        "2 0\n",
        "e limit formula bytes\n",
    ),
    (
        MOST_VARS,
        MOST_IDS,
        MOST_CELLS,
        38,
        FOUR,
        "c more than thirty-eight bytes of comment\n2 0\n",
        "e limit proof bytes\n",
    ),
    // The line feed that the formula lacks is one byte more.
    (
        MOST_VARS,
        MOST_IDS,
        MOST_CELLS,
        11,
        "p cnf 0 1\n0",
        "",
        "e limit core bytes\n",
    ),
    (
        MOST_VARS,
        MOST_IDS,
        MOST_CELLS,
        158,
        SIX,
        SIX_LEMMAS,
        "e limit lsr bytes\n",
    ),
];

#[test]
fn each_limit_is_named(rt: HostRuntime) -> Result<(), Fail> {
    for (vars, ids, cells, bytes, formula, proof, report) in LIMITS {
        let limits = Limits::new(vars, ids, cells, bytes).ok_or("no limits")?;
        trims(rt.alloc(), &limits, &make_case(formula, proof, 4, report))?;
    }
    Ok(())
}

/// A run that writes the proof by hints alone is under the same limit.
fn run_within(alloc: Global, bytes: u64, desk: &mut MemoryDesk) -> Result<u8, Fail>
    requires { (outside_of desk.old).begun ≡ 0 }
{
    let limits = Limits::new(MOST_VARS, MOST_IDS, MOST_CELLS, bytes).ok_or("no limits")?;
    status_of(alloc, &limits, &["trim", "f", "p", "--lsr", "l"], desk)
}

#[test]
fn a_proof_by_hints_that_is_too_long_is_not_begun(rt: HostRuntime) -> Result<(), Fail> {
    let alloc = rt.alloc();
    let mut desk = desk_of(alloc, SIX, SIX_LEMMAS, 1000)?;
    let got = run_within(alloc, 158, &mut desk)?;
    wants(4, "e limit lsr bytes\n", got, desk.out_bytes())?;
    assert!(rt; desk.file_bytes("l").is_none());
    desk.restart();
    let got = run_within(alloc, 164, &mut desk)?;
    wants(0, VERIFIED, got, desk.out_bytes())?;
    assert!(rt; desk.file_bytes("l").is_some());
    Ok(())
}

/// Trims the formula over six variables, with the files `l` and `k`.
fn run(alloc: Global, desk: &mut MemoryDesk) -> Result<u8, Fail>
    requires { (outside_of desk.old).begun ≡ 0 }
{
    let words = ["trim", "f", "p", "--lsr", "l", "--core", "k"];
    status_of(alloc, &Limits::shipped(), &words, desk)
}

/// The n-th call of a kind, and how many bytes a call moves, and how many reads are those of the formula.
#[derive(Clone, Copy)]
struct Call {
    kind: CallKind,
    nth: u32,
    piece: usize,
    formula_reads: u32,
}

/// Whether two desks have a file alike.
fn is_same(whole: &MemoryDesk, desk: &MemoryDesk, name: &str) -> bool {
    desk.file_bytes(name).is_some() && desk.file_bytes(name) == whole.file_bytes(name)
}

/// Whether a file is missing, or holds a prefix.
fn is_prefix(whole: &MemoryDesk, desk: &MemoryDesk, name: &str) -> bool {
    match (whole.file_bytes(name), desk.file_bytes(name)) {
        (Some(all), Some(written)) => all.starts_with(written),
        (_, None) => true,
        _ => false,
    }
}

fn is_missing(desk: &MemoryDesk, name: &str) -> bool {
    desk.file_bytes(name).is_none()
}

/// Whether the first of the proof by hints, the core and the report are whole, so many of them, and the others weren't begun.
fn has_first(whole: &MemoryDesk, desk: &MemoryDesk, count: u32) -> bool {
    let lsr = if count < 1 {
        is_missing(desk, "l")
    } else {
        is_same(whole, desk, "l")
    };
    let core = if count < 2 {
        is_missing(desk, "k")
    } else {
        is_same(whole, desk, "k")
    };
    let report = if count < 3 {
        desk.out_bytes().is_empty()
    } else {
        desk.out_bytes() == whole.out_bytes()
    };
    lsr && core && report
}

/// Whether each output holds a prefix, and none is begun before the one before it is whole.
fn has_prefixes(whole: &MemoryDesk, desk: &MemoryDesk) -> bool {
    if !is_same(whole, desk, "l") {
        return is_prefix(whole, desk, "l") && is_missing(desk, "k") && desk.out_bytes().is_empty();
    }
    if !is_same(whole, desk, "k") {
        return is_prefix(whole, desk, "k") && desk.out_bytes().is_empty();
    }
    whole.out_bytes().starts_with(desk.out_bytes())
}

/// How many bytes were written.
fn written(desk: &MemoryDesk) -> usize {
    let mut sum = desk.out_bytes().len();
    for name in ["l", "k"] {
        if let Some(bytes) = desk.file_bytes(name) {
            sum = sum.saturating_add(bytes.len());
        }
    }
    sum
}

/// Whether what is written is what so many calls write.
fn is_written_by(desk: &MemoryDesk, writes: u32, piece: usize) -> bool {
    let count = writes as usize;
    written(desk) >= count && written(desk) <= count.saturating_mul(piece)
}

fn is_source_fault(desk: &MemoryDesk, formula: bool) -> bool {
    let report: &str = if formula {
        "e source formula\n"
    } else {
        "e source proof\n"
    };
    let printed = str::from_utf8(desk.out_bytes()).unwrap_or("no UTF-8");
    is_missing(desk, "l") && is_missing(desk, "k") && last_line(printed) == report
}

/// Whether a run of which a call is refused is ended by that.
fn ends_by(whole: &MemoryDesk, desk: &MemoryDesk, call: &Call, status: u8) -> bool {
    let before = call.nth.saturating_sub(1);
    match call.kind {
        CallKind::BeginRead => status == 5 && is_source_fault(desk, call.nth == 1),
        CallKind::Read => status == 5 && is_source_fault(desk, call.nth <= call.formula_reads),
        CallKind::BeginWrite => status == 6 && has_first(whole, desk, before),
        CallKind::Write => {
            status == 6
                && has_prefixes(whole, desk)
                && is_written_by(desk, before, call.piece)
                && written(desk) < written(whole)
        }
        CallKind::Finish => status == 6 && has_first(whole, desk, call.nth),
    }
}

/// Refuses a call, and says whether the run made it. Fails where the run doesn't end as it should.
fn refuse(alloc: Global, whole: &MemoryDesk, call: &Call) -> Result<bool, Fail> {
    let mut desk = desk_of(alloc, SIX, SIX_LEMMAS, call.piece)?;
    desk.refuse(call.kind, call.nth)?;
    let status = run(alloc, &mut desk)?;
    let made = desk.calls(call.kind) >= call.nth;
    let good = if made {
        ends_by(whole, &desk, call, status)
    } else {
        status == 0 && has_first(whole, &desk, 3)
    };
    if good {
        return Ok(made);
    }
    let nth = call.nth;
    let piece = call.piece;
    Err(Fail::new(format_args!("status {status} at call {nth} with pieces of {piece}")))
}

/// Refuses each call of a kind in turn, and says how many there are.
fn refuse_each(alloc: Global, whole: &MemoryDesk, first: &Call) -> Result<u32, Fail> {
    let mut call = *first;
    for nth in 1..1000u32 {
        call.nth = nth;
        if !refuse(alloc, whole, &call)? {
            return Ok(nth - 1);
        }
    }
    Err(Fail::from("too many calls"))
}

/// The kinds of calls, and how many of each there are at least.
const KINDS: [(CallKind, u32); 5] = [
    (CallKind::BeginRead, 2),
    (CallKind::Read, 3),
    (CallKind::BeginWrite, 2),
    (CallKind::Write, 3),
    (CallKind::Finish, 3),
];

fn refuse_all(alloc: Global, piece: usize, formula_reads: u32) -> Result<(), Fail> {
    let mut whole = desk_of(alloc, SIX, SIX_LEMMAS, piece)?;
    let got = run(alloc, &mut whole)?;
    wants(0, VERIFIED, got, whole.out_bytes())?;
    for (kind, least) in KINDS {
        let first = Call {
            kind,
            nth: 1,
            piece,
            formula_reads,
        };
        let count = refuse_each(alloc, &whole, &first)?;
        if count < least || count != whole.calls(kind) {
            return Err(Fail::new(format_args!("{count} calls")));
        }
    }
    Ok(())
}

#[test]
fn each_call_is_refused_in_turn(rt: HostRuntime) -> Result<(), Fail> {
    for (piece, formula_reads) in [(1, 120), (8, 16), (1000, 2)] {
        refuse_all(rt.alloc(), piece, formula_reads)?;
    }
    Ok(())
}

#[test]
fn a_refused_third_write_leaves_what_two_wrote(rt: HostRuntime) -> Result<(), Fail> {
    let alloc = rt.alloc();
    let mut desk = desk_of(alloc, SIX, SIX_LEMMAS, 8)?;
    desk.refuse(CallKind::Write, 3)?;
    let got = run(alloc, &mut desk)?;
    wants(6, "", got, desk.out_bytes())?;
    let lsr = desk.file_bytes("l").ok_or("no file")?;
    assert!(rt; b"12 d 2 0\n13 -1 -".starts_with(lsr));
    assert!(rt; is_missing(&desk, "k"));
    Ok(())
}
