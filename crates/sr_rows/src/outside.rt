// Files that are missing, and calls of the outside that fail.
use crate::case::{FOUR, FOUR_PROOF, SIX, desk_of, status_of, wants};
use sr_base::Limits;
use sr_desk::CallKind;
use std::alloc::Global;
use std::test::Fail;

const CHECK: [&str; 3] = ["check", "f", "p"];

const VERIFIED: &str = "s VERIFIED UNSAT\n";

const PIECES: [usize; 3] = [1, 8, 1000];

const SIX_PROOF: &str =
    "12 d 2 0\n13 -1 -1 2 -1 3 4 4 3 0 -4 3 -5 9 -6 10 -7 11 -8 12 -9 5 -10 6 -11 7 -12 8 0\n13 d 3 5 6 7 8 0\n14 5 0 13 1 4 9 10 0\n14 d 9 10 0\n15 0 13 1 4 14 11 12 0\n";

#[test]
fn missing_files_are_named(rt: HostRuntime) -> Result<(), Fail> {
    let alloc = rt.alloc();
    let cases: [(&[&str], u8, &str); 3] = [
        (&["check", "g", "p"], 5, "e source formula\n"),
        (&["check", "f", "q"], 5, "e source proof\n"),
        (&["check", "g", "q"], 5, "e source formula\n"),
    ];
    for (words, status, report) in cases {
        let mut desk = desk_of(alloc, FOUR, FOUR_PROOF, 1000)?;
        let got = status_of(alloc, &Limits::shipped(), words, &mut desk)?;
        wants(status, report, got, desk.out_bytes())?;
    }
    Ok(())
}

#[test]
fn the_proof_is_not_begun_where_the_formula_holds_the_empty_clause(
    rt: HostRuntime,
) -> Result<(), Fail> {
    let alloc = rt.alloc();
    let mut desk = desk_of(alloc, "p cnf 0 1\n0\n", "", 1000)?;
    let got = status_of(
        alloc,
        &Limits::shipped(),
        &["check", "f", "none"],
        &mut desk,
    )?;
    wants(0, "s VERIFIED UNSAT\n", got, desk.out_bytes())?;
    assert_eq!(rt; desk.calls(CallKind::BeginRead), 1);
    Ok(())
}

/// The calls of a kind that a run on the formula over six variables makes, none of which fails.
fn calls(alloc: Global, kind: CallKind, piece: usize) -> Result<u32, Fail> {
    let mut desk = desk_of(alloc, SIX, SIX_PROOF, piece)?;
    let got = status_of(alloc, &Limits::shipped(), &CHECK, &mut desk)?;
    wants(0, VERIFIED, got, desk.out_bytes())?;
    Ok(desk.calls(kind))
}

/// Fails where a run of which the n-th call of a kind fails doesn't answer this.
fn refused(
    alloc: Global,
    kind: CallKind,
    nth: u32,
    piece: usize,
    status: u8,
    printed: &str,
) -> Result<(), Fail> {
    let mut desk = desk_of(alloc, SIX, SIX_PROOF, piece)?;
    desk.refuse(kind, nth)?;
    let got = status_of(alloc, &Limits::shipped(), &CHECK, &mut desk)?;
    wants(status, printed, got, desk.out_bytes())
}

#[test]
fn a_refused_begin_names_the_file(rt: HostRuntime) -> Result<(), Fail> {
    let alloc = rt.alloc();
    for piece in PIECES {
        assert_eq!(rt; calls(alloc, CallKind::BeginRead, piece)?, 2);
        assert_eq!(rt; calls(alloc, CallKind::BeginWrite, piece)?, 0);
        refused(
            alloc,
            CallKind::BeginRead,
            1,
            piece,
            5,
            "e source formula\n",
        )?;
        refused(alloc, CallKind::BeginRead, 2, piece, 5, "e source proof\n")?;
        refused(alloc, CallKind::BeginRead, 3, piece, 0, VERIFIED)?;
    }
    Ok(())
}

#[test]
fn a_refused_read_names_the_file(rt: HostRuntime) -> Result<(), Fail> {
    let alloc = rt.alloc();
    for (piece, formula_reads) in [(1, 120), (8, 16), (1000, 2)] {
        let all = calls(alloc, CallKind::Read, piece)?;
        assert!(rt; all > formula_reads && all < 1000);
        for nth in 1..all {
            let report = if nth <= formula_reads {
                "e source formula\n"
            } else {
                "e source proof\n"
            };
            refused(alloc, CallKind::Read, nth, piece, 5, report)?;
        }
        refused(alloc, CallKind::Read, all, piece, 5, "e source proof\n")?;
        refused(alloc, CallKind::Read, 1000, piece, 0, VERIFIED)?;
    }
    Ok(())
}

#[test]
fn a_refused_write_leaves_a_front_of_the_report(rt: HostRuntime) -> Result<(), Fail> {
    let alloc = rt.alloc();
    for (piece, writes, fronts) in [
        (1, 17, ["", "s", "s "]),
        (8, 3, ["", "s VERIFI", "s VERIFIED UNSAT"]),
    ] {
        assert_eq!(rt; calls(alloc, CallKind::Write, piece)?, writes);
        refused(alloc, CallKind::Write, 1, piece, 6, fronts[0])?;
        refused(alloc, CallKind::Write, 2, piece, 6, fronts[1])?;
        refused(alloc, CallKind::Write, 3, piece, 6, fronts[2])?;
        refused(alloc, CallKind::Write, 18, piece, 0, VERIFIED)?;
    }
    refused(alloc, CallKind::Write, 1, 1000, 6, "")
}

#[test]
fn a_refused_finish_comes_behind_the_report(rt: HostRuntime) -> Result<(), Fail> {
    let alloc = rt.alloc();
    for piece in PIECES {
        assert_eq!(rt; calls(alloc, CallKind::Finish, piece)?, 1);
        refused(alloc, CallKind::Finish, 1, piece, 6, VERIFIED)?;
        refused(alloc, CallKind::Finish, 2, piece, 0, VERIFIED)?;
    }
    Ok(())
}
