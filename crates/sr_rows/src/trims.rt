// What `trim` answers and writes on worked inputs; each proof that it writes is then judged by `check --strict`.
ghost use Rattle.std.specs.Prelude.{◌≡◌, IfOk};
ghost use Rattle.sr_desk.specs.MemoryView.{outside_of};

use crate::case::{FOUR, SIX, desk_of, status_of, wants};
use sr_base::{Limits, MOST_BYTES, MOST_CELLS, MOST_IDS, MOST_VARS};
use sr_desk::{CallKind, MemoryDesk};
use std::alloc::Global;
use std::test::Fail;

/// A proof of `SIX` by a lemma with a witness.
pub(crate) const SIX_LEMMAS: &str = "-1 -1 2 -1 3 4 4 3 0\n5 0\n";

pub(crate) const VERIFIED: &str = "s VERIFIED UNSAT\n";

/// The files `f` and `p`, further words, and the status and the report that `trim` is to give.
#[derive(Clone, Copy)]
pub(crate) struct Trim<'a> {
    pub formula: &'a str,
    pub proof: &'a str,
    pub more: &'a [&'a str],
    pub status: u8,
    pub report: &'a str,
}

pub(crate) fn make_case<'a>(
    formula: &'a str,
    proof: &'a str,
    status: u8,
    report: &'a str,
) -> Trim<'a> {
    Trim {
        formula,
        proof,
        more: &[],
        status,
        report,
    }
}

fn with<'a>(case: Trim<'a>, more: &'a [&'a str]) -> Trim<'a> {
    Trim { more, ..case }
}

/// Runs `trim` with the files `l` and `k` for what it writes.
fn run_trim(
    alloc: Global,
    limits: &Limits,
    case: &Trim<'_>,
    desk: &mut MemoryDesk,
) -> Result<u8, Fail>
    requires { (outside_of desk.old).begun ≡ 0 }
{
    let mut words: Vec<&str> = Vec::new(alloc);
    for word in ["trim", "f", "p", "--lsr", "l", "--core", "k"] {
        words.push(word)?;
    }
    for word in case.more {
        words.push(word)?;
    }
    status_of(alloc, limits, words.as_slice(), desk)
}

/// Fails where a run with these words isn't verified.
fn is_verified_by(alloc: Global, desk: &mut MemoryDesk, words: &[&str]) -> Result<(), Fail> {
    desk.restart();
    let got = status_of(alloc, &Limits::shipped(), words, desk)?;
    wants(0, VERIFIED, got, desk.out_bytes())
}

/// Fails where the proof in the file `l` isn't verified, strictly too.
pub(crate) fn is_verified(alloc: Global, desk: &mut MemoryDesk, form: &str) -> Result<(), Fail> {
    let words = ["check", "f", "l", "--proof-form", form];
    is_verified_by(alloc, desk, words.as_slice())?;
    let words = ["check", "f", "l", "--proof-form", form, "--strict"];
    is_verified_by(alloc, desk, words.as_slice())
}

/// Fails where the run doesn't answer so, or what it writes isn't verified, or it writes though it isn't verified.
pub(crate) fn trims(alloc: Global, limits: &Limits, case: &Trim<'_>) -> Result<(), Fail> {
    for piece in [1, 8, 1000] {
        let mut desk = desk_of(alloc, case.formula, case.proof, piece)?;
        let got = run_trim(alloc, limits, case, &mut desk)?;
        wants(case.status, case.report, got, desk.out_bytes())?;
        if case.status == 0 {
            is_verified(alloc, &mut desk, "text")?;
        } else if desk.file_bytes("l").is_some() || desk.file_bytes("k").is_some() {
            return Err(Fail::new(format_args!("a file was written")));
        }
    }
    Ok(())
}

fn all_trim(alloc: Global, cases: &[Trim<'_>]) -> Result<(), Fail> {
    for case in cases {
        trims(alloc, &Limits::shipped(), case)?;
    }
    Ok(())
}

#[test]
fn formulas_that_conflict_alone_need_no_proof(rt: HostRuntime) -> Result<(), Fail> {
    let alloc = rt.alloc();
    for formula in ["p cnf 0 1\n0\n", "p cnf 1 2\n1 0\n-1 0\n"] {
        let mut desk = desk_of(alloc, formula, "", 1000)?;
        let got = status_of(alloc, &Limits::shipped(), &["trim", "f", "none"], &mut desk)?;
        wants(0, VERIFIED, got, desk.out_bytes())?;
        assert_eq!(rt; desk.calls(CallKind::BeginRead), 1);
    }
    Ok(())
}

#[test]
fn lemmas_that_fail_are_named(rt: HostRuntime) -> Result<(), Fail> {
    all_trim(
        rt.alloc(),
        &[
            make_case(FOUR, "d 1 2 0\n2 0\n", 1, "s REJECTED lemma 5 against 3\n"),
            make_case("p cnf 1 1\n1 0\n", "0\n", 1, "s REJECTED lemma 2 empty\n"),
            make_case("p cnf 1 1\n1 0\n", "", 1, "s NO EMPTY CLAUSE\n"),
            make_case(
                "p cnf 3 5\n1 2 0\n-1 2 0\n1 -2 0\n-1 -2 0\n3 1 0\n",
                "d 1 2 0\n3 3 0\n2 0\n",
                1,
                "s REJECTED lemma 7 against 3\n",
            ),
        ],
    )
}

#[test]
fn lines_that_are_not_spelled_are_placed(rt: HostRuntime) -> Result<(), Fail> {
    all_trim(
        rt.alloc(),
        &[
            make_case(SIX, "-1 -1 2", 3, "e text proof unended 7\n"),
            make_case(FOUR, "1 1 -2 1 2 3 0\n", 3, "e text proof twice 13\n"),
            make_case(FOUR, "1 1 -2 1 2 0\n", 3, "e text proof odd-map 11\n"),
        ],
    )
}

#[test]
fn units_go_where_they_are_not_kept(rt: HostRuntime) -> Result<(), Fail> {
    let unit = "p cnf 3 5\n1 0\n-1 2 3 0\n-1 2 -3 0\n-1 -2 3 0\n-1 -2 -3 0\n";
    let reason = "p cnf 4 6\n1 0\n-1 2 0\n-2 3 4 0\n-2 3 -4 0\n-2 -3 4 0\n-2 -3 -4 0\n";
    all_trim(
        rt.alloc(),
        &[
            make_case(unit, "d 1 0\n2 0\n", 1, "s NO EMPTY CLAUSE\n"),
            make_case(reason, "d -1 2 0\n3 0\n", 1, "s NO EMPTY CLAUSE\n"),
            with(
                make_case(FOUR, "d 1 2 0\n2 0\n", 1, "s REJECTED lemma 5 against 3\n"),
                &["--keep-units"],
            ),
        ],
    )
}

#[test]
fn limits_of_trim_are_named(rt: HostRuntime) -> Result<(), Fail> {
    let alloc = rt.alloc();
    let few_cells = Limits::new(MOST_VARS, MOST_IDS, 28, MOST_BYTES).ok_or("no limits")?;
    let cells = Limits::new(MOST_VARS, MOST_IDS, 29, MOST_BYTES).ok_or("no limits")?;
    let ids = Limits::new(MOST_VARS, 5, MOST_CELLS, MOST_BYTES).ok_or("no limits")?;
    let few_bytes = Limits::new(MOST_VARS, MOST_IDS, MOST_CELLS, 158).ok_or("no limits")?;
    let bytes = Limits::new(MOST_VARS, MOST_IDS, MOST_CELLS, 164).ok_or("no limits")?;
    trims(
        alloc,
        &few_cells,
        &make_case(FOUR, "2 0\n", 4, "e limit proof cells\n"),
    )?;
    trims(alloc, &cells, &make_case(FOUR, "2 0\n", 0, VERIFIED))?;
    trims(
        alloc,
        &ids,
        &make_case(FOUR, "2 0\n", 4, "e limit proof ids\n"),
    )?;
    trims(
        alloc,
        &few_bytes,
        &make_case(SIX, SIX_LEMMAS, 4, "e limit lsr bytes\n"),
    )?;
    trims(alloc, &bytes, &make_case(SIX, SIX_LEMMAS, 0, VERIFIED))
}

#[test]
fn two_files_of_one_name_are_refused(rt: HostRuntime) -> Result<(), Fail> {
    let alloc = rt.alloc();
    let cases: [&[&str]; 5] = [
        &["trim", "f", "f"],
        &["trim", "f", "p", "--core", "f"],
        &["trim", "f", "p", "--lsr", "p"],
        &["trim", "f", "p", "--lsr", "x", "--core", "x"],
        &["trim", "f", "p", "--core", "p"],
    ];
    for words in cases {
        let mut desk = desk_of(alloc, FOUR, "2 0\n", 1000)?;
        let got = status_of(alloc, &Limits::shipped(), words, &mut desk)?;
        wants(2, "e usage same-name\n", got, desk.out_bytes())?;
    }
    Ok(())
}
