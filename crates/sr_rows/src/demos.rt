// What `demo` answers and writes.
ghost use Rattle.std.specs.Prelude.{◌≡◌};
ghost use Rattle.sr_desk.specs.MemoryView.{outside_of};

use crate::case::{status_of, wants};
use sr_base::{Limits, MOST_BYTES, MOST_CELLS, MOST_IDS};
use sr_desk::{CallKind, MemoryDesk};
use std::alloc::Global;
use std::test::Fail;

const TWO: &str = "c holes 2\nc clauses 9\nc lemmas 3\ns VERIFIED UNSAT\n";

/// Fails where a run without files doesn't answer so.
fn answers(alloc: Global, words: &[&str], status: u8, report: &str) -> Result<(), Fail> {
    let mut desk = MemoryDesk::new(alloc)?;
    let got = status_of(alloc, &Limits::shipped(), words, &mut desk)?;
    wants(status, report, got, desk.out_bytes())
}

#[test]
fn a_number_of_holes_is_shown(rt: HostRuntime) -> Result<(), Fail> {
    let alloc = rt.alloc();
    let cases: [(&[&str], &str); 5] = [
        (&["demo", "2"], TWO),
        (&["demo", "0002"], TWO),
        (
            &["demo", "3"],
            "c holes 3\nc clauses 22\nc lemmas 9\ns VERIFIED UNSAT\n",
        ),
        (
            &["demo", "6"],
            "c holes 6\nc clauses 133\nc lemmas 39\ns VERIFIED UNSAT\n",
        ),
        (
            &["demo", "20"],
            "c holes 20\nc clauses 4221\nc lemmas 417\ns VERIFIED UNSAT\n",
        ),
    ];
    for (words, report) in cases {
        answers(alloc, words, 0, report)?;
    }
    Ok(())
}

#[test]
fn other_words_are_refused(rt: HostRuntime) -> Result<(), Fail> {
    let alloc = rt.alloc();
    let refused = "e usage words\n";
    let cases: [(&[&str], &str); 11] = [
        (&["demo"], refused),
        (&["demo", "1"], refused),
        (&["demo", "61"], refused),
        (&["demo", "x"], refused),
        (&["demo", "2x"], refused),
        (&["demo", "+2"], refused),
        (&["demo", ""], refused),
        (&["demo", "99999999999999999999"], refused),
        (&["demo", "2", "3"], refused),
        (&["demo", "2", "--strict"], refused),
        (
            &["demo", "2", "--lsr", "l", "--core", "l"],
            "e usage same-name\n",
        ),
    ];
    for (words, report) in cases {
        answers(alloc, words, 2, report)?;
    }
    Ok(())
}

/// Runs `demo` with four files.
fn run_all(alloc: Global, holes: &str, limits: &Limits, desk: &mut MemoryDesk) -> Result<u8, Fail>
    requires { (outside_of desk.old).begun ≡ 0 }
{
    let words = [
        "demo",
        holes,
        "--formula",
        "f",
        "--proof",
        "p",
        "--lsr",
        "l",
        "--core",
        "k",
        "--stats",
    ];
    status_of(alloc, limits, &words, desk)
}

#[test]
fn what_it_writes_is_trimmed_and_checked_again(rt: HostRuntime) -> Result<(), Fail> {
    let alloc = rt.alloc();
    let limits = Limits::shipped();
    let verified = "s VERIFIED UNSAT\n";
    let mut desk = MemoryDesk::new(alloc)?;
    let got = run_all(alloc, "6", &limits, &mut desk)?;
    assert_eq!(rt; got, 0);
    assert!(rt;
        desk.out_bytes()
            .starts_with(b"c holes 6\nc clauses 133\nc core ")
    );
    let proof = desk.file_bytes("p").ok_or("no proof")?;
    assert!(rt; proof.starts_with(b"-6 42 -6 42 -6 1 37 37 1 2 38 38 2 "));
    for words in [
        ["trim", "f", "p"].as_slice(),
        ["check", "f", "l", "--strict"].as_slice(),
        ["trim", "k", "p", "--lsr", "m"].as_slice(),
    ] {
        desk.restart();
        let got = status_of(alloc, &limits, words, &mut desk)?;
        wants(0, verified, got, desk.out_bytes())?;
    }
    Ok(())
}

#[test]
fn nothing_is_written_past_a_limit(rt: HostRuntime) -> Result<(), Fail> {
    let alloc = rt.alloc();
    let few_vars = Limits::new(5, MOST_IDS, MOST_CELLS, MOST_BYTES).ok_or("no limits")?;
    let few_bytes = Limits::new(6, MOST_IDS, MOST_CELLS, 60).ok_or("no limits")?;
    for (limits, report) in [
        (few_vars, "e limit formula vars\n"),
        (few_bytes, "e limit formula bytes\n"),
    ] {
        let mut desk = MemoryDesk::new(alloc)?;
        let got = run_all(alloc, "2", &limits, &mut desk)?;
        wants(4, report, got, desk.out_bytes())?;
        for name in ["f", "p", "l", "k"] {
            assert!(rt; desk.file_bytes(name).is_none());
        }
    }
    Ok(())
}

#[test]
fn a_fault_of_one_file_leaves_the_later_ones(rt: HostRuntime) -> Result<(), Fail> {
    let alloc = rt.alloc();
    let names = ["l", "k", "f", "p"];
    for nth in 1..5 {
        let mut desk = MemoryDesk::new(alloc)?;
        desk.refuse(CallKind::BeginWrite, nth)?;
        let got = run_all(alloc, "2", &Limits::shipped(), &mut desk)?;
        wants(6, "", got, desk.out_bytes())?;
        for (i, name) in names.iter().enumerate() {
            assert_eq!(rt; desk.file_bytes(name).is_some(), i + 1 < nth as usize);
        }
    }
    Ok(())
}

#[test]
fn a_report_that_fails_is_no_answer(rt: HostRuntime) -> Result<(), Fail> {
    let alloc = rt.alloc();
    for (kind, printed) in [(CallKind::Write, ""), (CallKind::Finish, TWO)] {
        let mut desk = MemoryDesk::new(alloc)?;
        desk.refuse(kind, 1)?;
        let got = status_of(alloc, &Limits::shipped(), &["demo", "2"], &mut desk)?;
        wants(6, printed, got, desk.out_bytes())?;
    }
    Ok(())
}
