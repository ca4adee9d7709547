// What `--strict` refuses beyond the hint rules.
use crate::case::{Case, FOUR, SIX, all_answer};
use std::test::Fail;

fn strict<'a>(formula: &'a str, proof: &'a str, status: u8, report: &'a str) -> Case<'a> {
    Case {
        formula,
        proof,
        more: &["--strict"],
        status,
        report,
    }
}

#[test]
fn hints_behind_the_conflict_are_refused(rt: HostRuntime) -> Result<(), Fail> {
    all_answer(
        rt.alloc(),
        &[
            strict(
                FOUR,
                "5 2 0 1 2 3 0\n",
                1,
                "s REJECTED step 5 hint-after 3\n",
            ),
            strict(
                FOUR,
                "5 2 0 1 2 -3 1 0\n",
                1,
                "s REJECTED step 5 group-spare 3\n",
            ),
            Case::four("5 2 0 1 2 3 0\n", 1, "s NO EMPTY CLAUSE\n"),
            Case::four("5 2 0 1 2 -3 1 0\n", 1, "s NO EMPTY CLAUSE\n"),
        ],
    )
}

#[test]
fn deletions_of_what_is_not_live_are_refused(rt: HostRuntime) -> Result<(), Fail> {
    all_answer(
        rt.alloc(),
        &[
            strict(FOUR, "5 d 9 0\n", 1, "s REJECTED step 5 dead-drop 9\n"),
            strict(FOUR, "5 d 1 1 0\n", 1, "s REJECTED step 5 dead-drop 1\n"),
        ],
    )
}

#[test]
fn groups_must_be_needed_and_come_once(rt: HostRuntime) -> Result<(), Fail> {
    let alloc = rt.alloc();
    let rest = "13 d 3 5 6 7 8 0\n14 5 0 13 1 4 9 10 0\n14 d 9 10 0\n15 0 13 1 4 14 11 12 0\n";
    let front = "12 d 2 0\n13 -1 -1 2 -1 3 4 4 3 0 -4 3";
    let back = "-6 10 -7 11 -8 12 -9 5 -10 6 -11 7 -12 8 0\n";
    let whole = format!(in alloc; "{front} -5 9 {back}{rest}")?;
    let twice = format!(in alloc; "{front} -5 9 -5 9 {back}{rest}")?;
    let spare = format!(in alloc; "{front} -1 3 -5 9 {back}{rest}")?;
    all_answer(
        alloc,
        &[
            strict(SIX, whole.as_str(), 0, "s VERIFIED UNSAT\n"),
            strict(SIX, twice.as_str(), 1, "s REJECTED step 13 group-twice 5\n"),
            strict(SIX, spare.as_str(), 1, "s REJECTED step 13 group-spare 1\n"),
        ],
    )
}
