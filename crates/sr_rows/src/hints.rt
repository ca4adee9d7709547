// Witnesses, and groups of hints for the clauses that they touch (Codel, Avigad and Heule 2024).
use crate::case::{Case, SIX, all_answer};
use std::test::Fail;

const VERIFIED: &str = "s VERIFIED UNSAT\n";

#[test]
fn an_exchange_of_variables_is_followed(rt: HostRuntime) -> Result<(), Fail> {
    let rest = "13 d 3 5 6 7 8 0\n14 5 0 13 1 4 9 10 0\n14 d 9 10 0\n15 0 13 1 4 14 11 12 0\n";
    let alloc = rt.alloc();
    let front = "12 d 2 0\n13 -1 -1 2 -1 3 4 4 3 0 -4 3";
    let back = "-6 10 -7 11 -8 12 -9 5 -10 6 -11 7 -12 8 0\n";
    let whole = format!(in alloc; "{front} -5 9 {back}{rest}")?;
    let unclosed = format!(in alloc; "{front} {back}{rest}")?;
    let spare = format!(in alloc; "{front} -5 9 -5 99 {back}{rest}")?;
    all_answer(
        alloc,
        &[
            Case::new(SIX, whole.as_str(), 0, VERIFIED),
            Case {
                formula: SIX,
                proof: whole.as_str(),
                more: &["--stats"],
                status: 0,
                report: "c clauses 12\nc steps 3\nc hints 20\ns VERIFIED UNSAT\n",
            },
            Case::new(
                SIX,
                unclosed.as_str(),
                1,
                "s REJECTED step 13 group-unclosed 5\n",
            ),
            Case::new(SIX, spare.as_str(), 0, VERIFIED),
        ],
    )
}

#[test]
fn the_pivot_alone_is_a_witness(rt: HostRuntime) -> Result<(), Fail> {
    all_answer(
        rt.alloc(),
        &[
            Case::four("5 2 0 2 0\n", 1, "s REJECTED step 5 group-unclosed 3\n"),
            Case::new("p cnf 2 1\n1 2 0\n", "2 3 0 0\n", 1, "s NO EMPTY CLAUSE\n"),
        ],
    )
}

#[test]
fn witnesses_are_spelled_as_they_should(rt: HostRuntime) -> Result<(), Fail> {
    all_answer(
        rt.alloc(),
        &[
            Case::four("5 1 1 -2 1 2 1 0 0\n", 3, "e text proof twice 15\n"),
            Case::four("5 1 1 -2 1 2 0 0\n", 3, "e text proof odd-map 13\n"),
        ],
    )
}
