// Proofs by hints without witnesses.
use crate::case::{Case, FOUR, FOUR_PROOF, all_answer};
use sr_base::{Clause, Lit, LitList};
use sr_model::refutes_plain;
use std::alloc::Global;
use std::test::Fail;

const VERIFIED: &str = "s VERIFIED UNSAT\n";

#[test]
fn two_steps_refute_four_clauses(rt: HostRuntime) -> Result<(), Fail> {
    all_answer(
        rt.alloc(),
        &[
            Case::four(FOUR_PROOF, 0, VERIFIED),
            Case {
                formula: FOUR,
                proof: FOUR_PROOF,
                more: &["--stats"],
                status: 0,
                report: "c clauses 4\nc steps 2\nc hints 5\ns VERIFIED UNSAT\n",
            },
        ],
    )
}

#[test]
fn comments_and_line_ends_change_nothing(rt: HostRuntime) -> Result<(), Fail> {
    let formula =
        "c four clauses\r\np cnf 2 4\r\n1 2 0\r\n-1 2 0\r\n1 -2 0\r\n-1 -2 0\r\n%\r\n0\r\n";
    let proof = "c proof\r\n5 2 0 1 2 0\r\n6 0 5 3 4 0\r\n";
    all_answer(
        rt.alloc(),
        &[
            Case::new(formula, proof, 0, VERIFIED),
            Case::new(FOUR, "5 2 0 1 2 0 6 0 5 3 4 0", 0, VERIFIED),
            Case::new(
                FOUR,
                "c 5 2 0 1 2x\n5\n2\n0\n1\n2\n0\n6 0 5 3 4 0 zzz",
                0,
                VERIFIED,
            ),
        ],
    )
}

#[test]
fn an_empty_clause_in_the_formula_ends_judging(rt: HostRuntime) -> Result<(), Fail> {
    all_answer(
        rt.alloc(),
        &[
            Case::new("p cnf 0 1\n0\n", "", 0, VERIFIED),
            Case::new("p cnf 0 1\n0\n", "zzz", 0, VERIFIED),
            Case {
                formula: "p cnf 2 2\n1 0\n0\n",
                proof: "",
                more: &["--stats"],
                status: 0,
                report: "c clauses 2\nc steps 0\nc hints 0\ns VERIFIED UNSAT\n",
            },
        ],
    )
}

#[test]
fn a_step_that_breaks_a_rule_is_named(rt: HostRuntime) -> Result<(), Fail> {
    all_answer(
        rt.alloc(),
        &[
            Case::four("", 1, "s NO EMPTY CLAUSE\n"),
            Case::four("5 2 0 1 2 0\n", 1, "s NO EMPTY CLAUSE\n"),
            Case::four("5 2 0 3 0\n", 1, "s REJECTED step 5 not-unit 3\n"),
            Case::four(
                "4 d 1 0\n5 2 0 1 2 0\n",
                1,
                "s REJECTED step 5 dead-hint 1\n",
            ),
            Case::four("5 2 0 9 2 0\n", 1, "s REJECTED step 5 dead-hint 9\n"),
            Case::four("4 2 0 1 2 0\n", 1, "s REJECTED step 4 not-new\n"),
            Case::four("5 0 0\n", 1, "s REJECTED step 5 unclosed\n"),
            Case::four(
                "0 d 1 0\n5 2 0 1 2 0\n",
                1,
                "s REJECTED step 5 dead-hint 1\n",
            ),
        ],
    )
}

#[test]
fn deletions_of_what_is_not_live_change_nothing(rt: HostRuntime) -> Result<(), Fail> {
    all_answer(
        rt.alloc(),
        &[
            Case::four("4 d 9 9 0\n5 2 0 1 2 0\n6 0 5 3 4 0\n", 0, VERIFIED),
            Case::four("4 d 0\n5 2 0 1 2 0\n5 d 1 2 0\n6 0 5 3 4 0\n", 0, VERIFIED),
        ],
    )
}

fn clause(alloc: Global, numbers: &[i64]) -> Result<Clause, Fail> {
    let mut lits = LitList::new(alloc);
    for x in numbers {
        lits.push(Lit::new(*x).ok_or("no literal")?)?;
    }
    Ok(Clause::from_lits(alloc, lits.as_slice())?)
}

#[test]
fn propagation_refutes_with_a_literal_and_not_without(rt: HostRuntime) -> Result<(), Fail> {
    let alloc = rt.alloc();
    let mut clauses: Vec<Clause> = Vec::new(alloc);
    for numbers in [[1, 2], [-1, 2], [1, -2], [-1, -2]] {
        clauses.push(clause(alloc, &numbers)?)?;
    }
    let false_two = Lit::new(-2).ok_or("no literal")?;
    assert!(rt; refutes_plain(alloc, clauses.as_slice(), &[false_two])?);
    assert!(rt; !refutes_plain(alloc, clauses.as_slice(), &[])?);
    Ok(())
}
