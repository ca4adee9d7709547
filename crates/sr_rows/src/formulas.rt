// How formulas may not be spelled.
use crate::case::{Case, all_answer};
use std::test::Fail;

#[test]
fn faults_stand_at_their_places(rt: HostRuntime) -> Result<(), Fail> {
    all_answer(
        rt.alloc(),
        &[
            Case::new(
                "p cnf 1 1\n2 0\n",
                "",
                3,
                "e text formula above-header 10\n",
            ),
            Case::new("p cnf 1 2\n1 0\n", "", 3, "e text formula wrong-count 14\n"),
            Case::new(
                "p cnf 1 1\n1 0\n-1 0\n",
                "",
                3,
                "e text formula wrong-count 14\n",
            ),
            Case::new("1 0\n", "", 3, "e text formula no-header 0\n"),
            Case::new("", "", 3, "e text formula no-header 0\n"),
            Case::new("p cnf 1 1\n1", "", 3, "e text formula unended 11\n"),
            Case::new("p cnf 1 1\n1x 0\n", "", 3, "e text formula bad-number 10\n"),
            Case::new(
                "p cnf 1 1\n99999999999999999999 0\n",
                "",
                3,
                "e text formula too-wide 10\n",
            ),
        ],
    )
}

#[test]
fn an_end_of_the_clauses_passes_the_rest_over(rt: HostRuntime) -> Result<(), Fail> {
    all_answer(
        rt.alloc(),
        &[
            Case::new(
                "p cnf 1 2\n1 0\n-1 0\n% 7x\n",
                "3 0 1 2 0\n",
                0,
                "s VERIFIED UNSAT\n",
            ),
            Case::new(
                "p cnf 1 2\n1 0\n%\n-1 0\n",
                "",
                3,
                "e text formula wrong-count 14\n",
            ),
        ],
    )
}
