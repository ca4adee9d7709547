// Numbers at their ends, and proofs that are cut off.
use crate::case::{Case, FOUR_PROOF, all_answer, answers};
use sr_base::Limits;
use std::alloc::Global;
use std::test::Fail;

#[test]
fn numbers_end_where_limits_say(rt: HostRuntime) -> Result<(), Fail> {
    all_answer(
        rt.alloc(),
        &[
            Case::four(
                "2147483647 2 0 1 2 0\n2147483647 0 2147483647 3 4 0\n",
                1,
                "s REJECTED step 2147483647 not-new\n",
            ),
            Case::four("2147483648 2 0 0\n", 4, "e limit proof ids\n"),
            Case::four("5 2 0 -2147483648 0\n", 4, "e limit proof ids\n"),
            Case::four("9223372036854775807 0 0\n", 4, "e limit proof ids\n"),
            Case::four("9223372036854775808 0 0\n", 3, "e text proof too-wide 0\n"),
            Case::four("5 16777215 0 1 0\n", 1, "s REJECTED step 5 not-unit 1\n"),
            Case::four("5 16777216 0 0\n", 4, "e limit proof vars\n"),
        ],
    )
}

#[test]
fn words_out_of_place_are_named(rt: HostRuntime) -> Result<(), Fail> {
    all_answer(
        rt.alloc(),
        &[
            Case::four("5 2 d 0\n", 3, "e text proof bad-word 4\n"),
            Case::four("5 d -1 0\n", 3, "e text proof bad-number 4\n"),
            Case::four("0 2 0 0\n", 3, "e text proof bad-number 0\n"),
            Case::four("x\n", 3, "e text proof bad-word 0\n"),
            Case::four("5 2 0 1 2x 0\n", 3, "e text proof bad-number 8\n"),
        ],
    )
}

/// What a run answers on the first `n` bytes of the proof of `FOUR`.
fn front_answers(alloc: Global, n: usize, status: u8, report: &str) -> Result<(), Fail> {
    let front = FOUR_PROOF.get(..n).ok_or("no front")?;
    answers(
        alloc,
        &Limits::shipped(),
        &Case::four(front, status, report),
    )
}

#[test]
fn a_proof_may_end_only_between_its_items(rt: HostRuntime) -> Result<(), Fail> {
    let alloc = rt.alloc();
    for n in [0, 11, 12] {
        front_answers(alloc, n, 1, "s NO EMPTY CLAUSE\n")?;
    }
    for n in [
        1, 2, 3, 4, 5, 6, 7, 8, 9, 10, 13, 14, 15, 16, 17, 18, 19, 20, 21, 22,
    ] {
        let unended = format!(in alloc; "e text proof unended {n}\n")?;
        front_answers(alloc, n, 3, unended.as_str())?;
    }
    for n in [23, 24] {
        front_answers(alloc, n, 0, "s VERIFIED UNSAT\n")?;
    }
    Ok(())
}
