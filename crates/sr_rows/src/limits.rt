// Limits of one's own.
use crate::case::{Case, FOUR, FOUR_PROOF, answers};
use sr_base::{Limits, MOST_BYTES, MOST_CELLS, MOST_IDS, MOST_VARS};
use std::alloc::Global;
use std::test::Fail;

#[test]
fn cells_are_counted_for_formula_and_proof(rt: HostRuntime) -> Result<(), Fail> {
    for (cells, status, report) in [
        (23, 4, "e limit formula cells\n"),
        (24, 4, "e limit proof cells\n"),
        (28, 4, "e limit proof cells\n"),
        (29, 0, "s VERIFIED UNSAT\n"),
    ] {
        let limits = Limits::new(MOST_VARS, MOST_IDS, cells, MOST_BYTES).ok_or("no limits")?;
        answers(rt.alloc(), &limits, &Case::four(FOUR_PROOF, status, report))?;
    }
    Ok(())
}

/// A proof of `FOUR` that adds two thousand clauses and deletes each at once.
fn proof_with_deletions(alloc: Global) -> Result<String, Fail> {
    let mut proof = String::from_str(alloc, "5 2 0 1 2 0\n")?;
    for n in 6..2006 {
        let lines = format!(in alloc; "{n} 2 1 0 5 0\n{n} d {n} 0\n")?;
        proof.push_str(lines.as_str())?;
    }
    proof.push_str("2006 0 5 3 4 0\n")?;
    Ok(proof)
}

#[test]
fn cells_of_deleted_clauses_are_free_again(rt: HostRuntime) -> Result<(), Fail> {
    let alloc = rt.alloc();
    let proof = proof_with_deletions(alloc)?;
    for (cells, status, report) in [
        (35, 0, "s VERIFIED UNSAT\n"),
        (34, 4, "e limit proof cells\n"),
    ] {
        let limits = Limits::new(MOST_VARS, MOST_IDS, cells, MOST_BYTES).ok_or("no limits")?;
        answers(alloc, &limits, &Case::four(proof.as_str(), status, report))?;
    }
    Ok(())
}

#[test]
fn bytes_are_counted_for_each_file(rt: HostRuntime) -> Result<(), Fail> {
    for (bytes, status, report) in [
        (37, 4, "e limit formula bytes\n"),
        (38, 0, "s VERIFIED UNSAT\n"),
    ] {
        let limits = Limits::new(MOST_VARS, MOST_IDS, MOST_CELLS, bytes).ok_or("no limits")?;
        answers(rt.alloc(), &limits, &Case::four(FOUR_PROOF, status, report))?;
    }
    Ok(())
}

#[test]
fn variables_and_numbers_are_bounded(rt: HostRuntime) -> Result<(), Fail> {
    let few = Limits::new(2, MOST_IDS, MOST_CELLS, MOST_BYTES).ok_or("no limits")?;
    answers(
        rt.alloc(),
        &few,
        &Case::four("5 3 0 0\n", 4, "e limit proof vars\n"),
    )?;
    let low = Limits::new(MOST_VARS, 4, MOST_CELLS, MOST_BYTES).ok_or("no limits")?;
    answers(
        rt.alloc(),
        &low,
        &Case::four(FOUR_PROOF, 4, "e limit formula ids\n"),
    )
}

/// A formula behind more spaces than bytes may be read.
fn formula_behind_spaces(alloc: Global, spaces: usize) -> Result<String, Fail> {
    let mut text = String::new(alloc);
    for _ in 0..spaces {
        text.push_str(" ")?;
    }
    text.push_str(FOUR)?;
    Ok(text)
}

#[test]
fn what_stands_past_the_limit_of_bytes_is_not_read(rt: HostRuntime) -> Result<(), Fail> {
    let alloc = rt.alloc();
    let text = formula_behind_spaces(alloc, 200)?;
    let limits = Limits::new(MOST_VARS, MOST_IDS, MOST_CELLS, 100).ok_or("no limits")?;
    let case = Case::new(text.as_str(), FOUR_PROOF, 4, "e limit formula bytes\n");
    answers(alloc, &limits, &case)
}
