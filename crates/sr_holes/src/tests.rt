// The texts for few holes, and the beginnings of larger ones.
use crate::{MOST_HOLES, holes_formula, holes_proof};
use std::test::Fail;

const TWO: &[u8] =
    b"p cnf 6 9\n1 2 0\n3 4 0\n5 6 0\n-1 -3 0\n-1 -5 0\n-3 -5 0\n-2 -4 0\n-2 -6 0\n-4 -6 0\n";

const TWO_SWAPS: &[u8] = b"-2 6 -2 6 -2 1 5 5 1 0\n-4 6 -4 6 -4 3 5 5 3 0\n-2 0\n-4 0\n";

#[test]
fn two_holes_are_spelled_whole(rt: HostRuntime) -> Result<(), Fail> {
    let formula = holes_formula(rt.alloc(), 2)?;
    assert_eq!(rt; formula.as_slice(), TWO);
    let proof = holes_proof(rt.alloc(), 2)?;
    assert_eq!(rt; proof.as_slice(), TWO_SWAPS);
    Ok(())
}

#[test]
fn a_swap_goes_through_all_holes_below(rt: HostRuntime) -> Result<(), Fail> {
    let proof = holes_proof(rt.alloc(), 3)?;
    let first = b"-3 12 -3 12 -3 1 10 10 1 2 11 11 2 0\n-6 12 -6 12 -6 4 10 10 4 5 11 11 5 0\n";
    assert!(rt; proof.as_slice().starts_with(first));
    let last = b"-3 0\n-6 0\n-9 0\n-2 8 -2 8 -2 1 7 7 1 0\n-5 8 -5 8 -5 4 7 7 4 0\n-2 0\n-5 0\n";
    assert!(rt; proof.as_slice().ends_with(last));
    Ok(())
}

#[test]
fn many_holes_have_many_clauses(rt: HostRuntime) -> Result<(), Fail> {
    let formula = holes_formula(rt.alloc(), MOST_HOLES)?;
    let bytes = formula.as_slice();
    assert!(rt; bytes.starts_with(b"p cnf 3660 109861\n1 2 3 4"));
    assert!(rt; bytes.ends_with(b"\n-3600 -3660 0\n"));
    let lines = bytes.iter().filter(|b| **b == b'\n').count();
    assert_eq!(rt; lines, 109_862);
    Ok(())
}
