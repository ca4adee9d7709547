// Loaded proofs taken back, lemma by lemma.
use crate::building::{Lists, alive, back, expect, loaded};
use crate::loading::SQUARE;
use sr_base::{Lit, has};
use sr_load::{Loaded, LoadedProof};
use std::alloc::Global;
use std::test::Fail;

/// Steps back: first the lemma that is taken back, 0 for none, then the numbers of the clauses that are alive.
type Steps = &'static [&'static [u32]];

/// Takes one step back, but for the first step.
fn step(proof: &mut LoadedProof, n: u64) -> Result<u32, Fail> {
    if n == 0 { Ok(0) } else { back(proof) }
}

/// Fails where a step doesn't end as it should.
fn goes_back(alloc: Global, proof: &mut LoadedProof, wanted: &[u32], n: u64) -> Result<(), Fail> {
    let id = step(proof, n)?;
    let found = alive(alloc, proof)?;
    expect(wanted.len() > 0 && wanted[0] == id, n, "another lemma")?;
    expect(
        wanted.len() > 0 && &wanted[1..] == found.as_slice(),
        n,
        "other clauses",
    )
}

fn all_go_back(
    alloc: Global,
    clauses: Lists,
    lines: Lists,
    keep_units: bool,
    steps: Steps,
) -> Result<(), Fail> {
    let mut proof = loaded(alloc, clauses, lines, keep_units)?;
    let mut n = 0u64;
    for wanted in steps {
        goes_back(alloc, &mut *proof, wanted, n)?;
        n = n.wrapping_add(1);
    }
    Ok(())
}

#[test]
fn the_youngest_copy_goes(rt: HostRuntime) -> Result<(), Fail> {
    let alloc = rt.alloc();
    let clauses: Lists = &[&[1, 2], &[-1, 2], &[1, -2], &[-1, -2], &[2, 1]];
    let steps: Steps = &[&[0, 1, 2, 3, 4, 6], &[6, 1, 2, 3, 4], &[0, 1, 2, 3, 4, 5]];
    all_go_back(alloc, clauses, &[&[0, 1, 2], &[2]], false, steps)?;
    let steps: Steps = &[
        &[0, 2, 3, 4, 6],
        &[6, 2, 3, 4],
        &[5, 1, 2, 3, 4],
        &[0, 1, 2, 3, 4],
    ];
    all_go_back(
        alloc,
        SQUARE,
        &[&[2, 1], &[0, 1, 2], &[0, 1, 2], &[2]],
        false,
        steps,
    )?;
    let lines: Lists = &[&[1, 2], &[0, 1, 2], &[2, 1], &[5], &[0, 1, 2], &[-1]];
    let steps: Steps = &[
        &[0, 1, 2, 3, 4, 7, 8],
        &[8, 1, 2, 3, 4, 7],
        &[7, 1, 2, 3, 4, 6],
        &[6, 1, 2, 3, 4],
        &[5, 1, 2, 3, 4],
        &[0, 1, 2, 3, 4],
    ];
    all_go_back(alloc, SQUARE, lines, false, steps)
}

#[test]
fn a_unit_stays_where_another_clause_goes(rt: HostRuntime) -> Result<(), Fail> {
    let clauses: Lists = &[&[1], &[-1, 2], &[3, 4], &[3, -4], &[-3, 5], &[-3, -5]];
    let lines: Lists = &[&[0, 1], &[0, 2, -1], &[0, 4, 3], &[3]];
    let steps: Steps = &[
        &[0, 1, 2, 4, 5, 6, 7],
        &[7, 1, 2, 4, 5, 6],
        &[0, 1, 2, 3, 4, 5, 6],
    ];
    all_go_back(rt.alloc(), clauses, lines, true, steps)?;
    let steps: Steps = &[&[0, 4, 5, 6, 7], &[7, 4, 5, 6], &[0, 1, 2, 3, 4, 5, 6]];
    all_go_back(rt.alloc(), clauses, lines, false, steps)
}

/// Whether a lemma has this pivot, and has a witness or none.
fn is_stated(proof: &LoadedProof, id: u32, pivot: i64, has_witness: bool) -> bool {
    if proof.clauses() < id && id < proof.next() {
        proof.pivot(id).value() == pivot && proof.witness(id).is_some() == has_witness
    } else {
        false
    }
}

/// Whether the clause of a number has these two literals and no other.
fn is_pair(proof: &LoadedProof, id: u32, a: Lit, b: Lit) -> bool {
    if 0 < id && id < proof.next() {
        let lits = proof.clause(id);
        lits.len() == 2 && has(lits, a) && has(lits, b)
    } else {
        false
    }
}

#[test]
fn lemmas_have_their_pivots_and_witnesses(rt: HostRuntime) -> Result<(), Fail> {
    let lines: Lists = &[&[3, 1, 3, -4], &[-4, 5], &[0, 5, -4], &[2]];
    let proof = loaded(rt.alloc(), SQUARE, lines, false)?;
    assert_eq!(rt; (proof.clauses(), proof.lemmas(), proof.next()), (4, 3, 8));
    assert!(rt; is_stated(&*proof, 5, 3, true) && is_stated(&*proof, 6, -4, false));
    assert!(rt; is_stated(&*proof, 7, 2, false));
    let one = Lit::new(1).ok_or("no literal")?;
    let three = Lit::new(3).ok_or("no literal")?;
    assert!(rt; is_pair(&*proof, 5, one, three) && !is_pair(&*proof, 7, one, three));
    Ok(())
}
