// Whether alive clauses refute what is assumed, and by which chains. The cited ones are asked first.
use crate::building::{Lists, back, cite, expect, loaded};
use crate::loading::SQUARE;
use sr_base::{IdList, Items, Lit};
use sr_load::{Loaded, LoadedProof};
use std::alloc::Global;
use std::test::Fail;

/// The chains that may be found; none where nothing is refuted.
type Chains = &'static [&'static [u32]];

/// Two clauses conflict over 4 where -1 and 2 stand; alone, the formula conflicts by its first two clauses and these.
const ALONE: Lists = &[&[-1], &[1, 2], &[-2, 3], &[1, -2, 4], &[1, -2, -4]];

/// 1 and 2 hold; 3 and its complement each conflict by two clauses.
const LAYERED: Lists = &[
    &[1],
    &[-1, 2],
    &[-2, 3, 4],
    &[-2, 3, -4],
    &[-2, -3, 4],
    &[-2, -3, -4],
];

/// The same, and 2 also follows from the complement of 3 by one clause alone.
const TWICE: Lists = &[
    &[1],
    &[-1, 2],
    &[2, 3],
    &[-2, 3, 4],
    &[-2, 3, -4],
    &[-2, -3, 4],
    &[-2, -3, -4],
];

fn cite_all(proof: &mut LoadedProof, ids: &[u32]) -> Result<(), Fail> {
    for id in ids {
        cite(proof, *id)?;
    }
    Ok(())
}

fn assume_all(proof: &mut LoadedProof, numbers: &[i64]) -> Result<(), Fail> {
    for number in numbers {
        proof.assume(Lit::new(*number).ok_or("no literal")?)?;
    }
    Ok(())
}

fn is_one_of(chain: &IdList, chains: Chains) -> bool {
    for wanted in chains {
        if chain.as_slice() == *wanted {
            return true;
        }
    }
    chains.is_empty() && chain.as_slice().is_empty()
}

fn undo(proof: &mut LoadedProof, mark: usize) -> Result<(), Fail> {
    if mark > proof.mark() {
        return Err(Fail::from("too few are assumed"));
    }
    proof.undo_to(mark);
    Ok(())
}

/// Fails where the n-th question isn't answered by one of these chains.
fn answers(alloc: Global, proof: &mut LoadedProof, chains: Chains, n: u64) -> Result<(), Fail> {
    let mut chain = Items::new(alloc);
    chain.push(9)?;
    let refuted = proof.refute(&mut chain)?;
    expect(refuted != chains.is_empty(), n, "another answer")?;
    expect(is_one_of(&chain, chains), n, "another chain")
}

/// Asks of some literals alone.
fn ask(
    alloc: Global,
    proof: &mut LoadedProof,
    numbers: &[i64],
    chains: Chains,
    n: u64,
) -> Result<(), Fail> {
    assume_all(proof, numbers)?;
    answers(alloc, proof, chains, n)?;
    proof.undo_to(0);
    Ok(())
}

/// Takes a lemma back.
fn take_back(proof: &mut LoadedProof, lemma: u32, n: u64) -> Result<(), Fail> {
    let id = back(proof)?;
    expect(id == lemma, n, "another lemma")
}

const FOUR_FIVE: Chains = &[&[4, 5], &[5, 4]];

#[test]
fn cited_clauses_are_asked_first(rt: HostRuntime) -> Result<(), Fail> {
    let alloc = rt.alloc();
    let mut proof = loaded(alloc, ALONE, &[], false)?;
    ask(alloc, &mut *proof, &[-1, 2], FOUR_FIVE, 1)?;
    cite_all(&mut *proof, &[3])?;
    ask(alloc, &mut *proof, &[-1, 2], FOUR_FIVE, 2)?;
    cite_all(&mut *proof, &[4, 5])?;
    ask(alloc, &mut *proof, &[2, -1], FOUR_FIVE, 3)?;
    ask(alloc, &mut *proof, &[1, 2], &[&[1]], 4)
}

#[test]
fn a_chain_of_cited_clauses_alone_is_found(rt: HostRuntime) -> Result<(), Fail> {
    let alloc = rt.alloc();
    let mut proof = loaded(alloc, LAYERED, &[&[3]], false)?;
    take_back(&mut *proof, 7, 0)?;
    ask(
        alloc,
        &mut *proof,
        &[-3],
        &[&[1, 2, 3, 4], &[1, 2, 4, 3]],
        1,
    )?;
    cite_all(&mut *proof, &[3, 4])?;
    ask(alloc, &mut *proof, &[2, -3], &[&[3, 4], &[4, 3]], 2)?;
    ask(
        alloc,
        &mut *proof,
        &[-3],
        &[&[1, 2, 3, 4], &[1, 2, 4, 3]],
        3,
    )?;
    ask(alloc, &mut *proof, &[2, 3], &[&[5, 6], &[6, 5]], 4)?;
    ask(alloc, &mut *proof, &[], &[], 5)?;
    ask(alloc, &mut *proof, &[4, -4], &[&[]], 6)
}

#[test]
fn cited_clauses_refute_without_what_others_derived(rt: HostRuntime) -> Result<(), Fail> {
    let alloc = rt.alloc();
    let any: Chains = &[&[1, 2, 4, 5], &[1, 2, 5, 4], &[3, 4, 5], &[3, 5, 4]];
    let mut proof = loaded(alloc, TWICE, &[&[3]], false)?;
    take_back(&mut *proof, 8, 0)?;
    ask(alloc, &mut *proof, &[-3], any, 1)?;
    cite_all(&mut *proof, &[3, 4])?;
    ask(alloc, &mut *proof, &[-3], any, 2)?;
    cite_all(&mut *proof, &[5])?;
    ask(alloc, &mut *proof, &[-3], &[&[3, 4, 5], &[3, 5, 4]], 3)?;
    ask(alloc, &mut *proof, &[3], &[&[1, 2, 6, 7], &[1, 2, 7, 6]], 4)
}

#[test]
fn what_is_undone_is_assumed_no_more(rt: HostRuntime) -> Result<(), Fail> {
    let alloc = rt.alloc();
    let mut proof = loaded(alloc, SQUARE, &[&[2]], false)?;
    take_back(&mut *proof, 5, 0)?;
    assume_all(&mut *proof, &[3, 4, 1])?;
    assert_eq!(rt; proof.mark(), 3);
    answers(alloc, &mut *proof, &[&[2, 4], &[4, 2]], 1)?;
    undo(&mut *proof, 2)?;
    answers(alloc, &mut *proof, &[], 2)?;
    assume_all(&mut *proof, &[-4])?;
    answers(alloc, &mut *proof, &[&[]], 3)?;
    undo(&mut *proof, 1)?;
    assume_all(&mut *proof, &[-1])?;
    answers(alloc, &mut *proof, &[&[1, 3], &[3, 1]], 4)?;
    undo(&mut *proof, 0)?;
    assert_eq!(rt; proof.mark(), 0);
    answers(alloc, &mut *proof, &[], 5)
}

#[test]
fn what_a_deletion_removed_comes_back(rt: HostRuntime) -> Result<(), Fail> {
    let alloc = rt.alloc();
    let mut proof = loaded(alloc, SQUARE, &[&[5], &[0, 1, 2], &[2]], false)?;
    cite_all(&mut *proof, &[1, 6])?;
    ask(alloc, &mut *proof, &[-2], &[&[6]], 1)?;
    take_back(&mut *proof, 6, 1)?;
    ask(alloc, &mut *proof, &[-2], &[], 2)?;
    ask(alloc, &mut *proof, &[2], &[&[3, 4], &[4, 3]], 3)?;
    take_back(&mut *proof, 5, 2)?;
    ask(alloc, &mut *proof, &[-2], &[&[1, 2], &[2, 1]], 4)?;
    assert!(rt; proof.is_cited(6) && !proof.is_cited(1));
    cite_all(&mut *proof, &[1])?;
    ask(alloc, &mut *proof, &[-2], &[&[1, 2], &[2, 1]], 5)?;
    take_back(&mut *proof, 0, 3)
}
