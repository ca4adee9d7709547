// Random small proofs, loaded and taken back, beside the plain definitions.
use crate::building::{alive, back, cite, expect, finish, loader_of, take};
use crate::reference::is_lean;
use crate::sample::{Sample, cited_of, literal_at};
use sr_base::Items;
use sr_load::{Loaded, LoadedProof, Loader, Progress};
use std::alloc::Global;
use std::test::Fail;

/// How many samples conflicted, how many deletions were passed over, and how many questions were answered by alive clauses, by
/// cited ones alone, and not at all.
#[derive(Clone, Copy)]
struct Tally {
    conflicts: u64,
    passed: u64,
    refuted: u64,
    by_cited: u64,
    unrefuted: u64,
}

fn raise(count: &mut u64) {
    *count = count.wrapping_add(1);
}

/// Fails where loading doesn't stand as it should; else whether the clauses conflict.
fn stands(alloc: Global, sample: &Sample, loader: &Loader) -> Result<bool, Fail> {
    let conflicts = sample.conflicts(alloc, sample.lines)?;
    let wanted = if conflicts {
        Progress::Conflict
    } else {
        Progress::Going
    };
    expect(
        loader.state() == wanted,
        sample.name,
        "loading stands elsewhere",
    )?;
    expect(
        loader.passed() == sample.passed,
        sample.name,
        "other deletions are passed over",
    )?;
    expect(
        loader.lemmas() == sample.lemmas,
        sample.name,
        "other lemmas are loaded",
    )?;
    Ok(conflicts)
}

fn feed_line(alloc: Global, sample: &mut Sample, loader: &mut Loader) -> Result<(), Fail> {
    let mut line = sample.line(alloc)?;
    expect(
        take(loader, &mut line).is_ok(),
        sample.name,
        "a line is refused",
    )
}

/// Takes lines until the clauses conflict, and says whether they do.
fn feed(alloc: Global, sample: &mut Sample, loader: &mut Loader) -> Result<bool, Fail> {
    for _ in 0..30 {
        if stands(alloc, sample, loader)? {
            return Ok(true);
        }
        feed_line(alloc, sample, loader)?;
    }
    stands(alloc, sample, loader)
}

/// Assumes a literal, and adds its bit to those assumed.
fn assume_one(sample: &mut Sample, proof: &mut LoadedProof, assumed: u32) -> Result<u32, Fail> {
    let (bit, l) = literal_at(sample.below(8))?;
    proof.assume(l)?;
    Ok(assumed | bit)
}

/// Cites some clauses of a chain, and says whether all were cited.
fn cite_some(sample: &mut Sample, proof: &mut LoadedProof, chain: &[u32]) -> Result<bool, Fail> {
    let mut all = true;
    for id in chain {
        all = all && proof.is_cited(*id);
        if sample.below(3) > 0 {
            cite(proof, *id)?;
        }
    }
    Ok(all)
}

/// Whether the alive clauses refute what is assumed, and whether the cited ones do.
fn wanted(
    alloc: Global,
    sample: &Sample,
    proof: &LoadedProof,
    lines: u32,
    assumed: u32,
) -> Result<(bool, bool), Fail> {
    let ids = sample.alive(alloc, lines)?;
    let cited = cited_of(alloc, proof, ids.as_slice())?;
    let by_all = sample.refutes(alloc, ids.as_slice(), assumed)?;
    let by_cited = sample.refutes(alloc, cited.as_slice(), assumed)?;
    Ok((by_all, by_cited))
}

fn count(tally: &mut Tally, by_all: bool, by_cited: bool) {
    raise(if by_cited {
        &mut tally.by_cited
    } else if by_all {
        &mut tally.refuted
    } else {
        &mut tally.unrefuted
    });
}

/// Fails where the test of what is assumed isn't answered as defined: by a lean chain of alive clauses, of cited ones alone where
/// these refute. Some of its clauses are cited then.
fn answers(
    alloc: Global,
    sample: &mut Sample,
    proof: &mut LoadedProof,
    lines: u32,
    assumed: u32,
    tally: &mut Tally,
) -> Result<(), Fail> {
    let (by_all, by_cited) = wanted(alloc, sample, proof, lines, assumed)?;
    count(tally, by_all, by_cited);
    let mut chain = Items::new(alloc);
    let refuted = proof.refute(&mut chain)?;
    expect(refuted == by_all, sample.name, "another answer")?;
    let is_lean = is_lean(sample.entries.as_slice(), lines, assumed, chain.as_slice());
    expect(is_lean == refuted, sample.name, "a chain that isn't lean")?;
    let is_empty = chain.as_slice().is_empty();
    expect(refuted || is_empty, sample.name, "a chain of nothing")?;
    let all_cited = cite_some(sample, proof, chain.as_slice())?;
    expect(all_cited || !by_cited, sample.name, "a chain of others")
}

/// Asks with one literal more, which is undone.
fn answers_above(
    alloc: Global,
    sample: &mut Sample,
    proof: &mut LoadedProof,
    lines: u32,
    assumed: u32,
    tally: &mut Tally,
) -> Result<(), Fail> {
    let mark = proof.mark();
    let more = assume_one(sample, proof, assumed)?;
    answers(alloc, sample, proof, lines, more, tally)?;
    if mark <= proof.mark() {
        proof.undo_to(mark);
    }
    Ok(())
}

/// Asks with two literals, and then with one more, again and again.
fn asks(
    alloc: Global,
    sample: &mut Sample,
    proof: &mut LoadedProof,
    lines: u32,
    tally: &mut Tally,
) -> Result<(), Fail> {
    let found = alive(alloc, proof)?;
    let wanted = sample.alive(alloc, lines)?;
    expect(
        found.as_slice() == wanted.as_slice(),
        sample.name,
        "other clauses are alive",
    )?;
    let assumed = assume_one(sample, proof, 0)?;
    let assumed = assume_one(sample, proof, assumed)?;
    answers(alloc, sample, proof, lines, assumed, tally)?;
    for _ in 0..4 {
        answers_above(alloc, sample, proof, lines, assumed, tally)?;
    }
    proof.undo_to(0);
    Ok(())
}

/// Takes lines back from the last one, lemma by lemma.
fn goes_back(
    alloc: Global,
    sample: &mut Sample,
    proof: &mut LoadedProof,
    tally: &mut Tally,
) -> Result<(), Fail> {
    let lines = sample.lines;
    asks(alloc, sample, proof, lines, tally)?;
    for i in 0..sample.lemmas {
        let id = back(proof)?;
        let last = proof.next().wrapping_sub(1);
        expect(id == last.wrapping_sub(i), sample.name, "another lemma")?;
        let lines = sample.lines_before(id);
        asks(alloc, sample, proof, lines, tally)?;
    }
    let id = back(proof)?;
    expect(id == 0, sample.name, "one lemma more")?;
    asks(alloc, sample, proof, 0, tally)
}

fn unloads(
    alloc: Global,
    sample: &mut Sample,
    loader: Box<Loader>,
    tally: &mut Tally,
) -> Result<(), Fail> {
    let mut proof = finish(alloc, loader)?;
    goes_back(alloc, sample, &mut *proof, tally)
}

/// Loads a random proof, and takes it back where it conflicts.
fn try_sample(alloc: Global, name: u64, tally: &mut Tally) -> Result<(), Fail> {
    let mut sample = Sample::new(alloc, name, name % 2 == 0);
    let formula = sample.formula(alloc)?;
    let mut loader = loader_of(alloc, formula, sample.keeps_units)?;
    let conflicts = feed(alloc, &mut sample, &mut *loader)?;
    tally.passed = tally.passed.wrapping_add(sample.passed);
    if conflicts {
        raise(&mut tally.conflicts);
        unloads(alloc, &mut sample, loader, tally)?;
    }
    Ok(())
}

#[test]
fn random_proofs_are_loaded_and_taken_back(rt: HostRuntime) -> Result<(), Fail> {
    let mut tally = Tally {
        conflicts: 0,
        passed: 0,
        refuted: 0,
        by_cited: 0,
        unrefuted: 0,
    };
    for name in 0..300u64 {
        try_sample(rt.alloc(), name, &mut tally)?;
    }
    assert!(rt; tally.conflicts > 100 && tally.passed > 500);
    assert!(rt; tally.refuted > 500 && tally.by_cited > 2_000 && tally.unrefuted > 2_000);
    Ok(())
}
