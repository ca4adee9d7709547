// The backward pass: lines are taken back from the last one standing, and each lemma that a later step cites is tested.
ghost use Rattle.std.specs.Prelude.{◌≡◌, ◌<◌, [], true, false, length, OnOk, IfOk};
ghost use Rattle.sr_load.specs.Loaded.{IsLoaded};
ghost use Rattle.sr_back.specs.Citing.{KeepsIndex};
ghost use Rattle.sr_back.specs.Testing.{steps_in};
ghost use Rattle.sr_back.specs.Pass.{IsPass, FailsRightly, KeepsProof};
ghost use Rattle.sr_back.specs.Turning.{IsKept, IsTurn, IsOpen, PropagationEnd, LemmaEnd};

use crate::cited::{CitedClauses, cite_all};
use crate::groups::{Scratch, find_groups};
use crate::testing::{assume_complements, own_witness};
use sr_base::{ClauseId, NoMemory};
use sr_load::Loaded;
use sr_steps::StepTable;
use std::alloc::Global;

/// How a backward pass ends.
#[derive(Drop)]
pub enum Back {
    /// Each lemma that a later step cites has a step.
    Done(StepTable),
    /// The test of a lemma that a later step cites fails at a clause.
    Failed { lemma: ClauseId, against: ClauseId },
}

/// Takes the lines of a loaded proof back, from the last one, and keeps a step for each lemma that a later step cites.
pub fn backward<L: Loaded>(alloc: Global, loaded: &mut L) -> Result<Back, NoMemory>
    requires { IsLoaded (L.state loaded.old) }
    ensures pass { IfOk result (IsPass (L.state loaded.old)) }
    ensures fails { IfOk result (FailsRightly (L.state loaded.old)) }
    ensures keeps { KeepsProof (L.state loaded.old) (L.state loaded.new) }
    ensures assumed { OnOk result ((L.state loaded.new).assumed ≡ []) }
{
    let mut steps = StepTable::new(alloc);
    let mut index = CitedClauses::new(alloc)?;
    let mut scratch = Scratch::new(alloc);
    keep_last(loaded, &mut index, &mut steps, &mut scratch)?;
    'lines: while let Some(id) = loaded.back() {
        index.drop_lemma(id);
        if !loaded.is_cited(id) {
            continue;
        }
        if let Some(against) = keep_lemma(
            alloc,
            loaded,
            &mut index,
            &mut steps,
            &mut scratch,
            id,
        )? {
            return Ok(Back::Failed { lemma: id, against });
        }
    }
    Ok(Back::Done(steps))
}

/// Keeps the last step, which is the empty clause.
fn keep_last<L: Loaded>(
    loaded: &mut L,
    index: &mut CitedClauses,
    steps: &mut StepTable,
    scratch: &mut Scratch,
) -> Result<(), NoMemory>
    requires loaded { IsLoaded (L.state loaded.old) }
    requires none { steps.old ≡ [] }
    requires index { index.old.lists.built ≡ false }
    ensures kept { OnOk result (IsKept (L.state loaded.new) (steps_in (L.state loaded.new) steps.new)) }
    ensures index { OnOk result (KeepsIndex (L.state loaded.new) index.new) }
    ensures same { KeepsProof (L.state loaded.old) (L.state loaded.new) }
    ensures assumed { (L.state loaded.new).assumed ≡ [] }
{
    let end = loaded.next();
    if !loaded.refute(&mut scratch.chain)? {
        unreachable!();
    }
    cite_all(loaded, index, scratch.chain.as_slice())?;
    steps.push(end, scratch.chain.as_slice())?;
    Ok(())
}

/// Tests a lemma that a later step cites, and keeps its step; or gives the number of the clause at which its test fails.
fn keep_lemma<L: Loaded>(
    alloc: Global,
    loaded: &mut L,
    index: &mut CitedClauses,
    steps: &mut StepTable,
    scratch: &mut Scratch,
    id: ClauseId,
) -> Result<Option<ClauseId>, NoMemory>
    requires turn { IsTurn (L.state loaded.old) id (steps_in (L.state loaded.old) steps.old) }
    requires index { KeepsIndex (L.state loaded.old) index.old }
    requires assumed { (L.state loaded.old).assumed ≡ [] }
    ensures kept { IfOk result (LemmaEnd (L.state loaded.new) id steps.new) }
    ensures index { OnOk result (KeepsIndex (L.state loaded.new) index.new) }
    ensures same { KeepsProof (L.state loaded.old) (L.state loaded.new) }
    ensures lines { (L.state loaded.new).standing ≡ (L.state loaded.old).standing }
    ensures assumed { OnOk result ((L.state loaded.new).assumed ≡ []) }
{
    if keep_by_propagation(loaded, index, steps, scratch, id)? {
        return Ok(None);
    }
    let against = keep_by_witness(alloc, loaded, index, steps, scratch, id)?;
    loaded.undo_to(0);
    Ok(against)
}

/// Keeps the step of a lemma that propagation shows. Else the complements of its literals stay assumed.
fn keep_by_propagation<L: Loaded>(
    loaded: &mut L,
    index: &mut CitedClauses,
    steps: &mut StepTable,
    scratch: &mut Scratch,
    id: ClauseId,
) -> Result<bool, NoMemory>
    requires turn { IsTurn (L.state loaded.old) id (steps_in (L.state loaded.old) steps.old) }
    requires index { KeepsIndex (L.state loaded.old) index.old }
    requires assumed { (L.state loaded.old).assumed ≡ [] }
    ensures kept { IfOk result (PropagationEnd (L.state loaded.new) id steps.old steps.new) }
    ensures index { OnOk result (KeepsIndex (L.state loaded.new) index.new) }
    ensures same { KeepsProof (L.state loaded.old) (L.state loaded.new) }
    ensures lines { (L.state loaded.new).standing ≡ (L.state loaded.old).standing }
{
    scratch.lits.truncate(0);
    scratch.lits.extend(loaded.clause(id))?;
    assume_complements(loaded, scratch.lits.as_slice())?;
    if !loaded.refute(&mut scratch.chain)? {
        return Ok(false);
    }
    loaded.undo_to(0);
    cite_all(loaded, index, scratch.chain.as_slice())?;
    steps.push(id, scratch.chain.as_slice())?;
    Ok(true)
}

/// Keeps the step of a lemma that its witness shows, or gives the number of the clause at which its test fails.
fn keep_by_witness<L: Loaded>(
    alloc: Global,
    loaded: &mut L,
    index: &mut CitedClauses,
    steps: &mut StepTable,
    scratch: &mut Scratch,
    id: ClauseId,
) -> Result<Option<ClauseId>, NoMemory>
    requires open { IsOpen (L.state loaded.old) id steps.old steps.old }
    requires index { KeepsIndex (L.state loaded.old) index.old }
    ensures kept { IfOk result (LemmaEnd (L.state loaded.new) id steps.new) }
    ensures index { OnOk result (KeepsIndex (L.state loaded.new) index.new) }
    ensures same { KeepsProof (L.state loaded.old) (L.state loaded.new) }
    ensures lines { (L.state loaded.new).standing ≡ (L.state loaded.old).standing }
{
    let own = own_witness(alloc, loaded, id)?;
    if !index.is_made() {
        index.make(alloc, loaded, id)?;
    }
    find_groups(alloc, loaded, index, steps, scratch, id, &own)
}
