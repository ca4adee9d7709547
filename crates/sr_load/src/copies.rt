// Copies of clauses in a propagator of their own.
ghost use Rattle.std.specs.Prelude.{ℕ, ◌≡◌, ◌≢◌, ◌<◌, ◌≤◌, ◌==◌, not, vec_len, slice_index_or, [], ◌∷◌, length, take, IfOk, OnOk, OnErr};
ghost use Rattle.sr_base.specs.Literal.{NoRepeats};
ghost use Rattle.sr_watch.specs.State.{no_clause, IsSound};
ghost use Rattle.sr_watch.specs.Changes.{AreReordered};
ghost use Rattle.sr_load.specs.Numbers.{entry_of};
ghost use Rattle.sr_load.specs.Tied.{AreAssumed};
ghost use Rattle.sr_load.specs.Copies.{Begins, IsCopied, AreSameCopies, AreLed, dropped_copy, IsAttachedCopy, IsFound};

use crate::counting::propagate;
use crate::finding::test;
use crate::levels::{assume, undo_to};
use crate::room::{make_room, make_room_for};
use sr_base::{ClauseId, IdList, Items, Limits, Lit, LitList, NoMemory};
use sr_watch::{Cref, CrefList, Part, Propagator};
use std::alloc::Global;
use std::marker::Model;

/// Copies of clauses, under their numbers, and the literals that are assumed in them.
#[derive(Drop)]
pub struct Copies {
    propagator: Propagator,
    /// The reference of each number's copy, from 1 on; 0 where it has none.
    refs: Vec<u32>,
    assumed: LitList,
    /// The entries before each assumed literal.
    marks: Vec<usize>,
    /// Room to work in.
    chain: CrefList,
}

impl Model for Copies {
    ghost use Rattle.sr_load.specs.Copies.{Copied, KeepsCopies};

    ghost Value = { Copied };

    ghost view = { λ c. record { slots = c.propagator.slots; refs = c.refs.items; assumed = c.assumed } };

    ghost invariant = { λ c. KeepsCopies c.propagator c.refs.items c.assumed c.marks.items };
}

impl Copies {
    /// No copies. It takes no memory.
    pub fn new(alloc: Global) -> Copies
        ensures { result ≡ record { slots = no_clause ∷ []; refs = []; assumed = [] } }
    {
        Copies {
            propagator: Propagator::new(alloc, &Limits::shipped()),
            refs: Vec::new(alloc),
            assumed: Items::new(alloc),
            marks: Vec::new(alloc),
            chain: Items::new(alloc),
        }
    }

    /// Whether the clause of a number has a copy.
    pub fn has(&self, id: ClauseId) -> bool
        requires { 0 < id }
        ensures value { result ≡ not (entry_of self.now.refs id == 0) }
        ensures led { AreLed self.now.slots self.now.refs }
    {
        let _propagator = &self.propagator;
        let i = id as usize - 1;
        i < self.refs.len() && self.refs[i] != 0
    }

    /// Copies a clause that has no copy, and derives what follows then from the literals that are assumed. The copy of a
    /// clause of one literal is made where none is, so that the literal stays.
    pub fn add(&mut self, id: ClauseId, lits: &[Lit]) -> Result<(), NoMemory>
        requires low { 0 < id }
        requires fresh { entry_of self.old.refs id ≡ 0 }
        requires distinct { NoRepeats lits.now }
        ensures ok { OnOk result (IsCopied self.old self.new id lits.now) }
        ensures err { OnErr result (AreSameCopies self.old self.new) }
        ensures begins { Begins self.new.assumed self.old.assumed }
    {
        let mark = if lits.len() < 2 { 0 } else { self.marks.len() };
        undo_to(
            &mut self.propagator,
            &mut self.assumed,
            &mut self.marks,
            mark,
        );
        make_room_for(&mut self.propagator, lits)?;
        let i = id as usize - 1;
        reach(&mut self.refs, i + 1)?;
        let Ok(at) = self.propagator.add(lits, id) else {
            return Err(NoMemory);
        };
        self.refs[i] = at.index();
        self.propagator.attach(at, Part::All);
        let _found = propagate(&mut self.propagator, Part::All);
        Ok(())
    }

    /// Detaches the copy of a number, if there is one.
    pub fn detach(&mut self, id: ClauseId)
        requires low { 0 < id }
        requires none { self.old.assumed ≡ [] }
        requires attached { IsAttachedCopy self.old id }
        ensures { self.new ≡ dropped_copy self.old id }
    {
        let i = id as usize - 1;
        if i >= self.refs.len() {
            return;
        }
        if let Some(at) = Cref::from_index(self.refs[i]) {
            self.propagator.detach(at);
        }
    }

    /// Keeps the first literals that were assumed alone.
    pub fn undo_to(&mut self, mark: usize)
        ensures { self.new ≡ record self.old { assumed = take mark self.old.assumed } }
    {
        undo_to(
            &mut self.propagator,
            &mut self.assumed,
            &mut self.marks,
            mark,
        );
    }

    /// Whether the attached copies refute literals, of which the first ones are assumed already. Where they do, `chain` has
    /// the numbers of a lean chain. The literals stay assumed, and what the first ones force stays as long as they do.
    pub fn test(&mut self, lits: &[Lit], chain: &mut IdList) -> Result<bool, NoMemory>
        requires { Begins self.old.assumed lits.now }
        ensures begins { Begins self.new.assumed lits.now }
        ensures refs { self.new.refs ≡ self.old.refs }
        ensures slots { AreReordered self.old.slots self.new.slots }
        ensures ok { IfOk result (λ b. IsFound self.new.slots lits.now b chain.new) }
    {
        let _found = propagate(&mut self.propagator, Part::All);
        assume_rest(
            &mut self.propagator,
            &mut self.assumed,
            &mut self.marks,
            lits,
        )?;
        test(&mut self.propagator, Part::All, &mut self.chain, chain)
    }
}

/// Assumes literals, of which the first ones are assumed already.
fn assume_rest(
    propagator: &mut Propagator,
    assumed: &mut LitList,
    marks: &mut Vec<usize>,
    lits: &[Lit],
) -> Result<(), NoMemory>
    requires begins { Begins assumed.old lits.now }
    requires entries { AreAssumed propagator.old.lits propagator.old.reasons assumed.old marks.old.items }
    ensures ok { OnOk result (assumed.new ≡ lits.now) }
    ensures begins { Begins assumed.new lits.now }
    ensures entries { AreAssumed propagator.new.lits propagator.new.reasons assumed.new marks.new.items }
    ensures clauses { AreReordered propagator.old.slots propagator.new.slots }
{
    let first = assumed.as_slice().len();
    for i in first..lits.len() {
        let l = lits[i];
        make_room(propagator, l.var())?;
        assume(propagator, assumed, marks, l)?;
    }
    Ok(())
}

/// Lengthens a list by zeros until it is so long.
fn reach(refs: &mut Vec<u32>, len: usize) -> Result<(), NoMemory>
    ensures same { (i : ℕ) → slice_index_or refs.new.items i 0 ≡ slice_index_or refs.old.items i 0 }
    ensures long { OnOk result (len ≤ vec_len refs.new) }
{
    if len <= refs.len() {
        return Ok(());
    }
    match refs.resize(len, 0) {
        Ok(()) => Ok(()),
        Err(_) => Err(NoMemory),
    }
}
