// A loaded proof: its lines, and copies of what is cited.
ghost use Rattle.std.specs.Prelude.{◌≡◌, ◌≢◌, ◌≤◌, true, false, [], length, OnOk, OnErr, IfOk, IsErr};
ghost use Rattle.sr_model.specs.Assignment.{holds_number};
ghost use Rattle.sr_load.specs.Loaded.{LoadedState, all_lines};
ghost use Rattle.sr_load.specs.Loading.{lemmas_in};
ghost use Rattle.sr_load.specs.Finding.{IsNumber, IsNextAlive};
ghost use Rattle.sr_load.specs.Copies.{AreCopies, Begins, CoversFirst, KeepCopies, HasCopy, CitedTests};

use crate::copies::Copies;
use crate::loaded::Loaded;
use crate::timeline::Timeline;
use sr_base::{ClauseId, IdList, Items, Lit, NoMemory};
use sr_watch::Part;
use sr_wit::{Formula, Subst};
use std::alloc::Global;
use std::marker::Model;

/// A loaded proof.
///
/// Whether the cited clauses refute is asked in the one propagator that has all alive clauses, which closes those of the core
/// first. Only where they conflict by entries that other clauses derived, the copies of the cited clauses are asked. What is
/// assumed in the copies are the first literals of those that are assumed, as many as stand since they were last asked.
#[derive(Drop)]
pub struct LoadedProof {
    timeline: Timeline,
    copies: Copies,
    /// How many citations were looked at for copies.
    copied: usize,
    /// Room to work in.
    chain: IdList,
}

impl Model for LoadedProof {
    ghost use Rattle.std.specs.Prelude.{◌≤◌, length};
    ghost use Rattle.sr_load.specs.Loaded.{LoadedState};
    ghost use Rattle.sr_load.specs.Copies.{AreCopies, Begins, CoversFirst};

    ghost Value = { LoadedState };

    ghost view = { λ p. p.timeline };

    ghost invariant = { λ p. AreCopies p.timeline p.copies × CoversFirst p.timeline p.copies p.copied × (p.copied ≤ length p.timeline.cited)
        × Begins p.copies.assumed p.timeline.assumed };
}

impl Loaded for LoadedProof {
    ghost state = { λ p. p };

    fn formula(&self) -> &Formula {
        self.timeline.formula()
    }

    fn next(&self) -> ClauseId {
        self.timeline.next()
    }

    fn clause(&self, id: ClauseId) -> &[Lit] {
        self.timeline.clause(id)
    }

    fn pivot(&self, id: ClauseId) -> Lit {
        self.timeline.pivot(id)
    }

    fn witness(&self, id: ClauseId) -> Option<&Subst> {
        self.timeline.witness(id)
    }

    fn is_cited(&self, id: ClauseId) -> bool {
        self.timeline.is_cited(id)
    }

    fn cite(&mut self, id: ClauseId) -> Result<(), NoMemory> {
        self.timeline.cite(id)
    }

    fn back(&mut self) -> Option<ClauseId> {
        let _cited = self.timeline.cited();
        let Some(id) = self.timeline.back() else {
            let _cited = self.timeline.cited();
            return None;
        };
        let _cited = self.timeline.cited();
        self.copies.detach(id);
        Some(id)
    }

    fn assume(&mut self, l: Lit) -> Result<(), NoMemory> {
        self.timeline.assume(l)
    }

    fn mark(&self) -> usize {
        self.timeline.mark()
    }

    fn undo_to(&mut self, mark: usize) {
        self.timeline.undo_to(mark);
        self.copies.undo_to(mark);
    }

    fn refute(&mut self, chain: &mut IdList) -> Result<bool, NoMemory> {
        if !self.timeline.test(Part::Core, chain)? {
            return self.timeline.test(Part::All, chain);
        }
        if self.timeline.are_cited(chain.as_slice()) {
            return Ok(true);
        }
        let asked = ask_copies(
            &self.timeline,
            &mut self.copies,
            &mut self.copied,
            &mut self.chain,
        );
        choose(asked, &self.chain, chain)
    }
}

impl LoadedProof {
    /// Lines that all stand, with no clause cited.
    pub fn new(alloc: Global, timeline: Timeline) -> LoadedProof
        requires { timeline.cited ≡ [] }
        ensures { result ≡ timeline }
    {
        LoadedProof {
            timeline,
            copies: Copies::new(alloc),
            copied: 0,
            chain: Items::new(alloc),
        }
    }

    /// How many clauses the formula has.
    pub fn clauses(&self) -> u32
        ensures { result ≡ length self.now.formula.clauses }
    {
        self.timeline.formula().count()
    }

    /// How many lemmas there are.
    pub fn lemmas(&self) -> u32
        ensures { result ≡ lemmas_in (all_lines self.now) }
    {
        self.timeline.lemmas()
    }

    /// The least number of an alive clause from this one on.
    pub fn alive_from(&self, from: ClauseId) -> Option<ClauseId>
        ensures { IsNextAlive self.now from result }
    {
        let next = self.timeline.next();
        for id in from..next {
            if id > 0 && self.timeline.is_alive(id) {
                return Some(id);
            }
        }
        None
    }
}

/// Takes the second chain in the place of the first one, where there is a second one.
fn choose(
    second: Result<bool, NoMemory>,
    from: &IdList,
    chain: &mut IdList,
) -> Result<bool, NoMemory>
    ensures first { second ≡ Ok false → (result ≡ Ok true) × (chain.new ≡ chain.old) }
    ensures second { second ≡ Ok true → OnOk result (chain.new ≡ from.now) }
    ensures yes { result ≢ Ok false }
    ensures err { OnErr result (chain.new ≡ []) }
    ensures fails { OnErr second (IsErr result) }
{
    if let Ok(false) = second {
        return Ok(true);
    }
    chain.truncate(0);
    second?;
    chain.extend(from.as_slice())?;
    Ok(true)
}

/// Whether the cited clauses alone refute what is assumed. Where they do, `chain` is a lean chain of them.
fn ask_copies(
    timeline: &Timeline,
    copies: &mut Copies,
    copied: &mut usize,
    chain: &mut IdList,
) -> Result<bool, NoMemory>
    requires copies { AreCopies timeline.now copies.old }
    requires covers { CoversFirst timeline.now copies.old copied.old }
    requires within { copied.old ≤ length timeline.now.cited }
    requires begins { Begins copies.old.assumed timeline.now.assumed }
    ensures copies { AreCopies timeline.now copies.new }
    ensures covers { CoversFirst timeline.now copies.new copied.new }
    ensures within { copied.new ≤ length timeline.now.cited }
    ensures begins { Begins copies.new.assumed timeline.now.assumed }
    ensures ok { IfOk result (λ b. CitedTests timeline.now b chain.new) }
{
    copy_cited(timeline, copies, copied)?;
    copies.test(timeline.assumed(), chain)
}

/// Copies what was cited since the copies were asked.
fn copy_cited(timeline: &Timeline, copies: &mut Copies, copied: &mut usize) -> Result<(), NoMemory>
    requires copies { AreCopies timeline.now copies.old }
    requires covers { CoversFirst timeline.now copies.old copied.old }
    requires within { copied.old ≤ length timeline.now.cited }
    requires begins { Begins copies.old.assumed timeline.now.assumed }
    ensures copies { AreCopies timeline.now copies.new }
    ensures covers { CoversFirst timeline.now copies.new copied.new }
    ensures within { copied.new ≤ length timeline.now.cited }
    ensures begins { Begins copies.new.assumed timeline.now.assumed }
    ensures all { OnOk result (copied.new ≡ length timeline.now.cited) }
{
    let cited = timeline.cited();
    'citations: while *copied < cited.len() {
        copy(timeline, copies, cited[*copied])?;
        *copied += 1;
    }
    Ok(())
}

/// Copies a clause, where it is alive and has no copy.
fn copy(timeline: &Timeline, copies: &mut Copies, id: ClauseId) -> Result<(), NoMemory>
    requires number { IsNumber timeline.now id }
    requires cited { holds_number id timeline.now.cited ≡ true }
    requires copies { AreCopies timeline.now copies.old }
    requires begins { Begins copies.old.assumed timeline.now.assumed }
    ensures copies { AreCopies timeline.now copies.new }
    ensures begins { Begins copies.new.assumed timeline.now.assumed }
    ensures kept { KeepCopies copies.old copies.new }
    ensures copied { OnOk result (HasCopy timeline.now copies.new id) }
{
    if timeline.is_alive(id) && !copies.has(id) {
        copies.add(id, timeline.clause(id))?;
    }
    Ok(())
}
