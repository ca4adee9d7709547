// The checker: the live clauses, the greatest number so far, and the verdict.
ghost use Rattle.std.specs.Prelude.{◌≡◌, ◌+◌, ◌*◌, ◌<◌, ◌≤◌, ◌∷◌, ◌++◌, [], true, false, cond, length, IfOk, OnOk, OnErr, IfNone, OnSome};
ghost use Rattle.sr_model.specs.Chain.{clauses};
ghost use Rattle.sr_model.specs.Meeting.{met};
ghost use Rattle.sr_model.specs.Judging.{clause_cells, cells_of, numbered_from, without, first_dead, drop_meets, start, after_item, stepped, dropped};
ghost use Rattle.sr_wit.specs.LsrItems.{item_of};
ghost use Rattle.sr_check.specs.Checking.{begun, taken, passes_cells, new_cells, taken_cells, cells_with, tidy_cells, IsTidy, added, with_formula};
ghost use Rattle.sr_check.specs.Storage.{HoldsLive};
ghost use Rattle.sr_check.specs.Trail.{CoversClauses};

use crate::meeting::{Meet, Scratch, meet_step};
use crate::storage::Storage;
use crate::trail::{Trail, cover_all};
use sr_arena::{ClauseMem, MOST_USED};
use sr_base::{AddError, Cause, ClauseId, Items, Limits, Lit, MOST_CELLS, NoMemory};
use sr_model::Verdict;
use sr_occurs::Occurrences;
use sr_table::{IdSet, IdTable};
use sr_wit::{Formula, LsrItem, Step};
use std::alloc::Global;
use std::marker::Model;
use thiserror::Error;

/// The entries in the lists of clauses by literal that are let be however few cells the live clauses take.
const SLACK: u64 = 65_536;

/// Why an item isn't taken. The checker is then as it was.
#[derive(Clone, Copy, Debug, PartialEq, Eq, Error)]
pub enum TakeError {
    /// The clauses would be held in more cells than the limit.
    #[error("the limit of cells is passed")]
    Cells,
    #[error("out of memory")]
    NoMemory,
}

impl From<NoMemory> for TakeError {
    ghost use Rattle.std.specs.Prelude.{◌≡◌};
    ghost use Rattle.sr_check.specs.declared.checker.TakeError.TheVariants.{NoMemory};

    ghost from_gives = { λ _ e. e ≡ NoMemory };

    fn from(_fault: NoMemory) -> TakeError {
        TakeError::NoMemory
    }
}

/// A checker of a proof by hints, which takes the items of the proof one by one.
///
/// Contracts see whether it checks strictly, the most cells that it may hold, and its state: the live clauses under their
/// numbers, the greatest number so far, and the verdict.
#[derive(Drop)]
pub struct Checker {
    strict: bool,
    live: Storage,
    verdict: Verdict,
    scratch: Scratch,
}

impl Model for Checker {
    ghost use Rattle.sr_check.specs.Checking.{Checking, checking, KeepsChecking};

    ghost Value = { Checking };

    ghost view = { λ c. checking c.strict c.live c.verdict };

    ghost invariant = { λ c. KeepsChecking c.live.most c.live.clauses c.live.last c.scratch };
}

impl Checker {
    /// A checker of a formula. Its clauses have the numbers from 1 on. The verdict is `Verified` exactly where the
    /// formula holds the empty clause, else `Going`.
    ///
    /// `Cells` comes exactly where the formula's clauses count more cells than the limit, if memory suffices.
    pub fn new(
        alloc: Global,
        formula: Formula,
        limits: &Limits,
        strict: bool,
    ) -> Result<Checker, AddError>
        ensures ok { IfOk result (λ c. c ≡ begun strict limits.now.cells formula.clauses) }
        ensures cells { result ≡ Err AddError.Cells → limits.now.cells < cells_of formula.clauses }
        ensures fits { OnOk result (cells_of formula.clauses ≤ limits.now.cells) }
    {
        if formula.cells() > limits.cells() as u64 {
            return Err(AddError::Cells);
        }
        let Ok(mut live) = Storage::new(alloc, limits) else {
            return Err(AddError::NoMemory);
        };
        let Ok(index) = IdTable::new(alloc) else {
            return Err(AddError::NoMemory);
        };
        let Ok(numbers) = IdSet::new(alloc) else {
            return Err(AddError::NoMemory);
        };
        let mut trail = Trail::new(alloc);
        let Ok(()) = add_clauses(&mut live, &mut trail, &formula) else {
            return Err(AddError::NoMemory);
        };
        let verdict = if formula.has_empty() {
            Verdict::Verified
        } else {
            Verdict::Going
        };
        Ok(Checker {
            strict,
            live,
            verdict,
            scratch: Scratch {
                alloc,
                trail,
                index,
                lists: Occurrences::new(alloc),
                numbers,
                left: Items::new(alloc),
            },
        })
    }

    /// The memory of the clauses. It holds the live ones, each once, and no others.
    pub fn memory(&self) -> &ClauseMem
        ensures holds { HoldsLive result.now self.now.state.live.clauses }
        ensures used { result.now.used ≡ self.now.used }
        ensures most { result.now.most ≡ self.now.most }
    {
        self.live.memory()
    }

    /// Where judging stands.
    pub fn verdict(&self) -> Verdict
        ensures { result ≡ self.now.state.verdict }
    {
        self.verdict
    }

    /// Takes the next item, and answers the verdict after it.
    ///
    /// A step whose hints are in order (after LRAT; Codel, Avigad and Heule 2024) makes its clause live, and the empty
    /// clause verifies the proof. Another step rejects it. A deletion removes the live clauses that it names; it rejects
    /// the proof only under strict checking, where it names one that isn't live.
    ///
    /// `Cells` comes only for a step that is met and whose clause would pass the limit. After it, and where memory
    /// lacks, the checker is as it was; its memory may have been compacted. That is done only where the used cells are above
    /// twice the held ones and 1,024 more.
    pub fn take(&mut self, item: &LsrItem) -> Result<Verdict, TakeError>
        requires { self.old.state.verdict ≡ Verdict.Going }
        ensures state { OnOk result (self.new ≡ taken self.old (item_of item.now) self.new.used) }
        ensures verdict { IfOk result (λ v. v ≡ self.new.state.verdict) }
        ensures used { OnOk result (self.new.used ≤ tidy_cells self.old + new_cells self.old (item_of item.now)) }
        ensures cells { result ≡ Err TakeError.Cells → passes_cells self.old (item_of item.now) ≡ true }
        ensures fits { OnOk result (passes_cells self.old (item_of item.now) ≡ false) }
        ensures rare { IsTidy self.old → self.new.used ≡ self.old.used + taken_cells result self.old (item_of item.now) }
        ensures err { OnErr result (self.new ≡ record self.old { used = self.new.used }) }
        ensures fewer { OnErr result (self.new.used ≤ self.old.used) }
    {
        self.live.tidy(self.scratch.alloc)?;
        match item {
            LsrItem::Step(step) => self.take_step(step),
            LsrItem::Drop { id, ids } => Ok(self.take_drop(*id, ids.as_slice())),
        }
    }

    /// Takes a step.
    fn take_step(&mut self, step: &Step) -> Result<Verdict, TakeError>
        requires going { self.old.state.verdict ≡ Verdict.Going }
        requires tidy { self.old.used ≤ MOST_USED }
        ensures state { OnOk result (self.new ≡ taken self.old (stepped step.now) (self.old.used + new_cells self.old (stepped step.now))) }
        ensures verdict { IfOk result (λ v. v ≡ self.new.state.verdict) }
        ensures cells { result ≡ Err TakeError.Cells → passes_cells self.old (stepped step.now) ≡ true }
        ensures fits { OnOk result (passes_cells self.old (stepped step.now) ≡ false) }
        ensures err { OnErr result (self.new ≡ self.old) }
    {
        let id = step.id();
        match meet_step(
            self.strict,
            &self.live.clauses(),
            self.live.last(),
            &mut self.scratch,
            step,
        )? {
            Meet::Unmet(cause) => {
                self.verdict = Verdict::Rejected { id, cause };
                Ok(self.verdict)
            }
            Meet::Met => {
                let lits = step.clause().lits();
                if lits.is_empty() {
                    self.verdict = Verdict::Verified;
                } else {
                    self.add(id, lits)?;
                }
                Ok(self.verdict)
            }
        }
    }

    /// Makes a clause live under a new number, unless that passes the limit.
    fn add(&mut self, id: ClauseId, lits: &[Lit]) -> Result<(), TakeError>
        requires new { self.old.state.live.last < id }
        requires tidy { self.old.used ≤ MOST_USED }
        ensures ok { OnOk result (self.new ≡ added self.old id lits.now) }
        ensures cells { result ≡ Err TakeError.Cells → self.old.most < cells_with self.old lits.now }
        ensures fits { OnOk result (cells_with self.old lits.now ≤ self.old.most) }
        ensures err { OnErr result (self.new ≡ self.old) }
    {
        if !self.live.has_room(lits) {
            return Err(TakeError::Cells);
        }
        cover_all(&mut self.scratch.trail, lits)?;
        self.scratch.lists.enter(id, lits)?;
        self.live.add_last(id, lits)?;
        self.scratch.lists.limit(2 * self.live.cells() + SLACK);
        Ok(())
    }

    /// Takes a deletion.
    fn take_drop(&mut self, id: u32, ids: &[u32]) -> Verdict
        requires { self.old.state.verdict ≡ Verdict.Going }
        ensures state { self.new ≡ record self.old { state = after_item self.old.strict self.old.state (dropped id ids.now) } }
        ensures verdict { result ≡ self.new.state.verdict }
    {
        let Some(dead) = drop_clauses(self.strict, &mut self.live, ids) else {
            return self.verdict;
        };
        let cause = Cause::DeadDrop(dead);
        self.verdict = Verdict::Rejected { id, cause };
        self.verdict
    }
}

/// Removes the clauses of the numbers. Strict checking tells the first number that isn't live when its turn comes, and
/// then removes none.
fn drop_clauses(strict: bool, live: &mut Storage, ids: &[u32]) -> Option<u32>
    ensures dead { drop_meets result ≡ cond strict (drop_meets (first_dead live.old.clauses ids.now)) met }
    ensures removed { IfNone result (live.new ≡ record live.old { clauses = without ids.now live.old.clauses }) }
    ensures kept { OnSome result (live.new ≡ live.old) }
{
    if strict {
        return live.remove_each(ids);
    }
    live.remove_all(ids);
    None
}

/// Adds the clauses of a formula under their numbers, and makes room for their literals on the trail.
fn add_clauses(live: &mut Storage, trail: &mut Trail, formula: &Formula) -> Result<(), NoMemory>
    requires none { live.old.clauses ≡ [] }
    requires last { live.old.last ≡ 0 }
    requires fits { cells_of formula.now.clauses ≤ live.old.most }
    requires unused { live.old.used ≡ 0 }
    requires bound { live.old.most ≤ MOST_CELLS }
    ensures live { OnOk result (live.new ≡ with_formula live.old formula.now.clauses) }
    ensures lits { trail.new.lits ≡ trail.old.lits }
    ensures room { OnOk result (CoversClauses trail.new.room (clauses live.new.clauses)) }
{
    for i in 0..formula.count() {
        let lits = formula.clause(i + 1);
        cover_all(trail, lits)?;
        live.add_last(i + 1, lits)?;
    }
    Ok(())
}
