// The cited clauses by literal. Their lists are made when a lemma is first tested with its witness, and grow from then on
// with each citation.
ghost use Rattle.std.specs.Prelude.{◌≡◌, ◌<◌, ◌≤◌, [], ◌∷◌, true, false, OnOk, IfOk, length};
ghost use Rattle.sr_model.specs.Assignment.{holds_number};
ghost use Rattle.sr_trimming.specs.Placing.{numbers};
ghost use Rattle.sr_trimming.specs.CoreFirst.{AreOf};
ghost use Rattle.sr_load.specs.Loaded.{LoadedState, next_of, alive_in, standing_in};
ghost use Rattle.sr_back.specs.Citing.{CitesAll, KeepsIndex, IsIndexed, Entered, Dropped, Finds, CitedAreAlive, with_cited};

use crate::queue::Queue;
use sr_base::{ClauseId, NoMemory};
use sr_load::Loaded;
use sr_occurs::{Occurrences, gather_candidates};
use sr_table::{IdSet, IdTable};
use sr_wit::Subst;
use std::alloc::Global;

/// The numbers of cited clauses by literal, a table that leads from those that stand, and candidates of a witness.
#[derive(Drop)]
pub struct CitedClauses {
    lists: Occurrences,
    table: IdTable,
    found: IdSet,
}

impl CitedClauses {
    /// Lists that aren't made.
    pub fn new(alloc: Global) -> Result<CitedClauses, NoMemory>
        ensures { IfOk result (λ s. s.lists.built ≡ false) }
    {
        Ok(CitedClauses {
            lists: Occurrences::new(alloc),
            table: IdTable::new(alloc)?,
            found: IdSet::new(alloc)?,
        })
    }

    /// Whether the lists are made.
    pub fn is_made(&self) -> bool
        ensures { result ≡ self.now.lists.built }
    {
        self.lists.is_built()
    }

    /// Makes the lists, of the cited numbers below one.
    pub fn make<L: Loaded>(
        &mut self,
        alloc: Global,
        loaded: &L,
        below: ClauseId,
    ) -> Result<(), NoMemory>
        requires below { below ≡ (standing_in (L.state loaded.now)).next }
        requires alive { CitedAreAlive (L.state loaded.now) }
        ensures made { OnOk result (self.new.lists.built ≡ true) }
        ensures index { OnOk result (IsIndexed (L.state loaded.now) self.new) }
    {
        self.lists = Occurrences::begin(alloc);
        self.table = IdTable::new(alloc)?;
        for id in 1..below {
            if loaded.is_cited(id) {
                self.enter(loaded, id)?;
            }
        }
        Ok(())
    }

    /// Enters a clause, if the lists are made.
    fn enter<L: Loaded>(&mut self, loaded: &L, id: ClauseId) -> Result<(), NoMemory>
        requires low { 0 < id }
        requires high { id < next_of (L.state loaded.now) }
        ensures { OnOk result (Entered (L.state loaded.now) self.old self.new id) }
    {
        if self.lists.is_built() {
            self.table.set(id, 1)?;
            self.lists.enter(id, loaded.clause(id))?;
        }
        Ok(())
    }

    /// Forgets the number of a lemma whose line was taken back.
    pub fn drop_lemma(&mut self, id: ClauseId)
        ensures { Dropped self.old self.new id }
    {
        if self.lists.is_built() {
            self.table.unset(id);
        }
    }

    /// Puts the numbers of the cited clauses of which a witness may leave something into a queue.
    pub fn find(&mut self, subst: &Subst, queue: &mut Queue) -> Result<(), NoMemory>
        requires { queue.old ≡ [] }
        ensures finds { OnOk result ((st : LoadedState) → CitedAreAlive st → IsIndexed st self.old → self.old.lists.built ≡ true → Finds st subst.now queue.new) }
        ensures index { OnOk result ((st : LoadedState) → CitedAreAlive st → IsIndexed st self.old → self.old.lists.built ≡ true → IsIndexed st self.new × (self.new.lists.built ≡ true)) }
    {
        gather_candidates(&mut self.lists, &self.table, subst, &mut self.found)?;
        for id in self.found.as_slice() {
            if self.table.get(*id) != 0 {
                queue.put(*id)?;
            }
        }
        Ok(())
    }
}

/// Cites the numbers of a chain.
pub fn cite_all<L: Loaded>(
    loaded: &mut L,
    index: &mut CitedClauses,
    ids: &[ClauseId],
) -> Result<(), NoMemory>
    requires alive { AreOf ids.now (alive_in (L.state loaded.old)) }
    requires index { KeepsIndex (L.state loaded.old) index.old }
    ensures cites { OnOk result (CitesAll (L.state loaded.old) (L.state loaded.new) ids.now) }
    ensures index { OnOk result (KeepsIndex (L.state loaded.new) index.new) }
    ensures made { OnOk result (index.new.lists.built ≡ index.old.lists.built) }
    ensures same { L.state loaded.new ≡ with_cited (L.state loaded.old) (L.state loaded.new).cited }
{
    for id in ids {
        cite(loaded, index, *id)?;
    }
    Ok(())
}

/// Cites a number.
fn cite<L: Loaded>(loaded: &mut L, index: &mut CitedClauses, id: ClauseId) -> Result<(), NoMemory>
    requires alive { holds_number id (numbers (alive_in (L.state loaded.old))) ≡ true }
    requires index { KeepsIndex (L.state loaded.old) index.old }
    ensures cites { OnOk result (CitesAll (L.state loaded.old) (L.state loaded.new) (id ∷ [])) }
    ensures index { OnOk result (KeepsIndex (L.state loaded.new) index.new) }
    ensures made { OnOk result (index.new.lists.built ≡ index.old.lists.built) }
    ensures same { L.state loaded.new ≡ with_cited (L.state loaded.old) (L.state loaded.new).cited }
{
    if loaded.is_cited(id) {
        return Ok(());
    }
    loaded.cite(id)?;
    index.enter(loaded, id)?;
    Ok(())
}
