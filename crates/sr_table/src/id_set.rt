// Distinct numbers, with a table that tells at once whether a number is there. The table holds for each number the round
// in which it was last added, so that a new round begins with no numbers and touches nothing.
ghost use Rattle.std.specs.Prelude.{◌≡◌, true, [], IfOk, OnOk};
ghost use Rattle.std.specs.List.Sorted.{IsNonDecreasing};
ghost use Rattle.sr_model.specs.Assignment.{holds_number};
ghost use Rattle.sr_table.specs.Numbers.{KeepsHeld, HoldsAll, AreDistinct};

use crate::pages::IdTable;
use sr_base::{ClauseId, NoMemory};
use std::alloc::Global;
use std::marker::Model;

/// Distinct numbers, in the order in which they were added.
#[derive(Drop)]
pub struct IdSet {
    alloc: Global,
    ids: Vec<ClauseId>,
    rounds: IdTable,
    round: u32,
}

impl Model for IdSet {
    ghost use Rattle.std.specs.Prelude.{List, ℕ};
    ghost use Rattle.sr_table.specs.Numbers.{AreNoted};

    ghost Value = { List ℕ };

    ghost view = { λ s. s.ids.items };

    ghost invariant = { λ s. AreNoted s.ids.items s.rounds s.round };
}

impl IdSet {
    /// No numbers.
    pub fn new(alloc: Global) -> Result<IdSet, NoMemory>
        ensures { IfOk result (λ s. s ≡ []) }
    {
        Ok(IdSet {
            alloc,
            ids: Vec::new(alloc),
            rounds: IdTable::new(alloc)?,
            round: 1,
        })
    }

    /// Removes all numbers.
    pub fn clear(&mut self) -> Result<(), NoMemory>
        ensures { OnOk result (self.new ≡ []) }
    {
        if self.round == u32::MAX {
            *self = IdSet::new(self.alloc)?;
            return Ok(());
        }
        self.ids.clear();
        self.round += 1;
        Ok(())
    }

    /// Adds numbers, but for those that are there.
    pub fn add_all(&mut self, ids: &[ClauseId]) -> Result<(), NoMemory>
        ensures kept { KeepsHeld self.old self.new }
        ensures ok { OnOk result (HoldsAll self.new ids.now) }
    {
        for id in ids {
            self.add(*id)?;
        }
        Ok(())
    }

    /// Adds a number, unless it is there.
    #[inline]
    fn add(&mut self, id: ClauseId) -> Result<(), NoMemory>
        ensures kept { KeepsHeld self.old self.new }
        ensures ok { OnOk result (holds_number id self.new ≡ true) }
    {
        if self.rounds.get(id) == self.round {
            return Ok(());
        }
        self.rounds.open(id)?;
        let Ok(()) = self.ids.push(id) else {
            return Err(NoMemory);
        };
        self.rounds.put(id, self.round);
        Ok(())
    }

    /// Puts the numbers in rising order.
    pub fn sort(&mut self)
        ensures held { KeepsHeld self.old self.new }
        ensures sorted { IsNonDecreasing self.new }
    {
        self.ids.sort_unstable();
    }

    /// The numbers.
    pub fn as_slice(&self) -> &[ClauseId]
        ensures value { result.now ≡ self.now }
        ensures once { AreDistinct result.now }
    {
        &self.ids
    }
}
