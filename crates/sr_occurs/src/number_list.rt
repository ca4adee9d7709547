// A list of clause numbers, from which those of clauses that are gone can be dropped.
ghost use Rattle.std.specs.Prelude.{◌≡◌, [], ◌∷◌, ◌++◌, filter, not, ◌==◌, OnOk, OnErr};
ghost use Rattle.sr_table.specs.Pages.{entry};

use sr_base::{ClauseId, NoMemory};
use sr_table::IdTable;
use std::alloc::Global;
use std::marker::Model;

/// A list of clause numbers, from which those of clauses that are gone can be dropped.
#[derive(Drop)]
pub struct NumberList {
    items: Vec<ClauseId>,
}

impl Model for NumberList {
    ghost use Rattle.std.specs.Prelude.{List, ℕ};

    ghost Value = { List ℕ };

    ghost view = { λ s. s.items.items };
}

impl NumberList {
    /// The empty list.
    pub fn new(alloc: Global) -> NumberList
        ensures { result ≡ [] }
    {
        NumberList {
            items: Vec::new(alloc),
        }
    }

    /// Adds a number at the end.
    #[inline]
    pub fn push(&mut self, id: ClauseId) -> Result<(), NoMemory>
        ensures ok { OnOk result (self.new ≡ self.old ++ id ∷ []) }
        ensures err { OnErr result (self.new ≡ self.old) }
    {
        match self.items.push(id) {
            Ok(()) => Ok(()),
            Err(_) => Err(NoMemory),
        }
    }

    /// Drops the numbers from which a table leads nowhere.
    pub fn keep_set(&mut self, table: &IdTable)
        ensures { self.new ≡ filter (λ n. not (entry table.now n == 0)) self.old }
    {
        self.items.retain(|id| table.get(*id) != 0);
    }

    /// The numbers.
    pub fn as_slice(&self) -> &[ClauseId]
        ensures { result.now ≡ self.now }
    {
        &self.items
    }
}
