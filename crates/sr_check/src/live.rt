// The live clauses, as the rest of the checker reads them.
ghost use Rattle.std.specs.Prelude.{◌≡◌};
ghost use Rattle.std.specs.Option.{option_copied};
ghost use Rattle.sr_model.specs.Chain.{clauses, clause_of};
ghost use Rattle.sr_model.specs.Judging.{cells_of};
ghost use Rattle.sr_occurs.specs.Occurring.{IsTableFor};
ghost use Rattle.sr_check.specs.Storage.{live_of, AreApart, IsLinked};

use crate::reading::lits_at;
use crate::walk::Walk;
use sr_arena::{ClauseMem, Cref};
use sr_base::{ClauseId, Lit};
use sr_table::IdTable;
use std::marker::Model;

/// The live clauses under their numbers, in the order in which they were added.
#[derive(Drop)]
pub struct LiveClauses<'a> {
    mem: &'a ClauseMem,
    table: &'a IdTable,
}

impl<'a> Model for LiveClauses<'a> {
    ghost use Rattle.sr_model.specs.Chain.{Numbered};
    ghost use Rattle.sr_check.specs.Storage.{live_of, IsLinked};

    ghost Value = { Numbered };

    ghost view = { λ c. live_of c.mem.now };

    ghost invariant = { λ c. IsLinked c.mem.now c.table.now };
}

impl<'a> LiveClauses<'a> {
    /// The clauses of a memory to which a table leads from their numbers.
    #[inline]
    pub fn new(mem: &'a ClauseMem, table: &'a IdTable) -> LiveClauses<'a>
        requires { IsLinked mem.now table.now }
        ensures { result ≡ live_of mem.now }
    {
        LiveClauses { mem, table }
    }

    /// The clause of a number.
    #[inline]
    pub fn get(&self, id: ClauseId) -> Option<&'a [Lit]>
        ensures { option_copied result ≡ clause_of self.now id }
    {
        let Some(at) = Cref::from_index(self.table.get(id)) else {
            return None;
        };
        Some(lits_at(self.mem, at))
    }

    /// The table that leads from the numbers of the clauses.
    #[inline]
    pub fn table(&self) -> &'a IdTable
        ensures { IsTableFor result.now self.now }
    {
        self.table
    }

    /// A walk over the clauses in order.
    pub fn walk(&self) -> Walk<'a>
        ensures value { result ≡ self.now }
        ensures apart { AreApart self.now }
    {
        Walk::new(self.mem)
    }

    /// The cells in which the clauses are held.
    pub fn cells(&self) -> u64
        ensures { result ≡ cells_of (clauses self.now) }
    {
        self.mem.held_cells() as u64
    }
}
