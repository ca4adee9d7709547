// Clauses that may be the reasons of entries again, by variable.
ghost use Rattle.std.specs.Prelude.{ℕ, ◌≡◌, ◌≤◌, ◌<◌, ◌-◌, [], length, slice_index_or, slice_set, OnOk};
ghost use Rattle.sr_base.specs.declared.literal.TheConstants.{MOST_VARS};
ghost use Rattle.sr_arena.specs.Cells.{reference};

use crate::trail::{fill, reserve_to};
use sr_arena::Cref;
use sr_base::NoMemory;
use std::alloc::Global;
use std::marker::Model;

/// For each variable the clause that was the reason of its entry before a clause of one literal took over, or 0.
///
/// It may be out of date: who takes a clause from here sees that it can be the reason.
#[derive(Drop)]
pub struct Spares {
    table: Vec<u32>,
}

impl Model for Spares {
    ghost use Rattle.std.specs.Prelude.{List, ℕ};

    ghost Value = { List ℕ };

    ghost view = { λ s. s.table.items };
}

impl Spares {
    /// No clauses, and no room. It takes no memory.
    pub fn new(alloc: Global) -> Spares
        ensures { result ≡ [] }
    {
        Spares {
            table: Vec::new(alloc),
        }
    }

    /// Makes room for the variables up to `var`. It changes nothing else.
    pub fn grow(&mut self, var: u32) -> Result<(), NoMemory>
        requires { var ≤ MOST_VARS }
        ensures ok { OnOk result (var ≤ length self.new) }
        ensures longer { length self.old ≤ length self.new }
        ensures same { (v : ℕ) → slice_index_or self.new v 0 ≡ slice_index_or self.old v 0 }
    {
        let size = var as usize;
        if size <= self.table.len() {
            return Ok(());
        }
        reserve_to(&mut self.table, size)?;
        fill(&mut self.table, size, 0);
        Ok(())
    }

    /// The clause of a variable.
    pub fn get(&self, var: u32) -> Option<Cref>
        requires low { 0 < var }
        requires high { var ≤ length self.now }
        ensures { reference result ≡ slice_index_or self.now (var - 1) 0 }
    {
        Cref::from_index(self.table[var as usize - 1])
    }

    /// Notes the clause of a variable.
    pub fn set(&mut self, var: u32, reason: Cref)
        requires low { 0 < var }
        requires high { var ≤ length self.old }
        ensures { self.new ≡ slice_set self.old (var - 1) reason }
    {
        self.table[var as usize - 1] = reason.index();
    }
}
