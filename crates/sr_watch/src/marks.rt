// Marks on literals, by code.
ghost use Rattle.std.specs.Prelude.{ℕ, ◌≡◌, ◌≤◌, ◌<◌, ◌+◌, ◌*◌, ◌-◌, ◌++◌, [], cond, replicate, length, OnErr, OnOk, IsOk};
ghost use Rattle.sr_base.specs.Literal.{Literal, complement, has, variable};
ghost use Rattle.sr_base.specs.declared.literal.TheConstants.{MOST_VARS};
ghost use Rattle.sr_watch.specs.State.{AreWithin};
ghost use Rattle.sr_watch.specs.Trail.{table_size};
ghost use Rattle.sr_watch.specs.Marks.{marked, AreClear};

use crate::trail::{fill, reserve_to};
use sr_base::{Lit, NoMemory};
use std::alloc::Global;
use std::marker::Model;

/// For each code whether it is marked.
#[derive(Drop)]
pub struct Marks {
    table: Vec<bool>,
}

impl Model for Marks {
    ghost use Rattle.std.specs.Prelude.{List, Bool};

    ghost Value = { List Bool };

    ghost view = { λ m. m.table.items };
}

impl Marks {
    /// No marks, and no room. It takes no memory.
    pub fn new(alloc: Global) -> Marks
        ensures { result ≡ [] }
    {
        Marks {
            table: Vec::new(alloc),
        }
    }

    /// Makes room for the literals of the variables up to `var`. Want of memory changes nothing.
    pub fn grow(&mut self, var: u32) -> Result<(), NoMemory>
        requires fits { var ≤ MOST_VARS }
        requires clear { AreClear self.old }
        ensures clear { AreClear self.new }
        ensures longer { length self.old ≤ length self.new }
        ensures ok { OnOk result (2 * var + 2 ≤ length self.new) }
        ensures has_room { 2 * var + 2 ≤ length self.old → IsOk result }
    {
        let size = 2 * var as usize + 2;
        if size <= self.table.len() {
            return Ok(());
        }
        reserve_to(&mut self.table, size)?;
        fill(&mut self.table, size, false);
        Ok(())
    }

    /// Whether a literal is marked.
    #[inline]
    pub fn is_marked(&self, l: Lit, vars: u32) -> bool
        requires within { variable l ≤ vars }
        requires room { table_size vars ≤ length self.now }
        ensures { result ≡ marked self.now l }
    {
        let _var = l.var();
        self.table[l.code() as usize]
    }

    /// Marks the complements of a clause's literals, or takes their marks away.
    pub fn mark(&mut self, clause: &[Lit], vars: u32, value: bool)
        requires within { AreWithin vars clause.now }
        requires room { table_size vars ≤ length self.old }
        ensures size { length self.new ≡ length self.old }
        ensures marks { (l : Literal) → marked self.new l ≡ cond (has (complement l) clause.now) value (marked self.old l) }
    {
        for k in clause {
            let _var = k.var();
            self.table[k.neg().code() as usize] = value;
        }
    }
}
