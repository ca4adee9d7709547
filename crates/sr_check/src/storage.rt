// The live clauses in a clause memory, which holds them with their numbers. A table leads from the numbers to references of
// the memory, 0 for none; it is made anew where the memory is compacted, so that it has no pages but for numbers of clauses
// that are held or were freed since.
ghost use Rattle.std.specs.Prelude.{◌≡◌, ◌+◌, ◌*◌, ◌<◌, ◌≤◌, ◌↔◌, false, [], ◌∷◌, length, IsTrue, IfOk, OnOk, OnErr, IfNone, OnSome};
ghost use Rattle.sr_model.specs.Chain.{clauses};
ghost use Rattle.sr_model.specs.Judging.{without, first_dead, clause_cells, cells_of};
ghost use Rattle.sr_arena.specs.Cells.{cell_at, held_cells};
ghost use Rattle.sr_table.specs.Pages.{SameEntries};
ghost use Rattle.sr_check.specs.Storage.{with_last, live_of, AreApart, AreOpen, LeadsLive, IsLinked, HoldsLive};

use crate::dead::find_dead;
use crate::live::LiveClauses;
use sr_arena::{ClauseMem, Cref, MOST_USED};
use sr_base::{ClauseId, Limits, Lit, NoMemory};
use sr_table::IdTable;
use std::alloc::Global;
use std::marker::Model;

/// The used cells that are let be however few are held.
const SLACK: u64 = 1_024;

/// The entries of a page of a table.
const PAGE: u64 = 4_096;

/// The live clauses under their numbers, in the order in which they were added, within a limit of cells.
#[derive(Drop)]
pub struct Storage {
    mem: ClauseMem,
    table: IdTable,
    last: ClauseId,
    most: u32,
}

impl Model for Storage {
    ghost use Rattle.sr_check.specs.Storage.{Stored, live_of, KeepsStored};

    ghost Value = { Stored };

    ghost view = { λ s. record { clauses = live_of s.mem; last = s.last; most = s.most; used = s.mem.used } };

    ghost invariant = { λ s. KeepsStored s.mem s.table s.last s.most };
}

impl Storage {
    /// No clauses.
    pub fn new(alloc: Global, limits: &Limits) -> Result<Storage, NoMemory>
        ensures { IfOk result (λ s. s ≡ record { clauses = []; last = 0; most = limits.now.cells; used = 0 }) }
    {
        Ok(Storage {
            mem: ClauseMem::new(alloc, limits),
            table: IdTable::new(alloc)?,
            last: 0,
            most: limits.cells(),
        })
    }

    /// The live clauses, to be read.
    #[inline]
    pub fn clauses(&self) -> LiveClauses<'_>
        ensures { result ≡ self.now.clauses }
    {
        LiveClauses::new(&self.mem, &self.table)
    }

    /// The memory in which the clauses are held.
    pub fn memory(&self) -> &ClauseMem
        ensures holds { HoldsLive result.now self.now.clauses }
        ensures used { result.now.used ≡ self.now.used }
        ensures most { result.now.most ≡ self.now.most }
    {
        &self.mem
    }

    /// The greatest number so far.
    pub fn last(&self) -> u32
        ensures { result ≡ self.now.last }
    {
        self.last
    }

    /// The cells in which the live clauses are held.
    pub fn cells(&self) -> u64
        ensures value { result ≡ cells_of (clauses self.now.clauses) }
        ensures fits { result < 4294967296 }
    {
        self.mem.held_cells() as u64
    }

    /// Whether a clause fits in the limit of cells.
    pub fn has_room(&self, lits: &[Lit]) -> bool
        ensures { IsTrue result ↔ (cells_of (clauses self.now.clauses) + clause_cells lits.now ≤ self.now.most) }
    {
        self.cells() + lits.len() as u64 + 4 <= self.most as u64
    }

    /// Adds a clause at the end, under a number above all others.
    pub fn add_last(&mut self, id: ClauseId, lits: &[Lit]) -> Result<(), NoMemory>
        requires new { self.old.last < id }
        requires fits { cells_of (clauses self.old.clauses) + clause_cells lits.now ≤ self.old.most }
        requires tidy { self.old.used ≤ MOST_USED }
        ensures ok { OnOk result (self.new ≡ with_last self.old id lits.now) }
        ensures err { OnErr result (self.new ≡ self.old) }
    {
        self.mem.reserve(lits.len())?;
        self.table.open(id)?;
        let Ok(at) = self.mem.add(lits, id) else {
            return Err(NoMemory);
        };
        self.table.put(id, at.index());
        self.last = id;
        Ok(())
    }

    /// Removes the clause of a number, if there is one.
    #[inline]
    pub fn remove(&mut self, id: ClauseId)
        ensures { self.new ≡ record self.old { clauses = without (id ∷ []) self.old.clauses } }
    {
        let Some(at) = Cref::from_index(self.table.get(id)) else {
            return;
        };
        self.mem.free(at);
        self.table.unset(id);
    }

    /// Removes the clauses of the numbers.
    pub fn remove_all(&mut self, ids: &[ClauseId])
        ensures { self.new ≡ record self.old { clauses = without ids.now self.old.clauses } }
    {
        for id in ids {
            self.remove(*id);
        }
    }

    /// Removes the clauses of the numbers one after another. Where one isn't live when its turn comes it is told, and
    /// all clauses stay.
    pub fn remove_each(&mut self, ids: &[ClauseId]) -> Option<ClauseId>
        ensures dead { result ≡ first_dead self.old.clauses ids.now }
        ensures removed { IfNone result (self.new ≡ record self.old { clauses = without ids.now self.old.clauses }) }
        ensures kept { OnSome result (self.new ≡ self.old) }
    {
        let dead = self.find_dead(ids);
        if dead.is_none() {
            self.remove_all(ids);
        }
        dead
    }

    /// The first of the numbers that isn't live when its turn comes.
    fn find_dead(&mut self, ids: &[ClauseId]) -> Option<ClauseId>
        ensures dead { result ≡ first_dead self.old.clauses ids.now }
        ensures same { self.new ≡ self.old }
    {
        find_dead(&mut self.mem, &self.table, ids)
    }

    /// Compacts the memory where its used cells are above twice the held ones and some more, and only there. The clauses
    /// stay as they are, and where memory lacks the used cells do too.
    pub fn tidy(&mut self, alloc: Global) -> Result<(), NoMemory>
        ensures same { self.new ≡ record self.old { used = self.new.used } }
        ensures rare { self.old.used ≤ 2 * cells_of (clauses self.old.clauses) + 1024 → self.new ≡ self.old }
        ensures ok { OnOk result (self.new.used ≤ 2 * cells_of (clauses self.old.clauses) + 1024) }
        ensures fewer { self.new.used ≤ self.old.used }
        ensures err { OnErr result (self.new ≡ self.old) }
    {
        let held = self.mem.held_cells() as u64;
        if self.mem.used_cells() as u64 <= 2 * held + SLACK {
            return Ok(());
        }
        prepare(&self.mem, &mut self.table, alloc)?;
        self.mem.pack();
        link(&self.mem, &mut self.table);
        Ok(())
    }
}

/// Prepares a table for new references. It stays where it has few pages for what is held, and else one takes its place that
/// has the pages of held clauses alone.
fn prepare(mem: &ClauseMem, table: &mut IdTable, alloc: Global) -> Result<(), NoMemory>
    requires { IsLinked mem.now table.old }
    ensures known { OnOk result (LeadsLive table.new (live_of mem.now)) }
    ensures open { OnOk result (AreOpen table.new (live_of mem.now)) }
    ensures pages { OnOk result (length table.new.entries ≤ 1024 * held_cells mem.now + 4096) }
    ensures err { OnErr result (table.new ≡ table.old) }
{
    if table.size() as u64 <= 1_024 * mem.held_cells() as u64 + PAGE {
        return Ok(());
    }
    let mut fresh = IdTable::new(alloc)?;
    open_pages(mem, &mut fresh)?;
    *table = fresh;
    Ok(())
}

/// Makes the pages of the numbers of all held clauses.
fn open_pages(mem: &ClauseMem, table: &mut IdTable) -> Result<(), NoMemory>
    requires none { (cell_at mem.now 0).held ≡ false }
    ensures same { SameEntries table.old table.new }
    ensures open { OnOk result (AreOpen table.new (live_of mem.now)) }
    ensures pages { length table.new.entries ≤ length table.old.entries + 1024 * held_cells mem.now }
{
    let mut next = mem.next(None);
    while let Some(at) = next {
        table.open(mem.number(at))?;
        next = mem.next(next);
    }
    Ok(())
}

/// Leads from the numbers of all held clauses to them. Their pages were made, and no other number leads anywhere.
fn link(mem: &ClauseMem, table: &mut IdTable)
    requires none { (cell_at mem.now 0).held ≡ false }
    requires known { LeadsLive table.old (live_of mem.now) }
    requires open { AreOpen table.old (live_of mem.now) }
    requires apart { AreApart (live_of mem.now) }
    ensures linked { IsLinked mem.now table.new }
    ensures pages { length table.new.entries ≡ length table.old.entries }
{
    let mut next = mem.next(None);
    while let Some(at) = next {
        table.put(mem.number(at), at.index());
        next = mem.next(next);
    }
}
