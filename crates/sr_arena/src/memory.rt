// The memory of clauses, with its counts and its limit.
ghost use Rattle.std.specs.Prelude.{◌≡◌, ◌+◌, ◌<◌, ◌≤◌, [], ◌∷◌, length, IfOk, IfSome, OnErr, OnOk, ◌↔◌};
ghost use Rattle.std.specs.List.{swap};
ghost use Rattle.sr_arena.specs.Cells.{gone, fresh, cell_at, IsHeld, IsHeldOrNone, IsAdded, put, held_cells, reference, held_after};
ghost use Rattle.sr_arena.specs.Compaction.{IsCompacted, IsPacked};

use crate::counting::Steps;
use crate::moves::CrefMap;
use crate::references::Cref;
use crate::regions::Regions;
use sr_base::{AddError, Limits, Lit, MOST_CELLS, NoMemory};
use std::alloc::Global;
use std::marker::Model;
use std::sync::ledger::Ledger;

/// The most cells that may be in use where a clause is added. It is above twice the most that can be held and 1,024 more, so
/// who compacts beyond that never comes to it.
pub const MOST_USED: u32 = 2_147_483_648;

/// Clauses in one memory, under references.
///
/// A reference stays good until its clause is freed or the memory is compacted. Each call that takes one wants it to name a
/// held clause.
#[derive(Drop)]
pub struct ClauseMem {
    alloc: Global,
    regions: Regions,
    held: u32,
    most: u32,
}

impl Model for ClauseMem {
    ghost use Rattle.std.specs.Prelude.{◌≡◌, ◌≤◌};
    ghost use Rattle.sr_arena.specs.Cells.{Memory, weights};
    ghost use Rattle.sr_base.specs.declared.limits.TheConstants.{MOST_CELLS};

    ghost Value = { Memory };

    ghost view = { λ m. record { cells = m.regions.cells; used = m.regions.used; most = m.most; room = m.regions.room } };

    ghost invariant = { λ m. (m.held ≡ weights m.regions.cells) × (m.held ≤ m.most) × (m.most ≤ MOST_CELLS) };
}

impl ClauseMem {
    /// A memory with no clause, in which as many cells may be held as the limits say. It takes no memory.
    pub fn new(alloc: Global, limits: &Limits) -> ClauseMem
        ensures { result ≡ record { cells = gone ∷ []; used = 0; most = limits.now.cells; room = 0 } }
    {
        ClauseMem {
            alloc,
            regions: Regions::new(alloc),
            held: 0,
            most: limits.cells(),
        }
    }

    /// Makes room for the words of a clause of so many literals, so that adding it takes no memory.
    pub fn reserve(&mut self, len: usize) -> Result<(), NoMemory>
        requires { len ≤ MOST_CELLS }
        ensures same { self.new ≡ record self.old { room = self.new.room } }
        ensures ok { OnOk result (len + 2 ≤ self.new.room) }
        ensures memory { OnErr result (self.old.room < len + 2) }
        ensures err { OnErr result (self.new ≡ self.old) }
    {
        self.regions.reserve(len)
    }

    /// Adds a clause with a number of the caller's, and with no mark and no flag.
    ///
    /// Memory may lack only where there was no room for the clause's words.
    pub fn add(&mut self, lits: &[Lit], number: u32) -> Result<Cref, AddError>
        requires { self.old.used ≤ MOST_USED }
        ensures ok { IfOk result (λ at. IsAdded self.old self.new at (fresh lits.now number)) }
        ensures held { OnOk result (held_cells self.new ≡ held_cells self.old + (length lits.now + 4)) }
        ensures fits { OnOk result (held_cells self.new ≤ self.old.most) }
        ensures cells { result ≡ Err AddError.Cells ↔ (self.old.most < held_cells self.old + (length lits.now + 4)) }
        ensures memory { result ≡ Err AddError.NoMemory → self.old.room < length lits.now + 2 }
        ensures err { OnErr result (self.new ≡ self.old) }
    {
        let free = (self.most - self.held) as usize;
        if free < 4 || lits.len() > free - 4 {
            return Err(AddError::Cells);
        }
        let Ok(at) = self.regions.push(lits, number) else {
            return Err(AddError::NoMemory);
        };
        self.held += lits.len() as u32 + 4;
        Ok(Cref::at(at))
    }

    /// The literals of a clause in order. It takes one step.
    #[inline]
    pub fn lits<L: Ledger>(&self, at: Cref, steps: &mut Steps<L>) -> &[Lit]
        requires { IsHeld self.now at }
        ensures value { result.now ≡ (cell_at self.now at).lits }
        ensures tick { steps.new ≡ steps.old + 1 }
    {
        steps.tick();
        self.regions.lits(at.index() as usize)
    }

    /// How many literals a clause has. None of them is read.
    #[inline]
    pub fn len(&self, at: Cref) -> usize
        requires { IsHeld self.now at }
        ensures { result ≡ length (cell_at self.now at).lits }
    {
        self.regions.len(at.index() as usize)
    }

    /// Exchanges two literals of a clause.
    #[inline]
    pub fn swap(&mut self, at: Cref, i: usize, j: usize)
        requires held { IsHeld self.old at }
        requires i_within { i < length (cell_at self.old at).lits }
        requires j_within { j < length (cell_at self.old at).lits }
        ensures value { let c = cell_at self.old at in self.new ≡ put self.old at (record c { lits = swap c.lits i j }) }
        ensures held { held_cells self.new ≡ held_cells self.old }
    {
        self.regions.swap(at.index() as usize, i, j);
    }

    /// The number of a clause.
    #[inline]
    pub fn number(&self, at: Cref) -> u32
        requires { IsHeld self.now at }
        ensures { result ≡ (cell_at self.now at).number }
    {
        self.regions.number(at.index() as usize)
    }

    /// Gives a clause another number. What a number means is the caller's affair.
    #[inline]
    pub fn set_number(&mut self, at: Cref, number: u32)
        requires { IsHeld self.old at }
        ensures value { let c = cell_at self.old at in self.new ≡ put self.old at (record c { number = number }) }
        ensures held { held_cells self.new ≡ held_cells self.old }
    {
        self.regions.set_number(at.index() as usize, number);
    }

    /// Whether a clause is marked.
    #[inline]
    pub fn mark(&self, at: Cref) -> bool
        requires { IsHeld self.now at }
        ensures { result ≡ (cell_at self.now at).marked }
    {
        self.regions.mark(at.index() as usize)
    }

    /// Marks a clause or takes its mark away. What a mark means is the caller's affair.
    #[inline]
    pub fn set_mark(&mut self, at: Cref, on: bool)
        requires { IsHeld self.old at }
        ensures value { let c = cell_at self.old at in self.new ≡ put self.old at (record c { marked = on }) }
        ensures held { held_cells self.new ≡ held_cells self.old }
    {
        let index = at.index() as usize;
        let flagged = self.regions.flag(index);
        self.regions.set_bits(index, on, flagged);
    }

    /// Whether a clause is flagged.
    #[inline]
    pub fn flag(&self, at: Cref) -> bool
        requires { IsHeld self.now at }
        ensures { result ≡ (cell_at self.now at).flagged }
    {
        self.regions.flag(at.index() as usize)
    }

    /// Flags a clause or takes its flag away. What a flag means is the caller's affair.
    #[inline]
    pub fn set_flag(&mut self, at: Cref, on: bool)
        requires { IsHeld self.old at }
        ensures value { let c = cell_at self.old at in self.new ≡ put self.old at (record c { flagged = on }) }
        ensures held { held_cells self.new ≡ held_cells self.old }
    {
        let index = at.index() as usize;
        let marked = self.regions.mark(index);
        self.regions.set_bits(index, marked, on);
    }

    /// Lets a clause go. Its cells stay used until the memory is compacted.
    pub fn free(&mut self, at: Cref)
        requires { IsHeld self.old at }
        ensures value { self.new ≡ put self.old at gone }
        ensures held { held_cells self.new + (length (cell_at self.old at).lits + 4) ≡ held_cells self.old }
    {
        let len = self.regions.free(at.index() as usize);
        self.held -= len + 4;
    }

    /// The first held clause after another one, or the first of all. The time is linear in the clauses that were freed
    /// between them since the last compaction.
    pub fn next(&self, after: Option<Cref>) -> Option<Cref>
        requires { IsHeldOrNone self.now after }
        ensures value { reference result ≡ held_after self.now (reference after) }
        ensures held { IsHeldOrNone self.now result }
        ensures rises { IfSome result (λ at. reference after < at) }
    {
        let next = self.regions.next(Cref::index_of(after) as usize);
        Cref::from_index(next as u32)
    }

    /// The cells of held clauses: for each its literals and four more.
    #[inline]
    pub fn held_cells(&self) -> u32
        ensures value { result ≡ held_cells self.now }
        ensures fits { result ≤ self.now.most }
    {
        self.held
    }

    /// The cells in use: those of held clauses, and of clauses that were freed since the last compaction.
    #[inline]
    pub fn used_cells(&self) -> u32
        ensures { result ≡ self.now.used }
    {
        self.regions.used()
    }

    /// Moves the held clauses close together, under new references that `moved` leads to afterwards.
    ///
    /// The time is linear in the used cells. Memory is taken for the map alone, two numbers for each held clause. Where it
    /// lacks nothing changes.
    pub fn compact(&mut self, moved: &mut CrefMap) -> Result<(), NoMemory>
        ensures ok { OnOk result (IsCompacted self.old self.new moved.new) }
        ensures err { OnErr result (self.new ≡ self.old) }
        ensures map { OnErr result (moved.new ≡ moved.old) }
    {
        let moves = self.regions.moves(self.alloc)?;
        self.regions.slide(self.held);
        moved.set(moves);
        Ok(())
    }

    /// Moves the held clauses close together, for a caller that knows them by their numbers and finds their new references
    /// by [`ClauseMem::next`].
    ///
    /// The time is linear in the used cells. It takes no memory.
    pub fn pack(&mut self)
        ensures { IsPacked self.old self.new }
    {
        self.regions.slide(self.held);
    }
}
