// Where a compaction moved the clauses.
ghost use Rattle.std.specs.Prelude.{◌≡◌, ℕ, ◌<◌, ◌≤◌, ◌↔◌, [], length, slice_index_or, IsNone};
ghost use Rattle.sr_arena.specs.declared.moves.Move.{Move};
ghost use Rattle.sr_arena.specs.Cells.{reference};
ghost use Rattle.sr_arena.specs.Compaction.{moved_to, AreRising};

use crate::references::Cref;
use std::alloc::Global;
use std::marker::Model;

/// A clause's reference before a compaction and after it.
#[derive(Clone, Copy)]
pub struct Move {
    pub from: u32,
    pub to: u32,
}

/// The references that a compaction gave to the clauses: one entry for each of them.
#[derive(Drop)]
pub struct CrefMap {
    moves: Vec<Move>,
}

impl Model for CrefMap {
    ghost use Rattle.std.specs.Prelude.{List};
    ghost use Rattle.sr_arena.specs.declared.moves.Move.{Move};
    ghost use Rattle.sr_arena.specs.Compaction.{AreRising};

    ghost Value = { List Move };

    ghost view = { λ m. m.moves.items };

    ghost invariant = { λ m. AreRising m.moves.items };
}

impl CrefMap {
    /// The map that no compaction wrote. It takes no memory.
    pub fn new(alloc: Global) -> CrefMap
        ensures { result ≡ [] }
    {
        CrefMap {
            moves: Vec::new(alloc),
        }
    }

    /// The new reference of a clause; none where it wasn't held as the last compaction into this map began, or where there
    /// was none.
    pub fn get(&self, old: Cref) -> Option<Cref>
        ensures value { reference result ≡ moved_to self.now old }
        ensures none { IsNone result ↔ (moved_to self.now old ≡ 0) }
    {
        let from = old.index();
        let place = first_from(&self.moves, from);
        if place < self.moves.len() {
            let found = self.moves[place];
            if found.from == from {
                return Cref::from_index(found.to);
            }
        }
        None
    }

    /// Takes other moves.
    pub(crate) fn set(&mut self, moves: Vec<Move>)
        requires { AreRising moves.items }
        ensures { self.new ≡ moves.items }
    {
        self.moves = moves;
    }
}

/// The place of the first move that doesn't begin below a reference.
fn first_from(moves: &[Move], from: u32) -> usize
    requires { AreRising moves.now }
    ensures bound { result ≤ length moves.now }
    ensures below { (k : ℕ) (d : Move) → k < result → (slice_index_or moves.now k d).from < from }
    ensures left { (k : ℕ) (d : Move) → result ≤ k → k < length moves.now → from ≤ (slice_index_or moves.now k d).from }
{
    let mut low = 0;
    let mut high = moves.len();
    while low < high {
        let middle = low + (high - low) / 2;
        if moves[middle].from < from {
            low = middle + 1;
        } else {
            high = middle;
        }
    }
    low
}
