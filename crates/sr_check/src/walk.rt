// A walk over the live clauses in order.
ghost use Rattle.std.specs.Prelude.{◌≡◌, ◌++◌, [], false, IfNone};
ghost use Rattle.sr_arena.specs.Cells.{cell_at};
ghost use Rattle.sr_check.specs.Storage.{live_of, taken};

use crate::reading::lits_at;
use sr_arena::{ClauseMem, Cref};
use sr_base::{ClauseId, Lit};
use std::marker::Model;

/// The live clauses that a walk has still to come to: those after the last one that it came to.
#[derive(Drop)]
pub struct Walk<'a> {
    mem: &'a ClauseMem,
    last: Option<Cref>,
}

impl<'a> Model for Walk<'a> {
    ghost use Rattle.std.specs.Prelude.{◌≡◌, ◌+◌, drop, false};
    ghost use Rattle.sr_model.specs.Chain.{Numbered};
    ghost use Rattle.sr_arena.specs.Cells.{reference, cell_at, IsHeldOrNone};
    ghost use Rattle.sr_check.specs.Storage.{numbered_in};

    ghost Value = { Numbered };

    ghost view = { λ w. numbered_in (drop (reference w.last + 1) w.mem.now.cells) };

    ghost invariant = { λ w. IsHeldOrNone w.mem.now w.last × ((cell_at w.mem.now 0).held ≡ false) };
}

impl<'a> Walk<'a> {
    /// A walk over the clauses of a memory.
    pub fn new(mem: &'a ClauseMem) -> Walk<'a>
        requires { (cell_at mem.now 0).held ≡ false }
        ensures { result ≡ live_of mem.now }
    {
        Walk { mem, last: None }
    }

    /// The next clause, with its number.
    pub fn next(&mut self) -> Option<(ClauseId, &'a [Lit])>
        ensures next { self.old ≡ taken result ++ self.new }
        ensures end { IfNone result (self.old ≡ []) }
    {
        let Some(at) = self.mem.next(self.last) else {
            return None;
        };
        self.last = Some(at);
        Some((self.mem.number(at), lits_at(self.mem, at)))
    }
}
