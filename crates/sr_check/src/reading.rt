// Reading a clause of the memory with a counter of its own.
ghost use Rattle.std.specs.Prelude.{◌≡◌, ◌<◌};
ghost use Rattle.sr_arena.specs.Cells.{IsHeld, cell_at};

use sr_arena::{ClauseMem, Cref, Steps};
use sr_base::Lit;
use std::marker::Brand;
use std::sync::ledger::{Blank, Ledger};

/// The literals of a clause.
#[inline(always)]
pub fn lits_at(mem: &ClauseMem, at: Cref) -> &[Lit]
    requires { IsHeld mem.now at }
    ensures { result.now ≡ (cell_at mem.now at).lits }
{
    count_and_read::<Brand>(mem, at, Blank::new(1))
}

#[inline(always)]
fn count_and_read<L: Ledger>(mem: &ClauseMem, at: Cref, blank: Blank) -> &[Lit]
    requires held { IsHeld mem.now at }
    requires name { blank.name ≡ L.name }
    requires parts { blank.parts ≡ L.parts }
    requires some { 0 < blank.parts }
    ensures { result.now ≡ (cell_at mem.now at).lits }
{
    let mut steps = Steps::<L>::new(blank);
    mem.lits(at, &mut steps)
}
