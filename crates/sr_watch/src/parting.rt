// Clauses that are attached to the core, to the rest, or to none.
ghost use Rattle.std.specs.Prelude.{ℕ, List, ◌≡◌, ◌<◌, [], true, false, None, Some, slice_index_or};
ghost use Rattle.sr_base.specs.Literal.{NoRepeats};
ghost use Rattle.sr_arena.specs.Cells.{IsHeld, cell_at};
ghost use Rattle.sr_watch.specs.State.{AreWithin};
ghost use Rattle.sr_watch.specs.Changes.{with_part};
ghost use Rattle.sr_watch.specs.Inside.{slots_of, AreKnown};
ghost use Rattle.sr_watch.specs.Trail.{Entries};
ghost use Rattle.sr_watch.specs.Watching.{is_of, tally};
ghost use Rattle.sr_watch.specs.Purging.{AreCleared};
ghost use Rattle.sr_watch.specs.Resting.{is_pending, AreWatched};
ghost use Rattle.sr_watch.specs.Parting.{IsParted, IsMoved, IsListedOnce, AreWatchedSomehow};

use crate::attaching::enter;
use crate::parts::Part;
use crate::purging::{clear, purge};
use crate::trail::Trail;
use crate::watches::Watches;
use sr_arena::{ClauseMem, Cref};

/// Marks and flags a clause as one of a part, or as one that is attached to none and may still be listed.
pub fn set_part(memory: &mut ClauseMem, at: Cref, part: Option<Part>)
    requires { IsHeld memory.old at }
    ensures parted { IsParted memory.old memory.new at part }
    ensures slots { slots_of memory.new ≡ with_part (slots_of memory.old) at part }
{
    match part {
        None => {
            memory.set_flag(at, true);
            memory.set_mark(at, false);
        }
        Some(part) => {
            memory.set_flag(at, part.is_core());
            memory.set_mark(at, true);
        }
    }
}

/// Where a detached clause may still be listed, all lists are rid of detached clauses.
pub fn freshen(
    memory: &mut ClauseMem,
    core: &mut Watches,
    rest: &mut Watches,
    known: &[Cref],
    at: Cref,
)
    requires held { IsHeld memory.old at }
    requires loose { (cell_at memory.old at).marked ≡ false }
    requires known { AreKnown memory.old known.now }
    requires watched { AreWatchedSomehow memory.old known.now core.old rest.old }
    ensures cleared { AreCleared memory.old memory.new }
    ensures fresh { (cell_at memory.new at).flagged ≡ false }
    ensures watched { (e : Entries) → AreWatched memory.old known.now e core.old rest.old → AreWatched memory.new known.now e core.new rest.new }
{
    if !memory.flag(at) {
        return;
    }
    purge(&mut core.lists, memory, true);
    purge(&mut rest.lists, memory, false);
    clear(memory, known);
}

/// Attaches a clause that isn't listed to a part.
pub fn attach_to(
    memory: &mut ClauseMem,
    core: &mut Watches,
    rest: &mut Watches,
    trail: &Trail,
    at: Cref,
    part: Part,
)
    requires held { IsHeld memory.old at }
    requires loose { (cell_at memory.old at).marked ≡ false }
    requires distinct { NoRepeats (cell_at memory.old at).lits }
    requires within { (r : ℕ) → AreWithin trail.now.vars (cell_at memory.old r).lits }
    requires watched { (known : List ℕ) × AreWatched memory.old known trail.now core.old rest.old × ((part ≡ Part.Core → tally core.old.lists [] (is_of at) ≡ 0) × (part ≡ Part.All → (cell_at memory.old at).flagged ≡ false)) }
    ensures moved { IsMoved memory.old memory.new at part }
    ensures distinct { NoRepeats (cell_at memory.new at).lits }
    ensures once { IsListedOnce memory.new core.new rest.new at }
    ensures watched { (known : List ℕ) → AreWatched memory.old known trail.now core.old rest.old → AreWatched memory.new known trail.now core.new rest.new }
{
    match part {
        Part::Core => enter(memory, core, trail, at),
        Part::All => enter(memory, rest, trail, at),
    }
    set_part(memory, at, Some(part));
}

/// A clause isn't pending any more.
pub fn forget(watches: &mut Watches, at: Cref)
    ensures rest { watches.new ≡ record watches.old { pending = watches.new.pending } }
    ensures here { is_pending watches.new.pending at ≡ false }
    ensures fewer { (r : ℕ) → is_pending watches.new.pending r ≡ true → is_pending watches.old.pending r ≡ true }
    ensures others { (r : ℕ) → is_pending watches.new.pending r ≡ false → is_pending watches.old.pending r ≡ true → r ≡ at }
{
    let Some(pending) = watches.pending else {
        return;
    };
    if pending == at {
        watches.pending = None;
    }
}
