// Literals that are assumed in a propagator one after another, and how many entries there were before each.
ghost use Rattle.std.specs.Prelude.{◌≡◌, ◌≤◌, ◌∷◌, ◌++◌, [], length, take, OnOk, OnErr};
ghost use Rattle.sr_base.specs.Literal.{variable};
ghost use Rattle.sr_watch.specs.State.{held_cells, IsSound};
ghost use Rattle.sr_watch.specs.Changes.{Derives, AreReordered};
ghost use Rattle.sr_load.specs.Tied.{AreAssumed};

use crate::counting::propagate;
use sr_base::{Lit, LitList, NoMemory};
use sr_watch::{Part, Propagator};

/// Assumes a literal. Before the first one, what follows without any is derived, so that it is derived once and stays when the
/// literals go.
pub fn assume(
    propagator: &mut Propagator,
    assumed: &mut LitList,
    marks: &mut Vec<usize>,
    l: Lit,
) -> Result<(), NoMemory>
    requires room { variable l ≤ propagator.old.vars }
    requires entries { AreAssumed propagator.old.lits propagator.old.reasons assumed.old marks.old.items }
    ensures ok { OnOk result (assumed.new ≡ assumed.old ++ l ∷ []) }
    ensures err { OnErr result (assumed.new ≡ assumed.old) }
    ensures entries { AreAssumed propagator.new.lits propagator.new.reasons assumed.new marks.new.items }
    ensures clauses { AreReordered propagator.old.slots propagator.new.slots }
    ensures cells { held_cells propagator.new ≡ held_cells propagator.old }
{
    close(propagator, Part::All, marks.is_empty());
    if marks.reserve(1).is_err() {
        return Err(NoMemory);
    }
    assumed.push(l)?;
    marks.push_reserved(propagator.mark());
    propagator.assume(l);
    Ok(())
}

/// Derives what follows by a part, where that is asked.
pub fn close(propagator: &mut Propagator, part: Part, asked: bool)
    ensures derives { Derives propagator.old propagator.new }
    ensures cells { held_cells propagator.new ≡ held_cells propagator.old }
    ensures sound { IsSound propagator.new }
{
    if asked {
        let _found = propagate(propagator, part);
        return;
    }
    let _entries = propagator.entries();
}

/// Keeps the first literals that were assumed alone.
pub fn undo_to(
    propagator: &mut Propagator,
    assumed: &mut LitList,
    marks: &mut Vec<usize>,
    mark: usize,
)
    requires { AreAssumed propagator.old.lits propagator.old.reasons assumed.old marks.old.items }
    ensures assumed { assumed.new ≡ take mark assumed.old }
    ensures entries { AreAssumed propagator.new.lits propagator.new.reasons assumed.new marks.new.items }
    ensures clauses { propagator.new.slots ≡ propagator.old.slots }
{
    if mark >= marks.len() {
        return;
    }
    propagator.undo_to(marks[mark]);
    marks.truncate(mark);
    assumed.truncate(mark);
}
