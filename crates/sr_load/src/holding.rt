// One clause more in a propagator, under the next number.
ghost use Rattle.std.specs.Prelude.{◌≡◌, ◌<◌, ◌++◌, ◌∷◌, [], false, length, OnOk, OnErr};
ghost use Rattle.sr_base.specs.Literal.{NoRepeats};
ghost use Rattle.sr_load.specs.Holding.{HoldsMore};

use crate::room::make_room_for;
use sr_base::{Lit, NoMemory};
use sr_watch::{Cref, Part, Propagator};

/// Holds a clause under the number after those of `refs`, attached to the rest and not cited. Where memory lacks there may be
/// room for more variables, and nothing else changes.
pub fn hold(
    propagator: &mut Propagator,
    refs: &mut Vec<Cref>,
    flags: &mut Vec<bool>,
    lits: &[Lit],
) -> Result<(), NoMemory>
    requires distinct { NoRepeats lits.now }
    requires small { length refs.old.items < 2147483647 }
    ensures ok { OnOk result (HoldsMore propagator.old propagator.new refs.old.items refs.new.items lits.now) }
    ensures flags { OnOk result (flags.new.items ≡ flags.old.items ++ false ∷ []) }
    ensures err { OnErr result (propagator.new ≡ record propagator.old { vars = propagator.new.vars }) }
    ensures err_refs { OnErr result (refs.new.items ≡ refs.old.items) }
    ensures err_flags { OnErr result (flags.new.items ≡ flags.old.items) }
{
    make_room_for(propagator, lits)?;
    if refs.reserve(1).is_err() || flags.reserve(1).is_err() {
        return Err(NoMemory);
    }
    let number = refs.len() as u32 + 1;
    let Ok(at) = propagator.add(lits, number) else {
        return Err(NoMemory);
    };
    let _index = at.index();
    propagator.attach(at, Part::All);
    refs.push_reserved(at);
    flags.push_reserved(false);
    Ok(())
}
