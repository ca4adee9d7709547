// What a propagator finds of the literals that are assumed in it.
ghost use Rattle.std.specs.Prelude.{◌≡◌, [], map, take, IfOk, OnOk, OnErr, ◌↔◌, IsTrue};
ghost use Rattle.sr_watch.specs.State.{held_cells, IsSound};
ghost use Rattle.sr_watch.specs.Changes.{Derives};
ghost use Rattle.sr_load.specs.Finding.{number_at, AreAllAttached, AreAttachedOrNone, Finds};

use crate::counting::{chain, propagate};
use sr_base::{IdList, NoMemory};
use sr_watch::{Cref, CrefList, Found, Part, Propagator};

/// Whether the clauses of the part refute what is assumed, and the numbers of a lean chain where there is a conflict; else
/// `numbers` is empty, also where memory lacks. `refs` is room to work in.
pub fn test(
    propagator: &mut Propagator,
    part: Part,
    refs: &mut CrefList,
    numbers: &mut IdList,
) -> Result<bool, NoMemory>
    ensures derives { Derives propagator.old propagator.new }
    ensures cells { held_cells propagator.new ≡ held_cells propagator.old }
    ensures sound { IsSound propagator.new }
    ensures ok { IfOk result (λ b. Finds propagator.new part b numbers.new) }
    ensures err { OnErr result (numbers.new ≡ []) }
{
    numbers.truncate(0);
    let found = propagate(propagator, part);
    if is_still(&found) {
        return Ok(false);
    }
    chain(propagator, found, refs)?;
    write_numbers(propagator, refs.as_slice(), numbers)?;
    Ok(true)
}

/// Whether nothing more follows.
pub fn is_still(found: &Found) -> bool
    ensures { IsTrue result ↔ (found.now ≡ Found.Still) }
{
    matches!(found, Found::Still)
}

/// Writes the numbers of clauses, or none where memory lacks.
fn write_numbers(
    propagator: &Propagator,
    refs: &[Cref],
    numbers: &mut IdList,
) -> Result<(), NoMemory>
    requires attached { AreAttachedOrNone propagator.now refs.now }
    requires none { numbers.old ≡ [] }
    requires sound { IsSound propagator.now }
    ensures attached { OnOk result (AreAllAttached propagator.now refs.now) }
    ensures ok { OnOk result (numbers.new ≡ map (number_at propagator.now) refs.now) }
    ensures err { OnErr result (numbers.new ≡ []) }
{
    for at in refs {
        let _some = at.index();
        if numbers.push(propagator.number(*at)).is_err() {
            numbers.truncate(0);
            return Err(NoMemory);
        }
    }
    Ok(())
}
