// The step of what was read.
ghost use Rattle.std.specs.Prelude.{◌≡◌, IfOk};
ghost use Rattle.sr_model.specs.Meeting.{HasPivot};
ghost use Rattle.sr_lsr.specs.Steps.{GivesStep};

use crate::hints::Hints;
use sr_base::{InputError, LitList};
use sr_lemma::{clause_of_list, find_witness};
use sr_wit::Step;
use std::alloc::Global;

/// The step of its number, its literals with those of its witness, and its hints. A fault of the whole
/// has the place of the `0` that ends the literals.
pub(crate) fn make_step(
    alloc: Global,
    id: u32,
    lits: LitList,
    end: u64,
    hints: Hints,
) -> Result<Step, InputError>
    ensures step { GivesStep id lits end hints.prefix hints.groups result }
    ensures pivot { IfOk result HasPivot }
{
    let witness = find_witness(alloc, lits.as_slice(), end)?;
    let Ok(clause) = clause_of_list(alloc, lits) else {
        return Err(InputError::NoMemory);
    };
    Ok(Step::new(id, clause, witness, hints.prefix, hints.groups).unwrap())
}
