// Adding a clause that was read to a formula.
ghost use Rattle.std.specs.Prelude.{◌≡◌, ◌<◌, ◌∷◌, ◌++◌, [], length, OnOk, OnErr};
ghost use Rattle.sr_base.specs.Literal.{distinct};
ghost use Rattle.sr_wit.specs.Formulas.{UsesUpTo};

use sr_base::{Clause, Lit, NoMemory, is_short_clause};
use sr_wit::Formula;
use std::alloc::Global;

/// Adds the clause of these literals without their repeats.
pub(crate) fn push_clause(
    alloc: Global,
    formula: &mut Formula,
    lits: &[Lit],
) -> Result<(), NoMemory>
    requires room { length formula.old.clauses < 2147483646 }
    requires within { UsesUpTo formula.old.vars lits.now }
    ensures ok { OnOk result (formula.new ≡ record formula.old { clauses = formula.old.clauses ++ distinct lits.now ∷ [] }) }
    ensures err { OnErr result (formula.new ≡ formula.old) }
{
    if is_short_clause(lits) {
        return formula.push_lits(lits);
    }
    formula.push(Clause::from_lits(alloc, lits)?)
}
