// Clauses of which one literal is true and the others are false.
ghost use Rattle.std.specs.Prelude.{◌≡◌, false};
ghost use Rattle.sr_watch.specs.State.{IsSound, value_in};
ghost use Rattle.sr_load.specs.Units.{is_unit_of};

use sr_base::Lit;
use sr_watch::Propagator;

/// Whether one literal is true and the others are false.
pub fn is_unit_in(propagator: &Propagator, lits: &[Lit]) -> bool
    requires { IsSound propagator.now }
    ensures { result ≡ is_unit_of propagator.now.lits false lits.now }
{
    let mut met = false;
    for l in lits {
        match value(propagator, *l) {
            None => return false,
            Some(true) => {
                if met {
                    return false;
                }
                met = true;
            }
            Some(false) => {}
        }
    }
    met
}

/// The value of a literal, of which the variable may have no room.
fn value(propagator: &Propagator, l: Lit) -> Option<bool>
    requires { IsSound propagator.now }
    ensures { result ≡ value_in propagator.now.lits l }
{
    if l.var() > propagator.vars() {
        return None;
    }
    propagator.value(l)
}
