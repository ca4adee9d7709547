// Room for variables in a propagator.
ghost use Rattle.std.specs.Prelude.{◌≡◌, ◌≤◌, OnOk};
ghost use Rattle.sr_base.specs.declared.literal.TheConstants.{MOST_VARS};
ghost use Rattle.sr_watch.specs.State.{AreWithin};

use sr_base::{Lit, MOST_VARS, NoMemory};
use sr_watch::Propagator;
use sr_wit::Formula;

/// Makes room for a variable, and for twice as many where it has none, so that many calls take as long as a few.
pub fn make_room(propagator: &mut Propagator, var: u32) -> Result<(), NoMemory>
    requires { var ≤ MOST_VARS }
    ensures room { OnOk result (var ≤ propagator.new.vars) }
    ensures more { propagator.old.vars ≤ propagator.new.vars }
    ensures same { propagator.new ≡ record propagator.old { vars = propagator.new.vars } }
{
    let vars = propagator.vars();
    if var <= vars {
        return Ok(());
    }
    let more = if vars <= MOST_VARS / 2 {
        2 * vars
    } else {
        MOST_VARS
    };
    propagator.grow(if var < more { more } else { var })
}

/// Makes room for the variables of all literals.
pub fn make_room_for(propagator: &mut Propagator, lits: &[Lit]) -> Result<(), NoMemory>
    ensures room { OnOk result (AreWithin propagator.new.vars lits.now) }
    ensures more { propagator.old.vars ≤ propagator.new.vars }
    ensures same { propagator.new ≡ record propagator.old { vars = propagator.new.vars } }
{
    for l in lits {
        make_room(propagator, l.var())?;
    }
    Ok(())
}

/// Makes room for all variables of a formula at once.
pub fn make_room_for_all(propagator: &mut Propagator, formula: &Formula) -> Result<(), NoMemory>
    ensures same { propagator.new ≡ record propagator.old { vars = propagator.new.vars } }
{
    make_room(propagator, greatest_var(formula))
}

/// The greatest variable of a formula's clauses; 0 where they have none.
fn greatest_var(formula: &Formula) -> u32
    ensures { result ≤ MOST_VARS }
{
    let mut greatest = 0;
    for i in 0..formula.count() {
        greatest = greatest_of(formula.clause(i + 1), greatest);
    }
    greatest
}

/// The greatest of a number and the variables of literals.
fn greatest_of(lits: &[Lit], from: u32) -> u32
    requires { from ≤ MOST_VARS }
    ensures { result ≤ MOST_VARS }
{
    let mut greatest = from;
    for l in lits {
        let var = l.var();
        if var > greatest {
            greatest = var;
        }
    }
    greatest
}
