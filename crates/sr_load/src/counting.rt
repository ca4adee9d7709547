// Calls of the propagator, each with a count of steps of its own.
ghost use Rattle.std.specs.Prelude.{◌≡◌, ◌<◌, [], length, OnOk, OnErr};
ghost use Rattle.sr_base.specs.Literal.{NoRepeats, SameSet};
ghost use Rattle.sr_watch.specs.State.{IsHeld, lits_at, held_cells, IsSound};
ghost use Rattle.sr_watch.specs.Changes.{Derives};
ghost use Rattle.sr_watch.specs.Meaning.{Means, IsLeast, IsAsked};
ghost use Rattle.sr_watch.specs.Lean.{IsChain};
ghost use Rattle.sr_watch.specs.Running.{asked_clause};

use sr_base::{Lit, NoMemory};
use sr_watch::{Cref, CrefList, Found, Part, Propagator, Steps};
use std::marker::Brand;
use std::sync::ledger::{Blank, Ledger};

/// The literals of a clause.
#[inline(always)]
pub fn lits_at(propagator: &Propagator, at: Cref) -> &[Lit]
    requires { IsHeld propagator.now at }
    ensures set { SameSet result.now (lits_at propagator.now at) }
    ensures distinct { NoRepeats result.now }
{
    count_and_read::<Brand>(propagator, at, Blank::new(1))
}

#[inline(always)]
fn count_and_read<L: Ledger>(propagator: &Propagator, at: Cref, blank: Blank) -> &[Lit]
    requires held { IsHeld propagator.now at }
    requires name { blank.name ≡ L.name }
    requires parts { blank.parts ≡ L.parts }
    requires some { 0 < blank.parts }
    ensures set { SameSet result.now (lits_at propagator.now at) }
    ensures distinct { NoRepeats result.now }
{
    let mut steps = Steps::<L>::new(blank);
    propagator.clause(at, &mut steps)
}

/// Propagates over a part.
pub fn propagate(propagator: &mut Propagator, part: Part) -> Found
    ensures derives { Derives propagator.old propagator.new }
    ensures means { Means part propagator.new result }
    ensures cells { held_cells propagator.new ≡ held_cells propagator.old }
    ensures sound { IsSound propagator.new }
    ensures least { IsLeast propagator.new }
{
    count_and_propagate::<Brand>(propagator, part, Blank::new(1))
}

fn count_and_propagate<L: Ledger>(propagator: &mut Propagator, part: Part, blank: Blank) -> Found
    requires name { blank.name ≡ L.name }
    requires parts { blank.parts ≡ L.parts }
    requires some { 0 < blank.parts }
    ensures derives { Derives propagator.old propagator.new }
    ensures means { Means part propagator.new result }
    ensures cells { held_cells propagator.new ≡ held_cells propagator.old }
    ensures sound { IsSound propagator.new }
    ensures least { IsLeast propagator.new }
{
    let mut steps = Steps::<L>::new(blank);
    propagator.propagate(part, &mut steps)
}

/// Writes a lean chain for a conflict or a pair into `chain`.
pub fn chain(
    propagator: &mut Propagator,
    found: Found,
    chain: &mut CrefList,
) -> Result<(), NoMemory>
    requires { IsAsked propagator.old found }
    ensures same { propagator.new ≡ propagator.old }
    ensures ok { OnOk result (IsChain propagator.old (asked_clause found) chain.new) }
    ensures err { OnErr result (chain.new ≡ []) }
{
    count_and_chain::<Brand>(propagator, found, chain, Blank::new(1))
}

fn count_and_chain<L: Ledger>(
    propagator: &mut Propagator,
    found: Found,
    chain: &mut CrefList,
    blank: Blank,
) -> Result<(), NoMemory>
    requires asked { IsAsked propagator.old found }
    requires name { blank.name ≡ L.name }
    requires parts { blank.parts ≡ L.parts }
    requires some { 0 < blank.parts }
    ensures same { propagator.new ≡ propagator.old }
    ensures ok { OnOk result (IsChain propagator.old (asked_clause found) chain.new) }
    ensures err { OnErr result (chain.new ≡ []) }
{
    let mut steps = Steps::<L>::new(blank);
    propagator.chain(found, chain, &mut steps)
}
