// Reasons of entries.
//
// A clause forces the literal of it that isn't false, so it is the reason of one entry at most, and that is the first entry of
// its literal. So the entry is found by the clause's literals, without a look at the others.
//
// A clause of one literal takes over from the reason of the entry of its literal. So where solvers write such a clause for what
// is true already and then delete the reason, no entry goes. The reason before it is remembered, and takes over again where
// it still can.
ghost use Rattle.std.specs.Prelude.{◌≡◌, ◌≢◌, ◌<◌, ◌≤◌, true, false, take, IfSome};
ghost use Rattle.sr_base.specs.Literal.{has, variable};
ghost use Rattle.sr_arena.specs.Cells.{IsHeld, cell_at};
ghost use Rattle.sr_watch.specs.Marks.{joined};
ghost use Rattle.sr_watch.specs.Reasons.{IsReasonAt, MayBeReason, MayTakeOver, AreSpares};
ghost use Rattle.sr_watch.specs.State.{IsSound, IsAttached, IsForcedBy};
ghost use Rattle.sr_watch.specs.Watching.{is_short};

use crate::spares::Spares;
use crate::trail::Trail;
use crate::watches::single;
use sr_arena::{ClauseMem, Cref, Steps};
use sr_base::Lit;
use std::marker::Brand;
use std::sync::ledger::{Blank, Ledger};

/// Where the entry stands that a clause is the reason of; the number of entries where there is none.
pub fn place_of(memory: &ClauseMem, trail: &Trail, at: Cref) -> usize
    requires held { IsHeld memory.now at }
    requires sound { IsSound (joined trail.now memory.now) }
    ensures { IsReasonAt trail.now at result }
{
    place_counted::<Brand>(memory, trail, at, Blank::new(1))
}

/// The same with a count of steps.
fn place_counted<L: Ledger>(memory: &ClauseMem, trail: &Trail, at: Cref, blank: Blank) -> usize
    requires name { blank.name ≡ L.name }
    requires parts { blank.parts ≡ L.parts }
    requires some { 0 < blank.parts }
    requires held { IsHeld memory.now at }
    requires sound { IsSound (joined trail.now memory.now) }
    ensures { IsReasonAt trail.now at result }
{
    let mut steps = Steps::<L>::new(blank);
    let reason = at.index();
    let clause = memory.lits(at, &mut steps);
    let reasons = trail.reasons();
    for l in clause {
        let place = trail.place(*l) as usize;
        if place != 0 && reasons[place - 1] == reason {
            return place - 1;
        }
    }
    reasons.len()
}

/// Whether the first entries force a literal by a clause.
fn forces(memory: &ClauseMem, trail: &Trail, at: Cref, l: Lit, count: usize) -> bool
    requires held { IsHeld memory.now at }
    requires sound { IsSound (joined trail.now memory.now) }
    ensures { result ≡ true → IsForcedBy (cell_at memory.now at).lits (take count trail.now.lits) l }
{
    forces_counted::<Brand>(memory, trail, at, l, count, Blank::new(1))
}

/// The same with a count of steps.
fn forces_counted<L: Ledger>(
    memory: &ClauseMem,
    trail: &Trail,
    at: Cref,
    l: Lit,
    count: usize,
    blank: Blank,
) -> bool
    requires name { blank.name ≡ L.name }
    requires parts { blank.parts ≡ L.parts }
    requires some { 0 < blank.parts }
    requires held { IsHeld memory.now at }
    requires sound { IsSound (joined trail.now memory.now) }
    ensures { result ≡ true → IsForcedBy (cell_at memory.now at).lits (take count trail.now.lits) l }
{
    let mut steps = Steps::<L>::new(blank);
    let clause = memory.lits(at, &mut steps);
    let mut found = false;
    for k in clause {
        if k.is(l) {
            found = true;
            continue;
        }
        if !is_early(trail, k.neg(), count) {
            return false;
        }
    }
    found
}

/// Whether one of the first entries makes a literal true.
#[inline]
fn is_early(trail: &Trail, l: Lit, count: usize) -> bool
    requires { variable l ≤ trail.now.vars }
    ensures { result ≡ true → has l (take count trail.now.lits) ≡ true }
{
    let place = trail.place(l) as usize;
    if place == 0 || place > count {
        return false;
    }
    true
}

/// Where a clause of more literals derived the literal of a clause of one, that clause becomes the reason, and the one before
/// it is remembered.
pub fn take_over(memory: &ClauseMem, trail: &mut Trail, spares: &mut Spares, at: Cref)
    requires held { IsHeld memory.now at }
    requires sound { IsSound (joined trail.old memory.now) }
    requires attached { IsAttached (joined trail.old memory.now) at }
    requires spares { AreSpares memory.now trail.old.vars spares.old }
    ensures taken { MayTakeOver memory.now trail.old trail.new at }
    ensures spares { AreSpares memory.now trail.old.vars spares.new }
{
    let Some(l) = single(memory, at) else {
        return;
    };
    let place = trail.place(l) as usize;
    if place == 0 {
        return;
    }
    let Some(reason) = Cref::from_index(trail.reasons()[place - 1]) else {
        return;
    };
    if single(memory, reason).is_some() {
        return;
    }
    spares.set(l.var(), reason);
    trail.set_reason(place - 1, at.index());
}

/// The remembered clause that can take over from the reason of an entry. It has more than one literal.
pub fn heir(
    memory: &ClauseMem,
    trail: &Trail,
    spares: &Spares,
    at: Cref,
    place: usize,
) -> Option<Cref>
    requires sound { IsSound (joined trail.now memory.now) }
    requires spares { AreSpares memory.now trail.now.vars spares.now }
    requires some { 0 < at }
    requires was { IsReasonAt trail.now at place }
    ensures { IfSome result (λ r. MayBeReason memory.now trail.now place r × (r ≢ at) × (is_short (cell_at memory.now r).lits ≡ false)) }
{
    if place >= trail.lits().len() {
        return None;
    }
    let l = trail.lits()[place];
    let reason = spares.get(l.var())?;
    if reason == at || !memory.mark(reason) {
        return None;
    }
    if single(memory, reason).is_some() {
        return None;
    }
    if !forces(memory, trail, reason, l, place) {
        return None;
    }
    Some(reason)
}
