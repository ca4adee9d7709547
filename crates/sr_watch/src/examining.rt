// A look at one clause, one of whose watches is false.
ghost use Rattle.std.specs.Prelude.{◌≡◌, ◌≤◌, ◌<◌, true, length, MatchOption};
ghost use Rattle.sr_base.specs.Literal.{NoRepeats, complement, has};
ghost use Rattle.sr_watch.specs.State.{AreWithin};
ghost use Rattle.sr_watch.specs.Watching.{is_watch};
ghost use Rattle.sr_watch.specs.Walking.{Sees, AreFalseAt, IsNotFalseAt};

use crate::trail::Trail;
use sr_base::Lit;

/// Clauses of so many literals are searched from the front.
const MOST_SHORT: usize = 16;

/// An odd number whose multiples spread over 64 bits.
const MIX: u64 = 0x9e37_79b9_7f4a_7c15;

/// What is seen of a clause with a false watch.
#[derive(Clone, Copy)]
pub enum Look {
    /// This literal is true.
    Satisfied(Lit),
    /// The false watch stands at `side`, the other watch is `other`, and the literal at `place` isn't false.
    Free {
        side: usize,
        place: usize,
        other: Lit,
    },
    /// All literals but this one are false, and this one is open.
    Forces(Lit),
    /// All literals are false.
    Falsified,
}

/// The place from which on a clause is searched. In a long one it changes from entry to entry: where the literals become false one
/// after another, in whichever order, a search passes few of the false ones.
#[inline]
fn start(len: usize, entries: usize) -> usize
    requires { 2 ≤ len }
    ensures { (2 ≤ result) × (result ≤ len) }
{
    if len <= MOST_SHORT {
        return 2;
    }
    let mixed = (entries as u64).wrapping_mul(MIX) >> 32;
    2 + mixed as usize % (len - 2)
}

/// The first place from one on, and before another one, whose literal isn't false.
#[inline(always)]
fn find_from(clause: &[Lit], trail: &Trail, from: usize, to: usize) -> Option<usize>
    requires within { AreWithin trail.now.vars clause.now }
    requires to { to ≤ length clause.now }
    ensures { MatchOption result (AreFalseAt trail.now.lits clause.now from to) (λ p. (from ≤ p) × (p < to) × IsNotFalseAt trail.now.lits clause.now p) }
{
    for place in from..to {
        if !trail.is_true(clause[place].neg()) {
            return Some(place);
        }
    }
    None
}

/// A place behind the two watches whose literal isn't false.
#[inline(always)]
fn find(clause: &[Lit], trail: &Trail) -> Option<usize>
    requires within { AreWithin trail.now.vars clause.now }
    requires long { 2 ≤ length clause.now }
    ensures { MatchOption result (AreFalseAt trail.now.lits clause.now 2 (length clause.now)) (λ p. (2 ≤ p) × (p < length clause.now) × IsNotFalseAt trail.now.lits clause.now p) }
{
    let len = clause.len();
    let from = start(len, trail.lits().len());
    if let Some(place) = find_from(clause, trail, from, len) {
        return Some(place);
    }
    find_from(clause, trail, 2, from)
}

/// What is seen of a clause with a false watch.
#[inline]
pub fn examine(clause: &[Lit], trail: &Trail, watch: Lit) -> Look
    requires distinct { NoRepeats clause.now }
    requires within { AreWithin trail.now.vars clause.now }
    requires watch { is_watch clause.now watch ≡ true }
    requires is_false { has (complement watch) trail.now.lits ≡ true }
    ensures { Sees trail.now.lits clause.now watch result }
{
    let side = if clause[0].is(watch) { 0 } else { 1 };
    let other = clause[1 - side];
    if trail.is_true(other) {
        return Look::Satisfied(other);
    }
    if let Some(place) = find(clause, trail) {
        let l = clause[place];
        if trail.is_true(l) {
            return Look::Satisfied(l);
        }
        return Look::Free { side, place, other };
    }
    if trail.is_true(other.neg()) {
        return Look::Falsified;
    }
    Look::Forces(other)
}
