// Learning from a conflict: the entries that take part are walked backwards from the conflict, each is replaced by what its
// reason stands on, until one entry since the last decision is left, the first unique implication point (Marques-Silva and
// Sakallah 1999; Zhang, Madigan, Moskewicz and Malik 2001).
//
// An entry takes part where the stamp at its place is the number of this conflict, so that nothing has to be cleared.
ghost use Rattle.std.specs.Prelude.{ℕ, ◌≡◌, ◌≢◌, ◌≤◌, ◌<◌, [], length, take, true, OnOk};
ghost use Rattle.sr_base.specs.Literal.{complement, has, literal_code};
ghost use Rattle.sr_watch.specs.State.{IsAttached, AllFalse, lits_at, lit_at, reason_at, IsSound};
ghost use Rattle.sr_solve.specs.Learning.{IsRoot, IsDecision, IsLearned};
ghost use Rattle.sr_solve.specs.Cutting.{AreFresh, AreStampedUpTo, AreMet, IsMore, AreMore, AreFalse, IsWalking, stamp_at};

use crate::counting::lits_at;
use crate::order::Order;
use sr_base::{Lit, LitList, NoMemory};
use sr_watch::{Cref, Propagator};

/// Where the root ends and the last decision stands, and the number of the conflict.
#[derive(Clone, Copy)]
pub struct Conflict {
    pub root: usize,
    pub from: usize,
    pub number: u32,
}

/// Writes a clause that may be learned from a false clause into `lits`, in the place of what it held.
pub fn learn(
    propagator: &Propagator,
    conflict: &Conflict,
    at: Cref,
    order: &mut Order,
    seen: &mut Vec<u32>,
    lits: &mut LitList,
) -> Result<(), NoMemory>
    requires attached { IsAttached propagator.now at }
    requires all_false { AllFalse propagator.now.lits (lits_at propagator.now at) }
    requires decision { IsDecision propagator.now conflict.now.from }
    requires root { IsRoot propagator.now conflict.now.root }
    requires order { conflict.now.root ≤ conflict.now.from }
    requires fresh { AreFresh seen.old.items conflict.now.number }
    ensures ok { OnOk result (IsLearned propagator.now conflict.now.from lits.new) }
    ensures stamps { AreStampedUpTo seen.new.items conflict.now.number }
{
    reach(seen, propagator.mark())?;
    lits.truncate(0);
    cut_out(propagator, conflict, at, order, seen.as_mut_slice(), lits)
}

/// The same, with a stamp for each place, and with a list that is empty.
fn cut_out(
    propagator: &Propagator,
    conflict: &Conflict,
    at: Cref,
    order: &mut Order,
    seen: &mut [u32],
    lits: &mut LitList,
) -> Result<(), NoMemory>
    requires attached { IsAttached propagator.now at }
    requires all_false { AllFalse propagator.now.lits (lits_at propagator.now at) }
    requires decision { IsDecision propagator.now conflict.now.from }
    requires root { IsRoot propagator.now conflict.now.root }
    requires order { conflict.now.root ≤ conflict.now.from }
    requires fresh { AreFresh seen.old conflict.now.number }
    requires size { length propagator.now.lits ≤ length seen.old }
    requires empty { lits.old ≡ [] }
    ensures ok { OnOk result (IsLearned propagator.now conflict.now.from lits.new) }
    ensures stamps { AreStampedUpTo seen.new conflict.now.number }
{
    let entries = propagator.entries();
    let n = entries.len();
    let mut pending = 0;
    meet_others(
        propagator,
        conflict,
        n,
        at,
        0,
        order,
        seen,
        lits,
        &mut pending,
    )?;
    let mut i = n;
    'walk: while i > conflict.from {
        i -= 1;
        if seen[i] == conflict.number {
            let l = entries[i];
            if pending == 1 {
                return lits.push(l.neg());
            }
            pending -= 1;
            let reason = reason_at(propagator, i);
            meet_others(
                propagator,
                conflict,
                i,
                reason,
                l.code(),
                order,
                seen,
                lits,
                &mut pending,
            )?;
        }
    }
    unreachable!()
}

/// The reason of a derived entry.
fn reason_at(propagator: &Propagator, i: usize) -> Cref
    requires within { i < length propagator.now.lits }
    requires derived { reason_at propagator.now i ≢ 0 }
    requires sound { IsSound propagator.now }
    ensures { result ≡ reason_at propagator.now i }
{
    match Cref::from_index(propagator.reasons()[i]) {
        Some(reason) => reason,
        None => unreachable!(),
    }
}

/// Lengthens the stamps by zeros until there are so many.
fn reach(seen: &mut Vec<u32>, len: usize) -> Result<(), NoMemory>
    ensures same { (i : ℕ) → stamp_at seen.new.items i ≡ stamp_at seen.old.items i }
    ensures long { OnOk result (len ≤ length seen.new.items) }
{
    if len <= seen.len() {
        return Ok(());
    }
    match seen.resize(len, 0) {
        Ok(()) => Ok(()),
        Err(_) => Err(NoMemory),
    }
}

/// Meets the entries that make the literals of a clause false, but for the literal of a code. They stand before a place.
fn meet_others(
    propagator: &Propagator,
    conflict: &Conflict,
    before: usize,
    at: Cref,
    but: u32,
    order: &mut Order,
    seen: &mut [u32],
    lits: &mut LitList,
    pending: &mut usize,
) -> Result<(), NoMemory>
    requires attached { IsAttached propagator.now at }
    requires sound { IsSound propagator.now }
    requires are_false { AreFalse propagator.now before (lits_at propagator.now at) but }
    requires within { before ≤ length propagator.now.lits }
    requires order { conflict.now.root ≤ conflict.now.from }
    requires met { AreMet propagator.now conflict.now.number seen.old conflict.now.from before lits.old pending.old }
    ensures ok { OnOk result (AreMore propagator.now conflict.now.root conflict.now.number conflict.now.from before (lits_at propagator.now at) but seen.old seen.new lits.new pending.new) }
    ensures stamps { AreStampedUpTo seen.old conflict.now.number → AreStampedUpTo seen.new conflict.now.number }
{
    for l in lits_at(propagator, at) {
        if l.code() != but {
            meet(propagator, conflict, before, *l, order, seen, lits, pending)?;
        }
    }
    Ok(())
}

/// Meets the entry that makes a literal false. It stands before a place.
#[inline]
fn meet(
    propagator: &Propagator,
    conflict: &Conflict,
    before: usize,
    l: Lit,
    order: &mut Order,
    seen: &mut [u32],
    lits: &mut LitList,
    pending: &mut usize,
) -> Result<(), NoMemory>
    requires is_false { has (complement l) (take before propagator.now.lits) ≡ true }
    requires sound { IsSound propagator.now }
    requires within { before ≤ length propagator.now.lits }
    requires met { AreMet propagator.now conflict.now.number seen.old conflict.now.from before lits.old pending.old }
    ensures ok { OnOk result (IsMore propagator.now conflict.now.root conflict.now.number conflict.now.from before l seen.old seen.new lits.new pending.new) }
    ensures stamps { AreStampedUpTo seen.old conflict.now.number → AreStampedUpTo seen.new conflict.now.number }
{
    let at = propagator.place(l.neg()) as usize - 1;
    if at < conflict.root {
        return Ok(());
    }
    if seen[at] == conflict.number {
        return Ok(());
    }
    order.bump(l);
    if at < conflict.from {
        lits.push(l)?;
        seen[at] = conflict.number;
        return Ok(());
    }
    seen[at] = conflict.number;
    *pending += 1;
    Ok(())
}
