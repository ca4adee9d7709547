// Lean chains. A chain begins from the first derived literal whose complement is assumed, or from a false clause.
ghost use Rattle.std.specs.Prelude.{ℕ, ◌≡◌, ◌≢◌, ◌<◌, ◌≤◌, [], length, reverse, slice_index_or, OnOk};
ghost use Rattle.sr_watch.specs.Running.{AreNews, IsClash, ClashesWith, NoClash, ClosesAt};
ghost use Rattle.sr_watch.specs.State.{IsSound};
ghost use Rattle.sr_watch.specs.Lean.{IsChain};
ghost use Rattle.sr_watch.specs.Marks.{joined, AreReady};
ghost use Rattle.sr_watch.specs.Collecting.{IsCollecting, IsListed, IsLeft};

use crate::needed::{Needed, list, unmark, used_reason};
use crate::trail::Trail;
use sr_arena::{ClauseMem, Cref, CrefList, Steps};
use sr_base::NoMemory;
use std::sync::ledger::Ledger;

/// Where the first derived entry stands whose complement is assumed; the number of entries where there is
/// none.
///
/// It looks only at the entries from the first on whose complement comes before it.
pub fn first_clash(trail: &Trail) -> usize
    requires { AreNews trail.now.lits trail.now.reasons }
    ensures within { result ≤ length trail.now.lits }
    ensures before { NoClash trail.now.lits trail.now.reasons result }
    ensures here { result < length trail.now.lits → IsClash trail.now.lits trail.now.reasons result }
{
    let count = trail.lits().len();
    let pair = trail.clash() as usize;
    if pair == 0 {
        return count;
    }
    let mut first = count;
    for i in pair - 1..count {
        first = first.min(clash_with(trail, i));
    }
    first
}

/// Where the complement of an assumed entry is derived; the number of entries where it isn't, and for a
/// derived entry.
fn clash_with(trail: &Trail, i: usize) -> usize
    requires news { AreNews trail.now.lits trail.now.reasons }
    requires place { i < length trail.now.lits }
    ensures within { result ≤ length trail.now.lits }
    ensures here { result < length trail.now.lits → IsClash trail.now.lits trail.now.reasons result }
    ensures only { (j : ℕ) → ClashesWith trail.now.lits trail.now.reasons j i → result ≤ j }
{
    let lits = trail.lits();
    let reasons = trail.reasons();
    if reasons[i] != 0 {
        return lits.len();
    }
    let place = trail.place(lits[i].neg()) as usize;
    if place == 0 {
        return lits.len();
    }
    if reasons[place - 1] == 0 {
        return lits.len();
    }
    place - 1
}

/// Lists the clause and, from the last entry to the first, each reason that the clauses listed so far stand
/// on.
///
/// The entries from `base` on are looked at one by one, and of those below it only the ones that are needed.
pub fn collect<L: Ledger>(
    trail: &Trail,
    memory: &ClauseMem,
    needed: &mut Needed,
    last: Cref,
    end: usize,
    base: usize,
    chain: &mut CrefList,
    steps: &mut Steps<L>,
) -> Result<(), NoMemory>
    requires sound { IsSound (joined trail.now memory.now) }
    requires end { end ≤ length trail.now.lits }
    requires ends { ClosesAt (joined trail.now memory.now) last end }
    requires empty { chain.old ≡ [] }
    requires ready { AreReady needed.old.marks trail.now.vars }
    ensures ok { OnOk result (IsChain (joined trail.now memory.now) last (reverse chain.new)) }
    ensures ready { AreReady needed.new.marks trail.now.vars }
{
    needed.queue.clear();
    let base = base.min(end);
    let result = collect_marked(trail, memory, needed, last, end, base, chain, steps);
    unmark(trail, memory, &mut needed.marks, chain.as_slice(), steps);
    result
}

/// The same, and leaves the literals marked whose complements stand in the clauses.
fn collect_marked<L: Ledger>(
    trail: &Trail,
    memory: &ClauseMem,
    needed: &mut Needed,
    last: Cref,
    end: usize,
    base: usize,
    chain: &mut CrefList,
    steps: &mut Steps<L>,
) -> Result<(), NoMemory>
    requires sound { IsSound (joined trail.now memory.now) }
    requires end { end ≤ length trail.now.lits }
    requires base { base ≤ end }
    requires ends { ClosesAt (joined trail.now memory.now) last end }
    requires empty { chain.old ≡ [] }
    requires ready { AreReady needed.old.marks trail.now.vars }
    ensures ok { OnOk result (IsChain (joined trail.now memory.now) last (reverse chain.new)) }
    ensures left { IsLeft (joined trail.now memory.now) chain.new needed.new.marks }
{
    list(trail, memory, needed, last, base, chain, steps)?;
    collect_above(trail, memory, needed, end, base, chain, steps)?;
    collect_below(trail, memory, needed, base, chain, steps)
}

/// Lists the reasons of needed entries from `base` on, the last of them below `end`.
fn collect_above<L: Ledger>(
    trail: &Trail,
    memory: &ClauseMem,
    needed: &mut Needed,
    end: usize,
    base: usize,
    chain: &mut CrefList,
    steps: &mut Steps<L>,
) -> Result<(), NoMemory>
    requires sound { IsSound (joined trail.now memory.now) }
    requires end { end ≤ length trail.now.lits }
    requires base { base ≤ end }
    requires no_clash { NoClash trail.now.lits trail.now.reasons end }
    requires listed { IsListed (joined trail.now memory.now) base chain.old needed.old.marks needed.old.queue }
    ensures ok { OnOk result ((at : ℕ) → IsCollecting (joined trail.now memory.now) at end chain.old → IsCollecting (joined trail.now memory.now) at base chain.new) }
    ensures listed { OnOk result (IsListed (joined trail.now memory.now) base chain.new needed.new.marks needed.new.queue) }
    ensures left { IsLeft (joined trail.now memory.now) chain.new needed.new.marks }
{
    let mut place = end;
    while place > base {
        place -= 1;
        if let Some(reason) = used_reason(trail, memory, &needed.marks, place, chain.as_slice()) {
            list(trail, memory, needed, reason, base, chain, steps)?;
        }
    }
    Ok(())
}

/// Lists the reasons of needed entries below `base`.
fn collect_below<L: Ledger>(
    trail: &Trail,
    memory: &ClauseMem,
    needed: &mut Needed,
    base: usize,
    chain: &mut CrefList,
    steps: &mut Steps<L>,
) -> Result<(), NoMemory>
    requires sound { IsSound (joined trail.now memory.now) }
    requires base { base ≤ length trail.now.lits }
    requires no_clash { NoClash trail.now.lits trail.now.reasons base }
    requires listed { IsListed (joined trail.now memory.now) base chain.old needed.old.marks needed.old.queue }
    ensures ok { OnOk result ((at : ℕ) → IsCollecting (joined trail.now memory.now) at base chain.old → IsCollecting (joined trail.now memory.now) at 0 chain.new) }
    ensures left { IsLeft (joined trail.now memory.now) chain.new needed.new.marks }
{
    let mut place = base;
    while let Some(next) = needed.queue.next_below(place) {
        place = next;
        if let Some(reason) = used_reason(trail, memory, &needed.marks, place, chain.as_slice()) {
            list(trail, memory, needed, reason, place, chain, steps)?;
        }
    }
    Ok(())
}
