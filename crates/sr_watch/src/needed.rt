// What a chain needs: the literals that its clauses stand on.
ghost use Rattle.std.specs.Prelude.{ℕ, ◌≡◌, ◌<◌, ◌≤◌, true, [], ◌∷◌, ◌++◌, length, OnOk, MatchOption};
ghost use Rattle.sr_base.specs.Literal.{Literal, complement, has, variable};
ghost use Rattle.sr_watch.specs.State.{AreWithin, IsAttached, IsSound};
ghost use Rattle.sr_watch.specs.Running.{IsSpare, IsUsed};
ghost use Rattle.sr_watch.specs.Marks.{joined, AreMarked, AreReady};
ghost use Rattle.sr_watch.specs.Trail.{table_size};
ghost use Rattle.sr_watch.specs.Collecting.{IsListed, IsLeft, Awaits, KeepsPlaces};

use crate::marks::Marks;
use crate::queue::Queue;
use crate::trail::Trail;
use sr_arena::{ClauseMem, Cref, CrefList, Steps};
use sr_base::{Lit, NoMemory};
use std::sync::ledger::Ledger;

/// The literals that the clauses of a chain stand on.
#[derive(Drop)]
pub struct Needed {
    pub marks: Marks,
    /// The places of those that are entries, as far as these aren't walked one by one.
    pub queue: Queue,
}

/// Adds a clause to the chain, marks the complements of its literals, and queues those of their places that are
/// below `below`.
pub fn list<L: Ledger>(
    trail: &Trail,
    memory: &ClauseMem,
    needed: &mut Needed,
    at: Cref,
    below: usize,
    chain: &mut CrefList,
    steps: &mut Steps<L>,
) -> Result<(), NoMemory>
    requires sound { IsSound (joined trail.now memory.now) }
    requires attached { IsAttached (joined trail.now memory.now) at }
    requires below { below ≤ length trail.now.lits }
    requires listed { IsListed (joined trail.now memory.now) below chain.old needed.old.marks needed.old.queue }
    ensures ok { OnOk result (chain.new ≡ chain.old ++ at ∷ []) }
    ensures listed { OnOk result (IsListed (joined trail.now memory.now) below chain.new needed.new.marks needed.new.queue) }
    ensures left { IsLeft (joined trail.now memory.now) chain.new needed.new.marks }
{
    chain.push(at)?;
    let clause = memory.lits(at, steps);
    enqueue(trail, &needed.marks, &mut needed.queue, clause, below)?;
    needed.marks.mark(clause, trail.vars(), true);
    Ok(())
}

/// Queues the places below `below` of the complements of a clause's literals that aren't marked.
fn enqueue(
    trail: &Trail,
    marks: &Marks,
    queue: &mut Queue,
    clause: &[Lit],
    below: usize,
) -> Result<(), NoMemory>
    requires within { AreWithin trail.now.vars clause.now }
    requires room { table_size trail.now.vars ≤ length marks.now }
    ensures keeps { KeepsPlaces queue.old queue.new }
    ensures ok { OnOk result ((l : Literal) → has (complement l) clause.now ≡ true → Awaits trail.now.lits marks.now below queue.new l) }
{
    for k in clause {
        enqueue_one(trail, marks, queue, k.neg(), below)?;
    }
    Ok(())
}

/// The same of one literal.
#[inline]
fn enqueue_one(
    trail: &Trail,
    marks: &Marks,
    queue: &mut Queue,
    l: Lit,
    below: usize,
) -> Result<(), NoMemory>
    requires within { variable l ≤ trail.now.vars }
    requires room { table_size trail.now.vars ≤ length marks.now }
    ensures keeps { KeepsPlaces queue.old queue.new }
    ensures ok { OnOk result (Awaits trail.now.lits marks.now below queue.new l) }
{
    if marks.is_marked(l, trail.vars()) {
        return Ok(());
    }
    let place = trail.place(l);
    if place == 0 {
        return Ok(());
    }
    if place as usize > below {
        return Ok(());
    }
    queue.put(place - 1)
}

/// The reason of an entry that isn't assumed, where one of these clauses stands on it.
#[inline]
pub fn used_reason(
    trail: &Trail,
    memory: &ClauseMem,
    marks: &Marks,
    place: usize,
    chain: &[Cref],
) -> Option<Cref>
    requires sound { IsSound (joined trail.now memory.now) }
    requires place { place < length trail.now.lits }
    requires marked { AreMarked (joined trail.now memory.now) chain.now marks.now }
    requires room { table_size trail.now.vars ≤ length marks.now }
    ensures { let s = joined trail.now memory.now in MatchOption result (IsSpare s place chain.now) (λ r. IsUsed s place chain.now r) }
{
    let reason = Cref::from_index(trail.reasons()[place])?;
    let l = trail.lits()[place];
    if trail.is_assumed(l) || !marks.is_marked(l, trail.vars()) {
        return None;
    }
    Some(reason)
}

/// Takes the marks away that the clauses of a chain left.
pub fn unmark<L: Ledger>(
    trail: &Trail,
    memory: &ClauseMem,
    marks: &mut Marks,
    chain: &[Cref],
    steps: &mut Steps<L>,
)
    requires sound { IsSound (joined trail.now memory.now) }
    requires left { IsLeft (joined trail.now memory.now) chain.now marks.old }
    ensures { AreReady marks.new trail.now.vars }
{
    for at in chain {
        marks.mark(memory.lits(*at, steps), trail.vars(), false);
    }
}
