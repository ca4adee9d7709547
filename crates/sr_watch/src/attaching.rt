// Watches of a clause that is attached.
//
// The literals that become false last are watched. Where they are false by now, the clause may be unit or false, which the
// walks that were done didn't see: then the kept lengths at which it would have been are dropped, and it is pending.
ghost use Rattle.std.specs.Prelude.{ℕ, Bool, ◌≡◌, ◌≢◌, ◌<◌, ◌≤◌, ◌+◌, ◌*◌, [], true, false, None, length, take, slice_index_or};
ghost use Rattle.sr_base.specs.Literal.{Literal, plus, complement, has, variable, NoRepeats};
ghost use Rattle.sr_arena.specs.Cells.{Memory, IsHeld, cell_at};
ghost use Rattle.sr_model.specs.Assignment.{holds_number};
ghost use Rattle.sr_lists.specs.Family.{entries};
ghost use Rattle.sr_watch.specs.State.{AreWithin};
ghost use Rattle.sr_watch.specs.Trail.{Entries, place_in};
ghost use Rattle.sr_watch.specs.Rising.{AreRising};
ghost use Rattle.sr_watch.specs.Watching.{SomeTrue, is_of, is_watch, on_side, key_of, times, tally};
ghost use Rattle.sr_watch.specs.Attaching.{fall_of, IsArranged, FallsLast, AreOpenWatches, IsWatchFalse, IsChosen, IsEnlisted, IsPutOn, IsNoted, IsRestingWithout};
ghost use Rattle.sr_watch.specs.Walking.{HasSameShape};
ghost use Rattle.sr_watch.specs.Resting.{is_pending, IsResting};

use crate::trail::Trail;
use crate::watches::{SEEN, UNSEEN, Watches, drop_between, key};
use sr_arena::{ClauseMem, Cref, Steps};
use sr_base::Lit;
use sr_lists::{Lists, Watch};
use std::marker::Brand;
use std::sync::ledger::{Blank, Ledger};

/// Whether a literal becomes false before another one.
#[inline]
fn falls_before(trail: &Trail, a: Lit, b: Lit) -> bool
    requires first { variable a ≤ trail.now.vars }
    requires second { variable b ≤ trail.now.vars }
    ensures yes { result ≡ true → fall_of trail.now.lits a < fall_of trail.now.lits b }
    ensures no { result ≡ false → fall_of trail.now.lits b ≤ fall_of trail.now.lits a }
{
    let one = trail.place(a.neg());
    let two = trail.place(b.neg());
    if one == 0 {
        return false;
    }
    if two == 0 {
        return true;
    }
    one < two
}

/// Exchanges the literal at a place for the one behind it that becomes false last.
fn raise<L: Ledger>(
    memory: &mut ClauseMem,
    trail: &Trail,
    at: Cref,
    place: usize,
    steps: &mut Steps<L>,
)
    requires held { IsHeld memory.old at }
    requires distinct { NoRepeats (cell_at memory.old at).lits }
    requires within { AreWithin trail.now.vars (cell_at memory.old at).lits }
    ensures arranged { IsArranged at memory.old memory.new }
    ensures distinct { NoRepeats (cell_at memory.new at).lits }
    ensures last { FallsLast trail.now.lits (cell_at memory.new at).lits place }
    ensures before { (j : ℕ) → j < place → slice_index_or (cell_at memory.new at).lits j (plus 0) ≡ slice_index_or (cell_at memory.old at).lits j (plus 0) }
{
    let len = memory.lits(at, steps).len();
    for i in place..len {
        let clause = memory.lits(at, steps);
        if !falls_before(trail, clause[place], clause[i]) {
            continue;
        }
        memory.swap(at, place, i);
    }
}

/// For how many of the first entries no watch of a clause is false.
fn open_length(trail: &Trail, clause: &[Lit]) -> usize
    requires within { AreWithin trail.now.vars clause.now }
    ensures open_here { AreOpenWatches clause.now (take result trail.now.lits) }
    ensures most { 2 ≤ length clause.now → result < length trail.now.lits → IsWatchFalse trail.now.lits clause.now }
{
    if clause.len() < 2 {
        return 0;
    }
    let one = open_for(trail, clause[0]);
    let two = open_for(trail, clause[1]);
    if one < two { one } else { two }
}

/// For how many of the first entries a literal isn't false.
fn open_for(trail: &Trail, l: Lit) -> usize
    requires { variable l ≤ trail.now.vars }
    ensures open_here { has (complement l) (take result trail.now.lits) ≡ false }
    ensures most { result < length trail.now.lits → has (complement l) trail.now.lits ≡ true }
{
    let place = trail.place(l.neg()) as usize;
    if place == 0 {
        return trail.lits().len();
    }
    place - 1
}

/// How many of the first entries make a clause true; 0 where they don't.
fn true_length(trail: &Trail, clause: &[Lit]) -> usize
    requires within { AreWithin trail.now.vars clause.now }
    ensures { 0 < result → SomeTrue (take result trail.now.lits) clause.now }
{
    let mut least = 0;
    for l in clause {
        let place = trail.place(*l) as usize;
        if place == 0 || (least > 0 && least <= place) {
            continue;
        }
        least = place;
    }
    least
}

/// Lists a clause under its first two literals, or among the clauses of at most one.
fn enlist(lists: &mut Lists, clause: &[Lit], at: Cref)
    requires room { entries lists.old + 2 ≤ lists.old.room }
    requires distinct { NoRepeats clause.now }
    requires keys { (k : Literal) → has k clause.now ≡ true → 0 < variable k → key_of k < length lists.old.lists }
    requires short_key { UNSEEN < length lists.old.lists }
    ensures { IsEnlisted lists.old lists.new clause.now at }
{
    if clause.len() >= 2 {
        let first = clause[0];
        let second = clause[1];
        let _var = first.var();
        let _var = second.var();
        lists.push(
            key(first),
            Watch {
                blocker: second,
                at,
            },
        );
        lists.push(key(second), Watch { blocker: first, at });
        return;
    }
    if clause.len() == 1 {
        let blocker = clause[0];
        lists.push(UNSEEN, Watch { blocker, at });
        return;
    }
    let blocker = Lit::from_code(2);
    lists.push(UNSEEN, Watch { blocker, at });
}

/// Drops the kept lengths at which an attached clause would have been unit or false, and sees that it is looked at.
fn note<L: Ledger>(
    memory: &ClauseMem,
    watches: &mut Watches,
    trail: &Trail,
    at: Cref,
    steps: &mut Steps<L>,
)
    requires held { IsHeld memory.now at }
    requires within { (r : ℕ) → AreWithin trail.now.vars (cell_at memory.now r).lits }
    requires chosen { IsChosen trail.now.lits (cell_at memory.now at).lits }
    requires rising { AreRising 0 watches.old.kept.items }
    requires kept_within { (n : ℕ) → holds_number n watches.old.kept.items ≡ true → n ≤ length trail.now.lits }
    requires done_within { watches.old.done ≤ length trail.now.lits }
    requires pending { (r : ℕ) → is_pending watches.old.pending r ≡ true → IsHeld memory.now r × (r ≢ at) }
    ensures { IsNoted memory.now trail.now.lits (cell_at memory.now at).lits at watches.old watches.new }
{
    let clause = memory.lits(at, steps);
    let len = trail.lits().len();
    if clause.len() < 2 {
        return;
    }
    let low = open_length(trail, clause);
    if low >= len {
        return;
    }
    let high = true_length(trail, clause);
    if high > 0 {
        drop_between(&mut watches.kept, low, high - 1);
        return;
    }
    drop_between(&mut watches.kept, low, len);
    if low < watches.done {
        hold(memory, watches, trail, at, low, steps);
    }
}

/// Takes a clause for the pending one. Where another one is, all entries that may make either unit are walked again instead.
fn hold<L: Ledger>(
    memory: &ClauseMem,
    watches: &mut Watches,
    trail: &Trail,
    at: Cref,
    low: usize,
    steps: &mut Steps<L>,
)
    requires within { (r : ℕ) → AreWithin trail.now.vars (cell_at memory.now r).lits }
    requires pending { (r : ℕ) → is_pending watches.old.pending r ≡ true → IsHeld memory.now r × (r ≢ at) }
    requires low { low < watches.old.done }
    ensures rest { watches.new ≡ record watches.old { done = watches.new.done; pending = watches.new.pending } }
    ensures less { watches.new.done ≤ watches.old.done }
    ensures taken { is_pending watches.new.pending at ≡ false → watches.new.done ≤ low }
    ensures others { (r : ℕ) → r ≢ at → is_pending watches.new.pending r ≡ false → is_pending watches.old.pending r ≡ true → AreOpenWatches (cell_at memory.now r).lits (take watches.new.done trail.now.lits) }
    ensures still { (r : ℕ) → r ≢ at → is_pending watches.new.pending r ≡ true → is_pending watches.old.pending r ≡ true }
{
    let Some(other) = watches.pending else {
        watches.pending = Some(at);
        return;
    };
    watches.pending = None;
    let other_low = open_length(trail, memory.lits(other, steps));
    watches.done = low.min(other_low);
}

/// Chooses the watches of a clause that isn't attached yet, and lists it.
fn enter_counted<L: Ledger>(
    memory: &mut ClauseMem,
    watches: &mut Watches,
    trail: &Trail,
    at: Cref,
    blank: Blank,
)
    requires name { blank.name ≡ L.name }
    requires parts { blank.parts ≡ L.parts }
    requires some { 0 < blank.parts }
    requires held { IsHeld memory.old at }
    requires distinct { NoRepeats (cell_at memory.old at).lits }
    requires within { (r : ℕ) → AreWithin trail.now.vars (cell_at memory.old r).lits }
    requires resting { IsRestingWithout memory.old trail.now watches.old at }
    requires short_key { UNSEEN < length watches.old.lists.lists }
    requires room { entries watches.old.lists + 2 ≤ watches.old.lists.room }
    ensures arranged { IsArranged at memory.old memory.new }
    ensures distinct { NoRepeats (cell_at memory.new at).lits }
    ensures shape { HasSameShape watches.old.lists watches.new.lists }
    ensures once { tally watches.old.lists [] (is_of at) ≡ 0 → times watches.new.lists at UNSEEN + times watches.new.lists at SEEN ≤ 1 }
    ensures rests { (core : Bool) (n : Memory) → IsResting core memory.old trail.now watches.old → on_side core memory.old at ≡ false → tally watches.old.lists [] (is_of at) ≡ 0 → IsPutOn core memory.new n at → IsResting core n trail.now watches.new }
{
    let mut steps = Steps::<L>::new(blank);
    raise(memory, trail, at, 0, &mut steps);
    raise(memory, trail, at, 1, &mut steps);
    enlist(&mut watches.lists, memory.lits(at, &mut steps), at);
    note(memory, watches, trail, at, &mut steps);
}

/// The same.
pub fn enter(memory: &mut ClauseMem, watches: &mut Watches, trail: &Trail, at: Cref)
    requires held { IsHeld memory.old at }
    requires distinct { NoRepeats (cell_at memory.old at).lits }
    requires within { (r : ℕ) → AreWithin trail.now.vars (cell_at memory.old r).lits }
    requires resting { IsRestingWithout memory.old trail.now watches.old at }
    requires short_key { UNSEEN < length watches.old.lists.lists }
    requires room { entries watches.old.lists + 2 ≤ watches.old.lists.room }
    ensures arranged { IsArranged at memory.old memory.new }
    ensures distinct { NoRepeats (cell_at memory.new at).lits }
    ensures shape { HasSameShape watches.old.lists watches.new.lists }
    ensures once { tally watches.old.lists [] (is_of at) ≡ 0 → times watches.new.lists at UNSEEN + times watches.new.lists at SEEN ≤ 1 }
    ensures rests { (core : Bool) (n : Memory) → IsResting core memory.old trail.now watches.old → on_side core memory.old at ≡ false → tally watches.old.lists [] (is_of at) ≡ 0 → IsPutOn core memory.new n at → IsResting core n trail.now watches.new }
{
    enter_counted::<Brand>(memory, watches, trail, at, Blank::new(1));
}
