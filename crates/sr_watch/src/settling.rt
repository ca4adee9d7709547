// What comes before the walk: clauses of at most one literal, and the pending one.
ghost use Rattle.std.specs.Prelude.{ℕ, [], ◌≡◌, ◌≢◌, ◌<◌, ◌≤◌, ◌+◌, ◌-◌, ◌*◌, true, false, None, length, take, slice_index_or, MatchOption};
ghost use Rattle.sr_base.specs.Literal.{NoRepeats, variable, has};
ghost use Rattle.sr_arena.specs.Cells.{IsHeld, cell_at};
ghost use Rattle.sr_watch.specs.State.{IsSound, IsAttached, AllFalse, AreWithin};
ghost use Rattle.sr_watch.specs.Marks.{joined};
ghost use Rattle.sr_watch.specs.Trail.{place_in};
ghost use Rattle.sr_watch.specs.Scanning.{Stands};
ghost use Rattle.sr_watch.specs.Watching.{SomeTrue, IsStuck, AreStocked, AreLinked};
ghost use Rattle.sr_watch.specs.Walking.{IsGrown, AreReasonsOnly, AreReasonsOn, IsStep, HasSameShape, IsFalseOn};
ghost use Rattle.sr_watch.specs.Resting.{is_pending, PendingIsTrue, IsResting, IsPrepared, AreShortListed, AreShortTrue};
ghost use Rattle.sr_watch.specs.Reading.{shorts};

use crate::trail::Trail;
use crate::watches::{SEEN, UNSEEN, Watches, is_on};
use sr_arena::{ClauseMem, Cref, Steps};
use sr_base::Lit;
use sr_lists::{Lists, Watch};
use std::sync::ledger::Ledger;

/// How a clause stands to the entries.
#[derive(Clone, Copy)]
pub enum Standing {
    Settled,
    Refuted,
    Single(Lit),
}

/// How a clause stands to the entries.
fn look_at(trail: &Trail, clause: &[Lit]) -> Standing
    requires distinct { NoRepeats clause.now }
    requires within { AreWithin trail.now.vars clause.now }
    ensures { Stands clause.now trail.now.lits result }
{
    let mut found = None;
    for l in clause {
        if !trail.is_true(l.neg()) {
            if found.is_some() {
                return Standing::Settled;
            }
            found = Some(*l);
        }
    }
    match found {
        None => Standing::Refuted,
        Some(l) => {
            if trail.is_true(l) {
                return Standing::Settled;
            }
            Standing::Single(l)
        }
    }
}

/// Derives the one literal that a clause leaves, if that is so, and says whether the clause is false.
fn settle<L: Ledger>(memory: &ClauseMem, trail: &mut Trail, at: Cref, steps: &mut Steps<L>) -> bool
    requires sound { IsSound (joined trail.old memory.now) }
    requires held { IsHeld memory.now at }
    requires attached { IsAttached (joined trail.old memory.now) at }
    ensures grown { IsGrown trail.old trail.new }
    ensures sound { IsSound (joined trail.new memory.now) }
    ensures only { AreReasonsOnly at trail.old trail.new }
    ensures falsified { result ≡ true → (trail.new ≡ trail.old) × AllFalse trail.old.lits (cell_at memory.now at).lits }
    ensures settled { result ≡ false → IsStuck trail.old.lits (cell_at memory.now at).lits → SomeTrue trail.new.lits (cell_at memory.now at).lits }
    ensures ticks { steps.new ≡ steps.old + 1 }
{
    match look_at(trail, memory.lits(at, steps)) {
        Standing::Settled => false,
        Standing::Single(l) => {
            trail.push(l, at.index());
            false
        }
        Standing::Refuted => true,
    }
}

/// The same of a clause of at most one literal, which is listed with that literal. Where the literal is true, the clause isn't
/// read.
fn settle_short<L: Ledger>(
    memory: &ClauseMem,
    trail: &mut Trail,
    blocker: Lit,
    at: Cref,
    steps: &mut Steps<L>,
) -> bool
    requires sound { IsSound (joined trail.old memory.now) }
    requires held { IsHeld memory.now at }
    requires attached { IsAttached (joined trail.old memory.now) at }
    requires listed { 0 < length (cell_at memory.now at).lits → has blocker (cell_at memory.now at).lits ≡ true }
    ensures grown { IsGrown trail.old trail.new }
    ensures sound { IsSound (joined trail.new memory.now) }
    ensures only { AreReasonsOnly at trail.old trail.new }
    ensures falsified { result ≡ true → (trail.new ≡ trail.old) × AllFalse trail.old.lits (cell_at memory.now at).lits }
    ensures settled { result ≡ false → IsStuck trail.old.lits (cell_at memory.now at).lits → SomeTrue trail.new.lits (cell_at memory.now at).lits }
    ensures ticks { steps.new ≤ steps.old + 1 }
    ensures unread { 0 < length (cell_at memory.now at).lits → has blocker trail.old.lits ≡ true → (steps.new ≡ steps.old) × (result ≡ false) }
{
    if memory.len(at) == 0 {
        return settle(memory, trail, at, steps);
    }
    if trail.is_true(blocker) {
        return false;
    }
    settle(memory, trail, at, steps)
}

/// How many of the first entries make a literal true, and whether the last of these has the reason.
fn stands(trail: &Trail, l: Lit, at: Cref) -> (usize, bool)
    requires { variable l ≤ trail.now.vars }
    ensures some { 0 < at }
    ensures place { result.0 ≡ place_in trail.now.lits l }
    ensures is { result.1 ≡ true → (0 < result.0) × (slice_index_or trail.now.reasons (result.0 - 1) 0 ≡ at) }
    ensures not { result.1 ≡ false → (0 < result.0) → slice_index_or trail.now.reasons (result.0 - 1) 0 ≢ at }
{
    let reason = at.index();
    let place = trail.place(l) as usize;
    if place == 0 {
        return (0, false);
    }
    (place, trail.reasons()[place - 1] == reason)
}

/// Makes the clauses of one literal true that weren't seen, up to one that is false. Those that are reasons of entries then aren't
/// listed.
fn settle_units<L: Ledger>(
    memory: &ClauseMem,
    lists: &mut Lists,
    shade: &mut usize,
    top: &mut usize,
    trail: &mut Trail,
    core: bool,
    steps: &mut Steps<L>,
) -> Option<Cref>
    requires sound { IsSound (joined trail.old memory.now) }
    requires walked { lists.old.walked ≡ None }
    requires ahead { lists.old.ahead ≡ [] }
    requires stocked { AreStocked core memory.now lists.old [] }
    requires linked { AreLinked core memory.now lists.old }
    requires shaded { shade.old ≤ length trail.old.lits }
    requires short { AreShortListed core memory.now lists.old (take shade.old trail.old.lits) trail.old.reasons top.old }
    ensures grown { IsGrown trail.old trail.new }
    ensures sound { IsSound (joined trail.new memory.now) }
    ensures shape { HasSameShape lists.old lists.new }
    ensures ahead { lists.new.ahead ≡ [] }
    ensures stocked { AreStocked core memory.now lists.new [] }
    ensures linked { AreLinked core memory.now lists.new }
    ensures shaded { shade.new ≤ length trail.new.lits }
    ensures short { AreShortListed core memory.now lists.new (take shade.new trail.new.lits) trail.new.reasons top.new }
    ensures reasons { AreReasonsOn core memory.now trail.old trail.new }
    ensures settled { MatchOption result (AreShortTrue core memory.now trail.new.lits) (λ at. IsFalseOn core memory.now trail.new.lits at) }
    ensures ticks { steps.new ≤ steps.old + shorts core memory.now }
{
    if lists.keys() < 2 {
        return None;
    }
    lists.begin(UNSEEN);
    while let Some(watch) = lists.next() {
        let Watch { blocker, at } = watch;
        if is_on(memory, at, core) {
            if settle_short(memory, trail, blocker, at, steps) {
                lists.keep(Watch { blocker, at });
                lists.end();
                return Some(at);
            }
            let (place, own) = stands(trail, blocker, at);
            if own {
                *top = place.max(*top);
                continue;
            }
            lists.push(SEEN, Watch { blocker, at });
            *shade = place.max(*shade);
        }
    }
    lists.end();
    None
}

/// The same of the pending clause.
fn settle_pending<L: Ledger>(
    memory: &ClauseMem,
    pending: &mut Option<Cref>,
    trail: &mut Trail,
    steps: &mut Steps<L>,
) -> Option<Cref>
    requires sound { IsSound (joined trail.old memory.now) }
    requires held { (r : ℕ) → is_pending pending.old r ≡ true → IsHeld memory.now r }
    requires attached { (r : ℕ) → is_pending pending.old r ≡ true → IsAttached (joined trail.old memory.now) r }
    requires stuck { (r : ℕ) → is_pending pending.old r ≡ true → IsStuck trail.old.lits (cell_at memory.now r).lits }
    ensures grown { IsGrown trail.old trail.new }
    ensures only { (i : ℕ) → length trail.old.reasons ≤ i → 0 < slice_index_or trail.new.reasons i 0 → is_pending pending.old (slice_index_or trail.new.reasons i 0) ≡ true }
    ensures sound { IsSound (joined trail.new memory.now) }
    ensures settled { MatchOption result ((pending.new ≡ None) × PendingIsTrue memory.now trail.new.lits pending.old)
        (λ at. (pending.new ≡ pending.old) × (is_pending pending.old at ≡ true) × AllFalse trail.new.lits (cell_at memory.now at).lits) }
    ensures ticks { steps.new ≤ steps.old + 1 }
{
    let Some(at) = *pending else {
        return None;
    };
    if settle(memory, trail, at, steps) {
        return Some(at);
    }
    *pending = None;
    None
}

/// Both.
pub fn settle_all<L: Ledger>(
    memory: &ClauseMem,
    watches: &mut Watches,
    trail: &mut Trail,
    core: bool,
    steps: &mut Steps<L>,
) -> Option<Cref>
    requires sound { IsSound (joined trail.old memory.now) }
    requires resting { IsResting core memory.now trail.old watches.old }
    ensures step { IsStep core memory.now memory.now trail.old trail.new }
    ensures sound { IsSound (joined trail.new memory.now) }
    ensures shape { HasSameShape watches.old.lists watches.new.lists }
    ensures resting { IsResting core memory.now trail.new watches.new }
    ensures settled { MatchOption result (IsPrepared core memory.now trail.new watches.new) (λ at. IsFalseOn core memory.now trail.new.lits at) }
    ensures done { watches.new.done ≡ watches.old.done }
    ensures ticks { steps.new ≤ steps.old + shorts core memory.now + 1 }
{
    if let Some(at) = settle_units(
        memory,
        &mut watches.lists,
        &mut watches.shade,
        &mut watches.top,
        trail,
        core,
        steps,
    ) {
        return Some(at);
    }
    if let Some(at) = settle_pending(memory, &mut watches.pending, trail, steps) {
        return Some(at);
    }
    None
}
