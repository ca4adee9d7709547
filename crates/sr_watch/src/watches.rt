// The clauses of the core, or of the rest, by the literals that are watched in them.
ghost use Rattle.std.specs.Prelude.{ℕ, Bool, List, ◌≡◌, ◌≢◌, ◌≤◌, ◌<◌, ◌+◌, ◌*◌, ◌^◌, ◌⊎◌, ◌∷◌, true, [], None, length, take, OnOk, OnErr, IsOk, MatchOption};
ghost use Rattle.sr_base.specs.Literal.{Literal};
ghost use Rattle.sr_base.specs.declared.literal.TheConstants.{MOST_VARS};
ghost use Rattle.sr_arena.specs.Cells.{Memory, IsHeld, cell_at};
ghost use Rattle.sr_model.specs.Assignment.{holds_number};
ghost use Rattle.sr_lists.specs.declared.blocks.Watch.{Watch as Listed};
ghost use Rattle.sr_watch.specs.Trail.{Entries};
ghost use Rattle.sr_watch.specs.Watching.{is_on, key_of, listed, times, tally};
ghost use Rattle.sr_watch.specs.Walking.{HasSameShape};
ghost use Rattle.sr_watch.specs.Rising.{AreRising, last_above};
ghost use Rattle.sr_watch.specs.Resting.{IsBlank, HasRoom, HasMoreRoom, IsResting, AreShortListed};

use crate::trail::reserve_to;
use sr_arena::{ClauseMem, Cref, Steps};
use sr_base::{Lit, NoMemory};
use sr_lists::{Lists, Watch};
use std::alloc::Global;
use std::marker::Brand;
use std::sync::ledger::{Blank, Ledger};

/// The list of the clauses of one literal that were seen to be true by another reason.
pub const SEEN: usize = 0;
/// The list of those of at most one literal that weren't seen to be true.
pub const UNSEEN: usize = 1;

/// The watched clauses of one side.
#[derive(Drop)]
pub struct Watches {
    /// For each literal the clauses in which it is watched, and two lists of the clauses of at most one literal. Such a clause
    /// may be in neither where it is the reason of an entry.
    pub lists: Lists,
    /// How many of the first entries were walked.
    pub done: usize,
    /// The lengths, rising, of first entries from which nothing more follows.
    pub kept: Vec<u32>,
    /// A clause that may be unit though the entries that make it so were walked.
    pub pending: Option<Cref>,
    /// How many of the first entries make the seen clauses of one literal true.
    pub shade: usize,
    /// The clauses of one literal that aren't listed are reasons of so many of the first entries.
    pub top: usize,
}

/// The list of a literal.
#[inline]
pub fn key(l: Lit) -> usize
    ensures { result ≡ key_of l }
{
    l.code() as usize + 2
}

/// Whether a held clause is attached to the core, or to the rest.
#[inline]
pub fn is_on(memory: &ClauseMem, at: Cref, core: bool) -> bool
    requires { IsHeld memory.now at }
    ensures { result ≡ is_on core (cell_at memory.now at) }
{
    memory.mark(at) && memory.flag(at) == core
}

/// The literal of a clause of one literal.
pub fn single(memory: &ClauseMem, at: Cref) -> Option<Lit>
    requires { IsHeld memory.now at }
    ensures { MatchOption result (length (cell_at memory.now at).lits ≢ 1) (λ l. (cell_at memory.now at).lits ≡ l ∷ []) }
{
    single_counted::<Brand>(memory, at, Blank::new(1))
}

/// The same with a count of steps.
fn single_counted<L: Ledger>(memory: &ClauseMem, at: Cref, blank: Blank) -> Option<Lit>
    requires name { blank.name ≡ L.name }
    requires parts { blank.parts ≡ L.parts }
    requires some { 0 < blank.parts }
    requires held { IsHeld memory.now at }
    ensures { MatchOption result (length (cell_at memory.now at).lits ≢ 1) (λ l. (cell_at memory.now at).lits ≡ l ∷ []) }
{
    let mut steps = Steps::<L>::new(blank);
    let clause = memory.lits(at, &mut steps);
    if clause.len() != 1 {
        return None;
    }
    Some(clause[0])
}

impl Watches {
    /// No watches, and no room. It takes no memory.
    pub fn new(alloc: Global) -> Watches
        ensures { IsBlank result }
    {
        Watches {
            lists: Lists::new(alloc),
            done: 0,
            kept: Vec::new(alloc),
            pending: None,
            shade: 0,
            top: 0,
        }
    }

    /// Makes room for the variables up to `var`. It changes nothing else.
    pub fn grow(&mut self, var: u32) -> Result<(), NoMemory>
        requires { var ≤ MOST_VARS }
        ensures ok { OnOk result (2 * var + 4 ≤ length self.new.lists.lists) }
        ensures keeps { HasMoreRoom self.old self.new }
    {
        reserve_to(&mut self.kept, 4 * var as usize + 4)?;
        self.lists.grow(2 * var as usize + 4)
    }

    /// Makes room for the watches of so many clauses. It changes nothing else.
    pub fn reserve(&mut self, clauses: usize) -> Result<(), NoMemory>
        requires { clauses < 2 ^ 62 }
        ensures ok { OnOk result (HasRoom clauses self.new.lists) }
        ensures keeps { HasMoreRoom self.old self.new }
    {
        self.lists.grow(2)?;
        let more = (2 * clauses).saturating_sub(self.lists.count());
        self.lists.reserve(more)
    }

    /// Falls back to the greatest kept length of at most `mark`, where only so many entries are left.
    pub fn fall_back(&mut self, mark: usize)
        requires rising { AreRising 0 self.old.kept.items }
        requires both { 0 < length self.old.lists.lists → 2 ≤ length self.old.lists.lists }
        requires walked { self.old.lists.walked ≡ None }
        requires ahead { self.old.lists.ahead ≡ [] }
        ensures shape { HasSameShape self.old.lists self.new.lists }
        ensures rests { (core : Bool) (m : Memory) (e : Entries) → mark ≤ length e.lits → IsResting core m e self.old → IsResting core m (record e { lits = take mark e.lits }) self.new }
    {
        let kept = fall_to(&mut self.kept, mark);
        self.done = kept as usize;
        self.pending = None;
        self.shade = fall_in(&mut self.lists, self.shade, mark);
    }

    /// The greatest kept length; 0 where there is none.
    #[inline]
    pub fn kept_len(&self) -> usize
        ensures { result ≡ last_above 0 self.now.kept.items }
    {
        last(&self.kept) as usize
    }

    /// Notes that nothing more follows from so many entries, where there is room for that; and there is for as many as come.
    pub fn keep(&mut self, len: usize)
        requires rising { AreRising 0 self.old.kept.items }
        requires within { (n : ℕ) → holds_number n self.old.kept.items ≡ true → n ≤ len }
        requires fits { len < 2 ^ 32 }
        ensures rest { self.new ≡ record self.old { kept = self.new.kept } }
        ensures rising { AreRising 0 self.new.kept.items }
        ensures kept { (n : ℕ) → holds_number n self.new.kept.items ≡ true → (n ≡ len) ⊎ (holds_number n self.old.kept.items ≡ true) }
    {
        if last(&self.kept) as usize == len {
            return;
        }
        if self.kept.len() == self.kept.capacity() {
            return;
        }
        self.kept.push_reserved(len as u32);
    }
}

/// The last number of a list; 0 where there is none.
#[inline]
fn last(kept: &Vec<u32>) -> u32
    ensures { result ≡ last_above 0 kept.now.items }
{
    let count = kept.len();
    if count == 0 {
        return 0;
    }
    kept[count - 1]
}

/// Drops the lengths above `mark`, and gives the greatest that is left; 0 where none is.
fn fall_to(kept: &mut Vec<u32>, mark: usize) -> u32
    requires { AreRising 0 kept.old.items }
    ensures rising { AreRising 0 kept.new.items }
    ensures fewer { (n : ℕ) → holds_number n kept.new.items ≡ true → holds_number n kept.old.items ≡ true }
    ensures greatest { result ≡ last_above 0 kept.new.items }
    ensures low { result ≤ mark }
{
    while last(kept) as usize > mark {
        kept.truncate(kept.len() - 1);
    }
    last(kept)
}

/// How many of the first numbers aren't above another one.
fn count_low(kept: &Vec<u32>, low: usize) -> usize
    requires { AreRising 0 kept.now.items }
    ensures within { result ≤ length kept.now.items }
    ensures below { last_above 0 (take result kept.now.items) ≤ low }
{
    let mut count = kept.len();
    while count > 0 {
        if kept[count - 1] as usize <= low {
            return count;
        }
        count -= 1;
    }
    0
}

/// Drops the numbers above `low` and up to `high`.
pub fn drop_between(kept: &mut Vec<u32>, low: usize, high: usize)
    requires { AreRising 0 kept.old.items }
    ensures rising { AreRising 0 kept.new.items }
    ensures fewer { (n : ℕ) → holds_number n kept.new.items ≡ true → (holds_number n kept.old.items ≡ true) × ((n ≤ low) ⊎ (high < n)) }
{
    let first = count_low(kept, low);
    let mut left = first;
    for i in first..kept.len() {
        let n = kept[i];
        if n as usize <= high {
            continue;
        }
        kept[left] = n;
        left += 1;
    }
    kept.truncate(left);
}

/// The seen clauses of one literal are unseen where the entries that make them true may be gone; says how many of the first
/// entries make the seen ones true.
fn fall_in(lists: &mut Lists, shade: usize, mark: usize) -> usize
    requires both { 0 < length lists.old.lists → 2 ≤ length lists.old.lists }
    requires walked { lists.old.walked ≡ None }
    requires ahead { lists.old.ahead ≡ [] }
    ensures low { result ≤ mark }
    ensures shape { HasSameShape lists.old lists.new }
    ensures ahead { lists.new.ahead ≡ [] }
    ensures literals { (r : ℕ) (k : Literal) → listed lists.new r k ≡ listed lists.old r k }
    ensures tallies { (p : Listed → Bool) → tally lists.new [] p ≡ tally lists.old [] p }
    ensures short { (core : Bool) (m : Memory) (s : List Literal) (rs : List ℕ) (top : ℕ) → AreShortListed core m lists.old (take shade s) rs top → AreShortListed core m lists.new (take result (take mark s)) rs top }
{
    if shade <= mark {
        return shade;
    }
    unsee(lists);
    0
}

/// Puts the seen clauses among those that aren't.
fn unsee(lists: &mut Lists)
    requires both { 0 < length lists.old.lists → 2 ≤ length lists.old.lists }
    requires walked { lists.old.walked ≡ None }
    requires ahead { lists.old.ahead ≡ [] }
    ensures shape { HasSameShape lists.old lists.new }
    ensures ahead { lists.new.ahead ≡ [] }
    ensures literals { (r : ℕ) (k : Literal) → listed lists.new r k ≡ listed lists.old r k }
    ensures tallies { (p : Listed → Bool) → tally lists.new [] p ≡ tally lists.old [] p }
    ensures unseen { (r : ℕ) → times lists.new r UNSEEN ≡ times lists.old r UNSEEN + times lists.old r SEEN }
    ensures seen { (r : ℕ) → times lists.new r SEEN ≡ 0 }
{
    if lists.keys() == 0 {
        return;
    }
    lists.begin(SEEN);
    while let Some(watch) = lists.next() {
        let Watch { blocker, at } = watch;
        lists.push(UNSEEN, Watch { blocker, at });
    }
    lists.end();
}
