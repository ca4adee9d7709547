// The list of entries, with tables that tell at once where a literal comes first and whether it is assumed.
ghost use Rattle.std.specs.Prelude.{ℕ, ◌≡◌, ◌≢◌, ◌≤◌, ◌<◌, ◌+◌, ◌-◌, ◌*◌, [], ◌++◌, replicate, length, max, min, cond, false, slice_index_or, slice_set, ◌==◌, vec_capacity, IsOk, OnOk, OnErr};
ghost use Rattle.sr_base.specs.Literal.{complement, has, variable};
ghost use Rattle.sr_base.specs.declared.literal.TheConstants.{MOST_VARS};
ghost use Rattle.sr_model.specs.Substitution.{has_pair};
ghost use Rattle.sr_watch.specs.Reasons.{with_reason};
ghost use Rattle.sr_watch.specs.Trail.{Entries, place_in, assumed_of, with_entry, first_entries, MayEnter, AreEntries, IsClashAt, root_length};

use sr_base::{Lit, NoMemory};
use std::alloc::Global;
use std::marker::Model;

/// Literals, each with the number of the clause that it was derived by, or 0 where it is assumed.
#[derive(Drop)]
pub struct Trail {
    vars: u32,
    lits: Vec<Lit>,
    reasons: Vec<u32>,
    /// For each code one more than the place where the literal comes first, or 0.
    first: Vec<u32>,
    /// For each code whether the literal is assumed.
    marks: Vec<bool>,
    /// One more than the place of the first entry whose complement comes before it, or 0.
    clash: u32,
    /// One more than the place of the first assumed entry whose complement was assumed before it, or 0.
    pair: u32,
    /// How many entries come before the first assumed one.
    root: u32,
}

impl Model for Trail {
    ghost use Rattle.std.specs.Prelude.{◌≡◌, ◌≤◌, vec_capacity};
    ghost use Rattle.sr_watch.specs.Trail.{Entries, AreEntries, AreTables, IsClashAt, IsAssumedPairAt, root_length};
    ghost use Rattle.sr_watch.specs.Inside.{most_entries};

    ghost Value = { Entries };

    ghost view = { λ t. record { vars = t.vars; lits = t.lits.items; reasons = t.reasons.items } };

    ghost invariant = { λ t. AreEntries (record { vars = t.vars; lits = t.lits.items; reasons = t.reasons.items })
        × AreTables (record { vars = t.vars; lits = t.lits.items; reasons = t.reasons.items }) t.first.items t.marks.items
        × (most_entries t.vars ≤ vec_capacity t.lits) × (most_entries t.vars ≤ vec_capacity t.reasons) × IsClashAt t.lits.items t.clash
        × IsAssumedPairAt t.lits.items t.reasons.items t.pair × (t.root ≡ root_length t.reasons.items) };
}

impl Trail {
    /// No entries, and no room. It takes no memory.
    pub fn new(alloc: Global) -> Trail
        ensures { result ≡ record { vars = 0; lits = []; reasons = [] } }
    {
        Trail {
            vars: 0,
            lits: Vec::new(alloc),
            reasons: Vec::new(alloc),
            first: Vec::new(alloc),
            marks: Vec::new(alloc),
            clash: 0,
            pair: 0,
            root: 0,
        }
    }

    /// Makes room for the variables up to `var`. Want of memory changes nothing.
    pub fn grow(&mut self, var: u32) -> Result<(), NoMemory>
        requires { var ≤ MOST_VARS }
        ensures ok { OnOk result (self.new ≡ record self.old { vars = max self.old.vars var }) }
        ensures has_room { var ≤ self.old.vars → IsOk result }
        ensures err { OnErr result (self.new ≡ self.old) }
    {
        if var <= self.vars {
            return Ok(());
        }
        let room = 4 * var as usize + 4;
        let size = 2 * var as usize + 2;
        reserve_to(&mut self.lits, room)?;
        reserve_to(&mut self.reasons, room)?;
        reserve_to(&mut self.first, size)?;
        reserve_to(&mut self.marks, size)?;
        fill(&mut self.first, size, 0);
        fill(&mut self.marks, size, false);
        self.vars = var;
        Ok(())
    }

    /// The greatest variable that has room.
    #[inline]
    pub fn vars(&self) -> u32
        ensures { result ≡ self.now.vars }
    {
        self.vars
    }

    /// The literals in order.
    #[inline]
    pub fn lits(&self) -> &[Lit]
        ensures value { result.now ≡ self.now.lits }
        ensures entries { AreEntries self.now }
    {
        self.lits.as_slice()
    }

    /// The reasons in order.
    #[inline]
    pub fn reasons(&self) -> &[u32]
        ensures value { result.now ≡ self.now.reasons }
        ensures entries { AreEntries self.now }
    {
        self.reasons.as_slice()
    }

    /// Whether a literal is true.
    #[inline]
    pub fn is_true(&self, l: Lit) -> bool
        requires { variable l ≤ self.now.vars }
        ensures { result ≡ has l self.now.lits }
    {
        self.place(l) != 0
    }

    /// One more than the place where a literal comes first; 0 where it isn't true.
    #[inline]
    pub fn place(&self, l: Lit) -> u32
        requires { variable l ≤ self.now.vars }
        ensures { result ≡ place_in self.now.lits l }
    {
        let _var = l.var();
        self.first[l.code() as usize]
    }

    /// Whether a literal is assumed.
    #[inline]
    pub fn is_assumed(&self, l: Lit) -> bool
        requires { variable l ≤ self.now.vars }
        ensures { result ≡ has l (assumed_of self.now) }
    {
        let _var = l.var();
        self.marks[l.code() as usize]
    }

    /// One more than the place of the first entry whose complement comes before it; 0 where no literal is
    /// true and false.
    #[inline]
    pub fn clash(&self) -> u32
        ensures { IsClashAt self.now.lits result }
    {
        self.clash
    }

    /// Whether a literal and its complement are assumed.
    #[inline]
    pub fn has_assumed_pair(&self) -> bool
        ensures { result ≡ has_pair (assumed_of self.now) }
    {
        self.pair != 0
    }

    /// How many entries come before the first assumed one.
    #[inline]
    pub fn root_len(&self) -> usize
        ensures { result ≡ root_length self.now.reasons }
    {
        self.root as usize
    }

    /// Whether a literal is to be assumed after its complement was.
    #[inline]
    fn makes_pair(&self, l: Lit, reason: u32) -> bool
        requires { variable l ≤ self.now.vars }
        ensures { result ≡ cond (reason == 0) (has (complement l) (assumed_of self.now)) false }
    {
        if reason != 0 {
            return false;
        }
        self.is_assumed(l.neg())
    }

    /// Adds an entry. It takes no memory.
    #[inline(always)]
    pub fn push(&mut self, l: Lit, reason: u32)
        requires { MayEnter self.old l reason }
        ensures value { self.new ≡ with_entry self.old l reason }
        ensures room { length self.new.lits ≤ 4 * self.new.vars + 4 }
    {
        let is_false = self.is_true(l.neg());
        let makes_pair = self.makes_pair(l, reason);
        let _var = l.var();
        let code = l.code() as usize;
        let place = self.lits.len() as u32 + 1;
        self.clash = first_after(self.clash, is_false, place);
        self.pair = first_after(self.pair, makes_pair, place);
        self.root = root_after(self.root, reason, place);
        replace(&mut self.first, code, 0, place);
        mark_if(&mut self.marks, code, reason == 0, true);
        self.lits.push_reserved(l);
        self.reasons.push_reserved(reason);
    }

    /// Gives a derived entry another reason.
    pub fn set_reason(&mut self, place: usize, reason: u32)
        requires within { place < length self.old.lits }
        requires derived { slice_index_or self.old.reasons place 0 ≢ 0 }
        requires some { reason ≢ 0 }
        ensures { self.new ≡ with_reason self.old place reason }
    {
        self.reasons[place] = reason;
    }

    /// Takes the last entry away.
    #[inline(always)]
    fn pop(&mut self)
        requires { 0 < length self.old.lits }
        ensures { self.new ≡ first_entries self.old (length self.old.lits - 1) }
    {
        let last = self.lits.len() - 1;
        let l = self.lits[last];
        let _var = l.var();
        let code = l.code() as usize;
        self.clash = first_within(self.clash, last);
        self.pair = first_within(self.pair, last);
        self.root = root_within(self.root, last);
        replace(&mut self.first, code, last as u32 + 1, 0);
        mark_if(&mut self.marks, code, self.reasons[last] == 0, false);
        self.lits.truncate(last);
        self.reasons.truncate(last);
    }

    /// Keeps the first entries alone.
    pub fn cut(&mut self, count: usize)
        requires { count ≤ length self.old.lits }
        ensures { self.new ≡ first_entries self.old count }
    {
        let _vars = self.vars;
        while self.lits().len() > count {
            self.pop();
        }
    }
}

/// The first place of a kind after one more entry, which is of that kind or isn't; 0 where there is none.
#[inline]
fn first_after(first: u32, is_one: bool, place: u32) -> u32
    ensures { result ≡ cond (first == 0) (cond is_one place 0) first }
{
    if first != 0 {
        return first;
    }
    if is_one { place } else { 0 }
}

/// The first place of a kind among the first entries alone; 0 where there is none.
#[inline]
fn first_within(first: u32, count: usize) -> u32
    ensures less { first ≤ count → result ≡ first }
    ensures none { count < first → result ≡ 0 }
{
    if first as usize > count { 0 } else { first }
}

/// How many entries come before the first assumed one, after one more entry.
#[inline]
fn root_after(root: u32, reason: u32, place: u32) -> u32
    ensures { result ≡ cond (reason == 0) root (cond (root + 1 == place) place root) }
{
    if reason != 0 && root < place && place - root == 1 {
        return place;
    }
    root
}

/// The same of the first entries alone.
#[inline]
fn root_within(root: u32, count: usize) -> u32
    ensures { result ≡ min root count }
{
    if root as usize > count {
        return count as u32;
    }
    root
}

/// Puts a number in the place of another one, where that stands there.
#[inline]
fn replace(table: &mut Vec<u32>, code: usize, old: u32, new: u32)
    requires { code < length table.old.items }
    ensures { table.new.items ≡ cond (slice_index_or table.old.items code 0 == old) (slice_set table.old.items code new) table.old.items }
{
    if table[code] == old {
        table[code] = new;
    }
}

/// Marks a place with a value, or doesn't.
#[inline]
fn mark_if(marks: &mut Vec<bool>, code: usize, on: bool, value: bool)
    requires { code < length marks.old.items }
    ensures { marks.new.items ≡ cond on (slice_set marks.old.items code value) marks.old.items }
{
    if on {
        marks[code] = value;
    }
}

/// Sees that the list has room for so many items in all.
pub fn reserve_to<T: Drop>(list: &mut Vec<T>, room: usize) -> Result<(), NoMemory>
    ensures items { list.new.items ≡ list.old.items }
    ensures room { OnOk result (room ≤ vec_capacity list.new) }
    ensures grown { vec_capacity list.old ≤ vec_capacity list.new }
{
    let count = list.len();
    if count >= room {
        return Ok(());
    }
    match list.reserve(room - count) {
        Ok(()) => Ok(()),
        Err(_) => Err(NoMemory),
    }
}

/// Fills a list up to a size with copies of an item. There is room for them.
pub fn fill<T: Copy>(list: &mut Vec<T>, size: usize, item: T)
    requires room { size ≤ vec_capacity list.old }
    requires size { length list.old.items ≤ size }
    ensures { list.new.items ≡ list.old.items ++ replicate (size - length list.old.items) item }
{
    for _i in list.len()..size {
        list.push_reserved(item);
    }
}
