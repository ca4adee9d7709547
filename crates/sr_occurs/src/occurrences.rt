// Lists of clause numbers by literal, by which the clauses are found that a witness touches. They are built when they are
// first needed. The number of a clause that is dropped stays in its lists until they are next read, so that a deletion
// touches none; where too many may have stayed, the lists are forgotten.
ghost use Rattle.std.specs.Prelude.{◌≡◌, ℕ, suc, ◌<◌, ◌≤◌, true, false, [], ◌∷◌, ◌++◌, length, slice_index_or, slice_set, OnOk, OnErr, IfOk};
ghost use Rattle.sr_base.specs.Literal.{literal_code};
ghost use Rattle.sr_model.specs.Chain.{Numbered};
ghost use Rattle.sr_table.specs.Numbers.{KeepsHeld};
ghost use Rattle.sr_occurs.specs.Candidates.{Gathers};
ghost use Rattle.sr_occurs.specs.Occurring.{head_at, numbers_under, under, AreLinked, SameNumbers, Enters, KeepsNumbers, IsUnder, counted, AreListed, KeepsFor, KeepsListed};

use crate::number_list::NumberList;
use sr_base::{ClauseId, Lit, NoMemory};
use sr_table::{IdSet, IdTable};
use std::alloc::Global;
use std::marker::Model;

/// For each literal a list of clause numbers, once they are built.
#[derive(Drop)]
pub struct Occurrences {
    alloc: Global,
    built: bool,
    heads: Vec<usize>,
    lists: Vec<NumberList>,
    entered: u64,
}

impl Model for Occurrences {
    ghost use Rattle.sr_occurs.specs.Occurring.{Occurring, AreLinked};

    ghost Value = { Occurring };

    ghost view = { λ o. record { built = o.built; heads = o.heads.items; lists = o.lists.items; entered = o.entered } };

    ghost invariant = { λ o. AreLinked o.heads.items o.lists.items };
}

impl Occurrences {
    /// Lists that aren't built.
    pub fn new(alloc: Global) -> Occurrences
        ensures built { result.built ≡ false }
        ensures entered { result.entered ≡ 0 }
    {
        Occurrences {
            alloc,
            built: false,
            heads: Vec::new(alloc),
            lists: Vec::new(alloc),
            entered: 0,
        }
    }

    /// Lists that are built and have no clause.
    pub fn begin(alloc: Global) -> Occurrences
        ensures built { result.built ≡ true }
        ensures listed { AreListed result [] }
        ensures entered { result.entered ≡ 0 }
    {
        Occurrences {
            alloc,
            built: true,
            heads: Vec::new(alloc),
            lists: Vec::new(alloc),
            entered: 0,
        }
    }

    /// Whether the lists are built.
    pub fn is_built(&self) -> bool
        ensures { result ≡ self.now.built }
    {
        self.built
    }

    /// Enters a clause, if the lists are built.
    pub fn enter(&mut self, id: ClauseId, lits: &[Lit]) -> Result<(), NoMemory>
        ensures built { self.new.built ≡ self.old.built }
        ensures kept { KeepsNumbers (under self.old) (under self.new) }
        ensures ok { OnOk result (self.old.built ≡ true → IsUnder (under self.new) id lits.now) }
        ensures entered { self.old.built ≡ true → self.new.entered ≡ counted self.old.entered (length lits.now) }
        ensures listed { OnOk result ((live : Numbered) → KeepsListed self.old live → KeepsListed self.new (live ++ (id, lits.now) ∷ [])) }
    {
        if self.built {
            self.entered = self.entered.saturating_add(lits.len() as u64);
            enter_all(self.alloc, &mut self.heads, &mut self.lists, id, lits)?;
        }
        Ok(())
    }

    /// Forgets the lists, if more literals than this were entered.
    pub fn limit(&mut self, most: u64)
        ensures kept { self.new.built ≡ true → self.new ≡ self.old }
        ensures stays { self.old.entered ≤ most → self.new ≡ self.old }
        ensures few { self.new.entered ≤ most }
    {
        if self.entered > most {
            *self = Occurrences::new(self.alloc);
        }
    }

    /// Adds the numbers of the clauses that hold a literal and that a table leads from. The list of the literal loses the
    /// numbers from which it leads nowhere.
    pub fn gather(&mut self, table: &IdTable, l: Lit, numbers: &mut IdSet) -> Result<(), NoMemory>
        ensures listed { KeepsFor table.now self.old self.new }
        ensures kept { KeepsHeld numbers.old numbers.new }
        ensures ok { OnOk result (Gathers table.now self.old (l ∷ []) numbers.new) }
    {
        let head = head_of(&self.heads, l);
        if head == 0 {
            return Ok(());
        }
        let list = &mut self.lists[head - 1];
        list.keep_set(table);
        numbers.add_all(list.as_slice())?;
        Ok(())
    }
}

/// The place of a literal's list, from 1 on; 0 where it has none.
fn head_of(heads: &[usize], l: Lit) -> usize
    ensures { result ≡ head_at heads.now (literal_code l) }
{
    let code = l.code() as usize;
    if code < heads.len() { heads[code] } else { 0 }
}

/// Enters a number in the lists of literals.
fn enter_all(
    alloc: Global,
    heads: &mut Vec<usize>,
    lists: &mut Vec<NumberList>,
    id: ClauseId,
    lits: &[Lit],
) -> Result<(), NoMemory>
    requires { AreLinked heads.old.items lists.old.items }
    ensures linked { AreLinked heads.new.items lists.new.items }
    ensures kept { KeepsNumbers (numbers_under heads.old.items lists.old.items) (numbers_under heads.new.items lists.new.items) }
    ensures ok { OnOk result (IsUnder (numbers_under heads.new.items lists.new.items) id lits.now) }
{
    for l in lits {
        let place = open_list(alloc, heads, lists, *l)?;
        push_number(lists, place, id)?;
    }
    Ok(())
}

/// The place of a literal's list, from 0 on. Where it has none, it gets an empty one.
#[inline]
fn open_list(
    alloc: Global,
    heads: &mut Vec<usize>,
    lists: &mut Vec<NumberList>,
    l: Lit,
) -> Result<usize, NoMemory>
    requires { AreLinked heads.old.items lists.old.items }
    ensures linked { AreLinked heads.new.items lists.new.items }
    ensures same { SameNumbers (numbers_under heads.old.items lists.old.items) (numbers_under heads.new.items lists.new.items) }
    ensures place { IfOk result (λ p. head_at heads.new.items (literal_code l) ≡ suc p) }
{
    reach(heads, l)?;
    let code = l.code() as usize;
    let place = heads[code];
    if place > 0 {
        return Ok(place - 1);
    }
    let place = lists.len();
    let Ok(()) = lists.push(NumberList::new(alloc)) else {
        return Err(NoMemory);
    };
    heads[code] = place + 1;
    Ok(place)
}

/// Makes room for the heads of a literal and of its complement.
#[inline]
fn reach(heads: &mut Vec<usize>, l: Lit) -> Result<(), NoMemory>
    ensures same { (i : ℕ) → head_at heads.new.items i ≡ head_at heads.old.items i }
    ensures ok { OnOk result (literal_code l < length heads.new.items) }
{
    let wanted = 2 * l.var() as usize + 2;
    if heads.len() < wanted && heads.resize(wanted, 0).is_err() {
        return Err(NoMemory);
    }
    Ok(())
}

/// Puts a number at the end of the list of a place.
#[inline]
fn push_number(lists: &mut Vec<NumberList>, place: usize, id: ClauseId) -> Result<(), NoMemory>
    requires { place < length lists.old.items }
    ensures ok { OnOk result (lists.new.items ≡ slice_set lists.old.items place (slice_index_or lists.old.items place [] ++ id ∷ [])) }
    ensures err { OnErr result (lists.new.items ≡ lists.old.items) }
{
    let list = &mut lists[place];
    list.push(id)
}
