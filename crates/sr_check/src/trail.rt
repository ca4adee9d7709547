// The literals that are assumed or follow, in order, with a table that says at once whether a literal is false under
// them. Cutting the list back undoes the entries of the table for what is cut off, and touches nothing else.
ghost use Rattle.std.specs.Prelude.{◌≡◌, ◌≤◌, ◌<◌, ◌+◌, ◌*◌, false, [], ◌∷◌, ◌++◌, take, length, slice_set, OnOk, OnErr};
ghost use Rattle.sr_base.specs.Literal.{has, complement, literal_code};
ghost use Rattle.sr_model.specs.Substitution.{has_pair};
ghost use Rattle.sr_check.specs.Trail.{Covers, CoversAll, lits_of, AreNew, IsTableOf, KeepsTable};

use sr_base::{Lit, NoMemory};
use std::alloc::Global;
use std::marker::Model;

/// A literal of the list, and whether it wasn't in the list before.
#[derive(Clone, Copy)]
struct Added {
    lit: Lit,
    is_new: bool,
}

/// Literals in order, with a table that is set at the code of each literal whose complement is among them.
#[derive(Drop)]
pub struct Trail {
    entries: Vec<Added>,
    table: Vec<bool>,
    pair: bool,
}

impl Model for Trail {
    ghost use Rattle.std.specs.Prelude.{length};
    ghost use Rattle.sr_check.specs.Trail.{TrailValue, lits_of, IsTrail};

    ghost Value = { TrailValue };

    ghost view = { λ m. record { lits = lits_of m.entries.items; room = length m.table.items } };

    ghost invariant = { λ m. IsTrail m.table.items m.entries.items m.pair };
}

impl Trail {
    /// No literals.
    pub fn new(alloc: Global) -> Trail
        ensures { result ≡ record { lits = []; room = 0 } }
    {
        Trail {
            entries: Vec::new(alloc),
            table: Vec::new(alloc),
            pair: false,
        }
    }

    /// How many literals the list has.
    pub fn len(&self) -> usize
        ensures { result ≡ length self.now.lits }
    {
        self.entries.len()
    }

    /// Whether a literal's complement is in the list.
    #[inline]
    pub fn is_false(&self, l: Lit) -> bool
        requires { literal_code l < self.now.room }
        ensures { result ≡ has (complement l) self.now.lits }
    {
        self.table[l.code() as usize]
    }

    /// Whether the list holds a literal and its complement.
    pub fn has_pair(&self) -> bool
        ensures { result ≡ has_pair self.now.lits }
    {
        self.pair
    }

    /// Makes room for a literal and its complement.
    pub fn cover(&mut self, l: Lit) -> Result<(), NoMemory>
        ensures lits { self.new.lits ≡ self.old.lits }
        ensures room { self.old.room ≤ self.new.room }
        ensures ok { OnOk result (Covers self.new.room l) }
    {
        make_room(&mut self.table, l)
    }

    /// Adds a literal at the end.
    #[inline]
    pub fn add(&mut self, l: Lit) -> Result<(), NoMemory>
        ensures ok { OnOk result (self.new.lits ≡ self.old.lits ++ l ∷ []) }
        ensures err { OnErr result (self.new.lits ≡ self.old.lits) }
        ensures room { self.old.room ≤ self.new.room }
    {
        make_room(&mut self.table, l)?;
        let falsified = l.neg().code() as usize;
        let is_new = !self.table[falsified];
        let clashes = self.table[l.code() as usize];
        let Ok(()) = self.entries.push(Added { lit: l, is_new }) else {
            return Err(NoMemory);
        };
        self.table[falsified] = true;
        self.pair |= clashes;
        Ok(())
    }

    /// Keeps the first `len` literals.
    pub fn truncate(&mut self, len: usize)
        requires within { len ≤ length self.old.lits }
        requires no_pair { has_pair (take len self.old.lits) ≡ false }
        ensures { self.new ≡ record self.old { lits = take len self.old.lits } }
    {
        undo(&self.entries, &mut self.table, len);
        self.entries.truncate(len);
        self.pair = false;
    }
}

/// Lengthens a table until it has places for a literal and its complement.
fn make_room(table: &mut Vec<bool>, l: Lit) -> Result<(), NoMemory>
    ensures kept { KeepsTable table.old.items table.new.items }
    ensures longer { length table.old.items ≤ length table.new.items }
    ensures room { OnOk result (Covers (length table.new.items) l) }
{
    let wanted = 2 * l.var() as usize + 2;
    if table.len() < wanted && table.resize(wanted, false).is_err() {
        return Err(NoMemory);
    }
    Ok(())
}

/// Unsets the table for the literals that come after the first `len`.
fn undo(entries: &[Added], table: &mut Vec<bool>, len: usize)
    requires within { len ≤ length entries.now }
    requires new { AreNew [] entries.now }
    requires trail { IsTableOf table.old.items (lits_of entries.now) }
    ensures trail { IsTableOf table.new.items (lits_of (take len entries.now)) }
    ensures room { length table.new.items ≡ length table.old.items }
{
    let mut left = entries.len();
    while left > len {
        left -= 1;
        let added = &entries[left];
        if added.is_new {
            unset(table, added.lit.neg());
        }
    }
}

/// Unsets the table for a literal.
fn unset(table: &mut Vec<bool>, l: Lit)
    requires { literal_code l < length table.old.items }
    ensures { table.new.items ≡ slice_set table.old.items (literal_code l) false }
{
    table[l.code() as usize] = false;
}

/// Makes room for literals and their complements.
pub fn cover_all(trail: &mut Trail, lits: &[Lit]) -> Result<(), NoMemory>
    ensures lits { trail.new.lits ≡ trail.old.lits }
    ensures room { trail.old.room ≤ trail.new.room }
    ensures ok { OnOk result (CoversAll trail.new.room lits.now) }
{
    for l in lits {
        trail.cover(*l)?;
    }
    Ok(())
}
