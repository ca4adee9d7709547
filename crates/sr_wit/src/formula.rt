// Formulas. The literals of all clauses stand in one vector, beside the places where the clauses end.
ghost use Rattle.std.specs.Prelude.{◌≡◌, ◌-◌, ◌<◌, ◌≤◌, [], ◌∷◌, ◌++◌, length, All, OnOk, OnErr, slice_index, slice_index_or, slice_range};
ghost use Rattle.sr_base.specs.Literal.{NoRepeats};
ghost use Rattle.sr_model.specs.Refutation.{has_empty};
ghost use Rattle.sr_model.specs.Judging.{cells_of};
ghost use Rattle.sr_wit.specs.Pieces.{AreEnds, start_at, repeats_end};
ghost use Rattle.sr_wit.specs.Formulas.{UsesUpTo};

use sr_base::{Clause, Lit, NoMemory};
use std::alloc::Global;
use std::marker::Model;

/// A formula in conjunctive normal form: the number of variables that it may use, and its clauses,
/// which have the numbers from 1 on.
#[derive(Drop)]
pub struct Formula {
    vars: u32,
    lits: Vec<Lit>,
    ends: Vec<usize>,
}

impl Model for Formula {
    ghost use Rattle.sr_model.specs.Dimacs.{Formula as FormulaValue};
    ghost use Rattle.sr_wit.specs.Pieces.{pieces};
    ghost use Rattle.sr_wit.specs.Formulas.{KeepsFormula};

    ghost Value = { FormulaValue };

    ghost view = { λ f. record { vars = f.vars; clauses = pieces 0 f.ends.items f.lits.items } };

    ghost invariant = { λ f. KeepsFormula f.vars f.ends.items f.lits.items };
}

impl Formula {
    /// The formula over so many variables that has no clause. It takes no memory.
    pub fn new(alloc: Global, vars: u32) -> Formula
        requires { vars ≤ 16777215 }
        ensures { result ≡ record { vars = vars; clauses = [] } }
    {
        Formula {
            vars,
            lits: Vec::new(alloc),
            ends: Vec::new(alloc),
        }
    }

    /// Adds a clause at the end, under the next number. The formula stays as it was where memory lacks.
    pub fn push(&mut self, clause: Clause) -> Result<(), NoMemory>
        requires room { length self.old.clauses < 2147483646 }
        requires within { UsesUpTo self.old.vars clause }
        ensures ok { OnOk result (self.new ≡ record self.old { clauses = self.old.clauses ++ clause ∷ [] }) }
        ensures err { OnErr result (self.new ≡ self.old) }
    {
        self.push_lits(clause.lits())
    }

    /// Adds the clause of these literals, as [`push`](Formula::push) does.
    pub fn push_lits(&mut self, lits: &[Lit]) -> Result<(), NoMemory>
        requires room { length self.old.clauses < 2147483646 }
        requires within { UsesUpTo self.old.vars lits.now }
        requires distinct { NoRepeats lits.now }
        ensures ok { OnOk result (self.new ≡ record self.old { clauses = self.old.clauses ++ lits.now ∷ [] }) }
        ensures err { OnErr result (self.new ≡ self.old) }
    {
        let before = self.lits.len();
        if self.lits.extend_from_slice(lits).is_err() {
            return Err(NoMemory);
        }
        let end = before + lits.len();
        if self.ends.push(end).is_err() {
            self.lits.truncate(before);
            return Err(NoMemory);
        }
        Ok(())
    }

    /// The greatest variable that a clause may use.
    pub fn vars(&self) -> u32
        ensures value { result ≡ self.now.vars }
        ensures bound { result ≤ 16777215 }
        ensures within { All (UsesUpTo self.now.vars) self.now.clauses }
    {
        self.vars
    }

    /// The number of clauses.
    pub fn count(&self) -> u32
        ensures value { result ≡ length self.now.clauses }
        ensures bound { result ≤ 2147483646 }
        ensures distinct { All NoRepeats self.now.clauses }
    {
        self.ends.len() as u32
    }

    /// The literals of the clause of a number.
    pub fn clause(&self, id: u32) -> &[Lit]
        requires low { 1 ≤ id }
        requires high { id ≤ length self.now.clauses }
        ensures value { result.now ≡ slice_index_or self.now.clauses (id - 1) [] }
        ensures distinct { NoRepeats result.now }
        ensures within { UsesUpTo self.now.vars result.now }
    {
        piece(&self.lits, &self.ends, id as usize - 1)
    }

    /// Whether one of the clauses is empty. The time is that of a walk over the clauses.
    pub fn has_empty(&self) -> bool
        ensures { result ≡ has_empty self.now.clauses }
    {
        has_empty_piece(&self.ends)
    }

    /// The cells in which the clauses are held: one for each literal, and four more for each clause.
    pub fn cells(&self) -> u64
        ensures { result ≡ cells_of self.now.clauses }
    {
        self.lits.len() as u64 + 4 * self.ends.len() as u64
    }
}

/// The piece at an index. It begins at the end of the one before it.
#[inline]
fn piece<'a>(lits: &'a [Lit], ends: &[usize], at: usize) -> &'a [Lit]
    requires cut { AreEnds 0 ends.now (length lits.now) }
    requires index { at < length ends.now }
    ensures { result.now ≡ slice_range lits.now (start_at 0 ends.now at) (slice_index ends.now at) }
{
    let end = ends[at];
    if at == 0 {
        return &lits[..end];
    }
    let start = ends[at - 1];
    &lits[start..end]
}

/// Whether a piece is empty: it ends where the one before it does.
fn has_empty_piece(ends: &[usize]) -> bool
    ensures { result ≡ repeats_end 0 ends.now }
{
    let mut start = 0;
    for end in ends {
        if *end == start {
            return true;
        }
        start = *end;
    }
    false
}
