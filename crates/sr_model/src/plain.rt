// The plain test of refutation: a set grows by the literals that a clause forces, until none is new.
ghost use Rattle.std.specs.Prelude.{◌≡◌, ◌↔◌, IsTrue, IfOk, MatchOption};
ghost use Rattle.sr_model.specs.Refutation.{Refutes, IsClosed, IsClosedFor, has_empty, is_empty};
ghost use Rattle.sr_model.specs.Substitution.{has_pair};
ghost use Rattle.sr_model.specs.Propagation.{is_forced, IsNewIn, IsNewOf};

use sr_base::{Clause, Items, Lit, NoMemory, has};
use std::alloc::Global;

/// Whether the clauses refute the literals: one of the clauses is empty, or unit propagation from the
/// literals reaches a literal and its complement.
///
/// It goes over all clauses again for each literal that it adds, and serves to judge faster tests. The
/// one error is want of memory.
pub fn refutes_plain(alloc: Global, clauses: &[Clause], assumed: &[Lit]) -> Result<bool, NoMemory>
    ensures { IfOk result (λ yes. IsTrue yes ↔ Refutes clauses.now assumed.now) }
{
    let mut set = Items::new(alloc);
    for l in assumed {
        set.push(*l)?;
    }
    while let Some(l) = new_of(clauses, set.as_slice()) {
        set.push(l)?;
    }
    Ok(one_is_empty(clauses) || holds_pair(set.as_slice()))
}

/// Whether one of the clauses is empty.
fn one_is_empty(clauses: &[Clause]) -> bool
    ensures { result ≡ has_empty clauses.now }
{
    clauses.iter().any(|clause| has_no_literal(clause))
}

/// Whether a clause is empty.
pub fn has_no_literal(clause: &Clause) -> bool
    ensures { result ≡ is_empty clause.now }
{
    clause.lits().is_empty()
}

/// Whether a set holds a literal and its complement.
fn holds_pair(set: &[Lit]) -> bool
    ensures { result ≡ has_pair set.now }
{
    set.iter().any(|l| has(set, l.neg()))
}

/// Whether the complements of the clause's other literals are all in the set.
fn forces(set: &[Lit], lits: &[Lit], l: Lit) -> bool
    ensures { result ≡ is_forced set.now lits.now l }
{
    lits.iter().all(|k| k.is(l) || has(set, k.neg()))
}

/// A literal that the clause forces and the set lacks; none where the set is closed for the clause.
fn new_in(set: &[Lit], lits: &[Lit]) -> Option<Lit>
    ensures { MatchOption result (IsClosedFor set.now lits.now) (λ l. IsNewIn set.now lits.now l) }
{
    for l in lits {
        if !has(set, *l) && forces(set, lits, *l) {
            return Some(*l);
        }
    }
    None
}

/// A literal that a clause forces and the set lacks; none where the set is closed.
fn new_of(clauses: &[Clause], set: &[Lit]) -> Option<Lit>
    ensures { MatchOption result (IsClosed set.now clauses.now) (λ l. IsNewOf set.now clauses.now l) }
{
    for clause in clauses {
        if let Some(l) = new_in(set, clause.lits()) {
            return Some(l);
        }
    }
    None
}
