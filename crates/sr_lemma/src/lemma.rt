// Lemmas, and lines of a proof by lemmas.
ghost use Rattle.std.specs.Prelude.{◌≡◌, IfOk};
ghost use Rattle.sr_model.specs.Dsr.{LineHasPivot, lemma_line};
ghost use Rattle.sr_lemma.specs.Lines.{lemma_told, line_of, clause_told, GivesLemma};

use crate::witnesses::{clause_of_list, find_witness};
use sr_base::{Clause, InputError, LitList};
use sr_wit::Subst;
use std::alloc::Global;

/// A clause that a proof adds, and the witness that shows that it may, where one is written. A witness
/// makes the first literal of the clause true.
#[derive(Drop)]
pub struct Lemma {
    pub clause: Clause,
    pub witness: Option<Subst>,
}

/// A line of a proof by lemmas: one that is added, or a clause that is deleted.
#[derive(Drop)]
pub enum DsrLine {
    Add(Lemma),
    Del(Clause),
}

impl Lemma {
    /// The lemma of its literals as they are written: those of the clause, then from the second occurrence of
    /// its first literal on those of the witness, and from the third on pairs of a literal and its image.
    ///
    /// # Errors
    ///
    /// `Text` with this place, that of the `0` that ends the literals: `OddMap` where a literal of the pairs
    /// is left over, or else `Twice` where a variable gets two different images.
    pub fn from_literals(alloc: Global, lits: LitList, end: u64) -> Result<Lemma, InputError>
        ensures lemma { GivesLemma lits end result }
        ensures pivot { IfOk result (λ l. LineHasPivot (lemma_line (lemma_told l))) }
    {
        let witness = find_witness(alloc, lits.as_slice(), end)?;
        let Ok(clause) = clause_of_list(alloc, lits) else {
            return Err(InputError::NoMemory);
        };
        Ok(Lemma { clause, witness })
    }
}

impl DsrLine {
    /// The literals of the clause, in a list whose memory may be used for the next line.
    pub fn into_list(self) -> LitList
        ensures { result ≡ clause_told (line_of self) }
    {
        match self {
            DsrLine::Add(Lemma { clause, .. }) => clause.into_list(),
            DsrLine::Del(clause) => clause.into_list(),
        }
    }
}
