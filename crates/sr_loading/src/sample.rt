// Random small formulas and lines, with what the plain definitions say of loading them.
ghost use Rattle.std.specs.Prelude.{IfOk};
ghost use Rattle.sr_model.specs.Dsr.{LineHasPivot};
ghost use Rattle.sr_lemma.specs.Lines.{line_of};

use crate::building::add;
use crate::reference::{Entry, LITERALS, is_unit};
use sr_base::{Clause, IdList, Items, Lit, LitList};
use sr_lemma::{DsrLine, Lemma};
use sr_load::{Loaded, LoadedProof};
use sr_model::refutes_plain;
use sr_wit::Formula;
use std::alloc::Global;
use std::test::Fail;

/// Clauses that came and went over the lines so far; the first ones are the formula's.
#[derive(Drop)]
pub(crate) struct Sample {
    pub entries: Vec<Entry>,
    pub lines: u32,
    pub lemmas: u32,
    pub passed: u64,
    pub keeps_units: bool,
    pub name: u64,
    seed: u64,
}

/// A literal, and its bit.
pub(crate) fn literal_at(i: u64) -> Result<(u32, Lit), Fail> {
    let (bit, number) = LITERALS[(i % 8) as usize];
    Ok((bit, Lit::new(number).ok_or("no literal")?))
}

pub(crate) fn literals_of(alloc: Global, set: u32) -> Result<LitList, Fail> {
    let mut lits = Items::new(alloc);
    for i in 0..8u64 {
        let (bit, l) = literal_at(i)?;
        if set & bit != 0 {
            lits.push(l)?;
        }
    }
    Ok(lits)
}

/// The clause of a set, in one order or in the other.
fn clause_of(alloc: Global, set: u32, is_reversed: bool) -> Result<Clause, Fail> {
    let mut lits = literals_of(alloc, set)?;
    if is_reversed {
        lits.reverse();
    }
    Ok(Clause::from_list(alloc, lits)?)
}

impl Sample {
    pub(crate) fn new(alloc: Global, name: u64, keeps_units: bool) -> Sample {
        Sample {
            entries: Vec::new(alloc),
            lines: 0,
            lemmas: 0,
            passed: 0,
            keeps_units,
            name,
            seed: name,
        }
    }

    /// A number below another one.
    pub(crate) fn below(&mut self, most: u64) -> u64 {
        self.seed = self
            .seed
            .wrapping_mul(6_364_136_223_846_793_005)
            .wrapping_add(1_442_695_040_888_963_407);
        if most == 0 {
            0
        } else {
            (self.seed >> 33) % most
        }
    }

    /// A set of one to three literals.
    fn set(&mut self) -> u32 {
        let size = self.below(12);
        let mut set = 0;
        for i in 0..3u64 {
            if i <= size {
                let place = self.below(8) % 8;
                set |= LITERALS[place as usize].0;
            }
        }
        set
    }

    /// The set of a clause that came, alive or not.
    fn known(&mut self) -> u32 {
        let count = self.entries.len() as u64;
        let i = self.below(count) as usize;
        match self.entries.get(i) {
            Some(entry) => entry.lits,
            None => 0,
        }
    }

    /// What a deletion names: often a clause that makes a literal true, seldom none that came.
    fn victim(&mut self) -> u32 {
        if self.below(8) == 0 {
            return self.set();
        }
        for _ in 0..self.below(5) {
            let set = self.known();
            if is_unit(self.entries.as_slice(), self.lines, set) {
                return set;
            }
        }
        self.known()
    }

    fn join(&mut self, set: u32) -> Result<(), Fail> {
        self.entries.push(Entry {
            lits: set,
            born: self.lines,
            gone: u32::MAX,
        })?;
        Ok(())
    }

    /// Takes the last alive clause that is this set away, and says whether there was one.
    fn take_away(&mut self, set: u32) -> bool {
        let lines = self.lines;
        for entry in self.entries.as_mut_slice().iter_mut().rev() {
            if entry.lits == set && entry.is_alive(lines) {
                entry.gone = lines;
                return true;
            }
        }
        false
    }

    /// Whether a deletion is passed over whatever clauses there are.
    fn is_kept(&self, set: u32) -> bool {
        let before = self.lines.wrapping_sub(1);
        self.keeps_units && is_unit(self.entries.as_slice(), before, set)
    }

    fn deletion(&mut self, alloc: Global) -> Result<DsrLine, Fail>
        ensures { IfOk result (λ l. LineHasPivot (line_of l)) }
    {
        let set = self.victim();
        self.lines = self.lines.wrapping_add(1);
        if self.is_kept(set) || !self.take_away(set) {
            self.passed = self.passed.wrapping_add(1);
        }
        let is_reversed = self.below(2) == 0;
        Ok(DsrLine::Del(clause_of(alloc, set, is_reversed)?))
    }

    fn lemma(&mut self, alloc: Global) -> Result<DsrLine, Fail>
        ensures { IfOk result (λ l. LineHasPivot (line_of l)) }
    {
        let set = if self.below(5) == 0 {
            self.known()
        } else {
            self.set()
        };
        self.lines = self.lines.wrapping_add(1);
        self.lemmas = self.lemmas.wrapping_add(1);
        self.join(set)?;
        let is_reversed = self.below(2) == 0;
        Ok(DsrLine::Add(Lemma {
            clause: clause_of(alloc, set, is_reversed)?,
            witness: None,
        }))
    }

    /// The next line.
    pub(crate) fn line(&mut self, alloc: Global) -> Result<DsrLine, Fail>
        ensures { IfOk result (λ l. LineHasPivot (line_of l)) }
    {
        if self.below(5) < 2 {
            self.deletion(alloc)
        } else {
            self.lemma(alloc)
        }
    }

    /// A formula of five clauses over four variables.
    pub(crate) fn formula(&mut self, alloc: Global) -> Result<Formula, Fail> {
        let mut formula = Formula::new(alloc, 4);
        for _ in 0..5 {
            let set = self.set();
            self.join(set)?;
            add(&mut formula, clause_of(alloc, set, false)?)?;
        }
        Ok(formula)
    }

    /// The numbers of the clauses that are alive after so many lines.
    pub(crate) fn alive(&self, alloc: Global, lines: u32) -> Result<IdList, Fail> {
        let mut found = Items::new(alloc);
        let mut id = 0u32;
        for entry in self.entries.as_slice() {
            id = id.wrapping_add(1);
            if entry.is_alive(lines) {
                found.push(id)?;
            }
        }
        Ok(found)
    }

    /// Whether these clauses refute literals.
    pub(crate) fn refutes(&self, alloc: Global, ids: &[u32], assumed: u32) -> Result<bool, Fail> {
        let mut clauses = Vec::new(alloc);
        for id in ids {
            let i = (*id as usize).wrapping_sub(1);
            let entry = self.entries.get(i).copied().ok_or("no clause")?;
            clauses.push(clause_of(alloc, entry.lits, false)?)?;
        }
        let lits = literals_of(alloc, assumed)?;
        Ok(refutes_plain(alloc, &clauses, lits.as_slice())?)
    }

    /// Whether the clauses that are alive after so many lines conflict.
    pub(crate) fn conflicts(&self, alloc: Global, lines: u32) -> Result<bool, Fail> {
        let ids = self.alive(alloc, lines)?;
        self.refutes(alloc, ids.as_slice(), 0)
    }

    /// How many lines stand before that of the lemma of a number.
    pub(crate) fn lines_before(&self, id: u32) -> u32 {
        let i = (id as usize).wrapping_sub(1);
        match self.entries.get(i) {
            Some(entry) => entry.born.saturating_sub(1),
            None => 0,
        }
    }
}

/// Those of some numbers that are cited.
pub(crate) fn cited_of(alloc: Global, proof: &LoadedProof, ids: &[u32]) -> Result<IdList, Fail> {
    let mut found = Items::new(alloc);
    for id in ids {
        if proof.is_cited(*id) {
            found.push(*id)?;
        }
    }
    Ok(found)
}
