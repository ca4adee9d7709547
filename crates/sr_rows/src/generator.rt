// Random small formulas and proofs, with what the plain definitions say of loading them.
use crate::reference::{
    Entry, LITERALS, closure, complements, has_rup, is_forced, is_unsatisfiable, passes, refutes,
};
use std::alloc::Global;
use std::test::Fail;

/// Where loading stops.
#[derive(Clone, Copy, PartialEq)]
pub(crate) enum Stop {
    Nowhere,
    AtConflict,
    AtEmptyLemma,
}

/// A formula and a proof, as text and as the clauses that came and went.
#[derive(Drop)]
pub(crate) struct Sample {
    pub formula: String,
    pub proof: String,
    pub entries: Vec<Entry>,
    pub clauses: u32,
    pub lemmas: u32,
    pub lines: u32,
    pub passed: u32,
    pub stop: Stop,
    pub keeps_units: bool,
    is_guarded: bool,
    seed: u64,
}

/// Writes literals, in the order of `LITERALS`.
fn write_set(text: &mut String, set: u32) -> Result<(), Fail> {
    for (bit, word) in LITERALS {
        if set & bit != 0 {
            text.push_str(word)?;
        }
    }
    Ok(())
}

/// Writes a clause, its first literal in front.
fn write_clause(text: &mut String, entry: &Entry) -> Result<(), Fail> {
    write_set(text, entry.pivot)?;
    write_set(text, entry.lits & (entry.pivot ^ 0xFF))?;
    text.push_str("0\n")?;
    Ok(())
}

impl Sample {
    pub(crate) fn new(alloc: Global, seed: u64, keeps_units: bool) -> Sample {
        Sample {
            formula: String::new(alloc),
            proof: String::new(alloc),
            entries: Vec::new(alloc),
            clauses: 0,
            lemmas: 0,
            lines: 0,
            passed: 0,
            stop: Stop::Nowhere,
            keeps_units,
            is_guarded: seed % 4 < 2,
            seed,
        }
    }

    /// A number below another one.
    fn below(&mut self, most: u64) -> u64 {
        self.seed = self
            .seed
            .wrapping_mul(6_364_136_223_846_793_005)
            .wrapping_add(1_442_695_040_888_963_407);
        if most == 0 {
            0
        } else {
            (self.seed >> 33) % most
        }
    }

    fn literal(&mut self) -> u32 {
        let i = (self.below(8) % 8) as usize;
        LITERALS[i].0
    }

    /// A literal of another variable than that of the literal at a place.
    fn literal_beside(&mut self, place: u64) -> u32 {
        let i = ((place / 2)
            .wrapping_mul(2)
            .wrapping_add(self.below(6))
            .wrapping_add(2)
            % 8) as usize;
        LITERALS[i].0
    }

    /// A clause of one to three literals that comes with the present line, mostly of distinct variables.
    fn clause(&mut self) -> Entry {
        let place = self.below(8) % 8;
        let pivot = LITERALS[place as usize].0;
        let second = self.literal_beside(place);
        let third = self.literal_beside(place);
        let size = self.below(64);
        let mut lits = pivot;
        if size > 1 {
            lits |= second;
        }
        if size > 40 && (third & complements(lits) == 0 || size == 63) {
            lits |= third;
        }
        Entry {
            lits,
            pivot,
            born: self.lines,
            gone: u32::MAX,
        }
    }

    /// One of the clauses that came, alive or not, or any other.
    fn known(&mut self) -> Entry {
        let i = self.below(20) as usize;
        let other = self.clause();
        match self.entries.get(i) {
            Some(entry) => Entry {
                lits: entry.lits,
                pivot: entry.pivot,
                ..other
            },
            None => other,
        }
    }

    /// A clause of one literal.
    fn unit(&mut self) -> Entry {
        let pivot = self.literal();
        Entry {
            lits: pivot,
            pivot,
            born: self.lines,
            gone: u32::MAX,
        }
    }

    /// Whether propagation alone doesn't give a clause of one literal, and its complement conflicts.
    fn is_new(&self, unit: &Entry) -> bool {
        let entries = self.entries.as_slice();
        closure(entries, self.lines, 0) & unit.lits == 0 && has_rup(entries, unit)
    }

    /// A clause for a lemma: mostly one that passes.
    fn lemma(&mut self) -> Entry {
        match self.below(20) {
            0 => return self.known(),
            1 => return self.unit(),
            _ => (),
        }
        for _ in 0..4 {
            let unit = self.unit();
            if self.is_new(&unit) {
                return unit;
            }
        }
        for _ in 0..12 {
            let lemma = self.clause();
            if passes(self.entries.as_slice(), &lemma) {
                return lemma;
            }
        }
        self.clause()
    }

    fn refutes(&self) -> bool {
        refutes(self.entries.as_slice(), self.lines, 0)
    }

    /// Sets where loading stands.
    fn judge(&mut self) {
        if self.stop == Stop::Nowhere && self.refutes() {
            self.stop = Stop::AtConflict;
        }
    }

    /// Makes a formula, some of its clauses copies. It mostly doesn't conflict alone, and mostly no assignment satisfies it.
    pub(crate) fn make_formula(&mut self, alloc: Global) -> Result<(), Fail> {
        let mut text = String::new(alloc);
        let tries = if self.below(8) == 0 { 0 } else { 10 };
        for _ in 0..26 {
            if !is_unsatisfiable(self.entries.as_slice()) || self.below(4) == 0 {
                let clause = self.formula_clause(tries)?;
                write_clause(&mut text, &clause)?;
                self.entries.push(clause)?;
                self.clauses = self.clauses.wrapping_add(1);
            }
        }
        let clauses = self.clauses;
        self.formula = format!(in alloc; "p cnf 4 {clauses}\n{text}")?;
        self.judge();
        Ok(())
    }

    /// A clause with which the formula doesn't conflict, where one is found.
    fn formula_clause(&mut self, tries: u32) -> Result<Entry, Fail> {
        if self.is_guarded && self.clauses == 0 {
            return Ok(self.guard());
        }
        let mut clause = self.any_clause();
        for _ in 0..tries {
            if !self.refutes_with(&clause)? {
                return Ok(clause);
            }
            clause = self.any_clause();
        }
        Ok(clause)
    }

    /// A clause of three variables that stands only while the fourth is true.
    fn guarded(&mut self) -> Entry {
        let clause = self.clause();
        Entry {
            lits: clause.lits & 0x3F | 0x80,
            pivot: if clause.pivot & 0x3F == 0 {
                0x80
            } else {
                clause.pivot
            },
            ..clause
        }
    }

    /// The clause that makes the fourth variable true.
    fn guard(&self) -> Entry {
        Entry {
            lits: 0x40,
            pivot: 0x40,
            born: self.lines,
            gone: u32::MAX,
        }
    }

    fn any_clause(&mut self) -> Entry {
        match self.below(6) {
            0 => self.known(),
            1..4 if self.is_guarded => self.guarded(),
            _ => self.clause(),
        }
    }

    fn refutes_with(&mut self, clause: &Entry) -> Result<bool, Fail> {
        self.entries.push(*clause)?;
        let refutes = self.refutes();
        self.entries.truncate(self.entries.len().saturating_sub(1));
        Ok(refutes)
    }

    fn add_lemma(&mut self) -> Result<(), Fail> {
        let lemma = self.lemma();
        write_clause(&mut self.proof, &lemma)?;
        self.entries.push(lemma)?;
        self.lemmas = self.lemmas.wrapping_add(1);
        Ok(())
    }

    fn add_empty_lemma(&mut self) -> Result<(), Fail> {
        self.proof.push_str("0\n")?;
        self.lemmas = self.lemmas.wrapping_add(1);
        self.stop = Stop::AtEmptyLemma;
        Ok(())
    }

    /// Whether a deletion of this set is passed over though a clause is that set.
    fn is_kept(&self, set: u32) -> bool {
        let before = self.lines.saturating_sub(1);
        self.keeps_units && is_forced(self.entries.as_slice(), before, set)
    }

    /// Takes the last alive clause that is this set away, and says whether there was one.
    fn take_away(&mut self, set: u32) -> bool {
        let before = self.lines.saturating_sub(1);
        let lines = self.lines;
        for entry in self.entries.as_mut_slice().iter_mut().rev() {
            if entry.lits == set && entry.is_alive(before) {
                entry.gone = lines;
                return true;
            }
        }
        false
    }

    /// What a deletion names: often a clause that makes a literal true, or one of the last.
    fn victim(&mut self) -> u32 {
        let before = self.lines.saturating_sub(1);
        let count = self.entries.len();
        let tries = if self.keeps_units || self.below(4) == 0 {
            8
        } else {
            0
        };
        for _ in 0..tries {
            let i = self.below(count as u64) as usize;
            if let Some(entry) = self.entries.get(i) {
                let set = entry.lits;
                if is_forced(self.entries.as_slice(), before, set) {
                    return set;
                }
            }
        }
        match self.entries.get(count.saturating_sub(1)) {
            Some(entry) if self.lines % 2 == 0 => entry.lits,
            _ => self.known().lits,
        }
    }

    fn add_deletion(&mut self) -> Result<(), Fail> {
        let set = self.victim();
        self.proof.push_str("d ")?;
        write_set(&mut self.proof, set)?;
        self.proof.push_str("0\n")?;
        if self.is_kept(set) || !self.take_away(set) {
            self.passed = self.passed.wrapping_add(1);
        }
        Ok(())
    }

    fn add_line(&mut self) -> Result<(), Fail> {
        self.lines = self.lines.wrapping_add(1);
        match self.below(200) {
            0 => self.add_empty_lemma()?,
            1..100 => self.add_deletion()?,
            _ => self.add_lemma()?,
        }
        self.judge();
        Ok(())
    }

    /// Makes a proof of up to 16 lines up to the stop, and what isn't read behind it.
    pub(crate) fn make_proof(&mut self) -> Result<(), Fail> {
        for _ in 0..16 {
            if self.stop == Stop::Nowhere {
                self.add_line()?;
            }
        }
        if self.stop != Stop::Nowhere {
            self.proof.push_str("zzz\n")?;
        }
        Ok(())
    }
}
