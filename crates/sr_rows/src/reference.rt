// The plain definitions of loading and of redundancy, over sets of bits, beside which random proofs are tried. They share
// nothing with the program.

/// The literals of four variables: bit 2v - 2 is the variable v, and bit 2v - 1 its complement.
pub(crate) const LITERALS: [(u32, &str); 8] = [
    (1, "1 "),
    (2, "-1 "),
    (4, "2 "),
    (8, "-2 "),
    (16, "3 "),
    (32, "-3 "),
    (64, "4 "),
    (128, "-4 "),
];

/// The complements of some literals.
pub(crate) fn complements(set: u32) -> u32 {
    (set & 0x55).wrapping_mul(2) | (set & 0xAA) / 2
}

/// A clause with its first literal, and the counts of lines after which it came and went.
#[derive(Clone, Copy)]
pub(crate) struct Entry {
    pub lits: u32,
    pub pivot: u32,
    pub born: u32,
    pub gone: u32,
}

impl Entry {
    pub(crate) fn is_alive(&self, lines: u32) -> bool {
        self.born <= lines && lines < self.gone
    }
}

/// What a clause adds to the literals that are true.
fn derived(lits: u32, found: u32) -> u32 {
    let open = lits & (complements(found) ^ 0xFF);
    if open == 0 {
        0xFF
    } else if open & open.wrapping_sub(1) == 0 {
        open
    } else {
        0
    }
}

/// What unit propagation derives from some literals, over the clauses that are alive after so many lines.
pub(crate) fn closure(entries: &[Entry], lines: u32, assumed: u32) -> u32 {
    let mut found = assumed;
    for _ in 0..8 {
        let before = found;
        for entry in entries {
            if entry.is_alive(lines) {
                found |= derived(entry.lits, found);
            }
        }
        if found == before {
            break;
        }
    }
    found
}

/// Whether it derives a literal and its complement.
pub(crate) fn refutes(entries: &[Entry], lines: u32, assumed: u32) -> bool {
    let found = closure(entries, lines, assumed);
    found & complements(found) != 0
}

/// Whether the clauses make one literal of the set true and all others false.
pub(crate) fn is_forced(entries: &[Entry], lines: u32, set: u32) -> bool {
    let found = closure(entries, lines, 0);
    for (bit, _) in LITERALS {
        let others = complements(set & (bit ^ 0xFF));
        if set & found & bit != 0 && others & found == others {
            return true;
        }
    }
    false
}

/// Whether propagation derives a lemma from the clauses before its line.
pub(crate) fn has_rup(entries: &[Entry], lemma: &Entry) -> bool {
    refutes(
        entries,
        lemma.born.saturating_sub(1),
        complements(lemma.lits),
    )
}

/// Whether a clause before a lemma's line isn't refuted once the lemma's pivot is made true.
pub(crate) fn stands_against(entries: &[Entry], lemma: &Entry, other: &Entry) -> bool {
    let before = lemma.born.saturating_sub(1);
    let false_pivot = complements(lemma.pivot);
    let rest = other.lits & (false_pivot ^ 0xFF);
    other.is_alive(before)
        && other.lits & false_pivot != 0
        && rest & lemma.pivot == 0
        && rest & complements(rest) == 0
        && !refutes(entries, before, complements(lemma.lits | rest))
}

/// Whether a lemma may be added.
pub(crate) fn passes(entries: &[Entry], lemma: &Entry) -> bool {
    if has_rup(entries, lemma) {
        return true;
    }
    for other in entries {
        if stands_against(entries, lemma, other) {
            return false;
        }
    }
    true
}

/// Whether none of the sixteen assignments satisfies the clauses that stand before all lines.
pub(crate) fn is_unsatisfiable(entries: &[Entry]) -> bool {
    for truth in 0..256u32 {
        if truth ^ complements(truth) == 0xFF && satisfies(entries, truth) {
            return false;
        }
    }
    true
}

fn satisfies(entries: &[Entry], truth: u32) -> bool {
    for entry in entries {
        if entry.born == 0 && entry.lits & truth == 0 {
            return false;
        }
    }
    true
}
