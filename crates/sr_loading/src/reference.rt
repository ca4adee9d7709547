// The plain definitions of loading and of lean chains, over sets of bits, beside which random proofs are tried. They share
// nothing with the program.

/// The literals of four variables: bit 2v - 2 is the variable v, and bit 2v - 1 its complement.
pub(crate) const LITERALS: [(u32, i64); 8] = [
    (1, 1),
    (2, -1),
    (4, 2),
    (8, -2),
    (16, 3),
    (32, -3),
    (64, 4),
    (128, -4),
];

/// The complements of some literals.
fn complements(set: u32) -> u32 {
    (set & 0x55).wrapping_mul(2) | (set & 0xAA) / 2
}

/// A clause, and the counts of lines after which it came and went.
#[derive(Clone, Copy)]
pub(crate) struct Entry {
    pub lits: u32,
    pub born: u32,
    pub gone: u32,
}

impl Entry {
    pub(crate) fn is_alive(&self, lines: u32) -> bool {
        self.born <= lines && lines < self.gone
    }
}

/// The literals of a clause that aren't false.
fn open_in(lits: u32, found: u32) -> u32 {
    lits & (complements(found) ^ 0xFF)
}

fn is_single(set: u32) -> bool {
    set != 0 && set & set.wrapping_sub(1) == 0
}

/// What unit propagation makes true, over the clauses that are alive after so many lines and don't conflict.
fn propagated(entries: &[Entry], lines: u32) -> u32 {
    let mut found = 0;
    for _ in 0..8 {
        for entry in entries {
            let open = open_in(entry.lits, found);
            if entry.is_alive(lines) && is_single(open) {
                found |= open;
            }
        }
    }
    found
}

/// Whether one literal of a clause is made true, and so are the complements of all others.
pub(crate) fn is_unit(entries: &[Entry], lines: u32, lits: u32) -> bool {
    let found = propagated(entries, lines);
    for (bit, _) in LITERALS {
        let others = complements(lits & (bit ^ 0xFF));
        if lits & found & bit != 0 && others & found == others {
            return true;
        }
    }
    false
}

/// The literals of the clause of a number, where it is alive after so many lines.
fn alive_at(entries: &[Entry], lines: u32, id: u32) -> Option<u32> {
    let entry = entries.get((id as usize).wrapping_sub(1)).copied()?;
    if entry.is_alive(lines) {
        Some(entry.lits)
    } else {
        None
    }
}

/// Whether a literal stands in a clause of a chain.
fn stands_in(entries: &[Entry], lines: u32, chain: &[u32], bit: u32) -> bool {
    for id in chain {
        if alive_at(entries, lines, *id).unwrap_or(0) & bit != 0 {
            return true;
        }
    }
    false
}

/// Whether a chain of alive clauses is lean: each clause but the last has one literal that isn't false, which is new and whose
/// complement stands in a later clause, and all of the last one are false. The empty chain is where a pair is assumed.
pub(crate) fn is_lean(entries: &[Entry], lines: u32, assumed: u32, chain: &[u32]) -> bool {
    let mut found = assumed;
    for i in 0..chain.len() {
        let Some(lits) = alive_at(entries, lines, chain[i]) else {
            return false;
        };
        let open = open_in(lits, found);
        let rest = &chain[i + 1..];
        if found & complements(found) != 0 {
            return false;
        }
        if open == 0 {
            return rest.is_empty();
        }
        if !is_single(open)
            || found & open != 0
            || !stands_in(entries, lines, rest, complements(open))
        {
            return false;
        }
        found |= open;
    }
    chain.is_empty() && found & complements(found) != 0
}
