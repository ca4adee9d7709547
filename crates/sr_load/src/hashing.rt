// Hashes of clauses, and marks on their literals.
ghost use Rattle.std.specs.Prelude.{◌≡◌, ◌≤◌, length, cond, true, false, Bool, OnOk};
ghost use Rattle.std.specs.List.{list_all};
ghost use Rattle.sr_base.specs.Literal.{Literal, has};
ghost use Rattle.sr_load.specs.Buckets.{mix_of, one_of, other_of, hash_of, marked, HaveRoom, AreClear, AreMarked, is_marked_set};

use sr_base::{Lit, NoMemory};

/// A number in which each bit of another one plays a part, by two factors (after Steele, Lea and Flood 2014).
#[inline]
#[tactic(auto, unfolding(crate::specs::Buckets::mix_of))]
fn mix(n: u64, first: u64, second: u64) -> u64
    ensures { result ≡ mix_of first second n }
{
    let x = n.wrapping_mul(first);
    let y = (x ^ (x >> 32)).wrapping_mul(second);
    y ^ (y >> 32)
}

#[inline]
fn mix_one(n: u64) -> u64
    ensures { result ≡ one_of n }
{
    mix(n, 0x9E37_79B9_7F4A_7C15, 0xD6E8_FEB8_6659_FD93)
}

#[inline]
fn mix_other(n: u64) -> u64
    ensures { result ≡ other_of n }
{
    mix(n, 0xBF58_476D_1CE4_E5B9, 0x94D0_49BB_1331_11EB)
}

/// The hash of a clause. The order of its literals plays no part.
///
/// It is of two sums over the literals. So literals for which one sum is the same make no clauses of one hash, and where two
/// clauses have one hash by their sums, so do no others that have these in them, unless both sums are the same.
pub fn hash(lits: &[Lit]) -> u64
    ensures { result ≡ hash_of lits.now }
{
    let mut one = lits.len() as u64;
    let mut other = one;
    for l in lits {
        let code = u64::from(l.code());
        one = one.wrapping_add(mix_one(code));
        other = other.wrapping_add(mix_other(code));
    }
    mix_other(mix_one(one).wrapping_add(other))
}

/// Makes room for marks on literals.
pub fn cover(marks: &mut Vec<bool>, lits: &[Lit]) -> Result<(), NoMemory>
    requires { AreClear marks.old.items }
    ensures clear { AreClear marks.new.items }
    ensures room { OnOk result (HaveRoom marks.new.items lits.now) }
{
    for l in lits {
        reach(marks, l.code() as usize + 1)?;
    }
    Ok(())
}

fn reach(marks: &mut Vec<bool>, len: usize) -> Result<(), NoMemory>
    requires { AreClear marks.old.items }
    ensures clear { AreClear marks.new.items }
    ensures long { OnOk result (len ≤ length marks.new.items) }
    ensures more { length marks.old.items ≤ length marks.new.items }
{
    if len <= marks.len() {
        return Ok(());
    }
    match marks.resize(len, false) {
        Ok(()) => Ok(()),
        Err(_) => Err(NoMemory),
    }
}

/// Marks literals, or takes their marks away.
pub fn mark(marks: &mut [bool], lits: &[Lit], to: bool)
    requires { HaveRoom marks.old lits.now }
    ensures { (l : Literal) → marked marks.new l ≡ cond (has l lits.now) to (marked marks.old l) }
{
    for l in lits {
        marks[l.code() as usize] = to;
    }
}

/// Whether a clause has so many literals, all of them marked.
pub fn is_marked_set(marks: &[bool], count: usize, lits: &[Lit]) -> bool
    ensures { result ≡ is_marked_set marks.now count lits.now }
{
    lits.len() == count && are_marked(marks, lits)
}

fn are_marked(marks: &[bool], lits: &[Lit]) -> bool
    ensures { result ≡ list_all (marked marks.now) lits.now }
{
    for l in lits {
        if !is_marked(marks, *l) {
            return false;
        }
    }
    true
}

#[inline]
fn is_marked(marks: &[bool], l: Lit) -> bool
    ensures { result ≡ marked marks.now l }
{
    let code = l.code() as usize;
    code < marks.len() && marks[code]
}
