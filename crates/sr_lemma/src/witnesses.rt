// What the literals of a lemma or a step mean: the clause goes up to the second pivot, the literals that a witness
// makes true go up to the third one, and pairs of a literal and its image follow.
ghost use Rattle.std.specs.Prelude.{◌≡◌, ◌≤◌, take, length, IfOk};
ghost use Rattle.sr_base.specs.Literal.{distinct};
ghost use Rattle.sr_model.specs.Witnesses.{before, pairs, clause_of_literals};
ghost use Rattle.sr_lemma.specs.Parts.{GivesMaps, GivesSubst, GivesWitness, FindsWitness};

use sr_base::{Clause, InputError, Lit, LitList, NoMemory, TextKind};
use sr_wit::{Subst, SubstFault};
use std::alloc::Global;

/// How many literals stand before the next one that is the pivot.
fn count_before(lits: &[Lit], pivot: Lit) -> usize
    ensures value { result ≡ length (before pivot lits.now) }
    ensures bound { result ≤ length lits.now }
{
    for (i, l) in lits.iter().enumerate() {
        if l.is(pivot) {
            return i;
        }
    }
    lits.len()
}

/// The literals in pairs, but for one that is left over.
fn pairs(alloc: Global, lits: &[Lit]) -> Result<Vec<(Lit, Lit)>, NoMemory>
    ensures { IfOk result (λ v. v.items ≡ pairs lits.now) }
{
    let Ok(mut maps) = Vec::with_capacity(alloc, lits.len() / 2) else {
        return Err(NoMemory);
    };
    let mut i = 0;
    while i + 1 < lits.len() {
        if maps.push((lits[i], lits[i + 1])).is_err() {
            return Err(NoMemory);
        }
        i += 2;
    }
    Ok(maps)
}

/// The maps of the literals behind the third pivot. Where one is left over, the fault has this place.
fn make_maps(alloc: Global, lits: &[Lit], end: u64) -> Result<Vec<(Lit, Lit)>, InputError>
    ensures { GivesMaps lits.now end result }
{
    if lits.len() % 2 == 1 {
        return Err(InputError::Text {
            kind: TextKind::OddMap,
            place: end,
        });
    }
    match pairs(alloc, lits) {
        Ok(maps) => Ok(maps),
        Err(_) => Err(InputError::NoMemory),
    }
}

fn make_subst(
    alloc: Global,
    pivot: Lit,
    trues: &[Lit],
    maps: &[(Lit, Lit)],
    end: u64,
) -> Result<Subst, InputError>
    ensures { GivesSubst pivot trues.now maps.now end result }
{
    match Subst::from_parts(alloc, pivot, trues, maps) {
        Ok(witness) => Ok(witness),
        Err(SubstFault::Twice(_)) => Err(InputError::Text {
            kind: TextKind::Twice,
            place: end,
        }),
        Err(SubstFault::NoMemory) => Err(InputError::NoMemory),
    }
}

/// The witness of the literals behind the second pivot. A fault has the place of the `0` that ends them.
fn make_witness(alloc: Global, pivot: Lit, lits: &[Lit], end: u64) -> Result<Subst, InputError>
    ensures { GivesWitness pivot lits.now end result }
{
    let third = count_before(lits, pivot);
    if third == lits.len() {
        return make_subst(alloc, pivot, lits, &[], end);
    }
    let maps = make_maps(alloc, &lits[third + 1..], end)?;
    make_subst(alloc, pivot, &lits[..third], &maps, end)
}

/// The witness among all literals of a lemma or a step, where there is one.
///
/// # Errors
///
/// `Text` exactly where an odd number of literals stands behind the third pivot (`OddMap`), or else where a
/// variable gets two different images (`Twice`), with this place.
pub fn find_witness(alloc: Global, lits: &[Lit], end: u64) -> Result<Option<Subst>, InputError>
    ensures { FindsWitness lits.now end result }
{
    let [pivot, rest @ ..] = lits else {
        return Ok(None);
    };
    let second = count_before(rest, *pivot);
    if second == rest.len() {
        return Ok(None);
    }
    match make_witness(alloc, *pivot, &rest[second + 1..], end) {
        Ok(witness) => Ok(Some(witness)),
        Err(fault) => Err(fault),
    }
}

/// How many of the literals are of the clause.
fn clause_length(lits: &[Lit]) -> usize
    ensures value { distinct (take result lits.now) ≡ clause_of_literals lits.now }
    ensures bound { result ≤ length lits.now }
{
    match lits {
        [] => 0,
        [pivot, rest @ ..] => 1 + count_before(rest, *pivot),
    }
}

/// The clause among all literals of a lemma or a step. The list is cut to it and taken over, as [`Clause::from_list`] says.
pub fn clause_of_list(alloc: Global, mut lits: LitList) -> Result<Clause, NoMemory>
    ensures { IfOk result (λ c. c ≡ clause_of_literals lits) }
{
    let len = clause_length(lits.as_slice());
    lits.truncate(len);
    Clause::from_list(alloc, lits)
}
