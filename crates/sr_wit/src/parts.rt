// The parts of a witness: variables with their images, in the order of writing or of the variables.
ghost use Rattle.std.specs.Prelude.{◌≡◌, ◌↔◌, IfOk, MatchOption, IsTrue, Contains, All, ◌≢◌, ◌<◌, length, ◌++◌, ◌∷◌, [], OnOk, map, filter, not};
ghost use Rattle.std.specs.Ordering.{nat_cmp};
ghost use Rattle.std.specs.BTreeMap as tree;
ghost use Rattle.std.specs.List.{AllAdjacentBelow};
ghost use Rattle.std.specs.List.Sorted.{IsNonDecreasingBy};
ghost use Rattle.sr_base.specs.Literal.{same, distinct};
ghost use Rattle.sr_model.specs.Substitution.{opposite, made_true, sent};
ghost use Rattle.sr_model.specs.Witnesses.{same_image, twice_of, parts_of, from_variable, first_maps};
ghost use Rattle.sr_wit.specs.Signs.{is_plus, differs};

use sr_base::{Clause, Lit, NoMemory};
use sr_model::Image;
use std::alloc::Global;
use std::collections::{BTreeMap, BTreeSet};

/// A variable and its image.
pub(crate) type Part = (u32, Image);

/// Whether a literal is a variable, and no complement.
#[inline]
pub(crate) fn is_positive(l: Lit) -> bool
    ensures { result ≡ is_plus l }
{
    l.code() % 2 == 0
}

/// The image of the complement.
pub(crate) fn opposite(image: Image) -> Image
    ensures { result ≡ opposite image }
{
    match image {
        Image::Yes => Image::No,
        Image::No => Image::Yes,
        Image::To(l) => Image::To(l.neg()),
    }
}

fn same_image(a: &Image, b: &Image) -> bool
    ensures { result ≡ same_image a.now b.now }
{
    match a {
        Image::Yes => matches!(b, Image::Yes),
        Image::No => matches!(b, Image::No),
        Image::To(k) => match b {
            Image::To(l) => k.is(*l),
            _ => false,
        },
    }
}

/// The part that makes a literal true.
pub(crate) fn made_true(l: Lit) -> Part
    ensures { result ≡ made_true l }
{
    if is_positive(l) {
        (l.var(), Image::Yes)
    } else {
        (l.var(), Image::No)
    }
}

/// The part that sends a literal to another.
fn sent(from: Lit, to: Lit) -> Part
    ensures { result ≡ sent (from, to) }
{
    if is_positive(from) {
        (from.var(), Image::To(to))
    } else {
        (from.var(), Image::To(to.neg()))
    }
}

/// The same map from a variable.
fn from_variable(from: Lit, to: Lit) -> (Lit, Lit)
    ensures { result ≡ from_variable (from, to) }
{
    if is_positive(from) {
        (from, to)
    } else {
        (from.neg(), to.neg())
    }
}

/// The parts in the order of writing.
pub(crate) fn written_parts(
    alloc: Global,
    pivot: Lit,
    assigned: &[Lit],
    maps: &[(Lit, Lit)],
) -> Result<Vec<Part>, NoMemory>
    ensures { IfOk result (λ v. v.items ≡ parts_of pivot assigned.now maps.now) }
{
    let Ok(mut parts) = Vec::with_capacity(alloc, 1 + assigned.len() + maps.len()) else {
        return Err(NoMemory);
    };
    push_part(&mut parts, made_true(pivot))?;
    for l in assigned {
        push_part(&mut parts, made_true(*l))?;
    }
    for (from, to) in maps {
        push_part(&mut parts, sent(*from, *to))?;
    }
    Ok(parts)
}

fn push_part(parts: &mut Vec<Part>, part: Part) -> Result<(), NoMemory>
    ensures { OnOk result (parts.new.items ≡ parts.old.items ++ part ∷ []) }
{
    match parts.push(part) {
        Ok(()) => Ok(()),
        Err(_) => Err(NoMemory),
    }
}

/// Whether each variable is above the one before it.
pub(crate) fn rises(parts: &[Part]) -> bool
    ensures { IsTrue result ↔ AllAdjacentBelow (λ p q. p.0 < q.0) parts.now (length parts.now) }
{
    for i in 1..parts.len() {
        if parts[i].0 <= parts[i - 1].0 {
            return false;
        }
    }
    true
}

/// The image of a variable in parts in the order of their variables.
pub(crate) fn find(table: &[Part], var: u32) -> Option<Image>
    requires { IsNonDecreasingBy (λ p. p.0) table.now }
    ensures { MatchOption result (All (λ p. p.0 ≢ var) table.now) (λ image. Contains table.now (var, image)) }
{
    match table.binary_search_by_key(&var, |part| part.0) {
        Ok(i) => Some(table[i].1),
        Err(_) => None,
    }
}

/// The first variable in the order of the parts that gets two different images.
///
/// The parts are gone through from the last to the first. Of the later parts the map tells the first
/// image of each variable, and whether they give it another one too.
pub(crate) fn first_twice(alloc: Global, parts: &[Part]) -> Result<Option<u32>, NoMemory>
    ensures { IfOk result (λ v. v ≡ twice_of parts.now) }
{
    let mut found = None;
    let mut later: BTreeMap<u32, (Image, bool)> = BTreeMap::new(alloc);
    let mut i = parts.len();
    while i > 0 {
        i -= 1;
        let part = &parts[i];
        let clash = clashes(part, &later);
        if clash {
            found = Some(part.0);
        }
        let Ok(_) = later.insert(part.0, (part.1, clash)) else {
            return Err(NoMemory);
        };
    }
    Ok(found)
}

/// Whether a later part gives the variable another image.
fn clashes(part: &Part, later: &BTreeMap<u32, (Image, bool)>) -> bool
    ensures { result ≡ differs part.now.1 (tree.get nat_cmp later.now part.now.0) }
{
    match later.get(&part.0) {
        None => false,
        Some(told) => told.1 || !same_image(&part.1, &told.0),
    }
}

/// The literals other than the pivot, each where it comes first.
pub(crate) fn other_literals(
    alloc: Global,
    pivot: Lit,
    assigned: &[Lit],
) -> Result<Vec<Lit>, NoMemory>
    ensures { IfOk result (λ v. v.items ≡ filter (λ l. not (same pivot l)) (distinct assigned.now)) }
{
    let distinct = Clause::from_lits(alloc, assigned)?;
    let mut kept = Vec::new(alloc);
    for l in distinct.lits() {
        if !pivot.is(*l) && kept.push(*l).is_err() {
            return Err(NoMemory);
        }
    }
    Ok(kept)
}

/// The maps from variables, each variable's first one.
pub(crate) fn first_maps(alloc: Global, maps: &[(Lit, Lit)]) -> Result<Vec<(Lit, Lit)>, NoMemory>
    ensures { IfOk result (λ v. v.items ≡ first_maps (map from_variable maps.now)) }
{
    let mut kept = Vec::new(alloc);
    let mut seen: BTreeSet<u32> = BTreeSet::new(alloc);
    for (from, to) in maps {
        let Ok(is_new) = seen.insert(from.var()) else {
            return Err(NoMemory);
        };
        if is_new && kept.push(from_variable(*from, *to)).is_err() {
            return Err(NoMemory);
        }
    }
    Ok(kept)
}

/// The maps from variables.
pub(crate) fn all_maps(alloc: Global, maps: &[(Lit, Lit)]) -> Result<Vec<(Lit, Lit)>, NoMemory>
    ensures { IfOk result (λ v. v.items ≡ map from_variable maps.now) }
{
    let Ok(mut kept) = Vec::with_capacity(alloc, maps.len()) else {
        return Err(NoMemory);
    };
    for (from, to) in maps {
        if kept.push(from_variable(*from, *to)).is_err() {
            return Err(NoMemory);
        }
    }
    Ok(kept)
}
