// What a substitution makes of a clause: the images of its literals, in order and without repeats, unless one
// is true or two are complements.
ghost use Rattle.std.specs.Prelude.{◌≡◌, false, [], IfOk, List, map, take};
ghost use Rattle.std.specs.List.Sorted.{IsNonDecreasing, IsPermutation};
ghost use Rattle.sr_base.specs.Literal.{distinct, literal_code};
ghost use Rattle.sr_model.specs.Substitution.{substitution, is_image, has_pair, image_literals};
ghost use Rattle.sr_wit.specs.Reductions.{HasMet, HasStripped, IsLikeness, IsLikenessOfCodes};

use crate::subst::Subst;
use sr_base::{Clause, Lit, LitList, NoMemory, has};
use sr_model::Image;
use std::alloc::Global;

/// The longest list whose literals are compared with one another.
const SHORT: usize = 24;

/// What a substitution makes of a clause. The literals of one that is left stand beside it.
#[derive(Clone, Copy, Debug, PartialEq, Eq)]
pub enum Reduced {
    /// Each literal is its own image.
    Untouched,
    /// An image is true, or two images are complements.
    Satisfied,
    /// The images that aren't false are left.
    Left,
}

/// How the literals of a list are like one another.
#[derive(Clone, Copy, Debug, PartialEq, Eq)]
enum Likeness {
    Apart,
    Repeated,
    /// Two are complements.
    Paired,
}

/// The images that are literals, in order, where the clause is touched and no image is true.
pub(crate) fn collect_images(
    subst: &Subst,
    lits: &[Lit],
    out: &mut LitList,
) -> Result<Reduced, NoMemory>
    ensures { IfOk result (λ r. HasMet (substitution subst.now) lits.now r out.new) }
{
    out.truncate(0);
    let mut touched = false;
    for l in lits {
        let image = subst.image(*l);
        if !is_own(&image, *l) {
            touched = true;
        }
        match image {
            Image::Yes => return Ok(Reduced::Satisfied),
            Image::No => {}
            Image::To(k) => out.push(k)?,
        }
    }
    if touched {
        Ok(Reduced::Left)
    } else {
        Ok(Reduced::Untouched)
    }
}

/// Whether the image of a literal is the literal.
#[inline]
fn is_own(image: &Image, l: Lit) -> bool
    ensures { result ≡ is_image image.now l }
{
    match image {
        Image::To(k) => k.is(l),
        _ => false,
    }
}

/// Drops repeats; two complements satisfy.
pub(crate) fn keep_distinct(alloc: Global, out: &mut LitList) -> Result<Reduced, NoMemory>
    ensures { IfOk result (λ r. HasStripped out.old r out.new) }
{
    match likeness_of(alloc, out.as_slice())? {
        Likeness::Apart => Ok(Reduced::Left),
        Likeness::Paired => Ok(Reduced::Satisfied),
        Likeness::Repeated => {
            let distinct = Clause::from_lits(alloc, out.as_slice())?;
            out.truncate(0);
            for l in distinct.lits() {
                out.push(*l)?;
            }
            Ok(Reduced::Left)
        }
    }
}

fn likeness_of(alloc: Global, lits: &[Lit]) -> Result<Likeness, NoMemory>
    ensures { IfOk result (λ k. IsLikeness k lits.now) }
{
    if lits.len() <= SHORT {
        return Ok(likeness_by_pairs(lits));
    }
    let codes = sorted_codes(alloc, lits)?;
    Ok(likeness_by_codes(&codes))
}

/// Each literal is compared with those before it.
fn likeness_by_pairs(lits: &[Lit]) -> Likeness
    ensures { IsLikeness result lits.now }
{
    let mut repeated = false;
    for (i, l) in lits.iter().enumerate() {
        let before = &lits[..i];
        if has(before, l.neg()) {
            return Likeness::Paired;
        }
        repeated = repeated || has(before, *l);
    }
    if repeated {
        Likeness::Repeated
    } else {
        Likeness::Apart
    }
}

/// The codes of the literals in rising order.
fn sorted_codes(alloc: Global, lits: &[Lit]) -> Result<Vec<u32>, NoMemory>
    ensures sorted { IfOk result (λ v. IsNonDecreasing v.items) }
    ensures same { IfOk result (λ v. IsPermutation (map literal_code lits.now) v.items) }
{
    let Ok(mut codes) = Vec::with_capacity(alloc, lits.len()) else {
        return Err(NoMemory);
    };
    for l in lits {
        if codes.push(l.code()).is_err() {
            return Err(NoMemory);
        }
    }
    codes.sort_unstable();
    Ok(codes)
}

/// In the order of their codes, equal literals are neighbours, and so are complements, but for repeats
/// between them.
fn likeness_by_codes(codes: &[u32]) -> Likeness
    requires { IsNonDecreasing codes.now }
    ensures { IsLikenessOfCodes result codes.now }
{
    let mut repeated = false;
    for i in 1..codes.len() {
        let low = codes[i - 1];
        let high = codes[i];
        if low == high {
            repeated = true;
        } else if low % 2 == 0 && high == low + 1 {
            return Likeness::Paired;
        }
    }
    if repeated {
        Likeness::Repeated
    } else {
        Likeness::Apart
    }
}
