// Substitutions, as witnesses write them (Buss and Thapen 2019). Beside what is written stands a table of
// the images by their variables.
ghost use Rattle.std.specs.Prelude.{◌≡◌, None, [], IfOk, IfErr, OnOk, OnErr};
ghost use Rattle.sr_model.specs.Substitution.{substitution, image, reduction};
ghost use Rattle.sr_model.specs.Witnesses.{parts_of, twice_of, witness_by};
ghost use Rattle.sr_wit.specs.Reductions.{reduced_of, HasNoneBeside};
ghost use Rattle.sr_wit.specs.Kept.{IsKept};
ghost use Rattle.sr_wit.specs.Tables.{HoldsSubst, witness_with};
ghost use Rattle.sr_wit.specs.Faults.{TellsTwice};

use crate::part_table::PartTable;
use crate::parts::{
    all_maps, first_maps, first_twice, is_positive, made_true, opposite, other_literals, rises,
    written_parts,
};
use crate::reduce::{Reduced, collect_images, keep_distinct};
use sr_base::{Lit, LitList, NoMemory};
use sr_model::Image;
use std::alloc::Global;
use std::marker::Model;
use thiserror::Error;

/// Why parts are no substitution.
#[derive(Clone, Copy, Debug, PartialEq, Eq, Error)]
pub enum SubstFault {
    /// This variable gets two different images.
    #[error("variable {0} gets two different images")]
    Twice(u32),
    #[error("out of memory")]
    NoMemory,
}

impl From<NoMemory> for SubstFault {
    ghost use Rattle.std.specs.Prelude.{◌≡◌};
    ghost use Rattle.sr_wit.specs.declared.subst.SubstFault.TheVariants.{NoMemory};

    ghost from_gives = { λ _ e. e ≡ NoMemory };

    fn from(_fault: NoMemory) -> SubstFault {
        SubstFault::NoMemory
    }
}

/// What is written beside the pivot, and the images by their variables.
#[derive(Drop)]
struct Written {
    assigned: Vec<Lit>,
    maps: Vec<(Lit, Lit)>,
    table: PartTable,
}

/// A substitution: the pivot and other literals become true, and variables are mapped to literals.
///
/// It is small, so that what holds one is moved at little cost.
#[derive(Drop)]
pub struct Subst {
    pivot: Lit,
    written: Box<Written>,
}

impl Model for Subst {
    ghost use Rattle.sr_model.specs.Substitution.{Witness};
    ghost use Rattle.sr_wit.specs.Tables.{HoldsSubst, witness_with};

    ghost Value = { Witness };

    ghost view = { λ s. witness_with s.pivot s.written.value.assigned.items s.written.value.maps.items };

    ghost invariant = { λ s. HoldsSubst (witness_with s.pivot s.written.value.assigned.items s.written.value.maps.items) s.written.value.table };
}

/// The substitution of its parts.
fn substitution_of(alloc: Global, pivot: Lit, written: Written) -> Result<Subst, NoMemory>
    requires { HoldsSubst (witness_with pivot written.assigned.items written.maps.items) written.table }
    ensures { IfOk result (λ s. s ≡ witness_with pivot written.assigned.items written.maps.items) }
{
    match Box::new(alloc, written) {
        Ok(written) => Ok(Subst { pivot, written }),
        Err(_) => Err(NoMemory),
    }
}

impl Subst {
    /// The substitution that makes the pivot and the assigned literals true and sends the first part of
    /// each map to its second. A part that repeats an image is dropped. The time is n log n in the parts.
    ///
    /// `Twice` comes exactly where a variable gets two different images, and names the first such variable
    /// in the order of the parts.
    pub fn from_parts(
        alloc: Global,
        pivot: Lit,
        assigned: &[Lit],
        maps: &[(Lit, Lit)],
    ) -> Result<Subst, SubstFault>
        ensures ok { IfOk result (λ s. s ≡ witness_by pivot assigned.now maps.now) }
        ensures apart { OnOk result (twice_of (parts_of pivot assigned.now maps.now) ≡ None) }
        ensures twice { IfErr result (λ e. TellsTwice e (twice_of (parts_of pivot assigned.now maps.now))) }
    {
        let mut table = written_parts(alloc, pivot, assigned, maps)?;
        table.sort_unstable_by_key(|part| part.0);
        if rises(&table) {
            let Ok(kept) = Vec::from_slice(alloc, assigned) else {
                return Err(SubstFault::NoMemory);
            };
            let maps = all_maps(alloc, maps)?;
            let table = PartTable::new(alloc, table)?;
            let written = Written {
                assigned: kept,
                maps,
                table,
            };
            return Ok(substitution_of(alloc, pivot, written)?);
        }
        let parts = written_parts(alloc, pivot, assigned, maps)?;
        if let Some(var) = first_twice(alloc, &parts)? {
            return Err(SubstFault::Twice(var));
        }
        let assigned = other_literals(alloc, pivot, assigned)?;
        let maps = first_maps(alloc, maps)?;
        let table = PartTable::new(alloc, table)?;
        let written = Written {
            assigned,
            maps,
            table,
        };
        Ok(substitution_of(alloc, pivot, written)?)
    }

    /// The substitution whose one effect is to make the pivot true.
    pub fn pivot_only(alloc: Global, pivot: Lit) -> Result<Subst, NoMemory>
        ensures { IfOk result (λ s. s ≡ witness_by pivot [] []) }
    {
        let mut table = Vec::new(alloc);
        let Ok(()) = table.push(made_true(pivot)) else {
            return Err(NoMemory);
        };
        let table = PartTable::new(alloc, table)?;
        let written = Written {
            assigned: Vec::new(alloc),
            maps: Vec::new(alloc),
            table,
        };
        substitution_of(alloc, pivot, written)
    }

    /// The image of a literal.
    pub fn image(&self, l: Lit) -> Image
        ensures { result ≡ image (substitution self.now) l }
    {
        match self.written.table.find(l.var()) {
            None => Image::To(l),
            Some(image) => {
                if is_positive(l) {
                    image
                } else {
                    opposite(image)
                }
            }
        }
    }

    /// The literal that becomes true first of all. What is kept beside it repeats no part and goes from
    /// variables, so that the same parts make the same substitution.
    pub fn pivot(&self) -> Lit
        ensures value { result ≡ self.now.pivot }
        ensures kept { IsKept self.now }
    {
        self.pivot
    }

    /// The other literals that become true.
    pub fn assigned(&self) -> &[Lit]
        ensures { result.now ≡ self.now.assigned }
    {
        &self.written.assigned
    }

    /// Variables, each with the literal that is its image.
    pub fn maps(&self) -> &[(Lit, Lit)]
        ensures { result.now ≡ self.now.maps }
    {
        &self.written.maps
    }

    /// What the substitution makes of a clause. A clause that is left has its literals in `out`, each where
    /// it comes first; else `out` is empty, also where memory lacks. The time is n log n in the literals.
    pub fn reduce(&self, lits: &[Lit], out: &mut LitList) -> Result<Reduced, NoMemory>
        ensures value { IfOk result (λ r. reduction (substitution self.now) lits.now ≡ reduced_of r out.new) }
        ensures none_beside { IfOk result (λ r. HasNoneBeside r out.new) }
        ensures err { OnErr result (out.new ≡ []) }
    {
        let alloc = self.written.table.alloc();
        let images = collect_images(self, lits, out);
        let reduced = match images {
            Ok(Reduced::Left) => keep_distinct(alloc, out),
            other => other,
        };
        if reduced != Ok(Reduced::Left) {
            out.truncate(0);
        }
        reduced
    }
}
