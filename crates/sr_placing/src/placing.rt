// Deletions and the core.
ghost use Rattle.std.specs.Prelude.{◌≡◌, ◌==◌, ℕ, ◌+◌, ◌<◌, ◌≤◌, ◌^◌, ◌++◌, not, length, slice_index, slice_index_or, IfOk, OnOk};
ghost use Rattle.sr_trimming.specs.Backward.{AreLinked};
ghost use Rattle.sr_trimming.specs.Trimmed.{LeanByNeed};
ghost use Rattle.sr_trimming.specs.Written.{CiteKnown};
ghost use Rattle.sr_load.specs.Loaded.{all_in};
ghost use Rattle.sr_placing.specs.Marks.{numbers_where};
ghost use Rattle.sr_placing.specs.Placing.{steps_of, placing_of, IsPartedBy};
ghost use Rattle.std.specs.Prelude.{[]};

use crate::chains::NumberLists;
use crate::uses::{last_uses, zeros};
use sr_base::{ClauseId, IdList, NoMemory};
use sr_load::Loaded;
use sr_steps::StepTable;
use std::alloc::Global;
use std::marker::Model;

/// Which clauses of a formula the kept steps cite, and which clauses each step is the last to cite.
#[derive(Drop)]
pub struct Placing {
    uncited: IdList,
    core: IdList,
    drops: NumberLists,
}

impl Model for Placing {
    ghost use Rattle.sr_placing.specs.Placing.{PlacingValue};

    ghost Value = { PlacingValue };

    ghost view = { λ p. record { uncited = p.uncited; core = p.core; drops = p.drops } };
}

impl Placing {
    /// Looks for the last use of each clause. The time is linear in the hints and in the number of the last step.
    pub fn new<L: Loaded>(alloc: Global, loaded: &L, steps: &StepTable) -> Result<Placing, NoMemory>
        requires linked { AreLinked (length (L.state loaded.now).formula.clauses) (steps_of (L.state loaded.now) steps.now) }
        requires known { CiteKnown (L.state loaded.now).formula.clauses (steps_of (L.state loaded.now) steps.now) }
        requires lean { LeanByNeed (all_in (L.state loaded.now)) (steps_of (L.state loaded.now) steps.now) }
        ensures { IfOk result (λ p. p ≡ placing_of (L.state loaded.now).formula.clauses (steps_of (L.state loaded.now) steps.now)) }
    {
        let clauses = loaded.formula().count();
        let last = steps.id(steps.len() - 1);
        let uses = last_uses(alloc, last as usize, steps)?;
        parted(alloc, clauses as usize, uses, steps.len())
    }

    /// The formula's clauses that no step cites, in rising order of their numbers.
    pub fn uncited(&self) -> &[ClauseId]
        ensures { result.now ≡ self.now.uncited }
    {
        self.uncited.as_slice()
    }

    /// The formula's clauses that a step cites, in rising order of their numbers.
    pub fn core(&self) -> &[ClauseId]
        ensures { result.now ≡ self.now.core }
    {
        self.core.as_slice()
    }

    /// The clauses that the step at an index is the last to cite, in rising order of their numbers.
    pub fn drops(&self, i: usize) -> &[ClauseId]
        requires { i < length self.now.drops }
        ensures { result.now ≡ slice_index_or self.now.drops i [] }
    {
        self.drops.list(i)
    }
}

/// Parts the numbers by their last uses, of which there are so many.
pub fn parted(
    alloc: Global,
    clauses: usize,
    mut uses: Vec<u32>,
    count: usize,
) -> Result<Placing, NoMemory>
    requires within { clauses < length uses.items }
    requires few { length uses.items < 2 ^ 32 }
    requires uses { (n : ℕ) → slice_index uses.items n ≤ count }
    ensures { IfOk result (IsPartedBy uses.items clauses count) }
{
    let mut uncited = IdList::new(alloc);
    let mut core = IdList::new(alloc);
    part_formula(&uses[1..clauses + 1], &mut uncited, &mut core)?;
    let mut heads = zeros(alloc, count)?;
    let drops = NumberLists::of_marks(alloc, uses.as_mut_slice(), heads.as_mut_slice())?;
    Ok(Placing {
        uncited,
        core,
        drops,
    })
}

/// Adds each number from 1 on to one of two lists, by whether it has a use.
fn part_formula(uses: &[u32], uncited: &mut IdList, core: &mut IdList) -> Result<(), NoMemory>
    requires { length uses.now < 2 ^ 32 }
    ensures uncited { OnOk result (uncited.new ≡ uncited.old ++ numbers_where (λ x. x == 0) 1 uses.now) }
    ensures core { OnOk result (core.new ≡ core.old ++ numbers_where (λ x. not (x == 0)) 1 uses.now) }
{
    for (i, last) in uses.iter().enumerate() {
        let id = i as u32 + 1;
        if *last == 0 {
            uncited.push(id)?;
        } else {
            core.push(id)?;
        }
    }
    Ok(())
}
