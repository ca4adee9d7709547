// The steps that a backward pass keeps. There are as many as lemmas, so the hints of all of them stand in one vector, and
// their groups in another; a step has the places of its own.
ghost use Rattle.std.specs.Prelude.{◌≡◌, ◌<◌, ◌≤◌, ◌+◌, ◌^◌, true, false, [], ◌∷◌, length, take, drop, OnOk, OnErr, slice_index_or, slice_range, ◌-◌};
ghost use Rattle.std.specs.List.Sorted.{IsPermutation, IsNonDecreasingBy};
ghost use Rattle.sr_trimming.specs.CoreFirst.{rising};
ghost use Rattle.sr_steps.specs.Adding.{bare, takes_groups, first_groups, with_group, with_groups, AreOfDistinct};

use crate::place::{GroupPlace, hints_at, put_group};
use sr_base::{ClauseId, NoMemory};
use std::alloc::Global;
use std::marker::Model;

/// The number of a step, and the places where its groups start and end, or those of its hints where it has no witness.
#[derive(Clone, Copy)]
struct StepPlace {
    id: ClauseId,
    by_witness: bool,
    start: usize,
    end: usize,
}

/// The steps that a backward pass keeps, with the one that was added last first.
#[derive(Drop)]
pub struct StepTable {
    hints: Vec<ClauseId>,
    groups: Vec<GroupPlace>,
    steps: Vec<StepPlace>,
}

impl Model for StepTable {
    ghost use Rattle.std.specs.Prelude.{List};
    ghost use Rattle.sr_steps.specs.Kept.{Kept};

    ghost Value = { List Kept };

    ghost use Rattle.sr_steps.specs.Places.{steps_in, AreLaid};

    ghost view = { λ t. steps_in t.hints.items t.groups.items t.steps.items };

    ghost invariant = { λ t. AreLaid t.hints.items t.groups.items t.steps.items };
}

impl StepTable {
    /// No steps. It takes no memory.
    pub fn new(alloc: Global) -> StepTable
        ensures { result ≡ [] }
    {
        StepTable {
            hints: Vec::new(alloc),
            groups: Vec::new(alloc),
            steps: Vec::new(alloc),
        }
    }

    /// The number of steps.
    #[inline]
    pub fn len(&self) -> usize
        ensures { result ≡ length self.now }
    {
        self.steps.len()
    }

    /// Adds a step without a witness. The table stays as it was where memory lacks.
    pub fn push(&mut self, id: ClauseId, prefix: &[ClauseId]) -> Result<(), NoMemory>
        ensures ok { OnOk result (self.new ≡ record { id = id; by_witness = false; prefix = prefix.now; groups = [] } ∷ self.old) }
        ensures err { OnErr result (self.new ≡ self.old) }
    {
        let start = self.hints.len();
        if self.hints.extend_from_slice(prefix).is_err() {
            return Err(NoMemory);
        }
        let end = self.hints.len();
        let step = StepPlace {
            id,
            by_witness: false,
            start,
            end,
        };
        if self.steps.push(step).is_err() {
            return Err(NoMemory);
        }
        Ok(())
    }

    /// Adds a step with a witness, without groups. The table stays as it was where memory lacks.
    pub fn begin(&mut self, id: ClauseId) -> Result<(), NoMemory>
        ensures ok { OnOk result (self.new ≡ bare id true ∷ self.old) }
        ensures err { OnErr result (self.new ≡ self.old) }
    {
        let start = self.groups.len();
        let step = StepPlace {
            id,
            by_witness: true,
            start,
            end: start,
        };
        if self.steps.push(step).is_err() {
            return Err(NoMemory);
        }
        Ok(())
    }

    /// Adds a group at the end of those of the step that was added last. The table stays as it was where memory lacks.
    pub fn add_group(&mut self, id: ClauseId, hints: &[ClauseId]) -> Result<(), NoMemory>
        requires takes { takes_groups self.old ≡ true }
        requires small { length hints.now < 2 ^ 32 }
        ensures ok { OnOk result (self.new ≡ with_group (id, hints.now) self.old) }
        ensures err { OnErr result (self.new ≡ self.old) }
    {
        let Ok(group) = put_group(&mut self.hints, id, hints) else {
            return Err(NoMemory);
        };
        if self.groups.push(group).is_err() {
            return Err(NoMemory);
        }
        let last = self.steps.len() - 1;
        let step = &mut self.steps[last];
        step.end = self.groups.len();
        Ok(())
    }

    /// Puts the groups of the step that was added last in the rising order of their numbers.
    pub fn sort_groups(&mut self)
        requires takes { takes_groups self.old ≡ true }
        requires distinct { AreOfDistinct (first_groups self.old) }
        ensures { self.new ≡ with_groups (rising (first_groups self.old)) self.old }
    {
        let last = self.steps.len() - 1;
        let start = self.steps[last].start;
        sort_from(self.groups.as_mut_slice(), start);
    }

    /// The number of the step at an index.
    #[inline]
    pub fn id(&self, i: usize) -> ClauseId
        requires { i < length self.now }
        ensures { result ≡ (slice_index_or self.now i (bare 0 false)).id }
    {
        place_at(&self.steps, i).id
    }

    /// Whether the step at an index has a witness.
    #[inline]
    pub fn is_by_witness(&self, i: usize) -> bool
        requires { i < length self.now }
        ensures { result ≡ (slice_index_or self.now i (bare 0 false)).by_witness }
    {
        place_at(&self.steps, i).by_witness
    }

    /// The hints of the prefix of the step at an index.
    #[inline]
    pub fn prefix(&self, i: usize) -> &[ClauseId]
        requires { i < length self.now }
        ensures { result.now ≡ (slice_index_or self.now i (bare 0 false)).prefix }
    {
        let step = place_at(&self.steps, i);
        if step.by_witness {
            return between(&self.hints, 0, 0);
        }
        between(&self.hints, step.start, step.end)
    }

    /// The number of groups of the step at an index.
    #[inline]
    pub fn group_count(&self, i: usize) -> usize
        requires { i < length self.now }
        ensures { result ≡ length (slice_index_or self.now i (bare 0 false)).groups }
    {
        let step = place_at(&self.steps, i);
        if step.by_witness {
            return step.end - step.start;
        }
        0
    }

    /// The number of the clause of a group of the step at an index.
    #[inline]
    pub fn group_id(&self, i: usize, j: usize) -> ClauseId
        requires step { i < length self.now }
        requires group { j < length (slice_index_or self.now i (bare 0 false)).groups }
        ensures { result ≡ (slice_index_or (slice_index_or self.now i (bare 0 false)).groups j (0, [])).0 }
    {
        let step = place_at(&self.steps, i);
        self.groups[step.start + j].id
    }

    /// The hints of a group of the step at an index.
    #[inline]
    pub fn group_hints(&self, i: usize, j: usize) -> &[ClauseId]
        requires step { i < length self.now }
        requires group { j < length (slice_index_or self.now i (bare 0 false)).groups }
        ensures { result.now ≡ (slice_index_or (slice_index_or self.now i (bare 0 false)).groups j (0, [])).1 }
    {
        let step = place_at(&self.steps, i);
        hints_at(&self.hints, self.groups[step.start + j])
    }
}

/// The place of the step at an index from the last one.
#[inline]
fn place_at(steps: &[StepPlace], i: usize) -> StepPlace
    requires { i < length steps.now }
    ensures { result ≡ slice_index_or steps.now (length steps.now - 1 - i) result }
{
    steps[steps.len() - 1 - i]
}

#[inline]
fn between(hints: &[ClauseId], start: usize, end: usize) -> &[ClauseId]
    requires order { start ≤ end }
    requires within { end ≤ length hints.now }
    ensures { result.now ≡ slice_range hints.now start end }
{
    &hints[start..end]
}

/// Sorts groups from a place on by their numbers.
fn sort_from(groups: &mut [GroupPlace], start: usize)
    requires { start ≤ length groups.old }
    ensures before { take start groups.new ≡ take start groups.old }
    ensures moved { IsPermutation (drop start groups.old) (drop start groups.new) }
    ensures sorted { IsNonDecreasingBy (λ g. g.id) (drop start groups.new) }
{
    let rest = &mut groups[start..];
    rest.sort_unstable_by_key(|group| group.id);
}
