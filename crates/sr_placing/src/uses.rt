// Which step cites a clause last.
ghost use Rattle.std.specs.Prelude.{◌≡◌, ℕ, true, ◌^◌, ◌<◌, [], cond, length, replicate, slice_index, slice_index_or, IfOk};
ghost use Rattle.sr_model.specs.Assignment.{holds_number};
ghost use Rattle.sr_steps.specs.Adding.{bare};
ghost use Rattle.sr_placing.specs.Uses.{kept_cites, some_cites, last_use};
ghost use Rattle.std.specs.Prelude.{false};

use sr_base::{ClauseId, NoMemory};
use sr_steps::StepTable;
use std::alloc::Global;

/// So many zeros.
pub fn zeros(alloc: Global, size: usize) -> Result<Vec<u32>, NoMemory>
    ensures { IfOk result (λ v. v.items ≡ replicate size 0) }
{
    let Ok(mut list) = Vec::with_capacity(alloc, size) else {
        return Err(NoMemory);
    };
    match list.resize(size, 0) {
        Ok(()) => Ok(list),
        Err(_) => Err(NoMemory),
    }
}

/// For each number below a size the place of the last step that cites it, counted from 1; 0 where none does.
pub fn last_uses(alloc: Global, size: usize, steps: &StepTable) -> Result<Vec<u32>, NoMemory>
    requires few { length steps.now < 2 ^ 32 }
    requires within { (n : ℕ) → some_cites n steps.now ≡ true → n < size }
    ensures size { IfOk result (λ v. length v.items ≡ size) }
    ensures uses { IfOk result (λ v. (n : ℕ) → slice_index v.items n ≡ last_use 0 n steps.now) }
{
    let mut uses = zeros(alloc, size)?;
    mark_steps(uses.as_mut_slice(), steps);
    Ok(uses)
}

/// Marks all that steps cite, each number with the place of the last step, over marks that are 0.
fn mark_steps(marks: &mut [u32], steps: &StepTable)
    requires few { length steps.now < 2 ^ 32 }
    requires within { (n : ℕ) → some_cites n steps.now ≡ true → n < length marks.old }
    requires none { (n : ℕ) → slice_index marks.old n ≡ 0 }
    ensures { (n : ℕ) → slice_index marks.new n ≡ last_use 0 n steps.now }
{
    for i in 0..steps.len() {
        mark_step(marks, steps, i, i as u32 + 1);
    }
}

/// Marks all that a step cites.
fn mark_step(marks: &mut [u32], steps: &StepTable, i: usize, mark: u32)
    requires index { i < length steps.now }
    requires within { (n : ℕ) → kept_cites n (slice_index_or steps.now i (bare 0 false)) ≡ true → n < length marks.old }
    ensures { (n : ℕ) → slice_index marks.new n ≡ cond (kept_cites n (slice_index_or steps.now i (bare 0 false))) mark (slice_index marks.old n) }
{
    mark_all(marks, steps.prefix(i), mark);
    for j in 0..steps.group_count(i) {
        mark_all(marks, steps.group_hints(i, j), mark);
    }
}

fn mark_all(marks: &mut [u32], ids: &[ClauseId], mark: u32)
    requires { (n : ℕ) → holds_number n ids.now ≡ true → n < length marks.old }
    ensures { (n : ℕ) → slice_index marks.new n ≡ cond (holds_number n ids.now) mark (slice_index marks.old n) }
{
    for id in ids {
        marks[*id as usize] = mark;
    }
}
