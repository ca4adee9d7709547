// How much a trimmed proof holds.
ghost use Rattle.std.specs.Prelude.{◌≡◌, ◌<◌, false, length, sum_by, slice_index_or};
ghost use Rattle.sr_steps.specs.Adding.{bare};
ghost use Rattle.sr_placing.specs.Counting.{group_hints, step_hints, counted};

use crate::placing::Placing;
use sr_steps::StepTable;

/// How much a trimmed proof holds.
#[derive(Clone, Copy, Debug, PartialEq, Eq)]
pub struct Sizes {
    /// The formula's clauses that are cited.
    pub core: u64,
    /// The steps.
    pub steps: u64,
    /// Their hints in prefixes and groups; this count stays at 2^64 - 1 once it is there.
    pub hints: u64,
}

/// How much the trimmed proof of these steps holds. It takes no memory.
pub fn statistics(steps: &StepTable, placing: &Placing) -> Sizes
    ensures core { result.core ≡ length placing.now.core }
    ensures steps { result.steps ≡ length steps.now }
    ensures hints { result.hints ≡ counted (sum_by step_hints steps.now) }
{
    Sizes {
        core: placing.core().len() as u64,
        steps: steps.len() as u64,
        hints: all_hints(steps),
    }
}

fn all_hints(steps: &StepTable) -> u64
    ensures { result ≡ counted (sum_by step_hints steps.now) }
{
    let mut hints: u64 = 0;
    for i in 0..steps.len() {
        hints = hints.saturating_add(hints_at(steps, i));
    }
    hints
}

fn hints_at(steps: &StepTable, i: usize) -> u64
    requires { i < length steps.now }
    ensures { result ≡ counted (step_hints (slice_index_or steps.now i (bare 0 false))) }
{
    let mut hints = steps.prefix(i).len() as u64;
    for j in 0..steps.group_count(i) {
        hints = hints.saturating_add(steps.group_hints(i, j).len() as u64);
    }
    hints
}
