// What may be written of a loaded proof.
ghost use Rattle.std.specs.Prelude.{◌≡◌, ℕ, List, All, nat_lt, IfOk};
ghost use Rattle.sr_base.specs.Literal.{NoRepeats};
ghost use Rattle.sr_model.specs.Meeting.{Step};
ghost use Rattle.sr_load.specs.Loaded.{all_lines};
ghost use Rattle.sr_load.specs.Loading.{lemmas_in, passed_in};
ghost use Rattle.sr_trimming.specs.Reordered.{AreStepsRewritten};
ghost use Rattle.sr_trim.specs.Said.{trim_said};
ghost use Rattle.sr_placing.specs.Placing.{placing_of};
ghost use Rattle.sr_placing.specs.Counting.{counted};
ghost use Rattle.sr_trim.specs.Trimming.{trim_counts};
ghost use Rattle.sr_trim.specs.Deciding.{passes_lsr, passes_core};
ghost use Rattle.sr_trim.specs.Passing.{kept_steps, IsWritable, IsPlaced, Prepares, PassesLimit};
ghost use Rattle.sr_trim.specs.Reporting.{IsWanted};

use crate::reporting::{Wanted, make_report};
use crate::words::TrimWords;
use sr_base::{ByteList, LimitKind, Limits, Which};
use sr_emit::{Counts, Outcome};
use sr_load::Loaded;
use sr_placing::{Buffer, Placing, core_length, lsr_length, statistics};
use sr_steps::StepTable;
use sr_wit::Formula;
use std::alloc::Global;

/// Steps that may be written: nothing that is asked for passes the limit of bytes.
#[derive(Drop)]
pub struct Ready {
    pub steps: StepTable,
    pub placing: Placing,
    /// Room to write through.
    pub buffer: Buffer,
    pub counts: Counts,
    /// The report of the run, where its files are written whole.
    pub report: ByteList,
}

/// Whether so many bytes, which are counted up to 2^64 - 1, pass the limit.
fn is_long(limits: &Limits, length: u64) -> bool
    ensures { (n : ℕ) → length ≡ counted n → result ≡ nat_lt limits.now.bytes n }
{
    length > limits.bytes()
}

/// Whether the trimmed proof is asked for and passes the limit of bytes.
fn is_lsr_long<L: Loaded>(
    limits: &Limits,
    words: &TrimWords<'_>,
    loaded: &L,
    steps: &StepTable,
    placing: &Placing,
) -> bool
    requires writable { IsWritable (L.state loaded.now) steps.now }
    requires placed { IsPlaced (L.state loaded.now) steps.now placing.now }
    ensures { (ts : List Step) → AreStepsRewritten (kept_steps (L.state loaded.now) steps.now) ts
        → result ≡ passes_lsr limits.now (trim_said words.now) (L.state loaded.now).formula ts }
{
    if words.lsr.is_none() {
        return false;
    }
    let length = lsr_length(words.lsr_form, loaded, steps, placing);
    is_long(limits, length)
}

/// Whether the core is asked for and passes the limit of bytes.
fn is_core_long(
    limits: &Limits,
    words: &TrimWords<'_>,
    formula: &Formula,
    placing: &Placing,
) -> bool
    requires placed { (ss : List Step) × (placing.now ≡ placing_of formula.now.clauses ss) }
    ensures { (ss : List Step) → placing.now ≡ placing_of formula.now.clauses ss
        → result ≡ passes_core limits.now (trim_said words.now) formula.now ss }
{
    if words.core.is_none() {
        return false;
    }
    let length = core_length(formula, placing);
    is_long(limits, length)
}

/// The first file that is asked for and would pass the limit of bytes.
fn too_long<L: Loaded>(
    limits: &Limits,
    words: &TrimWords<'_>,
    loaded: &L,
    steps: &StepTable,
    placing: &Placing,
) -> Option<Which>
    requires writable { IsWritable (L.state loaded.now) steps.now }
    requires placed { IsPlaced (L.state loaded.now) steps.now placing.now }
    ensures { (ts : List Step) → AreStepsRewritten (kept_steps (L.state loaded.now) steps.now) ts
        → PassesLimit limits.now (trim_said words.now) (L.state loaded.now).formula (all_lines (L.state loaded.now)) ts result }
{
    if is_lsr_long(limits, words, loaded, steps, placing) {
        return Some(Which::Lsr);
    }
    if is_core_long(limits, words, loaded.formula(), placing) {
        return Some(Which::Core);
    }
    None
}

/// What is counted of kept steps, of a proof of so many lemmas, with so many deletions of nothing.
fn count<L: Loaded>(
    loaded: &L,
    steps: &StepTable,
    placing: &Placing,
    lemmas: u32,
    passed: u64,
) -> Counts
    requires placed { IsPlaced (L.state loaded.now) steps.now placing.now }
    requires lemmas { lemmas ≡ lemmas_in (all_lines (L.state loaded.now)) }
    requires passed { passed ≡ passed_in (all_lines (L.state loaded.now)) }
    ensures distinct { All NoRepeats (L.state loaded.now).formula.clauses }
    ensures counts { (ts : List Step) → AreStepsRewritten (kept_steps (L.state loaded.now) steps.now) ts
        → result ≡ trim_counts (L.state loaded.now).formula.clauses (all_lines (L.state loaded.now)) ts }
{
    let sizes = statistics(steps, placing);
    Counts {
        clauses: u64::from(loaded.formula().count()),
        core: sizes.core,
        lemmas: u64::from(lemmas),
        steps: sizes.steps,
        hints: sizes.hints,
        passed,
    }
}

/// Places kept steps, of a proof of so many lemmas, with so many deletions of nothing, and makes the report. After this no
/// memory is taken.
pub fn prepare<L: Loaded>(
    alloc: Global,
    limits: &Limits,
    words: &TrimWords<'_>,
    loaded: &L,
    steps: StepTable,
    lemmas: u32,
    passed: u64,
    wanted: Wanted,
) -> Result<Ready, Outcome>
    requires writable { IsWritable (L.state loaded.now) steps }
    requires lemmas { lemmas ≡ lemmas_in (all_lines (L.state loaded.now)) }
    requires passed { passed ≡ passed_in (all_lines (L.state loaded.now)) }
    ensures prepares { Prepares limits.now (trim_said words.now) (L.state loaded.now) result }
    ensures report { IfOk result (λ r. IsWanted wanted r.counts r.report) }
{
    let Ok(placing) = Placing::new(alloc, loaded, &steps) else {
        return Err(Outcome::NoMemory);
    };
    let Ok(buffer) = Buffer::new(alloc) else {
        return Err(Outcome::NoMemory);
    };
    let counts = count(loaded, &steps, &placing, lemmas, passed);
    if let Some(which) = too_long(limits, words, loaded, &steps, &placing) {
        return Err(Outcome::Limit {
            which,
            kind: LimitKind::Bytes,
        });
    }
    let Ok(report) = make_report(alloc, wanted, &counts) else {
        return Err(Outcome::NoMemory);
    };
    Ok(Ready {
        steps,
        placing,
        buffer,
        counts,
        report,
    })
}
