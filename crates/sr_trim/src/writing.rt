// Writing what is asked for, piece by piece.
ghost use Rattle.std.specs.Prelude.{◌≡◌, ◌<◌, ◌≤◌, List};
ghost use Rattle.sr_base.specs.declared.names.Which.TheVariants as which;
ghost use Rattle.sr_model.specs.Meeting.{Step};
ghost use Rattle.sr_trimming.specs.Reordered.{AreStepsRewritten};
ghost use Rattle.sr_trim.specs.Said.{trim_said};
ghost use Rattle.sr_trim.specs.Trimming.{lsr_text, core_text};
ghost use Rattle.sr_trim.specs.Passing.{kept_steps, IsWritable, IsPlaced};
ghost use Rattle.sr_placing.specs.Placing.{placing_of};
ghost use Rattle.sr_trim.specs.Outputs.{WritesFile, WritesOne, WritesTwo, asked_lsr, asked_core};

use crate::ready::Ready;
use crate::words::TrimWords;
use sr_base::{Form, Which};
use sr_desk::{CallError, Desk};
use sr_emit::Outcome;
use sr_load::Loaded;
use sr_placing::{Buffer, Placing, write_core, write_lsr};
use sr_steps::StepTable;
use sr_wit::Formula;

/// Begins to write a file, writes the trimmed proof, and finishes it.
fn write_lsr_file<L: Loaded, D: Desk>(
    desk: &mut D,
    name: &str,
    form: Form,
    loaded: &L,
    steps: &StepTable,
    placing: &Placing,
    buffer: &mut Buffer,
) -> Result<(), CallError>
    requires begun { (D.outside desk.old).begun < 8 }
    requires writable { IsWritable (L.state loaded.now) steps.now }
    requires placed { IsPlaced (L.state loaded.now) steps.now placing.now }
    ensures { (ts : List Step) × AreStepsRewritten (kept_steps (L.state loaded.now) steps.now) ts
        × WritesFile name.now (lsr_text form (L.state loaded.now).formula.clauses ts) (D.outside desk.old) (D.outside desk.new) result }
{
    match desk.begin_write(name) {
        Err(_) => Err(CallError),
        Ok(slot) => match write_lsr(form, loaded, steps, placing, buffer, desk, slot) {
            Err(error) => Err(error),
            Ok(()) => match desk.finish(slot) {
                Ok(()) => Ok(()),
                Err(_) => Err(CallError),
            },
        },
    }
}

/// Begins to write a file, writes the core, and finishes it.
fn write_core_file<D: Desk>(
    desk: &mut D,
    name: &str,
    formula: &Formula,
    placing: &Placing,
    buffer: &mut Buffer,
) -> Result<(), CallError>
    requires begun { (D.outside desk.old).begun < 8 }
    requires placed { (ss : List Step) × (placing.now ≡ placing_of formula.now.clauses ss) }
    ensures { (ss : List Step) → placing.now ≡ placing_of formula.now.clauses ss
        → WritesFile name.now (core_text formula.now ss) (D.outside desk.old) (D.outside desk.new) result }
{
    match desk.begin_write(name) {
        Err(_) => Err(CallError),
        Ok(slot) => match write_core(formula, placing, buffer, desk, slot) {
            Err(error) => Err(error),
            Ok(()) => match desk.finish(slot) {
                Ok(()) => Ok(()),
                Err(_) => Err(CallError),
            },
        },
    }
}

/// Writes the trimmed proof, where it is asked for.
fn write_lsr_asked<L: Loaded, D: Desk>(
    desk: &mut D,
    words: &TrimWords<'_>,
    loaded: &L,
    steps: &StepTable,
    placing: &Placing,
    buffer: &mut Buffer,
) -> Outcome
    requires begun { (D.outside desk.old).begun < 8 }
    requires writable { IsWritable (L.state loaded.now) steps.now }
    requires placed { IsPlaced (L.state loaded.now) steps.now placing.now }
    ensures { (ts : List Step) × AreStepsRewritten (kept_steps (L.state loaded.now) steps.now) ts
        × WritesOne which.Lsr (trim_said words.now).lsr (asked_lsr (trim_said words.now) (L.state loaded.now).formula ts)
        (D.outside desk.old) (D.outside desk.new) result }
{
    let Some(name) = words.lsr else {
        return Outcome::Verified;
    };
    match write_lsr_file(desk, name, words.lsr_form, loaded, steps, placing, buffer) {
        Ok(()) => Outcome::Verified,
        Err(_) => Outcome::SinkFault { which: Which::Lsr },
    }
}

/// Writes the core, where it is asked for.
fn write_core_asked<D: Desk>(
    desk: &mut D,
    words: &TrimWords<'_>,
    formula: &Formula,
    placing: &Placing,
    buffer: &mut Buffer,
) -> Outcome
    requires begun { (D.outside desk.old).begun < 8 }
    requires placed { (ss : List Step) × (placing.now ≡ placing_of formula.now.clauses ss) }
    ensures { (ss : List Step) → placing.now ≡ placing_of formula.now.clauses ss
        → WritesOne which.Core (trim_said words.now).core (asked_core (trim_said words.now) formula.now ss)
        (D.outside desk.old) (D.outside desk.new) result }
{
    let Some(name) = words.core else {
        return Outcome::Verified;
    };
    match write_core_file(desk, name, formula, placing, buffer) {
        Ok(()) => Outcome::Verified,
        Err(_) => Outcome::SinkFault { which: Which::Core },
    }
}

/// Writes the proof and then the core, where they are asked for. After a fault of the one the other isn't begun.
pub fn write_files<L: Loaded, D: Desk>(
    desk: &mut D,
    words: &TrimWords<'_>,
    loaded: &L,
    ready: &mut Ready,
) -> Outcome
    requires begun { (D.outside desk.old).begun ≤ 6 }
    requires writable { IsWritable (L.state loaded.now) ready.old.steps }
    requires placed { IsPlaced (L.state loaded.now) ready.old.steps ready.old.placing }
    ensures written { (ts : List Step) × AreStepsRewritten (kept_steps (L.state loaded.now) ready.old.steps) ts
        × WritesTwo (trim_said words.now).lsr (asked_lsr (trim_said words.now) (L.state loaded.now).formula ts)
        (trim_said words.now).core (asked_core (trim_said words.now) (L.state loaded.now).formula ts)
        (D.outside desk.old) (D.outside desk.new) result }
    ensures counts { ready.new.counts ≡ ready.old.counts }
    ensures report { ready.new.report ≡ ready.old.report }
{
    let outcome = write_lsr_asked(
        desk,
        words,
        loaded,
        &ready.steps,
        &ready.placing,
        &mut ready.buffer,
    );
    if !outcome.is_verified() {
        return outcome;
    }
    write_core_asked(
        desk,
        words,
        loaded.formula(),
        &ready.placing,
        &mut ready.buffer,
    )
}
