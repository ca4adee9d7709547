// The command `demo`: the pigeonhole formula and its proof by swaps are made, trimmed, and written where that is asked for.
ghost use Rattle.std.specs.Prelude.{◌≡◌, ◌<◌, ◌≤◌, Some, option_map};
ghost use Rattle.sr_sure.specs.SureView.{outside_of, HasTexts, IsFresh};
ghost use Rattle.sr_trim.specs.Outputs.{WritesOne};
ghost use Rattle.sr_trim.specs.Reporting.{HasReport};
ghost use Rattle.sr_cli.specs.Words.{demo_said, AreHoles};
ghost use Rattle.sr_cli.specs.Demo.{formula_text, proof_text, made_outputs, WritesEach, FindsTexts, FindsDemo, demo_report};

use crate::words::DemoWords;
use sr_base::{ByteList, Form, Limits, Which};
use sr_desk::Desk;
use sr_emit::{Command, Counts, Outcome};
use sr_files::write_file;
use sr_holes::{holes_formula, holes_proof};
use sr_sure::SureDesk;
use sr_trim::{TrimWords, Trimmed, Wanted, trim_between};
use std::alloc::Global;

fn without_counts(alloc: Global, outcome: Outcome) -> Trimmed
    ensures { result.outcome ≡ outcome }
{
    Trimmed {
        outcome,
        counts: Counts {
            clauses: 0,
            core: 0,
            lemmas: 0,
            steps: 0,
            hints: 0,
            passed: 0,
        },
        report: ByteList::new(alloc),
    }
}

/// Trims the proof of a desk that has both texts. The trimmed proof and the core are written where they are asked for.
fn trim_sure<D: Desk>(
    alloc: Global,
    limits: &Limits,
    words: &DemoWords<'_>,
    sure: &mut SureDesk,
    desk: &mut D,
) -> Trimmed
    requires begun { (D.outside desk.old).begun ≤ 6 }
    requires fresh { IsFresh (outside_of sure.old) }
    requires texts { HasTexts (formula_text words.now.holes) (proof_text words.now.holes) (outside_of sure.old) }
    ensures finds { FindsTexts limits.now (demo_said words.now) (D.outside desk.old) (D.outside desk.new) result.outcome result.counts }
    ensures texts { HasTexts (formula_text words.now.holes) (proof_text words.now.holes) (outside_of sure.new) }
    ensures report { HasReport (demo_report (demo_said words.now)) result.outcome result.counts result.report }
{
    let asked = TrimWords {
        formula: "formula",
        proof: "proof",
        proof_form: Form::Text,
        lsr: words.lsr,
        lsr_form: Form::Text,
        core: words.core,
        keep_units: false,
        stats: words.stats,
    };
    let wanted = Wanted {
        command: Command::Demo {
            holes: words.holes,
            stats: words.stats,
        },
        with_counts: true,
    };
    trim_between(alloc, limits, &asked, wanted, sure, desk)
}

/// Writes a file, where it is asked for.
fn write_asked<D: Desk>(desk: &mut D, which: Which, name: Option<&str>, bytes: &ByteList) -> Outcome
    requires { (D.outside desk.old).begun < 8 }
    ensures { WritesOne which (option_map (λ s. s.now) name.entry) (Some bytes.now) (D.outside desk.old) (D.outside desk.new) result }
{
    let Some(name) = name else {
        return Outcome::Verified;
    };
    match write_file(desk, name, bytes.as_slice()) {
        Ok(()) => Outcome::Verified,
        Err(_) => Outcome::SinkFault { which },
    }
}

/// Writes the formula and then the proof, where they are asked for. After a fault of the one the other isn't begun.
fn write_made<D: Desk>(desk: &mut D, words: &DemoWords<'_>, sure: &SureDesk) -> Outcome
    requires begun { (D.outside desk.old).begun ≤ 6 }
    requires texts { HasTexts (formula_text words.now.holes) (proof_text words.now.holes) (outside_of sure.now) }
    ensures { WritesEach (made_outputs (demo_said words.now)) (D.outside desk.old) (D.outside desk.new) result }
{
    let outcome = write_asked(desk, Which::Formula, words.formula, sure.formula());
    if !outcome.is_verified() {
        return outcome;
    }
    write_asked(desk, Which::Proof, words.proof, sure.proof())
}

/// Makes the pigeonhole formula and its proof, trims the proof, and writes what is asked for.
///
/// The order of the files is this: the trimmed proof, the core, the formula, the proof. After a fault of one the others aren't
/// begun.
pub(crate) fn demo_files<D: Desk>(
    alloc: Global,
    limits: &Limits,
    words: &DemoWords<'_>,
    desk: &mut D,
) -> Trimmed
    requires none { (D.outside desk.old).begun ≡ 0 }
    requires holes { AreHoles words.now.holes }
    ensures finds { FindsDemo limits.now (demo_said words.now) (D.outside desk.old) (D.outside desk.new) result.outcome result.counts }
    ensures report { HasReport (demo_report (demo_said words.now)) result.outcome result.counts result.report }
{
    let Ok(formula) = holes_formula(alloc, words.holes) else {
        return without_counts(alloc, Outcome::NoMemory);
    };
    let Ok(proof) = holes_proof(alloc, words.holes) else {
        return without_counts(alloc, Outcome::NoMemory);
    };
    let mut sure = SureDesk::new(formula, proof);
    let trimmed = trim_sure(alloc, limits, words, &mut sure, desk);
    if !trimmed.outcome.is_verified() {
        return trimmed;
    }
    let outcome = write_made(desk, words, &sure);
    Trimmed {
        outcome,
        counts: trimmed.counts,
        report: trimmed.report,
    }
}
