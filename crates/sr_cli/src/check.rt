// The command `check`: the formula, then the proof.
ghost use Rattle.std.specs.Prelude.{◌≡◌, ◌⊎◌, ◌≤◌};
ghost use Rattle.sr_base.specs.Contents.{Contents};
ghost use Rattle.sr_desk.specs.Outside.{Agrees};
ghost use Rattle.sr_files.specs.Files.{ReadsFiles, GivesFile, HasReadCause};
ghost use Rattle.sr_cli.specs.Check.{IsFirst};
ghost use Rattle.sr_cli.specs.Words.{said};
ghost use Rattle.sr_cli.specs.Runs.{JudgesFormula};

use crate::proof::{Tally, judge_proof};
use crate::words::CheckWords;
use sr_base::{AddError, LimitKind, Limits, Which};
use sr_check::Checker;
use sr_desk::Desk;
use sr_emit::{Counts, Outcome};
use sr_files::{load_formula, open_file, outcome_of};
use sr_wit::Formula;
use std::alloc::Global;

/// What was found, and what was counted.
#[derive(Clone, Copy, Debug, PartialEq, Eq)]
pub(crate) struct Checked {
    pub outcome: Outcome,
    pub counts: Counts,
}

fn with_counts(outcome: Outcome, clauses: u32, tally: Tally) -> Checked
    ensures { result ≡ record {
      outcome = outcome;
      counts = record {
        clauses = clauses;
        core = 0;
        lemmas = 0;
        steps = tally.steps;
        hints = tally.hints;
        passed = 0;
      };
    } }
{
    Checked {
        outcome,
        counts: Counts {
            clauses: u64::from(clauses),
            core: 0,
            lemmas: 0,
            steps: tally.steps,
            hints: tally.hints,
            passed: 0,
        },
    }
}

/// Judges the proof of a formula.
fn judge_formula<D: Desk>(
    alloc: Global,
    limits: &Limits,
    formula: Formula,
    words: &CheckWords<'_>,
    desk: &mut D,
) -> Checked
    requires { (D.outside desk.old).begun ≡ 1 }
    ensures { JudgesFormula limits.now words.now.proof_form words.now.strict formula.clauses words.now.proof.now result
        (D.outside desk.old) (D.outside desk.new) }
{
    let clauses = formula.count();
    let is_refuted = formula.has_empty();
    let none = Tally { steps: 0, hints: 0 };
    let checker = match Checker::new(alloc, formula, limits, words.strict) {
        Ok(checker) => checker,
        Err(AddError::Cells) => {
            let limit = Outcome::Limit {
                which: Which::Formula,
                kind: LimitKind::Cells,
            };
            return with_counts(limit, clauses, none);
        }
        Err(AddError::NoMemory) => return with_counts(Outcome::NoMemory, clauses, none),
    };
    if is_refuted {
        return with_counts(Outcome::Verified, clauses, none);
    }
    let reader = match open_file(alloc, limits, desk, words.proof) {
        Ok(reader) => reader,
        Err(error) => return with_counts(outcome_of(Which::Proof, error), clauses, none),
    };
    let form = words.proof_form;
    let mut tally = none;
    let outcome = judge_proof(alloc, limits, form, checker, &mut tally, reader, desk);
    with_counts(outcome, clauses, tally)
}

/// Checks the proof of a file against the formula of another.
pub(crate) fn check_files<D: Desk>(
    alloc: Global,
    limits: &Limits,
    words: &CheckWords<'_>,
    desk: &mut D,
) -> Checked
    requires { (D.outside desk.old).begun ≡ 0 }
    ensures finds { (result.outcome ≡ Outcome.NoMemory)
        ⊎ ((formula proof : Contents) → Agrees ((D.outside desk.new).slot 0) formula → Agrees ((D.outside desk.new).slot 1) proof
        → IsFirst limits.now (said words.now) formula proof result.outcome result.counts (D.outside desk.new).begun) }
    ensures slots { ReadsFiles (D.outside desk.old) (D.outside desk.new) }
    ensures formula { GivesFile 0 words.now.formula.now (D.outside desk.old) (D.outside desk.new) }
    ensures proof { 2 ≤ (D.outside desk.new).begun → GivesFile 1 words.now.proof.now (D.outside desk.old) (D.outside desk.new) }
    ensures cause { HasReadCause (D.outside desk.old) (D.outside desk.new) result.outcome }
{
    match load_formula(alloc, limits, desk, words.formula) {
        Ok(formula) => judge_formula(alloc, limits, formula, words, desk),
        Err(error) => with_counts(
            outcome_of(Which::Formula, error),
            0,
            Tally { steps: 0, hints: 0 },
        ),
    }
}
