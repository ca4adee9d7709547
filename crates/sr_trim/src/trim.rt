// `trim` over files.
ghost use Rattle.std.specs.Prelude.{◌≡◌, ◌≤◌};
ghost use Rattle.sr_trim.specs.Said.{trim_said};
ghost use Rattle.sr_trim.specs.Finding.{Finds, FindsBetween};
ghost use Rattle.sr_trim.specs.Reporting.{HasReport};

use crate::passing::pass;
use crate::reading::load_files;
use crate::reporting::Wanted;
use crate::words::TrimWords;
use sr_base::{ByteList, Limits};
use sr_desk::Desk;
use sr_emit::{Command, Counts, Outcome};
use std::alloc::Global;

/// What was answered, what was counted, and the report of a verified run.
#[derive(Drop)]
pub struct Trimmed {
    pub outcome: Outcome,
    pub counts: Counts,
    /// The bytes of the report, where the outcome is verified.
    pub report: ByteList,
}

/// An outcome of which nothing was counted.
pub fn without_counts(alloc: Global, outcome: Outcome) -> Trimmed
    ensures { result.outcome ≡ outcome }
{
    Trimmed {
        outcome,
        counts: Counts {
            clauses: 0,
            core: 0,
            lemmas: 0,
            steps: 0,
            hints: 0,
            passed: 0,
        },
        report: ByteList::new(alloc),
    }
}

/// Reads the formula and the proof, and writes the proof and the core that are needed of them, where these are asked for.
///
/// The files that are begun have the slots from 0 on: the formula, the proof unless the formula alone conflicts, the proof that
/// is written, and the core.
pub fn trim_files<D: Desk>(
    alloc: Global,
    limits: &Limits,
    words: &TrimWords<'_>,
    desk: &mut D,
) -> Trimmed
    requires { (D.outside desk.old).begun ≡ 0 }
    ensures finds { Finds limits.now (trim_said words.now) (D.outside desk.old) (D.outside desk.new) result.outcome result.counts }
    ensures report { HasReport (record { command = Command.Trim; with_counts = words.now.stats })
        result.outcome result.counts result.report }
{
    let loader = match load_files(alloc, limits, words, desk) {
        Ok(loader) => loader,
        Err(outcome) => return without_counts(alloc, outcome),
    };
    let wanted = Wanted {
        command: Command::Trim,
        with_counts: words.stats,
    };
    pass(alloc, limits, words, loader, wanted, desk)
}

/// Reads the formula and the proof from one desk, and writes the proof and the core that are needed of them to another, where
/// these are asked for.
pub fn trim_between<S: Desk, D: Desk>(
    alloc: Global,
    limits: &Limits,
    words: &TrimWords<'_>,
    wanted: Wanted,
    from: &mut S,
    desk: &mut D,
) -> Trimmed
    requires none { (S.outside from.old).begun ≡ 0 }
    requires begun { (D.outside desk.old).begun ≤ 6 }
    ensures finds { FindsBetween limits.now (trim_said words.now) (S.outside from.old) (S.outside from.new)
        (D.outside desk.old) (D.outside desk.new) result.outcome result.counts }
    ensures report { HasReport wanted result.outcome result.counts result.report }
{
    match load_files(alloc, limits, words, from) {
        Ok(loader) => pass(alloc, limits, words, loader, wanted, desk),
        Err(outcome) => without_counts(alloc, outcome),
    }
}
