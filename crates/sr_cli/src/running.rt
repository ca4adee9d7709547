// The top call: from the words to the outcome.
ghost use Rattle.std.specs.Prelude.{◌≡◌, ◌≤◌, None, map, string_bytes};
ghost use Rattle.sr_base.specs.Limits.{shipped};
ghost use Rattle.sr_emit.specs.Report.{report};
ghost use Rattle.sr_trim.specs.Said.{trim_said};
ghost use Rattle.sr_files.specs.Files.{GivesFile};
ghost use Rattle.sr_cli.specs.Words.{asked, checks, only_reads, trims, demos, said, demo_said, AreHoles};
ghost use Rattle.sr_cli.specs.Run.{Runs, Reports, OnlyPrints, no_names, is_unreported, RunsReadOnly, RunsTrim, RunsDemo, IsSound, SaysSo, HasRunCause, StaysUnwritten};
ghost use Rattle.sr_cli.specs.Touching.{GivesFiles, GivesReadOnly, OnlyReadsFiles, OnlyTouches, OnlyTrims, OnlyDemos};

use crate::check::check_files;
use crate::demo::demo_files;
use crate::report::{report, show};
use crate::words::{CheckWords, DemoWords, Task, WordsError, read_words};
use sr_base::Limits;
use sr_desk::Desk;
use sr_emit::{Command, FileNames, Outcome};
use sr_trim::{TrimWords, trim_files};
use std::alloc::Global;

/// Runs the command that the words ask for, with the limits that the program ships with.
///
/// The words are those of the command line without the program's name. The first file that is begun has the slot 0 of
/// the desk, the second one the slot 1. What was found is reported on standard output, unless memory runs out.
pub fn run<D: Desk>(alloc: Global, words: &[String], desk: &mut D) -> Outcome
    requires { (D.outside desk.old).begun ≡ 0 }
    ensures runs { Runs shipped (asked (map string_bytes words.now)) (D.outside desk.old) (D.outside desk.new) result }
    ensures sound { IsSound shipped (asked (map string_bytes words.now)) (D.outside desk.new) result }
    ensures printed { SaysSo shipped (asked (map string_bytes words.now)) (D.outside desk.old) (D.outside desk.new) }
    ensures cause { HasRunCause (asked (map string_bytes words.now)) (D.outside desk.old) (D.outside desk.new) result }
    ensures files { GivesFiles (asked (map string_bytes words.now)) (D.outside desk.old) (D.outside desk.new) }
    ensures only { OnlyTouches (asked (map string_bytes words.now)) (D.outside desk.old) (D.outside desk.new) }
    ensures memory { StaysUnwritten (asked (map string_bytes words.now)) (D.outside desk.old) (D.outside desk.new) result }
{
    run_with(alloc, &Limits::shipped(), words, desk)
}

/// Runs the command with limits of one's own.
pub fn run_with<D: Desk>(alloc: Global, limits: &Limits, words: &[String], desk: &mut D) -> Outcome
    requires { (D.outside desk.old).begun ≡ 0 }
    ensures runs { Runs limits.now (asked (map string_bytes words.now)) (D.outside desk.old) (D.outside desk.new) result }
    ensures sound { IsSound limits.now (asked (map string_bytes words.now)) (D.outside desk.new) result }
    ensures printed { SaysSo limits.now (asked (map string_bytes words.now)) (D.outside desk.old) (D.outside desk.new) }
    ensures cause { HasRunCause (asked (map string_bytes words.now)) (D.outside desk.old) (D.outside desk.new) result }
    ensures files { GivesFiles (asked (map string_bytes words.now)) (D.outside desk.old) (D.outside desk.new) }
    ensures only { OnlyTouches (asked (map string_bytes words.now)) (D.outside desk.old) (D.outside desk.new) }
    ensures memory { StaysUnwritten (asked (map string_bytes words.now)) (D.outside desk.old) (D.outside desk.new) result }
{
    match read_words(alloc, words) {
        Err(WordsError::NoMemory) => Outcome::NoMemory,
        Err(WordsError::Refused { topic, flaw }) => {
            let found = Outcome::Usage(flaw.kind());
            tell(alloc, Command::Refused { topic, flaw }, found, desk)
        }
        Ok(Task::Help(topic)) => tell(alloc, Command::Help, Outcome::Helped(topic), desk),
        Ok(Task::Check(said)) => run_check(alloc, limits, &said, desk),
        Ok(Task::Trim(said)) => run_trim(alloc, limits, &said, desk),
        Ok(Task::Demo(said)) => run_demo(alloc, limits, &said, desk),
    }
}

const NO_FILES: FileNames<'static> = FileNames {
    formula: None,
    proof: None,
    lsr: None,
    core: None,
};

/// Reports what is found without a file.
fn tell<D: Desk>(alloc: Global, command: Command, found: Outcome, desk: &mut D) -> Outcome
    ensures only { OnlyPrints (D.outside desk.old) (D.outside desk.new) }
    ensures reports { Reports (report command no_names None found) (D.outside desk.old) (D.outside desk.new) found result }
{
    report(alloc, command, &NO_FILES, None, found, desk)
}

/// Runs `check`. Out of memory isn't reported.
fn run_check<D: Desk>(
    alloc: Global,
    limits: &Limits,
    asked_for: &CheckWords<'_>,
    desk: &mut D,
) -> Outcome
    requires { (D.outside desk.old).begun ≡ 0 }
    ensures runs { RunsReadOnly limits.now (checks (said asked_for.now)) (D.outside desk.old) (D.outside desk.new) result }
    ensures sound { IsSound limits.now (only_reads (checks (said asked_for.now))) (D.outside desk.new) result }
    ensures printed { SaysSo limits.now (only_reads (checks (said asked_for.now))) (D.outside desk.old) (D.outside desk.new) }
    ensures cause { HasRunCause (only_reads (checks (said asked_for.now))) (D.outside desk.old) (D.outside desk.new) result }
    ensures files { GivesReadOnly (checks (said asked_for.now)) (D.outside desk.old) (D.outside desk.new) }
    ensures only { OnlyReadsFiles (checks (said asked_for.now)) (D.outside desk.old) (D.outside desk.new) }
{
    let checked = check_files(alloc, limits, asked_for, desk);
    if is_unreported(checked.outcome) {
        return checked.outcome;
    }
    let all = checked.counts;
    let counts = if asked_for.stats { Some(&all) } else { None };
    let names = FileNames {
        formula: Some(asked_for.formula),
        proof: Some(asked_for.proof),
        lsr: None,
        core: None,
    };
    report(alloc, Command::Check, &names, counts, checked.outcome, desk)
}

/// Runs `trim`. A fault of a file that is written, and out of memory, aren't reported.
fn run_trim<D: Desk>(
    alloc: Global,
    limits: &Limits,
    asked_for: &TrimWords<'_>,
    desk: &mut D,
) -> Outcome
    requires { (D.outside desk.old).begun ≡ 0 }
    ensures runs { RunsTrim limits.now (trim_said asked_for.now) (D.outside desk.old) (D.outside desk.new) result }
    ensures sound { IsSound limits.now (trims (trim_said asked_for.now)) (D.outside desk.new) result }
    ensures printed { SaysSo limits.now (trims (trim_said asked_for.now)) (D.outside desk.old) (D.outside desk.new) }
    ensures cause { HasRunCause (trims (trim_said asked_for.now)) (D.outside desk.old) (D.outside desk.new) result }
    ensures files { 1 ≤ (D.outside desk.new).begun → GivesFile 0 asked_for.now.formula.now (D.outside desk.old) (D.outside desk.new) }
    ensures only { OnlyTrims (trim_said asked_for.now) (D.outside desk.old) (D.outside desk.new) }
    ensures memory { StaysUnwritten (trims (trim_said asked_for.now)) (D.outside desk.old) (D.outside desk.new) result }
{
    let found = trim_files(alloc, limits, asked_for, desk);
    if found.outcome.is_verified() {
        return show(desk, found.report.as_slice(), found.outcome);
    }
    if is_unreported(found.outcome) {
        return found.outcome;
    }
    let names = FileNames {
        formula: Some(asked_for.formula),
        proof: Some(asked_for.proof),
        lsr: asked_for.lsr,
        core: asked_for.core,
    };
    report(alloc, Command::Trim, &names, None, found.outcome, desk)
}

/// Runs `demo`. A fault of a file that is written, and out of memory, aren't reported.
fn run_demo<D: Desk>(
    alloc: Global,
    limits: &Limits,
    asked_for: &DemoWords<'_>,
    desk: &mut D,
) -> Outcome
    requires none { (D.outside desk.old).begun ≡ 0 }
    requires holes { AreHoles asked_for.now.holes }
    ensures runs { RunsDemo limits.now (demo_said asked_for.now) (D.outside desk.old) (D.outside desk.new) result }
    ensures sound { IsSound limits.now (demos (demo_said asked_for.now)) (D.outside desk.new) result }
    ensures printed { SaysSo limits.now (demos (demo_said asked_for.now)) (D.outside desk.old) (D.outside desk.new) }
    ensures cause { HasRunCause (demos (demo_said asked_for.now)) (D.outside desk.old) (D.outside desk.new) result }
    ensures only { OnlyDemos (demo_said asked_for.now) (D.outside desk.old) (D.outside desk.new) }
    ensures memory { StaysUnwritten (demos (demo_said asked_for.now)) (D.outside desk.old) (D.outside desk.new) result }
{
    let made = demo_files(alloc, limits, asked_for, desk);
    if made.outcome.is_verified() {
        return show(desk, made.report.as_slice(), made.outcome);
    }
    if is_unreported(made.outcome) {
        return made.outcome;
    }
    let command = Command::Demo {
        holes: asked_for.holes,
        stats: asked_for.stats,
    };
    let names = FileNames {
        formula: None,
        proof: None,
        lsr: asked_for.lsr,
        core: asked_for.core,
    };
    report(alloc, command, &names, None, made.outcome, desk)
}

/// Whether an outcome isn't reported: a fault of a file that is written, and out of memory.
fn is_unreported(outcome: Outcome) -> bool
    ensures { result ≡ is_unreported outcome }
{
    matches!(outcome, Outcome::SinkFault { .. } | Outcome::NoMemory)
}
