// The report on standard output: the lines of `--stats` where verified, a reason where not, and a last line for each outcome.
ghost use Rattle.std.specs.Prelude.{◌≡◌, ◌++◌, IfOk, string_bytes, option_map, decimal};
ghost use Rattle.sr_emit.specs.Report.{report, IsVerifiedReport, rejected_line, rejected_lemma_line, last_line, count_line, check_lines, trim_lines, short_lines, demo_lines, statistics_of};
ghost use Rattle.sr_emit.specs.FileNames.{names_of};

use crate::counts::Counts;
use crate::files::FileNames;
use crate::help::help_of;
use crate::names::{name_of_limit, name_of_text, name_of_usage, name_of_which, text_of_cause};
use crate::outcome::Outcome;
use crate::reasons::{bytes_of, reason};
use crate::topic::{Flaw, Topic};
use sr_base::{ByteList, ClauseId, NoMemory};
use std::alloc::{AllocError, Global};

/// The command that a run was given.
#[derive(Clone, Copy, Debug, PartialEq, Eq)]
pub enum Command {
    Check,
    Trim,
    /// `demo` with so many holes, and whether all counts are asked for.
    Demo { holes: u32, stats: bool },
    /// Help is asked for.
    Help,
    /// The words are refused: the topic whose usage is shown, and what is wrong with them.
    Refused { topic: Topic, flaw: Flaw },
}

/// The bytes of the report. `counts` are given where statistics are asked for, and always for `demo`; they are printed where the
/// outcome is verified. A fault of writing and want of memory print nothing.
pub fn report_bytes(
    alloc: Global,
    command: Command,
    names: &FileNames<'_>,
    counts: Option<&Counts>,
    outcome: &Outcome,
) -> Result<ByteList, NoMemory>
    ensures { IfOk result (λ b. b ≡ report command (names_of names.now) (option_map (λ c. c.now) counts.entry) outcome.now) }
{
    let Ok(statistics) = statistics(alloc, command, counts, outcome) else {
        return Err(NoMemory);
    };
    let Ok(last) = last_of(alloc, outcome) else {
        return Err(NoMemory);
    };
    let reason = reason(alloc, command, names, outcome)?;
    let mut bytes = bytes_of(alloc, statistics.as_str())?;
    bytes.extend(reason.as_slice())?;
    bytes.extend(last.as_bytes())?;
    Ok(bytes)
}

/// The bytes of the report of a verified run. They don't depend on the names of the files, since such a run has no reason.
pub fn verified_bytes(
    alloc: Global,
    command: Command,
    counts: Option<&Counts>,
) -> Result<ByteList, NoMemory>
    ensures { IfOk result (IsVerifiedReport command (option_map (λ c. c.now) counts.entry)) }
{
    let Ok(statistics) = statistics(alloc, command, counts, &Outcome::Verified) else {
        return Err(NoMemory);
    };
    let Ok(last) = last_of(alloc, &Outcome::Verified) else {
        return Err(NoMemory);
    };
    let mut bytes = bytes_of(alloc, statistics.as_str())?;
    bytes.extend(last.as_bytes())?;
    Ok(bytes)
}

fn statistics(
    alloc: Global,
    command: Command,
    counts: Option<&Counts>,
    outcome: &Outcome,
) -> Result<String, AllocError>
    ensures { IfOk result (λ s. string_bytes s ≡ statistics_of command (option_map (λ c. c.now) counts.entry) outcome.now) }
{
    match (command, counts, outcome) {
        (Command::Check, Some(counts), Outcome::Verified) => check_statistics(alloc, counts),
        (Command::Trim, Some(counts), Outcome::Verified) => trim_statistics(alloc, counts),
        (Command::Demo { holes, stats }, Some(counts), Outcome::Verified) => {
            demo_statistics(alloc, holes, stats, counts)
        }
        _ => Ok(String::new(alloc)),
    }
}

fn check_statistics(alloc: Global, counts: &Counts) -> Result<String, AllocError>
    ensures { IfOk result (λ s. string_bytes s ≡ check_lines counts.now) }
{
    let mut text = count_line(alloc, "clauses", counts.clauses)?;
    let steps = count_line(alloc, "steps", counts.steps)?;
    text.push_str(steps.as_str())?;
    let hints = count_line(alloc, "hints", counts.hints)?;
    text.push_str(hints.as_str())?;
    Ok(text)
}

fn trim_statistics(alloc: Global, counts: &Counts) -> Result<String, AllocError>
    ensures { IfOk result (λ s. string_bytes s ≡ trim_lines counts.now) }
{
    let mut text = String::new(alloc);
    let clauses = count_line(alloc, "clauses", counts.clauses)?;
    text.push_str(clauses.as_str())?;
    let core = count_line(alloc, "core", counts.core)?;
    text.push_str(core.as_str())?;
    let lemmas = count_line(alloc, "lemmas", counts.lemmas)?;
    text.push_str(lemmas.as_str())?;
    let steps = count_line(alloc, "steps", counts.steps)?;
    text.push_str(steps.as_str())?;
    let hints = count_line(alloc, "hints", counts.hints)?;
    text.push_str(hints.as_str())?;
    let passed = count_line(alloc, "passed", counts.passed)?;
    text.push_str(passed.as_str())?;
    Ok(text)
}

/// The holes and then, where they are asked for, all counts of trimming; else the clauses and the lemmas.
fn demo_statistics(
    alloc: Global,
    holes: u32,
    stats: bool,
    counts: &Counts,
) -> Result<String, AllocError>
    ensures { IfOk result (λ s. string_bytes s ≡ demo_lines holes stats counts.now) }
{
    let mut text = count_line(alloc, "holes", u64::from(holes))?;
    let more = if stats {
        trim_statistics(alloc, counts)?
    } else {
        short_statistics(alloc, counts)?
    };
    text.push_str(more.as_str())?;
    Ok(text)
}

fn short_statistics(alloc: Global, counts: &Counts) -> Result<String, AllocError>
    ensures { IfOk result (λ s. string_bytes s ≡ short_lines counts.now) }
{
    let mut lines = count_line(alloc, "clauses", counts.clauses)?;
    let lemmas = count_line(alloc, "lemmas", counts.lemmas)?;
    lines.push_str(lemmas.as_str())?;
    Ok(lines)
}

fn count_line(alloc: Global, name: &str, count: u64) -> Result<String, AllocError>
    ensures { IfOk result (λ s. string_bytes s ≡ count_line name.now count) }
{
    let count = digits(alloc, count)?;
    let mut text = String::from_str(alloc, "c ")?;
    text.push_str(name)?;
    text.push_str(" ")?;
    text.push_str(count.as_str())?;
    text.push_str("\n")?;
    Ok(text)
}

pub(crate) fn digits(alloc: Global, n: u64) -> Result<String, AllocError>
    ensures { IfOk result (λ s. string_bytes s ≡ decimal n) }
{
    format!(in alloc; "{n}")
}

fn rejected_line(alloc: Global, id: u32, cause: &str) -> Result<String, AllocError>
    ensures { IfOk result (λ s. string_bytes s ≡ rejected_line id cause.now) }
{
    let number = digits(alloc, u64::from(id))?;
    let mut text = String::from_str(alloc, "s REJECTED step ")?;
    text.push_str(number.as_str())?;
    text.push_str(" ")?;
    text.push_str(cause)?;
    text.push_str("\n")?;
    Ok(text)
}

fn rejected_lemma_line(
    alloc: Global,
    lemma: ClauseId,
    against: Option<ClauseId>,
) -> Result<String, AllocError>
    ensures { IfOk result (λ s. string_bytes s ≡ rejected_lemma_line lemma against) }
{
    let lemma = digits(alloc, u64::from(lemma))?;
    let mut text = String::from_str(alloc, "s REJECTED lemma ")?;
    text.push_str(lemma.as_str())?;
    text.push_str(" ")?;
    match against {
        None => text.push_str("empty")?,
        Some(id) => {
            let id = digits(alloc, u64::from(id))?;
            text.push_str("against ")?;
            text.push_str(id.as_str())?;
        }
    }
    text.push_str("\n")?;
    Ok(text)
}

fn last_of(alloc: Global, outcome: &Outcome) -> Result<String, AllocError>
    ensures { IfOk result (λ s. string_bytes s ≡ last_line outcome.now) }
{
    match outcome {
        Outcome::Verified => String::from_str(alloc, "s VERIFIED UNSAT\n"),
        Outcome::RejectedStep { id, cause } => {
            let cause = text_of_cause(alloc, *cause)?;
            rejected_line(alloc, *id, cause.as_str())
        }
        Outcome::RejectedLemma { lemma, against } => rejected_lemma_line(alloc, *lemma, *against),
        Outcome::NoEmptyClause => String::from_str(alloc, "s NO EMPTY CLAUSE\n"),
        Outcome::Usage(kind) => {
            let kind = name_of_usage(*kind);
            format!(in alloc; "e usage {kind}\n")
        }
        Outcome::Text { which, kind, place } => {
            let which = name_of_which(*which);
            let kind = name_of_text(*kind);
            format!(in alloc; "e text {which} {kind} {place}\n")
        }
        Outcome::Limit { which, kind } => {
            let which = name_of_which(*which);
            let kind = name_of_limit(*kind);
            format!(in alloc; "e limit {which} {kind}\n")
        }
        Outcome::SourceFault { which } => {
            let which = name_of_which(*which);
            format!(in alloc; "e source {which}\n")
        }
        Outcome::SinkFault { .. } => Ok(String::new(alloc)),
        Outcome::NoMemory => Ok(String::new(alloc)),
        Outcome::Helped(topic) => help_of(alloc, *topic),
    }
}
