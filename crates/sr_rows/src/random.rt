// Random small proofs, trimmed, beside the plain definitions of `reference`: where loading stops, which lemmas may be named, and
// that what is written is verified.
ghost use Rattle.std.specs.Prelude.{◌≡◌};
ghost use Rattle.sr_desk.specs.MemoryView.{outside_of};

use crate::case::{desk_of, last_line, status_of};
use crate::generator::{Sample, Stop};
use crate::reference::{Entry, has_rup, is_unsatisfiable, stands_against};
use crate::trims::is_verified;
use sr_base::Limits;
use sr_desk::MemoryDesk;
use std::alloc::Global;
use std::test::Fail;

/// How many of the samples were answered in which way, and how many deletions were passed over in those that are verified.
#[derive(Clone, Copy)]
struct Tally {
    alone: u32,
    verified: u32,
    rejected: u32,
    unended: u32,
    empty: u32,
    passed: u32,
}

/// Whether a report names this lemma and this clause.
fn is_named(alloc: Global, report: &str, lemma: u32, against: u32) -> Result<bool, Fail> {
    let wanted = format!(in alloc; "s REJECTED lemma {lemma} against {against}\n")?;
    Ok(report == wanted.as_str())
}

/// Whether a report names this lemma and a clause that stands against it.
fn is_named_with_reason(
    alloc: Global,
    entries: &[Entry],
    lemma: &Entry,
    id: u32,
    report: &str,
) -> Result<bool, Fail> {
    let mut against = 0u32;
    for other in entries {
        against = against.wrapping_add(1);
        if stands_against(entries, lemma, other) && is_named(alloc, report, id, against)? {
            return Ok(true);
        }
    }
    Ok(false)
}

/// Whether a report names a lemma that fails, and a clause that stands against it.
fn is_rejection(alloc: Global, entries: &[Entry], report: &str) -> Result<bool, Fail> {
    let mut id = 0u32;
    for lemma in entries {
        id = id.wrapping_add(1);
        let fails = lemma.born > 0 && !has_rup(entries, lemma);
        if fails && is_named_with_reason(alloc, entries, lemma, id, report)? {
            return Ok(true);
        }
    }
    Ok(false)
}

/// Whether the statistics of a verified sample are right.
fn is_counted(alloc: Global, sample: &Sample, report: &str) -> Result<bool, Fail> {
    let clauses = sample.clauses;
    let lemmas = sample.lemmas;
    let passed = sample.passed;
    let head = format!(in alloc; "c clauses {clauses}\nc core ")?;
    let middle = format!(in alloc; "\nc lemmas {lemmas}\nc steps ")?;
    let tail = format!(in alloc; "\nc passed {passed}\ns VERIFIED UNSAT\n")?;
    Ok(
        report.starts_with(head.as_str())
            && report.contains(middle.as_str())
            && report.ends_with(tail.as_str()),
    )
}

/// The clause of a number.
fn entry_of(sample: &Sample, number: i64) -> Option<Entry> {
    let i = usize::try_from(number.wrapping_sub(1)).ok()?;
    sample.entries.get(i).copied()
}

/// Whether a clause was alive before the line of a lemma, or at the stop for the step of the empty clause.
fn is_alive_before(sample: &Sample, lemma: i64, number: i64) -> bool {
    let lines = match entry_of(sample, lemma) {
        Some(entry) => entry.born.saturating_sub(1),
        None => sample.lines,
    };
    match entry_of(sample, number.wrapping_abs()) {
        Some(entry) => entry.is_alive(lines),
        None => false,
    }
}

/// Whether a line of a proof by hints, where it is a step, names only clauses that were alive before its lemma's line.
fn names_alive(sample: &Sample, line: &str) -> bool {
    let mut lemma = 0i64;
    let mut lists = 0u32;
    for word in line.split_ascii_whitespace() {
        let number = word.parse::<i64>().unwrap_or(0);
        if word == "d" {
            return true;
        } else if lemma == 0 {
            lemma = number;
        } else if number == 0 {
            lists = lists.wrapping_add(1);
        } else if lists == 1 && !is_alive_before(sample, lemma, number) {
            return false;
        }
    }
    true
}

fn all_name_alive(sample: &Sample, lsr: &[u8]) -> bool {
    let text = str::from_utf8(lsr).unwrap_or("1 0 1 0");
    for line in text.lines() {
        if !names_alive(sample, line) {
            return false;
        }
    }
    true
}

/// The report for an empty lemma.
fn is_empty_lemma(alloc: Global, sample: &Sample, report: &str) -> Result<bool, Fail> {
    let id = sample.clauses.wrapping_add(sample.lemmas);
    let wanted = format!(in alloc; "s REJECTED lemma {id} empty\n")?;
    Ok(report == wanted.as_str())
}

/// Whether a run answers a sample as the plain definitions say.
fn is_answered(alloc: Global, sample: &Sample, status: u8, report: &str) -> Result<bool, Fail> {
    match sample.stop {
        Stop::Nowhere => Ok(status == 1 && report == "s NO EMPTY CLAUSE\n"),
        Stop::AtEmptyLemma => Ok(status == 1 && is_empty_lemma(alloc, sample, report)?),
        Stop::AtConflict => {
            if status == 0 {
                let unsatisfiable = is_unsatisfiable(sample.entries.as_slice());
                Ok(unsatisfiable && is_counted(alloc, sample, report)?)
            } else {
                Ok(status == 1 && is_rejection(alloc, sample.entries.as_slice(), report)?)
            }
        }
    }
}

/// Trims a sample.
fn run(alloc: Global, sample: &Sample, desk: &mut MemoryDesk) -> Result<u8, Fail>
    requires { (outside_of desk.old).begun ≡ 0 }
{
    let words = [
        "trim",
        "f",
        "p",
        "--lsr",
        "l",
        "--core",
        "k",
        "--stats",
        "--keep-units",
    ];
    let count = if sample.keeps_units { 9 } else { 8 };
    status_of(alloc, &Limits::shipped(), &words[..count], desk)
}

/// Fails where the proof by hints isn't verified, or names a clause that wasn't alive.
fn is_proved(alloc: Global, sample: &Sample, seed: u64, desk: &mut MemoryDesk) -> Result<(), Fail> {
    if !all_name_alive(sample, desk.file_bytes("l").unwrap_or(b"1 0 1 0")) {
        return Err(Fail::new(format_args!("sample {seed}: a dead clause")));
    }
    is_verified(alloc, desk, "text")
}

/// Fails where the answer to a sample is wrong, or what is written isn't verified.
fn try_sample(alloc: Global, sample: &Sample, seed: u64, piece: usize) -> Result<u8, Fail> {
    let mut desk = desk_of(alloc, sample.formula.as_str(), sample.proof.as_str(), piece)?;
    let status = run(alloc, sample, &mut desk)?;
    let printed = str::from_utf8(desk.out_bytes()).unwrap_or("no UTF-8");
    let report = if status == 0 {
        printed
    } else {
        last_line(printed)
    };
    if !is_answered(alloc, sample, status, report)? {
        let formula = sample.formula.as_str();
        let proof = sample.proof.as_str();
        return Err(Fail::new(format_args!(
            "sample {seed}: status {status} and {report:?} for {formula:?} and {proof:?}"
        )));
    }
    if status == 0 {
        is_proved(alloc, sample, seed, &mut desk)?;
    }
    Ok(status)
}

fn make_sample(alloc: Global, seed: u64) -> Result<Sample, Fail> {
    let mut sample = Sample::new(alloc, seed, seed % 2 == 0);
    sample.make_formula(alloc)?;
    sample.make_proof()?;
    Ok(sample)
}

fn count(tally: &mut Tally, sample: &Sample, status: u8) {
    let slot = match (sample.stop, status) {
        (Stop::Nowhere, _) => &mut tally.unended,
        (Stop::AtEmptyLemma, _) => &mut tally.empty,
        (Stop::AtConflict, 0) if sample.lines == 0 => &mut tally.alone,
        (Stop::AtConflict, 0) => &mut tally.verified,
        (Stop::AtConflict, _) => &mut tally.rejected,
    };
    *slot = slot.wrapping_add(1);
    if status == 0 {
        tally.passed = tally.passed.wrapping_add(sample.passed);
    }
}

fn try_samples(alloc: Global, seeds: u64, piece: usize, tally: &mut Tally) -> Result<(), Fail> {
    for seed in 0..seeds {
        let sample = make_sample(alloc, seed)?;
        let status = try_sample(alloc, &sample, seed, piece)?;
        count(tally, &sample, status);
    }
    Ok(())
}

#[test]
fn random_proofs_are_answered_as_defined(rt: HostRuntime) -> Result<(), Fail> {
    let mut tally = Tally {
        alone: 0,
        verified: 0,
        rejected: 0,
        unended: 0,
        empty: 0,
        passed: 0,
    };
    try_samples(rt.alloc(), 250, 8, &mut tally)?;
    assert!(rt; tally.verified > 30 && tally.rejected > 2 && tally.unended > 20);
    assert!(rt; tally.alone > 4 && tally.empty > 2 && tally.passed > 10);
    Ok(())
}
