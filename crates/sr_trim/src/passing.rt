// The pass back through a loaded proof, and what is written of it.
ghost use Rattle.std.specs.Prelude.{◌≡◌, ◌≤◌, IfOk};
ghost use Rattle.sr_trimming.specs.Loading.{at_conflict};
ghost use Rattle.sr_load.specs.Loaded.{IsLoaded};
ghost use Rattle.sr_load.specs.Loading.{lemmas_in, passed_in};
ghost use Rattle.sr_trim.specs.Said.{trim_said};
ghost use Rattle.sr_trim.specs.Deciding.{loading};
ghost use Rattle.sr_trim.specs.Passing.{PreparesTo, PassesTo};
ghost use Rattle.sr_trim.specs.Reporting.{IsWanted, HasReport};

use crate::ready::{Ready, prepare};
use crate::reporting::Wanted;
use crate::trim::{Trimmed, without_counts};
use crate::words::TrimWords;
use crate::writing::write_files;
use sr_back::{Back, backward};
use sr_base::Limits;
use sr_desk::Desk;
use sr_emit::Outcome;
use sr_load::{Loaded, Loader};
use std::alloc::Global;

/// Passes back through a loaded proof of so many lemmas and deletions of nothing, and makes ready what is to be written.
fn make_ready<L: Loaded>(
    alloc: Global,
    limits: &Limits,
    words: &TrimWords<'_>,
    loaded: &mut L,
    lemmas: u32,
    passed: u64,
    wanted: Wanted,
) -> Result<Ready, Outcome>
    requires loaded { IsLoaded (L.state loaded.old) }
    requires lemmas { lemmas ≡ lemmas_in (L.state loaded.old).standing }
    requires passed { passed ≡ passed_in (L.state loaded.old).standing }
    ensures prepares { PreparesTo limits.now (trim_said words.now) (L.state loaded.old) (L.state loaded.new) result }
    ensures report { IfOk result (λ r. IsWanted wanted r.counts r.report) }
{
    match backward(alloc, loaded) {
        Err(_) => Err(Outcome::NoMemory),
        Ok(Back::Failed { lemma, against }) => Err(Outcome::RejectedLemma {
            lemma,
            against: Some(against),
        }),
        Ok(Back::Done(steps)) => prepare(
            alloc, limits, words, loaded, steps, lemmas, passed, wanted,
        ),
    }
}

/// Passes back through a loaded proof of so many lemmas and deletions of nothing, and writes what is asked for.
fn pass_back<L: Loaded, D: Desk>(
    alloc: Global,
    limits: &Limits,
    words: &TrimWords<'_>,
    loaded: &mut L,
    lemmas: u32,
    passed: u64,
    wanted: Wanted,
    desk: &mut D,
) -> Trimmed
    requires begun { (D.outside desk.old).begun ≤ 6 }
    requires loaded { IsLoaded (L.state loaded.old) }
    requires lemmas { lemmas ≡ lemmas_in (L.state loaded.old).standing }
    requires passed { passed ≡ passed_in (L.state loaded.old).standing }
    ensures passes { PassesTo limits.now (trim_said words.now) (L.state loaded.old).formula (L.state loaded.old).standing
        (D.outside desk.old) (D.outside desk.new) result.outcome result.counts }
    ensures report { HasReport wanted result.outcome result.counts result.report }
{
    let mut ready = match make_ready(alloc, limits, words, loaded, lemmas, passed, wanted) {
        Ok(ready) => ready,
        Err(outcome) => return without_counts(alloc, outcome),
    };
    let outcome = write_files(desk, words, loaded, &mut ready);
    Trimmed {
        outcome,
        counts: ready.counts,
        report: ready.report,
    }
}

/// Passes back through what was loaded, and writes what is asked for.
pub fn pass<D: Desk>(
    alloc: Global,
    limits: &Limits,
    words: &TrimWords<'_>,
    loader: Loader,
    wanted: Wanted,
    desk: &mut D,
) -> Trimmed
    requires begun { (D.outside desk.old).begun ≤ 6 }
    requires conflict { loader ≡ record (loading limits.now (trim_said words.now) loader.formula loader.done) { stop = at_conflict } }
    ensures passes { PassesTo limits.now (trim_said words.now) loader.formula loader.done
        (D.outside desk.old) (D.outside desk.new) result.outcome result.counts }
    ensures report { HasReport wanted result.outcome result.counts result.report }
{
    let lemmas = loader.lemmas();
    let passed = loader.passed();
    let Ok(mut loaded) = loader.finish() else {
        return without_counts(alloc, Outcome::NoMemory);
    };
    pass_back(
        alloc,
        limits,
        words,
        &mut loaded,
        lemmas,
        passed,
        wanted,
        desk,
    )
}
