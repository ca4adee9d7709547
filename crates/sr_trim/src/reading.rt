// Reading the formula and the proof.
ghost use Rattle.std.specs.Prelude.{◌≡◌, ◌≤◌, [], IfErr, false};
ghost use Rattle.sr_emit.specs.Status.{is_verified};
ghost use Rattle.sr_trimming.specs.Loading.{going_on, at_start, StopsAfter};
ghost use Rattle.sr_files.specs.Files.{ReadsSlots, ReadsFiles, GivesFile};
ghost use Rattle.sr_trim.specs.Said.{trim_said};
ghost use Rattle.sr_trim.specs.Deciding.{loading};
ghost use Rattle.sr_trim.specs.Lines.{LoadsProof, LoadsClauses, LoadsFiles, HasErrCause, HasLoadCause};

use crate::loading::load_lines;
use crate::words::TrimWords;
use sr_base::{LimitKind, Limits, Which};
use sr_desk::Desk;
use sr_emit::Outcome;
use sr_files::{load_formula, open_file, outcome_of};
use sr_load::{LoadError, Loader, Progress};
use sr_wit::Formula;
use std::alloc::Global;

/// Loads the proof of a file, over a formula that doesn't conflict by itself.
fn load_proof<D: Desk>(
    alloc: Global,
    limits: &Limits,
    words: &TrimWords<'_>,
    loader: Loader,
    desk: &mut D,
) -> Result<Loader, Outcome>
    requires begun { (D.outside desk.old).begun ≡ 1 }
    requires fresh { loader ≡ loading limits.now (trim_said words.now) loader.formula [] }
    requires going { StopsAfter (at_start loader.formula.clauses) [] going_on }
    ensures loads { LoadsProof limits.now (trim_said words.now) loader.formula (D.outside desk.new) result }
    ensures slots { ReadsSlots 2 (D.outside desk.old) (D.outside desk.new) }
    ensures file { GivesFile 1 words.now.proof.now (D.outside desk.old) (D.outside desk.new) }
    ensures cause { HasErrCause Which.Proof 1 (D.outside desk.old) (D.outside desk.new) result }
    ensures unverified { IfErr result (λ o. is_verified o ≡ false) }
{
    match open_file(alloc, limits, desk, words.proof) {
        Err(error) => Err(outcome_of(Which::Proof, error)),
        Ok(reader) => load_lines(alloc, limits, words, loader, reader, desk),
    }
}

/// Loads a formula, and the proof of a file where it doesn't conflict by itself.
fn load_clauses<D: Desk>(
    alloc: Global,
    limits: &Limits,
    words: &TrimWords<'_>,
    formula: Formula,
    desk: &mut D,
) -> Result<Loader, Outcome>
    requires { (D.outside desk.old).begun ≡ 1 }
    ensures loads { LoadsClauses limits.now (trim_said words.now) formula (D.outside desk.new) result }
    ensures slots { ReadsFiles (D.outside desk.old) (D.outside desk.new) }
    ensures file { 2 ≤ (D.outside desk.new).begun → GivesFile 1 words.now.proof.now (D.outside desk.old) (D.outside desk.new) }
    ensures cause { HasLoadCause (D.outside desk.old) (D.outside desk.new) result }
    ensures unverified { IfErr result (λ o. is_verified o ≡ false) }
{
    match Loader::new(alloc, formula, limits, words.keep_units) {
        Ok(loader) => match loader.state() {
            Progress::Conflict => Ok(loader),
            Progress::Going => load_proof(alloc, limits, words, loader, desk),
            Progress::EmptyLemma(_) => unreachable!(),
        },
        Err(LoadError::Cells) => Err(Outcome::Limit {
            which: Which::Formula,
            kind: LimitKind::Cells,
        }),
        Err(LoadError::Ids) => unreachable!(),
        Err(LoadError::NoMemory) => Err(Outcome::NoMemory),
    }
}

/// Loads the formula of one file and the proof of another.
pub fn load_files<D: Desk>(
    alloc: Global,
    limits: &Limits,
    words: &TrimWords<'_>,
    desk: &mut D,
) -> Result<Loader, Outcome>
    requires { (D.outside desk.old).begun ≡ 0 }
    ensures loads { LoadsFiles limits.now (trim_said words.now) (D.outside desk.new) result }
    ensures slots { ReadsFiles (D.outside desk.old) (D.outside desk.new) }
    ensures formula { GivesFile 0 words.now.formula.now (D.outside desk.old) (D.outside desk.new) }
    ensures file { 2 ≤ (D.outside desk.new).begun → GivesFile 1 words.now.proof.now (D.outside desk.old) (D.outside desk.new) }
    ensures cause { HasLoadCause (D.outside desk.old) (D.outside desk.new) result }
    ensures unverified { IfErr result (λ o. is_verified o ≡ false) }
{
    match load_formula(alloc, limits, desk, words.formula) {
        Err(error) => Err(outcome_of(Which::Formula, error)),
        Ok(formula) => load_clauses(alloc, limits, words, formula, desk),
    }
}
