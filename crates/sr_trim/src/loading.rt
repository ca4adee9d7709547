// Loading a proof up to the line at which its clauses conflict.
ghost use Rattle.std.specs.Prelude.{◌≡◌, [], false, IfErr};
ghost use Rattle.sr_emit.specs.Status.{is_verified};
ghost use Rattle.sr_model.specs.Dsr.{LineHasPivot};
ghost use Rattle.sr_trimming.specs.Loading.{going_on, at_start, StopsAfter};
ghost use Rattle.sr_desk.specs.Outside.{OnlyReads};
ghost use Rattle.sr_desk.specs.Next.{Stands};
ghost use Rattle.sr_lemma.specs.Lines.{line_of, clause_told};
ghost use Rattle.sr_trim.specs.Said.{trim_said};
ghost use Rattle.sr_trim.specs.Deciding.{loading};
ghost use Rattle.sr_trim.specs.Lines.{Takes, LoadsTo, HasErrCause};

use crate::words::TrimWords;
use sr_base::{LimitKind, Limits, Which};
use sr_desk::{ByteReader, Desk};
use sr_dsr::{DsrLine, LineReader};
use sr_emit::Outcome;
use sr_files::outcome_of;
use sr_load::{LoadError, Loader, Progress};
use std::alloc::Global;

/// Where loading stands after a line.
#[derive(Clone, Copy, Debug, PartialEq, Eq)]
pub enum Taken {
    Going,
    /// The clauses conflict.
    Conflict,
    /// The line ends loading with an outcome.
    Ended(Outcome),
}

/// Takes a line.
pub fn take_line(loader: &mut Loader, line: &mut DsrLine) -> Taken
    requires going { loader.old.stop ≡ going_on }
    requires pivot { LineHasPivot (line_of line.old) }
    ensures takes { Takes loader.old loader.new (line_of line.old) result }
    ensures clause { clause_told (line_of line.new) ≡ clause_told (line_of line.old) }
{
    match loader.line(line) {
        Ok(Progress::Going) => Taken::Going,
        Ok(Progress::Conflict) => Taken::Conflict,
        Ok(Progress::EmptyLemma(lemma)) => Taken::Ended(Outcome::RejectedLemma {
            lemma,
            against: None,
        }),
        Err(LoadError::Ids) => Taken::Ended(Outcome::Limit {
            which: Which::Proof,
            kind: LimitKind::Ids,
        }),
        Err(LoadError::Cells) => Taken::Ended(Outcome::Limit {
            which: Which::Proof,
            kind: LimitKind::Cells,
        }),
        Err(LoadError::NoMemory) => Taken::Ended(Outcome::NoMemory),
    }
}

/// Loads the lines of a proof up to the one at which the clauses conflict, or tells what ends loading before.
pub fn load_lines<D: Desk>(
    alloc: Global,
    limits: &Limits,
    words: &TrimWords<'_>,
    loader: Loader,
    reader: ByteReader,
    desk: &mut D,
) -> Result<Loader, Outcome>
    requires stands { Stands reader (D.outside desk.old) }
    requires fresh { loader ≡ loading limits.now (trim_said words.now) loader.formula [] }
    requires going { StopsAfter (at_start loader.formula.clauses) [] going_on }
    ensures loads { LoadsTo limits.now (trim_said words.now) loader.formula reader (D.outside desk.new) result }
    ensures only { OnlyReads reader.slot (D.outside desk.old) (D.outside desk.new) }
    ensures cause { HasErrCause Which.Proof reader.slot (D.outside desk.old) (D.outside desk.new) result }
    ensures unverified { IfErr result (λ o. is_verified o ≡ false) }
{
    let Ok(mut lines) = LineReader::new(alloc, words.proof_form, reader) else {
        return Err(Outcome::NoMemory);
    };
    let mut loader = loader;
    'lines: loop {
        match lines.next(desk, limits) {
            Err(error) => return Err(outcome_of(Which::Proof, error)),
            Ok(None) => return Err(Outcome::NoEmptyClause),
            Ok(Some(line)) => {
                let mut line = line;
                match take_line(&mut loader, &mut line) {
                    Taken::Ended(outcome) => return Err(outcome),
                    Taken::Conflict => return Ok(loader),
                    Taken::Going => lines.reuse(line),
                }
            }
        }
    }
}
