// The sentences that say what is wrong, without their full stops.
ghost use Rattle.std.specs.Prelude.{◌≡◌};
ghost use Rattle.sr_emit.specs.Sentences.{flaw_sentence, text_sentence, limit_sentence, cause_sentence, lemma_sentence, end_sentence, source_sentence};

use crate::report::Command;
use crate::topic::Flaw;
use sr_base::{Cause, ClauseId, LimitKind, TextKind};

/// What is wrong with the words.
#[tactic(auto, unfolding(crate::specs::Sentences::flaw_sentence))]
pub(crate) fn about_flaw(flaw: Flaw) -> &'static str
    ensures { result.now ≡ flaw_sentence flaw }
{
    match flaw {
        Flaw::NoCommand => "no command is given: these are check, trim, demo and help",
        Flaw::UnknownCommand => {
            "the first word is no command of sr: these are check, trim, demo and help"
        }
        Flaw::UnknownWord => "the command doesn't know a word or an option, or a word is spare",
        Flaw::MissingWord => "a word that the command needs is missing",
        Flaw::Repeated => "an option is given twice",
        Flaw::MissingValue => "an option lacks its value",
        Flaw::SpareValue => "an option that takes no value has one",
        Flaw::BadForm => "the name of a form is text or binary",
        Flaw::BadHoles => "N is a number from 2 to 60",
        Flaw::SameName => "two of the files have one name",
    }
}

/// What is wrong with a file's text.
#[tactic(auto, unfolding(crate::specs::Sentences::text_sentence))]
pub(crate) fn about_text(kind: TextKind) -> &'static str
    ensures { result.now ≡ text_sentence kind }
{
    match kind {
        TextKind::BadNumber => {
            "a number is wanted here, and this is none or one that can't stand here"
        }
        TextKind::BadWord => "this word can't stand here",
        TextKind::Unended => "it ends in the middle of a clause or an item",
        TextKind::TooWide => "a number here is above what the format allows",
        TextKind::NoHeader => {
            "a formula begins with a header such as p cnf 2 3, and this one does not"
        }
        TextKind::AboveHeader => "a variable here is above the number of variables in the header",
        TextKind::WrongCount => "it has more or fewer clauses than its header says",
        TextKind::OddMap => {
            "a witness that maps variables ends here, and its last literal has no image"
        }
        TextKind::Twice => {
            "a witness that maps variables ends here, and one variable has two images"
        }
    }
}

/// Which limit is passed.
#[tactic(auto, unfolding(crate::specs::Sentences::limit_sentence))]
pub(crate) fn about_limit(kind: LimitKind) -> &'static str
    ensures { result.now ≡ limit_sentence kind }
{
    match kind {
        LimitKind::Vars => "it passes the limit of variables",
        LimitKind::Ids => "it passes the limit of numbers of clauses",
        LimitKind::Cells => "it passes the limit of memory for clauses",
        LimitKind::Bytes => "it passes the limit of bytes of a file",
    }
}

/// Which rule an item of a proof with hints breaks.
#[tactic(auto, unfolding(crate::specs::Sentences::cause_sentence))]
pub(crate) fn about_cause(cause: Cause) -> &'static str
    ensures { result.now ≡ cause_sentence cause }
{
    match cause {
        Cause::NotNew => {
            "the number of a step has to be above all numbers of clauses before it, and this one's isn't"
        }
        Cause::DeadHint(_) => "a hint has to name a clause that is live, and this one's isn't",
        Cause::NotUnit(_) => {
            "a hint has to name a clause of which all literals but one are false by then, and two or more of this one's aren't"
        }
        Cause::Unclosed => {
            "the hints of a step with the empty clause have to end in a conflict, and these don't"
        }
        Cause::GroupUnclosed(_) => {
            "the hints for a clause that the witness changes have to end in a conflict, and these don't"
        }
        Cause::HintAfter(_) => {
            "under strict checking no hint may stand after the conflict, and one does"
        }
        Cause::GroupSpare(_) => {
            "under strict checking a group has to be for a clause that needs one, and this one's doesn't"
        }
        Cause::GroupTwice(_) => {
            "under strict checking a clause may have one group, and this one has a second"
        }
        Cause::DeadDrop(_) => {
            "under strict checking a deletion has to name clauses that are live, and one of these isn't"
        }
    }
}

/// Why a lemma is rejected: against a clause, or without one.
#[tactic(auto, unfolding(crate::specs::Sentences::lemma_sentence))]
pub(crate) fn about_lemma(against: Option<ClauseId>) -> &'static str
    ensures { result.now ≡ lemma_sentence against }
{
    match against {
        Some(_) =>
            "a lemma that the refutation needs isn't redundant: the clause that is named shows it",
        None =>
            "an empty lemma comes where unit propagation over the clauses before it finds no conflict",
    }
}

/// What is missing where a proof ends.
#[tactic(auto, unfolding(crate::specs::Sentences::end_sentence))]
pub(crate) fn about_end(command: Command) -> &'static str
    ensures { result.now ≡ end_sentence command }
{
    match command {
        Command::Check => "it ends, and no step has the empty clause",
        _ => "it ends before unit propagation finds a conflict",
    }
}

/// Why a file gives nothing.
#[tactic(auto, unfolding(crate::specs::Sentences::source_sentence))]
pub(crate) fn about_source() -> &'static str
    ensures { result.now ≡ source_sentence }
{
    "it can't be opened or read"
}
