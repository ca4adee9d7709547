// Reading lines.
//
// A line is read into a list of literals that is kept from line to line, so that a line takes no memory of its own until
// it is made of them.
ghost use Rattle.std.specs.Prelude.{◌≡◌, ◌≢◌, IfOk, OnSome};
ghost use Rattle.sr_base.specs.declared.names.Form.TheVariants.{Text, Binary};
ghost use Rattle.sr_desk.specs.Next.{Stands, Reads, ForContents};
ghost use Rattle.sr_model.specs.Dsr.{LineHasPivot};
ghost use Rattle.sr_scan.specs.Left.{is_fault};
ghost use Rattle.sr_lemma.specs.Lines.{line_of};
ghost use Rattle.sr_dsr.specs.Gives.{MakesLine, ReadsTextLemma, ReadsBehind, ReadsBegun, ReadsLine, TakesSome};

use sr_base::{Clause, Form, InputError, Limits, LitList, TextKind};
use sr_desk::{ByteReader, Desk};
use sr_lemma::{DsrLine, Lemma, read_all_literals, read_literals};
use sr_model::{Token, Word};
use sr_scan::next_token;
use std::alloc::Global;

/// What a line does with the clause of its literals.
#[derive(Clone, Copy, Debug, PartialEq, Eq)]
pub(crate) enum LineKind {
    /// It adds it. The literals behind the second occurrence of the first one are those of a witness.
    Lemma,
    /// It deletes the clause of all its literals.
    Deletion,
}

/// A line without its literals: what it does with them, and the place of the `0` that ends them.
#[derive(Clone, Copy, Debug, PartialEq, Eq)]
pub(crate) struct LineFrame {
    pub kind: LineKind,
    pub end: u64,
}

/// The lemma of a text of which the first token was read.
fn read_text_lemma<D: Desk>(
    first: Token,
    lits: &mut LitList,
    reader: &mut ByteReader,
    desk: &mut D,
    limits: &Limits,
) -> Result<LineFrame, InputError>
    requires { Stands reader.old (D.outside desk.old) }
    ensures frame { ForContents reader.new (D.outside desk.new)
        (λ c. ReadsTextLemma limits.now first reader.old reader.new c lits.new result) }
    ensures reads { Reads reader.old reader.new (D.outside desk.old) (D.outside desk.new) (is_fault result) }
{
    match read_literals(Form::Text, limits.vars(), first, lits, reader, desk) {
        Ok(end) => Ok(LineFrame {
            kind: LineKind::Lemma,
            end,
        }),
        Err(error) => Err(error),
    }
}

/// The line of this kind behind what tells it.
fn read_behind<D: Desk>(
    form: Form,
    kind: LineKind,
    lits: &mut LitList,
    reader: &mut ByteReader,
    desk: &mut D,
    limits: &Limits,
) -> Result<LineFrame, InputError>
    requires { Stands reader.old (D.outside desk.old) }
    ensures frame { ForContents reader.new (D.outside desk.new)
        (λ c. ReadsBehind form kind limits.now reader.old reader.new c lits.new result) }
    ensures reads { Reads reader.old reader.new (D.outside desk.old) (D.outside desk.new) (is_fault result) }
{
    match read_all_literals(form, limits.vars(), lits, reader, desk) {
        Ok(end) => Ok(LineFrame { kind, end }),
        Err(error) => Err(error),
    }
}

fn misplaced(token: Token) -> InputError
    ensures { result ≡ InputError.Text TextKind.BadWord token.place }
{
    InputError::Text {
        kind: TextKind::BadWord,
        place: token.place,
    }
}

/// The line of a text that a token begins: a number a lemma, and `d` a deletion.
fn text_frame<D: Desk>(
    token: Token,
    lits: &mut LitList,
    reader: &mut ByteReader,
    desk: &mut D,
    limits: &Limits,
) -> Result<LineFrame, InputError>
    requires stands { Stands reader.old (D.outside desk.old) }
    requires some { token.word ≢ Word.End }
    ensures frame { ForContents reader.new (D.outside desk.new)
        (λ c. ReadsBegun Text limits.now token reader.old reader.new c lits.new result) }
    ensures reads { Reads reader.old reader.new (D.outside desk.old) (D.outside desk.new) (is_fault result) }
{
    match token.word {
        Word::Number(_) => read_text_lemma(token, lits, reader, desk, limits),
        Word::Del => read_behind(Form::Text, LineKind::Deletion, lits, reader, desk, limits),
        _ => Err(misplaced(token)),
    }
}

/// The line of a binary file that a token begins.
fn binary_frame<D: Desk>(
    token: Token,
    lits: &mut LitList,
    reader: &mut ByteReader,
    desk: &mut D,
    limits: &Limits,
) -> Result<LineFrame, InputError>
    requires stands { Stands reader.old (D.outside desk.old) }
    requires some { token.word ≢ Word.End }
    ensures frame { ForContents reader.new (D.outside desk.new)
        (λ c. ReadsBegun Binary limits.now token reader.old reader.new c lits.new result) }
    ensures reads { Reads reader.old reader.new (D.outside desk.old) (D.outside desk.new) (is_fault result) }
{
    match token.word {
        Word::Add => read_behind(Form::Binary, LineKind::Lemma, lits, reader, desk, limits),
        Word::Del => read_behind(Form::Binary, LineKind::Deletion, lits, reader, desk, limits),
        _ => Err(misplaced(token)),
    }
}

/// The line that a token begins, in either form.
fn begun_frame<D: Desk>(
    form: Form,
    token: Token,
    lits: &mut LitList,
    reader: &mut ByteReader,
    desk: &mut D,
    limits: &Limits,
) -> Result<LineFrame, InputError>
    requires stands { Stands reader.old (D.outside desk.old) }
    requires some { token.word ≢ Word.End }
    ensures frame { ForContents reader.new (D.outside desk.new)
        (λ c. ReadsBegun form limits.now token reader.old reader.new c lits.new result) }
    ensures reads { Reads reader.old reader.new (D.outside desk.old) (D.outside desk.new) (is_fault result) }
{
    match form {
        Form::Text => text_frame(token, lits, reader, desk, limits),
        Form::Binary => binary_frame(token, lits, reader, desk, limits),
    }
}

/// The next line of a proof by lemmas, whose literals as they are written take the place of those in the list; none where
/// only white space and comments are left (text) or nothing (binary). The line is made of them later, which finds the
/// faults of a whole lemma. No memory is taken but what the list needs to grow.
pub(crate) fn read_line<D: Desk>(
    form: Form,
    lits: &mut LitList,
    reader: &mut ByteReader,
    desk: &mut D,
    limits: &Limits,
) -> Result<Option<LineFrame>, InputError>
    requires { Stands reader.old (D.outside desk.old) }
    ensures frame { ForContents reader.new (D.outside desk.new) (λ c. ReadsLine form limits.now reader.old reader.new c lits.new result) }
    ensures takes { IfOk result (λ o. OnSome o (TakesSome reader.old reader.new)) }
    ensures reads { Reads reader.old reader.new (D.outside desk.old) (D.outside desk.new) (is_fault result) }
{
    let token = match next_token(form, true, reader, desk) {
        Ok(token) => token,
        Err(error) => return Err(error),
    };
    match token.word {
        Word::End => Ok(None),
        _ => match begun_frame(form, token, lits, reader, desk, limits) {
            Ok(frame) => Ok(Some(frame)),
            Err(error) => Err(error),
        },
    }
}

/// The line of its frame and its literals as they are written. A lemma's witness has the first literal of its clause as
/// its pivot.
///
/// # Errors
///
/// `Text` with the place of the frame, for a lemma: `OddMap` where a literal behind the third pivot is left over, or else
/// `Twice` where a variable gets two different images.
pub(crate) fn make_line(
    alloc: Global,
    frame: LineFrame,
    lits: LitList,
) -> Result<DsrLine, InputError>
    ensures line { MakesLine frame lits result }
    ensures pivot { IfOk result (λ l. LineHasPivot (line_of l)) }
{
    match frame.kind {
        LineKind::Lemma => {
            let lemma = Lemma::from_literals(alloc, lits, frame.end)?;
            Ok(DsrLine::Add(lemma))
        }
        LineKind::Deletion => match Clause::from_list(alloc, lits) {
            Ok(clause) => Ok(DsrLine::Del(clause)),
            Err(_) => Err(InputError::NoMemory),
        },
    }
}
