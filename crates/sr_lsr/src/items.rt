// Items of a proof by hints.
ghost use Rattle.std.specs.Prelude.{◌≢◌, IfOk, IfSome, OnSome};
ghost use Rattle.sr_desk.specs.Next.{Stands, Reads, ForContents};
ghost use Rattle.sr_model.specs.LsrBinary.{item_in};
ghost use Rattle.sr_scan.specs.Left.{tokens_left, is_fault};
ghost use Rattle.sr_lsr.specs.Reads.{FinishesStep, ReadsTextStep, ReadsNumbered, ReadsTextItem, ReadsLiterals, ReadsBinaryStep, ReadsBinaryItem, ReadsBegun, GivesSomeFrom, TakesSome};
ghost use Rattle.sr_lsr.specs.Frames.{told, some_told, IsSmallFrame};
ghost use Rattle.sr_lsr.specs.Written.{IsSmall};

use crate::drops::read_drop;
use crate::hints::read_hints;
use crate::lists::{ItemFrame, ItemLists};
use crate::sizes::size_within;
use sr_base::{Form, InputError, Limits, TextKind};
use sr_desk::{ByteReader, Desk};
use sr_lemma::{read_all_literals, read_literals};
use sr_model::{Token, Word};
use sr_scan::{misplaced, next_token};

/// The step whose number and literals were read.
fn finish_step<D: Desk>(
    form: Form,
    id: u32,
    end: u64,
    lists: &mut ItemLists,
    reader: &mut ByteReader,
    desk: &mut D,
    limits: &Limits,
) -> Result<ItemFrame, InputError>
    requires stands { Stands reader.old (D.outside desk.old) }
    requires id { IsSmall id }
    ensures item { ForContents reader.new (D.outside desk.new)
        (λ c. FinishesStep form limits.now id lists.old.lits end reader.old reader.new c (told lists.new result)) }
    ensures small { IfOk result (λ f. IsSmallFrame f lists.new) }
    ensures reads { Reads reader.old reader.new (D.outside desk.old) (D.outside desk.new) (is_fault result) }
{
    match read_hints(form, limits.ids(), &mut lists.hints, reader, desk) {
        Ok(()) => Ok(ItemFrame::Step { id, end }),
        Err(error) => Err(error),
    }
}

/// The step of a text whose number and first literal were read.
fn read_text_step<D: Desk>(
    id: u32,
    first: Token,
    lists: &mut ItemLists,
    reader: &mut ByteReader,
    desk: &mut D,
    limits: &Limits,
) -> Result<ItemFrame, InputError>
    requires stands { Stands reader.old (D.outside desk.old) }
    requires id { IsSmall id }
    ensures item { ForContents reader.new (D.outside desk.new)
        (λ c. ReadsTextStep limits.now id first reader.old reader.new c (told lists.new result)) }
    ensures small { IfOk result (λ f. IsSmallFrame f lists.new) }
    ensures reads { Reads reader.old reader.new (D.outside desk.old) (D.outside desk.new) (is_fault result) }
{
    match read_literals(
        Form::Text,
        limits.vars(),
        first,
        &mut lists.lits,
        reader,
        desk,
    ) {
        Ok(end) => finish_step(Form::Text, id, end, lists, reader, desk, limits),
        Err(error) => Err(error),
    }
}

/// The item of a text whose number was read, from this place.
fn read_numbered<D: Desk>(
    id: u32,
    place: u64,
    lists: &mut ItemLists,
    reader: &mut ByteReader,
    desk: &mut D,
    limits: &Limits,
) -> Result<ItemFrame, InputError>
    requires stands { Stands reader.old (D.outside desk.old) }
    requires id { IsSmall id }
    ensures item { ForContents reader.new (D.outside desk.new)
        (λ c. ReadsNumbered limits.now id place reader.old reader.new c (told lists.new result)) }
    ensures small { IfOk result (λ f. IsSmallFrame f lists.new) }
    ensures reads { Reads reader.old reader.new (D.outside desk.old) (D.outside desk.new) (is_fault result) }
{
    let token = match next_token(Form::Text, false, reader, desk) {
        Ok(token) => token,
        Err(error) => return Err(error),
    };
    match token.word {
        Word::Del => read_drop(Form::Text, limits.ids(), id, lists, reader, desk),
        Word::Number(_) => {
            if id == 0 {
                return Err(InputError::Text {
                    kind: TextKind::BadNumber,
                    place,
                });
            }
            read_text_step(id, token, lists, reader, desk, limits)
        }
        _ => Err(InputError::Text {
            kind: misplaced(&token.word),
            place: token.place,
        }),
    }
}

/// The item of a text that a token begins: a number.
fn text_item<D: Desk>(
    token: Token,
    lists: &mut ItemLists,
    reader: &mut ByteReader,
    desk: &mut D,
    limits: &Limits,
) -> Result<ItemFrame, InputError>
    requires stands { Stands reader.old (D.outside desk.old) }
    requires some { token.word ≢ Word.End }
    ensures item { ForContents reader.new (D.outside desk.new)
        (λ c. ReadsTextItem limits.now token reader.old reader.new c (told lists.new result)) }
    ensures small { IfOk result (λ f. IsSmallFrame f lists.new) }
    ensures reads { Reads reader.old reader.new (D.outside desk.old) (D.outside desk.new) (is_fault result) }
{
    match token.word {
        Word::Number(x) => match size_within(x, limits.ids(), token.place) {
            Ok(id) => read_numbered(id, token.place, lists, reader, desk, limits),
            Err(error) => Err(error),
        },
        _ => Err(InputError::Text {
            kind: TextKind::BadWord,
            place: token.place,
        }),
    }
}

/// The step of a binary file whose number was read.
fn read_binary_literals<D: Desk>(
    id: u32,
    lists: &mut ItemLists,
    reader: &mut ByteReader,
    desk: &mut D,
    limits: &Limits,
) -> Result<ItemFrame, InputError>
    requires stands { Stands reader.old (D.outside desk.old) }
    requires id { IsSmall id }
    ensures item { ForContents reader.new (D.outside desk.new)
        (λ c. ReadsLiterals limits.now id reader.old reader.new c (told lists.new result)) }
    ensures small { IfOk result (λ f. IsSmallFrame f lists.new) }
    ensures reads { Reads reader.old reader.new (D.outside desk.old) (D.outside desk.new) (is_fault result) }
{
    match read_all_literals(Form::Binary, limits.vars(), &mut lists.lits, reader, desk) {
        Ok(end) => finish_step(Form::Binary, id, end, lists, reader, desk, limits),
        Err(error) => Err(error),
    }
}

/// The step behind the byte that tells it: its number comes first.
fn read_binary_step<D: Desk>(
    lists: &mut ItemLists,
    reader: &mut ByteReader,
    desk: &mut D,
    limits: &Limits,
) -> Result<ItemFrame, InputError>
    requires { Stands reader.old (D.outside desk.old) }
    ensures item { ForContents reader.new (D.outside desk.new)
        (λ c. ReadsBinaryStep limits.now reader.old reader.new c (told lists.new result)) }
    ensures small { IfOk result (λ f. IsSmallFrame f lists.new) }
    ensures reads { Reads reader.old reader.new (D.outside desk.old) (D.outside desk.new) (is_fault result) }
{
    let token = match next_token(Form::Binary, false, reader, desk) {
        Ok(token) => token,
        Err(error) => return Err(error),
    };
    let Word::Number(x) = token.word else {
        return Err(InputError::Text {
            kind: misplaced(&token.word),
            place: token.place,
        });
    };
    let id = match size_within(x, limits.ids(), token.place) {
        Ok(id) => id,
        Err(error) => return Err(error),
    };
    if id == 0 {
        return Err(InputError::Text {
            kind: TextKind::BadNumber,
            place: token.place,
        });
    }
    read_binary_literals(id, lists, reader, desk, limits)
}

/// The item of a binary file that a token begins. A deletion has no number, and is given the number 0.
fn binary_item<D: Desk>(
    token: Token,
    lists: &mut ItemLists,
    reader: &mut ByteReader,
    desk: &mut D,
    limits: &Limits,
) -> Result<ItemFrame, InputError>
    requires stands { Stands reader.old (D.outside desk.old) }
    requires some { token.word ≢ Word.End }
    ensures item { ForContents reader.new (D.outside desk.new)
        (λ c. ReadsBinaryItem limits.now token reader.old reader.new c (told lists.new result)) }
    ensures small { IfOk result (λ f. IsSmallFrame f lists.new) }
    ensures reads { Reads reader.old reader.new (D.outside desk.old) (D.outside desk.new) (is_fault result) }
{
    match token.word {
        Word::Add => read_binary_step(lists, reader, desk, limits),
        Word::Del => read_drop(Form::Binary, limits.ids(), 0, lists, reader, desk),
        _ => Err(InputError::Text {
            kind: TextKind::BadWord,
            place: token.place,
        }),
    }
}

/// The item that a token begins, in either form.
fn begun_item<D: Desk>(
    form: Form,
    token: Token,
    lists: &mut ItemLists,
    reader: &mut ByteReader,
    desk: &mut D,
    limits: &Limits,
) -> Result<ItemFrame, InputError>
    requires stands { Stands reader.old (D.outside desk.old) }
    requires some { token.word ≢ Word.End }
    ensures item { ForContents reader.new (D.outside desk.new)
        (λ c. ReadsBegun form limits.now token reader.old reader.new c (told lists.new result)) }
    ensures small { IfOk result (λ f. IsSmallFrame f lists.new) }
    ensures reads { Reads reader.old reader.new (D.outside desk.old) (D.outside desk.new) (is_fault result) }
{
    match form {
        Form::Text => text_item(token, lists, reader, desk, limits),
        Form::Binary => binary_item(token, lists, reader, desk, limits),
    }
}

/// The next item of a proof by hints, whose lists take the place of those that are there; none where only white space and
/// comments are left (text) or nothing (binary). The item is made of them later, which finds the faults of a whole step. No
/// memory is taken but what a list needs to grow.
pub(crate) fn read_item<D: Desk>(
    form: Form,
    lists: &mut ItemLists,
    reader: &mut ByteReader,
    desk: &mut D,
    limits: &Limits,
) -> Result<Option<ItemFrame>, InputError>
    requires { Stands reader.old (D.outside desk.old) }
    ensures item { ForContents reader.new (D.outside desk.new)
        (λ c. GivesSomeFrom (item_in form limits.now (tokens_left form 2 0 reader.old c)) (tokens_left form 2 0 reader.new c)
        (some_told lists.new result)) }
    ensures takes { IfOk result (λ o. OnSome o (TakesSome reader.old reader.new)) }
    ensures small { IfOk result (λ o. IfSome o (λ f. IsSmallFrame f lists.new)) }
    ensures reads { Reads reader.old reader.new (D.outside desk.old) (D.outside desk.new) (is_fault result) }
{
    let token = match next_token(form, true, reader, desk) {
        Ok(token) => token,
        Err(error) => return Err(error),
    };
    match token.word {
        Word::End => Ok(None),
        _ => match begun_item(form, token, lists, reader, desk, limits) {
            Ok(frame) => Ok(Some(frame)),
            Err(error) => Err(error),
        },
    }
}
