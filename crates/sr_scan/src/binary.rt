// Tokens of binary files.
ghost use Rattle.std.specs.Prelude.{◌≡◌, ℕ, ◌-◌, ◌<◌, ◌≤◌, ◌^◌, true, false, IfOk, IfSome, IfNone};
ghost use Rattle.sr_base.specs.declared.names.Form.TheVariants.{Binary};
ghost use Rattle.sr_desk.specs.Next.{Stands, Reads, ForContents};
ghost use Rattle.sr_model.specs.BinaryTokens.{value_word};
ghost use Rattle.sr_scan.specs.BinaryLeft.{GivesValue, is_value_fault, GivesBinary, GivesFront, TakesNumber, answer_of, item_answer, end_answer};
ghost use Rattle.sr_scan.specs.Left.{is_fault, IsStart, Advances};

use crate::text::stopped;
use crate::value::value_front;
use sr_base::{InputError, LimitKind, TextKind};
use sr_desk::{ByteReader, Desk, ReadError};
use sr_model::{Token, Word};

/// Why no value stands here.
#[derive(Clone, Copy, Debug, PartialEq, Eq)]
pub(crate) enum ValueError {
    Long,
    Ends,
    Limit,
    Fault,
}

/// The value of the next bytes, at most so many, read one by one.
fn read_value<D: Desk>(reader: &mut ByteReader, desk: &mut D, most: u8) -> Result<u128, ValueError>
    requires stands { Stands reader.old (D.outside desk.old) }
    requires ten { most ≤ 10 }
    ensures value { ForContents reader.new (D.outside desk.new) (λ c. GivesValue most reader.old reader.new c result) }
    ensures bound { IfOk result (λ v. v < 128 ^ most) }
    ensures advances { IfOk result (λ _. reader.new.limit - reader.new.taken < reader.old.limit - reader.old.taken) }
    ensures reads { Reads reader.old reader.new (D.outside desk.old) (D.outside desk.new) (is_value_fault result) }
{
    if most == 0 {
        return Err(ValueError::Long);
    }
    match reader.next(desk) {
        Err(ReadError::Fault) => Err(ValueError::Fault),
        Err(ReadError::Limit) => Err(ValueError::Limit),
        Ok(None) => Err(ValueError::Ends),
        Ok(Some(byte)) => {
            if byte < 128 {
                return Ok(u128::from(byte));
            }
            match read_value(reader, desk, most - 1) {
                Ok(rest) => Ok(u128::from(byte - 128) + 128 * rest),
                Err(stop) => Err(stop),
            }
        }
    }
}

/// What a value spells.
fn word_of_value(value: u64) -> Result<Word, TextKind>
    ensures { result ≡ value_word value }
{
    if value == 1 {
        return Err(TextKind::BadNumber);
    }
    let size = (value / 2) as i64;
    if value % 2 == 0 {
        Ok(Word::Number(size))
    } else {
        Ok(Word::Number(-size))
    }
}

/// The token that a value at a place is.
fn number_token(value: u128, place: u64) -> Result<Token, InputError>
    ensures { result ≡ answer_of place (value_word value) }
{
    if value >= 1 << 64 {
        return Err(InputError::Text {
            kind: TextKind::TooWide,
            place,
        });
    }
    match word_of_value(value as u64) {
        Ok(word) => Ok(Token { place, word }),
        Err(kind) => Err(InputError::Text { kind, place }),
    }
}

/// The next number, read byte by byte.
#[cold]
#[inline(never)]
fn number_item<D: Desk>(reader: &mut ByteReader, desk: &mut D) -> Result<Token, InputError>
    requires { Stands reader.old (D.outside desk.old) }
    ensures advances { IfOk result (λ t. Advances reader.old reader.new t.word) }
    ensures token { ForContents reader.new (D.outside desk.new) (λ c. GivesBinary false reader.old reader.new c result) }
    ensures reads { Reads reader.old reader.new (D.outside desk.old) (D.outside desk.new) (is_fault result) }
{
    let place = reader.place();
    match read_value(reader, desk, 10) {
        Ok(value) => number_token(value, place),
        Err(ValueError::Fault) => Err(InputError::Source),
        Err(ValueError::Limit) => Err(InputError::Limit(LimitKind::Bytes)),
        Err(ValueError::Long) => Err(InputError::Text {
            kind: TextKind::TooWide,
            place,
        }),
        Err(ValueError::Ends) => ended(place, reader.place()),
    }
}

/// Where the file ends behind the bytes from a place on, of which there may be none.
fn ended(place: u64, end: u64) -> Result<Token, InputError>
    ensures { result ≡ end_answer place end }
{
    if place == end {
        return Ok(Token {
            place,
            word: Word::End,
        });
    }
    Err(InputError::Text {
        kind: TextKind::Unended,
        place: end,
    })
}

/// The next number, where it is at hand; else nothing is taken.
#[inline(always)]
fn number_at_hand(reader: &mut ByteReader) -> Option<Token>
    ensures some { IfSome result (TakesNumber reader.old reader.new) }
    ensures none { IfNone result (reader.new ≡ reader.old) }
{
    let value = value_front(reader.buffered())?;
    let Ok(word) = word_of_value(value.value) else {
        return None;
    };
    let place = reader.place();
    reader.skip(value.len);
    Some(Token { place, word })
}

/// What the first byte of an item says.
fn item_token(byte: u8, place: u64) -> Result<Token, InputError>
    ensures { result ≡ item_answer byte place }
{
    match byte {
        b'a' => Ok(Token {
            place,
            word: Word::Add,
        }),
        b'd' => Ok(Token {
            place,
            word: Word::Del,
        }),
        _ => Err(InputError::Text {
            kind: TextKind::BadWord,
            place,
        }),
    }
}

/// The first byte of an item, or the end.
#[inline(always)]
fn item_start<D: Desk>(reader: &mut ByteReader, desk: &mut D) -> Result<Token, InputError>
    requires { Stands reader.old (D.outside desk.old) }
    ensures advances { IfOk result (λ t. Advances reader.old reader.new t.word) }
    ensures token { ForContents reader.new (D.outside desk.new) (λ c. GivesBinary true reader.old reader.new c result) }
    ensures reads { Reads reader.old reader.new (D.outside desk.old) (D.outside desk.new) (is_fault result) }
{
    let place = reader.place();
    match reader.next(desk) {
        Err(stop) => Err(stopped(stop)),
        Ok(None) => Ok(Token {
            place,
            word: Word::End,
        }),
        Ok(Some(byte)) => item_token(byte, place),
    }
}

/// The next token of a binary file; `at_start` says whether an item begins here.
///
/// Where one begins, the byte `61` (hexadecimal) is [`Word::Add`] and `64` is [`Word::Del`].
/// Elsewhere a number stands: each byte gives its low seven bits, least group first, and the top bit
/// is set on all but the last. The value 2x spells x, and 2x + 1 spells -x. A longer spelling than
/// is needed is taken. The end, where no byte is left, is [`Word::End`].
///
/// # Errors
///
/// [`InputError::Text`] with the place of the token: `BadWord` for another byte where an item begins,
/// `BadNumber` for the value 1, and `TooWide` for a value of more than 64 bits or a tenth byte with
/// its top bit set. `Unended`, with the number of bytes of the file, where it ends inside a number.
/// [`InputError::Limit`] exactly where a byte past the reader's limit is needed and there is one.
/// [`InputError::Source`] exactly where a read fails before the last byte of the token.
#[inline(always)]
pub fn binary_item<D: Desk>(
    reader: &mut ByteReader,
    desk: &mut D,
    at_start: bool,
) -> Result<Token, InputError>
    requires { Stands reader.old (D.outside desk.old) }
    ensures advances { IfOk result (λ t. Advances reader.old reader.new t.word) }
    ensures token { (lists open_lists : ℕ) → IsStart at_start open_lists → ForContents reader.new (D.outside desk.new)
        (λ c. GivesFront Binary lists open_lists reader.old reader.new c result) }
    ensures reads { Reads reader.old reader.new (D.outside desk.old) (D.outside desk.new) (is_fault result) }
{
    if at_start {
        return item_start(reader, desk);
    }
    match number_at_hand(reader) {
        Some(token) => Ok(token),
        None => number_item(reader, desk),
    }
}
