// Tokens of text.
//
// A number or `d` that is at hand with the byte that ends it is taken in one go. Whatever else is
// read byte by byte by a small machine: a gap between tokens, and a token so far.
ghost use Rattle.std.specs.Prelude.{◌≡◌, ◌<◌, ◌-◌, IfOk, IfSome, IfNone};
ghost use Rattle.sr_desk.specs.Next.{Stands, Reads, ForContents};
ghost use Rattle.sr_scan.specs.Lexeme.{begun};
ghost use Rattle.sr_scan.specs.Machine.{within, texts_in, machine_left, Begins, TakesFirst, Finishes, TakesToken};
ghost use Rattle.sr_scan.specs.Left.{text_left, error_of, is_fault, GivesToken, Advances};

use crate::front::{blanks, front};
use crate::lexeme::{Gap, Lexeme, is_white};
use sr_base::{InputError, LimitKind};
use sr_desk::{ByteReader, Desk, ReadError};
use sr_model::{Token, Word};

/// Passes over white space and comments, and takes the first byte of a token.
fn begin<D: Desk>(reader: &mut ByteReader, desk: &mut D) -> Result<Option<u8>, InputError>
    requires { Stands reader.old (D.outside desk.old) }
    ensures begins { ForContents reader.new (D.outside desk.new) (λ c. Begins reader.old reader.new c result) }
    ensures takes { IfOk result (TakesFirst reader.old reader.new) }
    ensures reads { Reads reader.old reader.new (D.outside desk.old) (D.outside desk.new) (is_fault result) }
{
    let mut gap = Gap::at(reader.last());
    'gaps: loop {
        match reader.next(desk) {
            Err(stop) => return Err(stopped(stop)),
            Ok(None) => return Ok(None),
            Ok(Some(byte)) => match gap.after(byte) {
                None => return Ok(Some(byte)),
                Some(next) => gap = next,
            },
        }
    }
}

/// Reads a token to its end.
fn finish<D: Desk>(
    reader: &mut ByteReader,
    desk: &mut D,
    first: Lexeme,
) -> Result<Lexeme, InputError>
    requires { Stands reader.old (D.outside desk.old) }
    ensures finishes { ForContents reader.new (D.outside desk.new) (λ c. Finishes first reader.old reader.new c result) }
    ensures reads { Reads reader.old reader.new (D.outside desk.old) (D.outside desk.new) (is_fault result) }
{
    let mut lexeme = first;
    'bytes: loop {
        match reader.next(desk) {
            Err(stop) => return Err(stopped(stop)),
            Ok(None) => return Ok(lexeme),
            Ok(Some(byte)) => {
                if is_white(byte) {
                    return Ok(lexeme);
                }
                lexeme = lexeme.with(byte);
            }
        }
    }
}

pub(crate) fn stopped(stop: ReadError) -> InputError
    ensures { result ≡ error_of stop }
{
    match stop {
        ReadError::Fault => InputError::Source,
        ReadError::Limit => InputError::Limit(LimitKind::Bytes),
    }
}

/// Reads the rest of a token of which the first byte was taken.
fn whole<D: Desk>(reader: &mut ByteReader, desk: &mut D, first: u8) -> Result<Token, InputError>
    requires stands { Stands reader.old (D.outside desk.old) }
    requires taken { 0 < reader.old.taken }
    ensures token { ForContents reader.new (D.outside desk.new)
        (λ c. GivesToken (texts_in (within (reader.old.taken - 1) (begun first)) reader.old c) (machine_left reader.new c) result) }
    ensures reads { Reads reader.old reader.new (D.outside desk.old) (D.outside desk.new) (is_fault result) }
{
    let place = reader.place() - 1;
    match finish(reader, desk, Lexeme::begin(first)) {
        Err(error) => Err(error),
        Ok(lexeme) => match lexeme.word() {
            Ok(word) => Ok(Token { place, word }),
            Err(kind) => Err(InputError::Text { kind, place }),
        },
    }
}

/// The next token, by the machine that reads byte by byte.
#[cold]
#[inline(never)]
fn machine_item<D: Desk>(reader: &mut ByteReader, desk: &mut D) -> Result<Token, InputError>
    requires { Stands reader.old (D.outside desk.old) }
    ensures advances { IfOk result (λ t. Advances reader.old reader.new t.word) }
    ensures token { ForContents reader.new (D.outside desk.new)
        (λ c. GivesToken (machine_left reader.old c) (machine_left reader.new c) result) }
    ensures reads { Reads reader.old reader.new (D.outside desk.old) (D.outside desk.new) (is_fault result) }
{
    match begin(reader, desk) {
        Err(error) => Err(error),
        Ok(None) => Ok(Token {
            place: reader.place(),
            word: Word::End,
        }),
        Ok(Some(first)) => whole(reader, desk, first),
    }
}

/// The next token, where it is at hand with the byte that ends it, and a number or `d`.
#[inline(always)]
fn at_hand(reader: &mut ByteReader) -> Option<Token>
    ensures some { IfSome result (λ t. TakesToken reader.old reader.new t) }
    ensures none { IfNone result (reader.new ≡ reader.old) }
{
    let bytes = reader.buffered();
    let start = blanks(bytes);
    let leading = front(&bytes[start..])?;
    let place = reader.place() + start as u64;
    reader.skip(start + leading.len + 1);
    Some(Token {
        place,
        word: leading.word,
    })
}

/// The next token of a text file.
///
/// White space is the bytes 9 to 13 and 32, and a token is a longest run of other bytes. Where the
/// first token of a line begins with `c`, the line is a comment and has no tokens. A token that
/// begins with a digit or `-` has to be a number: an optional `-` and digits. `d`, `p`, `cnf` and
/// `%` are words of their own, as DIMACS and DRAT write them, and any other is [`Word::Other`]. The
/// end, where no token is left, is [`Word::End`]. The place is that of the token's first byte, and
/// for the end the number of bytes of the file.
///
/// # Errors
///
/// [`InputError::Text`] with the place of the token: `BadNumber` for one that begins like a number and
/// is none, as `-0`, and `TooWide` for a number of a size above 2^63 - 1. [`InputError::Limit`]
/// exactly where a byte past the reader's limit is needed and there is one. [`InputError::Source`]
/// exactly where a read fails before the byte that ends the token.
#[inline(always)]
pub fn text_item<D: Desk>(reader: &mut ByteReader, desk: &mut D) -> Result<Token, InputError>
    requires { Stands reader.old (D.outside desk.old) }
    ensures advances { IfOk result (λ t. Advances reader.old reader.new t.word) }
    ensures token { ForContents reader.new (D.outside desk.new) (λ c. GivesToken (text_left reader.old c) (text_left reader.new c) result) }
    ensures reads { Reads reader.old reader.new (D.outside desk.old) (D.outside desk.new) (is_fault result) }
{
    match at_hand(reader) {
        Some(token) => Ok(token),
        None => machine_item(reader, desk),
    }
}
