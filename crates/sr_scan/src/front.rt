// Tokens that stand whole in some bytes, with the byte that ends them: the common case.
//
// A number of up to eighteen digits and `d` are read here in one go. Whatever else, and what the
// end of the buffer cuts, is read byte by byte.
ghost use Rattle.std.specs.Prelude.{◌≡◌, ◌<◌, ◌≤◌, ◌^◌, true, false, length, take, IfSome, slice_index, IsTrue, ◌↔◌};
ghost use Rattle.std.specs.List.{list_all};
ghost use Rattle.sr_model.specs.Words.{is_white, is_digit, value_after, signed};
ghost use Rattle.sr_scan.specs.Front.{Leads, LeadsNumber, ends_at};

use crate::lexeme::{is_digit, is_white};
use sr_model::Word;

/// The least value after which no digit is taken, so that the value stays below 2^63.
const ROOM: u64 = 900_000_000_000_000_000;

/// A token at the front of some bytes: how long it is, and what it says.
#[derive(Clone, Copy, Debug, PartialEq, Eq)]
pub(crate) struct Leading {
    pub len: usize,
    pub word: Word,
}

/// The digits at the front of some bytes: how many there are, and their value.
#[derive(Clone, Copy, Debug, PartialEq, Eq)]
struct Digits {
    len: usize,
    size: u64,
}

/// Few numbers have more digits.
const FEW: usize = 10;

/// A number at the front of some bytes of a text: how many bytes it takes, with the white space before it and the white
/// byte behind it, and its size and sign.
#[derive(Clone, Copy, Debug, PartialEq, Eq)]
pub struct TextNumber {
    pub len: usize,
    pub size: u64,
    pub negative: bool,
}

/// How many bytes of white space stand at the front.
#[inline]
pub(crate) fn blanks(bytes: &[u8]) -> usize
    ensures within { result ≤ length bytes.now }
    ensures white { list_all is_white (take result bytes.now) ≡ true }
{
    let mut at = 0;
    while at < bytes.len() && is_white(bytes[at]) {
        at += 1;
    }
    at
}

/// The token at the front, where it is of the common kinds.
#[inline]
pub(crate) fn front(bytes: &[u8]) -> Option<Leading>
    ensures { IfSome result (λ f. Leads bytes.now f.len f.word) }
{
    if bytes.is_empty() {
        return None;
    }
    if bytes[0] == b'-' {
        return negative(bytes);
    }
    if bytes[0] == b'd' {
        return deletion(bytes);
    }
    positive(bytes)
}

#[inline]
fn positive(bytes: &[u8]) -> Option<Leading>
    ensures { IfSome result (λ f. Leads bytes.now f.len f.word) }
{
    let digits = digits_at(bytes);
    if digits.len == 0 || !ends_at(bytes, digits.len) {
        return None;
    }
    Some(Leading {
        len: digits.len,
        word: plus(digits.size),
    })
}

#[inline]
fn negative(bytes: &[u8]) -> Option<Leading>
    requires some { 0 < length bytes.now }
    requires sign { slice_index bytes.now 0 ≡ 45 }
    ensures { IfSome result (λ f. Leads bytes.now f.len f.word) }
{
    let digits = digits_at(&bytes[1..]);
    if digits.size == 0 || !ends_at(bytes, digits.len + 1) {
        return None;
    }
    Some(Leading {
        len: digits.len + 1,
        word: minus(digits.size),
    })
}

#[inline]
fn deletion(bytes: &[u8]) -> Option<Leading>
    requires some { 0 < length bytes.now }
    requires letter { slice_index bytes.now 0 ≡ 100 }
    ensures { IfSome result (λ f. Leads bytes.now f.len f.word) }
{
    if !ends_at(bytes, 1) {
        return None;
    }
    Some(Leading {
        len: 1,
        word: Word::Del,
    })
}

#[inline]
fn plus(size: u64) -> Word
    requires { size < 2 ^ 63 }
    ensures { result ≡ Word.Number (signed false size) }
{
    Word::Number(size as i64)
}

#[inline]
fn minus(size: u64) -> Word
    requires some { 0 < size }
    requires small { size < 2 ^ 63 }
    ensures { result ≡ Word.Number (signed true size) }
{
    Word::Number(-(size as i64))
}

/// Whether a white byte stands at a place.
#[inline]
fn ends_at(bytes: &[u8], at: usize) -> bool
    ensures { result ≡ ends_at bytes.now at }
{
    at < bytes.len() && is_white(bytes[at])
}

/// The digits at the front, up to a value that leaves no room for one more.
#[inline]
fn digits_at(bytes: &[u8]) -> Digits
    ensures within { result.len ≤ length bytes.now }
    ensures digits { list_all is_digit (take result.len bytes.now) ≡ true }
    ensures size { result.size ≡ value_after 0 (take result.len bytes.now) }
    ensures small { result.size < 2 ^ 63 }
{
    let mut len = 0;
    let mut size: u64 = 0;
    while len < bytes.len() && is_digit(bytes[len]) && size < ROOM {
        size = 10 * size + u64::from(bytes[len] - 48);
        len += 1;
    }
    Digits { len, size }
}

/// Up to ten digits at the front.
#[inline(always)]
fn few_digits(bytes: &[u8]) -> Digits
    requires { FEW ≤ length bytes.now }
    ensures within { result.len ≤ length bytes.now }
    ensures digits { list_all is_digit (take result.len bytes.now) ≡ true }
    ensures size { result.size ≡ value_after 0 (take result.len bytes.now) }
    ensures small { result.size < 2 ^ 63 }
{
    let mut len = 0;
    let mut size: u64 = 0;
    while len < FEW && is_digit(bytes[len]) {
        size = 10 * size + u64::from(bytes[len] - 48);
        len += 1;
    }
    Digits { len, size }
}

/// The number at the front, where no white space stands before it.
#[inline(always)]
fn number_front(bytes: &[u8]) -> Option<TextNumber>
    ensures { IfSome result (λ n. LeadsNumber bytes.now n.len n.size n.negative) }
{
    if bytes.len() < FEW + 2 {
        return None;
    }
    if bytes[0] == b'-' {
        let few = few_digits(&bytes[1..]);
        if few.size == 0 || !ends_at(bytes, few.len + 1) {
            return None;
        }
        return Some(TextNumber {
            len: few.len + 2,
            size: few.size,
            negative: true,
        });
    }
    let few = few_digits(bytes);
    if few.len == 0 || !ends_at(bytes, few.len) {
        return None;
    }
    Some(TextNumber {
        len: few.len + 1,
        size: few.size,
        negative: false,
    })
}

/// The number at the front of some bytes of a text, behind any white space, where the byte that ends it stands there
/// too and it has at most ten digits, as nearly all have.
#[inline(always)]
pub fn text_number(bytes: &[u8]) -> Option<TextNumber>
    ensures { IfSome result (λ n. LeadsNumber bytes.now n.len n.size n.negative) }
{
    let start = blanks(bytes);
    let number = number_front(&bytes[start..])?;
    Some(TextNumber {
        len: start + number.len,
        ..number
    })
}
