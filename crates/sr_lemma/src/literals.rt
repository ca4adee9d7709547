// The literals of a lemma, a step or a deletion, with those of a witness.
//
// Those that stand whole in the reader's buffer are taken in one go. In a binary file the value that spells a literal
// is its code.
ghost use Rattle.std.specs.Prelude.{◌≡◌, ◌≢◌, ℕ, ◌+◌, ◌*◌, ◌<◌, ◌≤◌, pos, unsigned_abs, [], map, IfNone, IfSome, OnSome, IfOk};
ghost use Rattle.sr_base.specs.Literal.{number, literal_of, literal_code};
ghost use Rattle.sr_desk.specs.Next.{Stands, Reads, ForContents};
ghost use Rattle.sr_scan.specs.Machine.{Skips};
ghost use Rattle.sr_scan.specs.Left.{is_fault};
ghost use Rattle.sr_lemma.specs.Reads.{GivesLiterals, GivesMore, LeadsLiteral, SaysLiteral, TakesLiterals, numbers_told};

use sr_base::{Form, InputError, LimitKind, Lit, LitList, NoMemory};
use sr_desk::{ByteReader, Desk};
use sr_model::{Token, Word};
use sr_scan::{misplaced, next_token, short_value, text_number};

/// The literal of a number, where its variable is at most the bound.
fn literal_within(x: i64, bound: u32) -> Option<Lit>
    requires nonzero { x ≢ pos 0 }
    requires bound { bound ≤ 16777215 }
    ensures above { IfNone result (bound < unsigned_abs x) }
    ensures within { OnSome result (unsigned_abs x ≤ bound) }
    ensures some { IfSome result (λ l. l ≡ literal_of x) }
    ensures number { IfSome result (λ l. number l ≡ x) }
{
    match Lit::new(x) {
        Some(l) if x.unsigned_abs() <= u64::from(bound) => Some(l),
        _ => None,
    }
}

/// A literal at the front of some bytes: how many of them spell it, and which it is.
#[derive(Clone, Copy)]
struct LeadingLiteral {
    len: usize,
    lit: Lit,
}

/// The literal of a code, where it has one whose variable is at most the bound.
#[inline(always)]
fn coded_literal(code: u64, bound: u32) -> Option<Lit>
    requires { bound ≤ 16777215 }
    ensures code { IfSome result (λ l. literal_code l ≡ code) }
    ensures low { IfSome result (λ l. 2 ≤ literal_code l) }
    ensures high { IfSome result (λ l. literal_code l ≤ 2 * bound + 1) }
{
    if code < 2 || code > 2 * u64::from(bound) + 1 {
        return None;
    }
    Some(Lit::from_code(code as u32))
}

/// The literal at the front, where its variable is at most the bound, and its number a short one.
#[inline(always)]
fn literal_front(form: Form, bytes: &[u8], bound: u32) -> Option<LeadingLiteral>
    requires { bound ≤ 16777215 }
    ensures { IfSome result (λ f. LeadsLiteral form bytes.now bound f.len f.lit) }
{
    match form {
        Form::Text => {
            let front = text_number(bytes)?;
            let code = 2 * front.size + u64::from(front.negative);
            Some(LeadingLiteral {
                len: front.len,
                lit: coded_literal(code, bound)?,
            })
        }
        Form::Binary => {
            let front = short_value(bytes)?;
            Some(LeadingLiteral {
                len: front.len,
                lit: coded_literal(front.value, bound)?,
            })
        }
    }
}

/// Takes the literals that are at hand, up to the `0` or whatever else is read as a token: a literal that is cut off,
/// above the bound or long, or what is no literal.
#[inline(always)]
fn take_literals(
    form: Form,
    bound: u32,
    reader: &mut ByteReader,
    lits: &mut LitList,
) -> Result<(), NoMemory>
    requires { bound ≤ 16777215 }
    ensures ok { IfOk result (λ _. TakesLiterals form bound reader.old reader.new lits.old lits.new) }
    ensures skips { Skips reader.old reader.new }
{
    let bytes = reader.buffered();
    let mut at = 0;
    while let Some(front) = literal_front(form, &bytes[at..], bound) {
        lits.push(front.lit)?;
        at += front.len;
    }
    reader.skip(at);
    Ok(())
}

/// Takes the literals that are at hand, by a loop for each form.
#[inline(always)]
fn take_at_hand(
    form: Form,
    bound: u32,
    reader: &mut ByteReader,
    lits: &mut LitList,
) -> Result<(), NoMemory>
    requires { bound ≤ 16777215 }
    ensures ok { IfOk result (λ _. TakesLiterals form bound reader.old reader.new lits.old lits.new) }
    ensures skips { Skips reader.old reader.new }
{
    match form {
        Form::Text => take_literals(Form::Text, bound, reader, lits),
        Form::Binary => take_literals(Form::Binary, bound, reader, lits),
    }
}

/// The literal that a token says, none at the `0`.
#[inline(always)]
fn said_literal(token: &Token, bound: u32) -> Result<Option<Lit>, InputError>
    requires { bound ≤ 16777215 }
    ensures { SaysLiteral bound token.now result }
{
    let Word::Number(x) = token.word else {
        return Err(InputError::Text {
            kind: misplaced(&token.word),
            place: token.place,
        });
    };
    if x == 0 {
        return Ok(None);
    }
    match literal_within(x, bound) {
        Some(l) => Ok(Some(l)),
        None => Err(InputError::Limit(LimitKind::Vars)),
    }
}

/// The literals up to `0`, behind those that are in the list. The answer is the place of the `0`.
///
/// # Errors
///
/// `Text` at the first token that is no number, and `Limit` at the first variable above the bound; else as
/// [`next_token`]. Some literals may then be in the list.
pub fn read_more_literals<D: Desk>(
    form: Form,
    bound: u32,
    lits: &mut LitList,
    reader: &mut ByteReader,
    desk: &mut D,
) -> Result<u64, InputError>
    requires stands { Stands reader.old (D.outside desk.old) }
    requires bound { bound ≤ 16777215 }
    ensures literals { (lists open_lists : ℕ) → ForContents reader.new (D.outside desk.new)
        (λ c. GivesMore form lists open_lists bound lits.old reader.old reader.new c (numbers_told lits.new result)) }
    ensures named { IfOk result (λ _. map literal_of (map number lits.old) ≡ lits.old → map literal_of (map number lits.new) ≡ lits.new) }
    ensures reads { Reads reader.old reader.new (D.outside desk.old) (D.outside desk.new) (is_fault result) }
{
    'tokens: loop {
        if take_at_hand(form, bound, reader, lits).is_err() {
            return Err(InputError::NoMemory);
        }
        let token = match next_token(form, false, reader, desk) {
            Ok(token) => token,
            Err(error) => return Err(error),
        };
        let l = match said_literal(&token, bound) {
            Ok(Some(l)) => l,
            Ok(None) => return Ok(token.place),
            Err(error) => return Err(error),
        };
        if lits.push(l).is_err() {
            return Err(InputError::NoMemory);
        }
    }
}

/// The literals up to `0`, in place of those that are in the list. The answer is the place of the `0`.
///
/// # Errors
///
/// As [`read_more_literals`].
pub fn read_all_literals<D: Desk>(
    form: Form,
    bound: u32,
    lits: &mut LitList,
    reader: &mut ByteReader,
    desk: &mut D,
) -> Result<u64, InputError>
    requires stands { Stands reader.old (D.outside desk.old) }
    requires bound { bound ≤ 16777215 }
    ensures literals { (lists open_lists : ℕ) → ForContents reader.new (D.outside desk.new)
        (λ c. GivesMore form lists open_lists bound [] reader.old reader.new c (numbers_told lits.new result)) }
    ensures named { IfOk result (λ _. map literal_of (map number lits.new) ≡ lits.new) }
    ensures reads { Reads reader.old reader.new (D.outside desk.old) (D.outside desk.new) (is_fault result) }
{
    lits.truncate(0);
    read_more_literals(form, bound, lits, reader, desk)
}

/// The same, where the first token was read.
///
/// # Errors
///
/// As [`read_more_literals`].
pub fn read_literals<D: Desk>(
    form: Form,
    bound: u32,
    first: Token,
    lits: &mut LitList,
    reader: &mut ByteReader,
    desk: &mut D,
) -> Result<u64, InputError>
    requires stands { Stands reader.old (D.outside desk.old) }
    requires bound { bound ≤ 16777215 }
    ensures literals { (lists open_lists : ℕ) → ForContents reader.new (D.outside desk.new)
        (λ c. GivesLiterals form lists open_lists bound first reader.old reader.new c (numbers_told lits.new result)) }
    ensures named { IfOk result (λ _. map literal_of (map number lits.new) ≡ lits.new) }
    ensures reads { Reads reader.old reader.new (D.outside desk.old) (D.outside desk.new) (is_fault result) }
{
    lits.truncate(0);
    let l = match said_literal(&first, bound) {
        Ok(Some(l)) => l,
        Ok(None) => return Ok(first.place),
        Err(error) => return Err(error),
    };
    if lits.push(l).is_err() {
        return Err(InputError::NoMemory);
    }
    read_more_literals(form, bound, lits, reader, desk)
}
