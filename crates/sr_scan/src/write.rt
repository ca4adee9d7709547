// Numbers as they are written.
//
// A number is spelled into a small array, from its last digit, and added to the output at once.
ghost use Rattle.std.specs.Prelude.{◌≡◌, ◌∷◌, ◌++◌, [], ◌+◌, ◌*◌, ◌<◌, ◌≤◌, ◌^◌, drop, take, unsigned_abs, OnOk, OnErr};
ghost use Rattle.std.specs.Fmt.{decimal, signed_decimal};
ghost use Rattle.sr_model.specs.Writing.{value_for, groups_for, number_bytes};
ghost use Rattle.sr_scan.specs.Written.{written_number, written_literals, written_end};

use sr_base::{ByteList, Form, Lit, NoMemory};

/// Spells a size at the end of an array, and says where it begins; there is room for a sign before it.
fn spell(text: &mut [u8; 20], size: u64) -> usize
    requires { size ≤ 2 ^ 63 }
    ensures low { 1 ≤ result }
    ensures high { result ≤ 20 }
    ensures digits { drop result text.new ≡ decimal size }
{
    let mut at = 20;
    let mut left = size;
    while left >= 10 {
        at -= 1;
        text[at] = 48 + (left % 10) as u8;
        left /= 10;
    }
    at -= 1;
    text[at] = 48 + left as u8;
    at
}

/// Writes a number in decimal digits without leading zeros, behind `-` where it is negative.
///
/// # Errors
///
/// [`NoMemory`], and then nothing was written.
pub fn put_number_text(out: &mut ByteList, value: i64) -> Result<(), NoMemory>
    ensures ok { OnOk result (out.new ≡ out.old ++ signed_decimal value) }
    ensures err { OnErr result (out.new ≡ out.old) }
{
    let mut text = [0; 20];
    let at = spell(&mut text, value.unsigned_abs());
    if value < 0 {
        text[at - 1] = b'-';
        return out.extend(&text[at - 1..]);
    }
    out.extend(&text[at..])
}

/// The value that spells a number: twice its size, and one more where it is negative.
fn value_of(value: i64) -> u64
    requires { unsigned_abs value < 2 ^ 63 }
    ensures value { result ≡ value_for value }
    ensures bound { result ≤ 2 * unsigned_abs value + 1 }
{
    if value < 0 {
        2 * value.unsigned_abs() + 1
    } else {
        2 * value.unsigned_abs()
    }
}

/// Spells a value at the front of an array, and says in how many bytes.
fn spell_value(bytes: &mut [u8; 5], value: u64) -> usize
    requires { value < 2 ^ 32 }
    ensures high { result ≤ 5 }
    ensures bytes { take result bytes.new ≡ groups_for 10 value }
{
    let mut len = 0;
    let mut left = value;
    while left >= 128 {
        bytes[len] = 128 + (left % 128) as u8;
        len += 1;
        left /= 128;
    }
    bytes[len] = left as u8;
    len + 1
}

/// Adds the bytes that spell a value, however many they are.
#[inline(never)]
fn put_value(out: &mut ByteList, value: u64) -> Result<(), NoMemory>
    requires { value < 2 ^ 32 }
    ensures ok { OnOk result (out.new ≡ out.old ++ groups_for 10 value) }
    ensures err { OnErr result (out.new ≡ out.old) }
{
    let mut bytes = [0; 5];
    let len = spell_value(&mut bytes, value);
    out.extend(&bytes[..len])
}

/// Adds the bytes that spell a value: one, two or three, as of nearly all values, or more.
#[inline(always)]
fn put_short_value(out: &mut ByteList, value: u64) -> Result<(), NoMemory>
    requires { value < 2 ^ 32 }
    ensures ok { OnOk result (out.new ≡ out.old ++ groups_for 10 value) }
    ensures err { OnErr result (out.new ≡ out.old) }
{
    if value < 128 {
        return out.push(value as u8);
    }
    let first = 128 + (value % 128) as u8;
    let left = value / 128;
    if left < 128 {
        return out.extend(&[first, left as u8]);
    }
    let second = 128 + (left % 128) as u8;
    let last = left / 128;
    if last < 128 {
        return out.extend(&[first, second, last as u8]);
    }
    put_value(out, value)
}

/// Writes a number as a binary file spells it, in as few bytes as it takes: seven bits in each, the
/// least first, and the top bit set on all but the last.
///
/// # Errors
///
/// [`NoMemory`], and then nothing was written.
fn put_number_binary(out: &mut ByteList, value: i64) -> Result<(), NoMemory>
    requires { unsigned_abs value ≤ 2147483647 }
    ensures ok { OnOk result (out.new ≡ out.old ++ number_bytes value) }
    ensures err { OnErr result (out.new ≡ out.old) }
{
    put_short_value(out, value_of(value))
}

/// Adds a number; in text with the space behind it. Nothing was added where memory lacks.
pub fn put_number(form: Form, out: &mut ByteList, x: i64) -> Result<(), NoMemory>
    requires { unsigned_abs x ≤ 2147483647 }
    ensures ok { OnOk result (out.new ≡ out.old ++ written_number form x) }
    ensures err { OnErr result (out.new ≡ out.old) }
{
    match form {
        Form::Text => put_spaced(out, x),
        Form::Binary => put_number_binary(out, x),
    }
}

fn put_spaced(out: &mut ByteList, x: i64) -> Result<(), NoMemory>
    ensures ok { OnOk result (out.new ≡ out.old ++ written_number Form.Text x) }
    ensures err { OnErr result (out.new ≡ out.old) }
{
    let before = out.as_slice().len();
    put_number_text(out, x)?;
    if out.push(b' ').is_err() {
        out.truncate(before);
        return Err(NoMemory);
    }
    Ok(())
}

/// Adds the number of a literal, as [`put_number`] does. Nothing was added where memory lacks.
pub fn put_literal(form: Form, out: &mut ByteList, l: Lit) -> Result<(), NoMemory>
    ensures ok { OnOk result (out.new ≡ out.old ++ written_literals form (l ∷ [])) }
    ensures err { OnErr result (out.new ≡ out.old) }
{
    let _var = l.var();
    put_number(form, out, l.value())
}

/// Adds the numbers of literals. Nothing was added where memory lacks.
pub fn put_literals(form: Form, out: &mut ByteList, lits: &[Lit]) -> Result<(), NoMemory>
    ensures ok { OnOk result (out.new ≡ out.old ++ written_literals form lits.now) }
    ensures err { OnErr result (out.new ≡ out.old) }
{
    let before = out.as_slice().len();
    for l in lits {
        if put_literal(form, out, *l).is_err() {
            out.truncate(before);
            return Err(NoMemory);
        }
    }
    Ok(())
}

/// Adds the `0` that ends an item; in text with the end of the line. Nothing was added where memory lacks.
pub fn put_end(form: Form, out: &mut ByteList) -> Result<(), NoMemory>
    ensures ok { OnOk result (out.new ≡ out.old ++ written_end form) }
    ensures err { OnErr result (out.new ≡ out.old) }
{
    match form {
        Form::Text => {
            let before = out.as_slice().len();
            out.push(b'0')?;
            if out.push(b'\n').is_err() {
                out.truncate(before);
                return Err(NoMemory);
            }
            Ok(())
        }
        Form::Binary => out.push(0),
    }
}
