// Numbers, put into a sink.
ghost use Rattle.std.specs.Prelude.{◌≡◌, ℕ, ◌+◌, ◌*◌, ◌^◌, ◌<◌, ◌≤◌, List, [], ◌++◌, length, drop, take, unsigned_abs};
ghost use Rattle.std.specs.Fmt.{decimal, signed_decimal};
ghost use Rattle.sr_model.specs.Writing.{value_for, groups_for, number_bytes};
ghost use Rattle.sr_scan.specs.Written.{written_number, written_end};

use crate::sink::Sink;
use sr_base::Form;

/// So many bytes hold the digits of a size with a sign before them and one byte behind them.
const TEXT: usize = 21;

/// Spells a size in digits before the last byte of an array, and says where it begins; there is room for a sign before it.
fn spell(text: &mut [u8; TEXT], size: u64) -> usize
    requires { size ≤ 2 ^ 63 }
    ensures low { 1 ≤ result }
    ensures high { result < 20 }
    ensures digits { drop result text.new ≡ decimal size ++ drop 20 text.old }
{
    let mut at = 20;
    let mut left = size;
    while left >= 10 {
        at -= 1;
        text[at] = 48 + (left % 10) as u8;
        left /= 10;
    }
    at -= 1;
    text[at] = 48 + left as u8;
    at
}

/// Spells a value at the front of an array, seven bits in each byte, and says in how many bytes.
fn spell_value(bytes: &mut [u8; 5], value: u64) -> usize
    requires { value < 2 ^ 32 }
    ensures high { result ≤ 5 }
    ensures bytes { take result bytes.new ≡ groups_for 10 value }
{
    let mut len = 0;
    let mut left = value;
    while left >= 128 {
        bytes[len] = 128 + (left % 128) as u8;
        len += 1;
        left /= 128;
    }
    bytes[len] = left as u8;
    len + 1
}

/// Spells a number in digits before the last byte of an array, behind `-` where it is negative, and says where it begins.
fn spell_signed(text: &mut [u8; TEXT], x: i64) -> usize
    ensures high { result < 20 }
    ensures digits { drop result text.new ≡ signed_decimal x ++ drop 20 text.old }
{
    let at = spell(text, x.unsigned_abs());
    if x < 0 {
        text[at - 1] = b'-';
        return at - 1;
    }
    at
}

/// Puts a size in digits.
pub fn put_decimal<O, S: Sink<O>>(sink: &mut S, out: &mut O, size: u64)
    requires can { S.can_put sink.old out.old }
    requires small { size ≤ 2 ^ 63 }
    ensures { S.puts sink.old out.old sink.new out.new (decimal size) }
{
    let mut text = [b' '; TEXT];
    let at = spell(&mut text, size);
    sink.put(out, &text[at..TEXT - 1]);
}

/// Puts a number in binary.
fn put_groups<O, S: Sink<O>>(sink: &mut S, out: &mut O, x: i64)
    requires can { S.can_put sink.old out.old }
    requires small { unsigned_abs x ≤ 2147483647 }
    ensures { S.puts sink.old out.old sink.new out.new (number_bytes x) }
{
    let size = 2 * x.unsigned_abs();
    let value = if x < 0 { size + 1 } else { size };
    let mut bytes = [0; 5];
    let len = spell_value(&mut bytes, value);
    sink.put(out, &bytes[..len]);
}

/// Puts a number in text, with the space behind it.
fn put_spaced<O, S: Sink<O>>(sink: &mut S, out: &mut O, x: i64)
    requires can { S.can_put sink.old out.old }
    ensures { S.puts sink.old out.old sink.new out.new (written_number Form.Text x) }
{
    let mut text = [b' '; TEXT];
    let at = spell_signed(&mut text, x);
    sink.put(out, &text[at..]);
}

/// Puts a number; in text with the space behind it.
pub fn put_number<O, S: Sink<O>>(form: Form, sink: &mut S, out: &mut O, x: i64)
    requires can { S.can_put sink.old out.old }
    requires small { unsigned_abs x ≤ 2147483647 }
    ensures { S.puts sink.old out.old sink.new out.new (written_number form x) }
{
    match form {
        Form::Text => put_spaced(sink, out, x),
        Form::Binary => put_groups(sink, out, x),
    }
}

/// Puts the `0` that ends an item; in text with the end of the line.
pub fn put_end<O, S: Sink<O>>(form: Form, sink: &mut S, out: &mut O)
    requires can { S.can_put sink.old out.old }
    ensures { S.puts sink.old out.old sink.new out.new (written_end form) }
{
    match form {
        Form::Text => sink.put(out, b"0\n"),
        Form::Binary => sink.put(out, &[0]),
    }
}
