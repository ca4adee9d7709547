// A value of a binary file that stands whole in some bytes: the common case.
//
// Values of more than eight bytes, and those that the end of the buffer cuts, are read byte by byte.
ghost use Rattle.std.specs.Prelude.{◌≡◌, IfSome};
ghost use Rattle.sr_scan.specs.BinaryLeft.{LeadsValue, EndsAt};

/// A value at the front of some bytes of a binary file: how many bytes it has, and what it is.
#[derive(Clone, Copy, Debug, PartialEq, Eq)]
pub struct Value {
    pub len: usize,
    pub value: u64,
}

/// The least value to which no seven bits are added, so that it stays below 2^63.
const ROOM: u64 = 1 << 56;

/// The place of the first byte that says that none follows.
#[inline(always)]
fn last_byte(bytes: &[u8]) -> Option<usize>
    ensures { IfSome result (EndsAt bytes.now) }
{
    let mut at = 0;
    while at < bytes.len() && at < 9 {
        if bytes[at] < 128 {
            return Some(at);
        }
        at += 1;
    }
    None
}

/// The value at the front of some bytes of a binary file, where it has at most four bytes, as nearly all have,
/// and there are at least four.
#[inline(always)]
pub fn short_value(bytes: &[u8]) -> Option<Value>
    ensures { IfSome result (λ v. LeadsValue bytes.now v.len v.value) }
{
    if bytes.len() < 4 {
        return None;
    }
    let first = u64::from(bytes[0]);
    if first < 128 {
        return Some(Value {
            len: 1,
            value: first,
        });
    }
    let second = u64::from(bytes[1]);
    if second < 128 {
        return Some(Value {
            len: 2,
            value: 128 * second + (first - 128),
        });
    }
    let third = u64::from(bytes[2]);
    if third < 128 {
        return Some(Value {
            len: 3,
            value: 128 * (128 * third + (second - 128)) + (first - 128),
        });
    }
    let fourth = u64::from(bytes[3]);
    if fourth < 128 {
        return Some(Value {
            len: 4,
            value: 128 * (128 * (128 * fourth + (third - 128)) + (second - 128)) + (first - 128),
        });
    }
    None
}

/// The value at the front, where it stands there whole.
#[inline(always)]
pub(crate) fn value_front(bytes: &[u8]) -> Option<Value>
    ensures { IfSome result (λ v. LeadsValue bytes.now v.len v.value) }
{
    match short_value(bytes) {
        Some(value) => Some(value),
        None => long_value(bytes),
    }
}

/// The value from its last byte on.
#[inline(never)]
fn long_value(bytes: &[u8]) -> Option<Value>
    ensures { IfSome result (λ v. LeadsValue bytes.now v.len v.value) }
{
    let last = last_byte(bytes)?;
    let mut value = u64::from(bytes[last]);
    let mut at = last;
    while at > 0 {
        if value >= ROOM {
            return None;
        }
        at -= 1;
        value = 128 * value + u64::from(bytes[at] - 128);
    }
    Some(Value {
        len: last + 1,
        value,
    })
}
