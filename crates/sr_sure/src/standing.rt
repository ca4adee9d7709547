// Where a slot stands.
ghost use Rattle.std.specs.Prelude.{◌≡◌, ◌<◌, ◌++◌, false, length, min, take, drop, Some, None, if◌then◌else◌};
ghost use Rattle.sr_base.specs.Contents.{ended};
ghost use Rattle.sr_desk.specs.Calls.{ending_after};
ghost use Rattle.sr_sure.specs.Sure.{usage_of, RaisesFaults};

/// What a slot is used for.
#[derive(Clone, Copy, Debug, PartialEq, Eq)]
pub enum Usage {
    Unused,
    /// Reading the formula.
    Formula,
    /// Reading the proof.
    Proof,
    /// Reading a file without bytes.
    Nothing,
    Writing,
}

/// Where a slot stands: how many bytes were read, whether the last read met the end, and how many calls failed.
#[derive(Clone, Copy, Debug, PartialEq, Eq)]
pub struct Standing {
    pub usage: Usage,
    pub place: usize,
    pub ended: bool,
    pub faults: u64,
}

/// What a file of this name is read for.
pub fn usage_of(name: &str) -> Usage
    ensures { result ≡ usage_of name.now }
{
    if name == "formula" {
        return Usage::Formula;
    }
    if name == "proof" {
        return Usage::Proof;
    }
    Usage::Nothing
}

/// A slot that was just begun.
pub fn begun(usage: Usage) -> Standing
    ensures { result ≡ record { usage = usage; place = 0; ended = false; faults = 0 } }
{
    Standing {
        usage,
        place: 0,
        ended: false,
        faults: 0,
    }
}

/// Counts a fault of a slot.
pub fn raise(slots: &mut [Standing; 9], number: usize)
    requires { number < 9 }
    ensures { RaisesFaults number slots.old slots.new }
{
    slots[number].faults = slots[number].faults.saturating_add(1);
}

/// Copies as many bytes as there is room for to the front of a buffer.
pub fn copy_front(bytes: &[u8], buf: &mut [u8]) -> usize
    ensures count { result ≡ min (length bytes.now) (length buf.old) }
    ensures front { buf.new ≡ take result bytes.now ++ drop result buf.old }
{
    let count = bytes.len().min(buf.len());
    buf[..count].copy_from_slice(&bytes[..count]);
    count
}

/// Whether a read of so many bytes met the end.
pub fn is_end(count: usize, buf: &[u8]) -> bool
    ensures { (if result then Some ended else None) ≡ ending_after count buf.now }
{
    count == 0 && !buf.is_empty()
}
