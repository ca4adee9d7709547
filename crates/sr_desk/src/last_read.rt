// How the last call for reading of a slot ended.
ghost use Rattle.std.specs.Prelude.{◌≡◌};
ghost use Rattle.sr_desk.specs.LastReads.{ending_of};
ghost use Rattle.sr_desk.specs.Calls.{ending_after};

/// How the last call for reading of a slot ended.
#[derive(Clone, Copy, Debug, PartialEq, Eq)]
pub(crate) enum LastRead {
    /// It gave bytes, or none was made.
    Fine,
    Ended,
    Failed,
}

/// How a read of so many bytes ended.
pub(crate) fn after_read(count: usize, buf: &[u8]) -> LastRead
    ensures { ending_of result ≡ ending_after count buf.now }
{
    if count == 0 && !buf.is_empty() {
        LastRead::Ended
    } else {
        LastRead::Fine
    }
}
