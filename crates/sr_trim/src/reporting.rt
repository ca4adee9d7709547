// The report of a verified run, which is made before anything is written.
ghost use Rattle.std.specs.Prelude.{IfOk};
ghost use Rattle.sr_trim.specs.Reporting.{IsWanted};

use sr_base::{ByteList, NoMemory};
use sr_emit::{Command, Counts, verified_bytes};
use std::alloc::Global;

/// Which report is wanted of a verified run.
#[derive(Clone, Copy, Debug, PartialEq, Eq)]
pub struct Wanted {
    pub command: Command,
    pub with_counts: bool,
}

/// The report of a verified run of such counts.
pub fn make_report(alloc: Global, wanted: Wanted, counts: &Counts) -> Result<ByteList, NoMemory>
    ensures { IfOk result (IsWanted wanted counts.now) }
{
    let counts = if wanted.with_counts {
        Some(counts)
    } else {
        None
    };
    verified_bytes(alloc, wanted.command, counts)
}
