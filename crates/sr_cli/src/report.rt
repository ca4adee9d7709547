// Printing the report.
ghost use Rattle.std.specs.Prelude.{◌≡◌, OnOk, OnErr};
ghost use Rattle.sr_emit.specs.FileNames.{names_of};
ghost use Rattle.sr_emit.specs.Report.{report};
ghost use Rattle.std.specs.Prelude.{option_map};
ghost use Rattle.sr_cli.specs.Run.{OnlyPrints, IsPrinted, IsCutShort, Shows, Reports};

use sr_base::Which;
use sr_desk::{CallError, Desk, Slot, put_all};
use sr_emit::{Command, Counts, FileNames, Outcome, report_bytes};
use std::alloc::Global;

/// Writes bytes to standard output and finishes it.
fn print<D: Desk>(desk: &mut D, bytes: &[u8]) -> Result<(), CallError>
    ensures only { OnlyPrints (D.outside desk.old) (D.outside desk.new) }
    ensures ok { OnOk result (IsPrinted bytes.now (D.outside desk.old) (D.outside desk.new)) }
    ensures err { OnErr result (IsCutShort bytes.now (D.outside desk.old) (D.outside desk.new)) }
{
    match put_all(desk, Slot::OUT, bytes) {
        Err(error) => Err(error),
        Ok(()) => match desk.finish(Slot::OUT) {
            Ok(()) => Ok(()),
            Err(_) => Err(CallError),
        },
    }
}

/// Prints a report of what was found.
pub(crate) fn show<D: Desk>(desk: &mut D, bytes: &[u8], found: Outcome) -> Outcome
    ensures only { OnlyPrints (D.outside desk.old) (D.outside desk.new) }
    ensures shows { Shows bytes.now (D.outside desk.old) (D.outside desk.new) found result }
{
    match print(desk, bytes) {
        Ok(()) => found,
        Err(_) => Outcome::SinkFault {
            which: Which::Report,
        },
    }
}

/// Makes the report of what was found, and prints it.
pub(crate) fn report<D: Desk>(
    alloc: Global,
    command: Command,
    names: &FileNames<'_>,
    counts: Option<&Counts>,
    found: Outcome,
    desk: &mut D,
) -> Outcome
    ensures only { OnlyPrints (D.outside desk.old) (D.outside desk.new) }
    ensures reports { Reports (report command (names_of names.now) (option_map (λ c. c.now) counts.entry) found)
        (D.outside desk.old) (D.outside desk.new) found result }
{
    if let Outcome::NoMemory = found {
        return Outcome::NoMemory;
    }
    match report_bytes(alloc, command, names, counts, &found) {
        Err(_) => Outcome::NoMemory,
        Ok(bytes) => show(desk, bytes.as_slice(), found),
    }
}
