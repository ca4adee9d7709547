// Beginning a file, and loading the formula.
ghost use Rattle.std.specs.Prelude.{◌≡◌, ◌<◌, ◌+◌, true, IfOk, IfErr};
ghost use Rattle.sr_desk.specs.Next.{Stands};
ghost use Rattle.sr_scan.specs.Left.{is_fault};
ghost use Rattle.sr_files.specs.Files.{ReadsSlots, Opened, GivesFile, ReadsFormula, HasNextCause, IsUnread, IsCallFault, fresh};

use sr_base::{InputError, Limits};
use sr_cnf::read_formula;
use sr_desk::{ByteReader, Desk};
use sr_wit::Formula;
use std::alloc::Global;

/// Begins to read a file.
pub fn open_file<D: Desk>(
    alloc: Global,
    limits: &Limits,
    desk: &mut D,
    name: &str,
) -> Result<ByteReader, InputError>
    requires { (D.outside desk.old).begun < 8 }
    ensures slots { ReadsSlots ((D.outside desk.old).begun + 1) (D.outside desk.old) (D.outside desk.new) }
    ensures reader { IfOk result (λ r. r ≡ fresh (D.outside desk.old).begun limits.now.bytes) }
    ensures stands { IfOk result (λ r. Stands r (D.outside desk.new)) }
    ensures opened { IfOk result (λ r. Opened r.slot name.now (D.outside desk.old) (D.outside desk.new)) }
    ensures file { GivesFile (D.outside desk.old).begun name.now (D.outside desk.old) (D.outside desk.new) }
    ensures unread { is_fault result ≡ true → IsUnread ((D.outside desk.new).slot (D.outside desk.old).begun) }
    ensures kinds { IfErr result IsCallFault }
    ensures cause { HasNextCause (D.outside desk.old) (D.outside desk.new) result }
{
    match desk.begin_read(name) {
        Err(_) => Err(InputError::Source),
        Ok(slot) => match ByteReader::new(alloc, slot, limits.bytes()) {
            Ok(reader) => Ok(reader),
            Err(_) => Err(InputError::NoMemory),
        },
    }
}

/// The formula of a file.
pub fn load_formula<D: Desk>(
    alloc: Global,
    limits: &Limits,
    desk: &mut D,
    name: &str,
) -> Result<Formula, InputError>
    requires { (D.outside desk.old).begun < 8 }
    ensures slots { ReadsSlots ((D.outside desk.old).begun + 1) (D.outside desk.old) (D.outside desk.new) }
    ensures formula { ReadsFormula limits.now ((D.outside desk.new).slot (D.outside desk.old).begun) result }
    ensures file { GivesFile (D.outside desk.old).begun name.now (D.outside desk.old) (D.outside desk.new) }
    ensures cause { HasNextCause (D.outside desk.old) (D.outside desk.new) result }
{
    match open_file(alloc, limits, desk, name) {
        Ok(mut reader) => read_formula(alloc, &mut reader, desk, limits),
        Err(error) => Err(error),
    }
}
