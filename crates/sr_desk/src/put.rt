// Writing all the bytes, where a call may take only some of them.
ghost use Rattle.std.specs.Prelude.{◌≡◌, ◌<◌, false, length, IsTrue, OnOk, OnErr};
ghost use Rattle.sr_desk.specs.Outside.{OnlyWrites, HasCause, can_write};
ghost use Rattle.sr_desk.specs.Calls.{Sends, SendsPrefix};

use crate::{CallError, Desk, Slot};

/// Writes all the bytes, in as many calls as it takes.
///
/// # Errors
///
/// [`CallError`] where a call failed. A prefix of the bytes was sent then.
pub fn put_all<D: Desk>(desk: &mut D, slot: Slot, bytes: &[u8]) -> Result<(), CallError>
    requires { IsTrue (can_write (D.outside desk.old) slot.number) }
    ensures ok { OnOk result (Sends ((D.outside desk.old).slot slot.number) ((D.outside desk.new).slot slot.number) bytes.now) }
    ensures err { OnErr result (SendsPrefix ((D.outside desk.old).slot slot.number) ((D.outside desk.new).slot slot.number) bytes.now) }
    ensures only { OnlyWrites slot.number (D.outside desk.old) (D.outside desk.new) }
    ensures finished { 0 < length bytes.now → ((D.outside desk.new).slot slot.number).finished ≡ false }
    ensures cause { HasCause slot.number (D.outside desk.old) (D.outside desk.new) result }
{
    let mut rest = bytes;
    while !rest.is_empty() {
        match desk.write(slot, rest) {
            Ok(count) => rest = &rest[count..],
            Err(_) => return Err(CallError),
        }
    }
    Ok(())
}
