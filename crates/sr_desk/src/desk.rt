// The outside: files that are read or written through slots, and standard output.
ghost use Rattle.std.specs.Prelude.{◌≡◌, ◌<◌, ◌≤◌, false, length, IsTrue, IfOk};
ghost use Rattle.sr_desk.specs.Outside.{Outside, OnlyReads, OnlyWrites, HasCause, can_write};
ghost use Rattle.sr_desk.specs.Calls.{BeginsRead, BeginsWrite, ReadHands, WriteAppends, Finishes};

use crate::Slot;
use thiserror::Error;

/// A call on the outside failed. The count of faults of its slot says so too.
#[derive(Clone, Copy, Debug, PartialEq, Eq, Error)]
#[error("a call on a file failed")]
pub struct CallError;

/// The one object of the outside.
///
/// Eight slots can be begun, and standard output is one more. A call answers [`CallError`] only where
/// the count of faults of its own slot rose, or stands at its greatest value; these counts never
/// fall. A call leaves the bytes of every other slot as they were, and a call that fails those of
/// its own too. Contracts see all bytes that a slot gave and was sent, and beside them what is known
/// of its file.
pub trait Desk {
    /// What contracts see of it.
    ghost outside: { Self → Outside };

    /// Begins to read a file from its start. The slot is the next one, also where the call fails.
    fn begin_read(&mut self, name: &str) -> Result<Slot, CallError>
        requires { (outside self.old).begun < 8 }
        ensures begins { BeginsRead (outside self.old) (outside self.new) name.now result }
        ensures cause { HasCause (outside self.old).begun (outside self.old) (outside self.new) result };

    /// Begins to write a file, which is empty then. The slot is the next one, also where the call fails.
    fn begin_write(&mut self, name: &str) -> Result<Slot, CallError>
        requires { (outside self.old).begun < 8 }
        ensures begins { BeginsWrite (outside self.old) (outside self.new) name.now result }
        ensures cause { HasCause (outside self.old).begun (outside self.old) (outside self.new) result };

    /// Moves the next bytes of a slot into the front of the buffer, and says how many. For a buffer
    /// with room that is 0 only at the end.
    fn read(&mut self, slot: Slot, buf: &mut [u8]) -> Result<usize, CallError>
        requires { IsTrue ((outside self.old).slot slot.number).reads }
        ensures within { IfOk result (λ n. n ≤ length buf.new) }
        ensures only { OnlyReads slot.number (outside self.old) (outside self.new) }
        ensures bytes { ReadHands ((outside self.old).slot slot.number) ((outside self.new).slot slot.number) result buf.new }
        ensures cause { HasCause slot.number (outside self.old) (outside self.new) result };

    /// Appends the first bytes of a piece, and says how many: at least one of a piece that isn't empty.
    fn write(&mut self, slot: Slot, piece: &[u8]) -> Result<usize, CallError>
        requires { IsTrue (can_write (outside self.old) slot.number) }
        ensures within { IfOk result (λ n. n ≤ length piece.now) }
        ensures only { OnlyWrites slot.number (outside self.old) (outside self.new) }
        ensures bytes { WriteAppends ((outside self.old).slot slot.number) ((outside self.new).slot slot.number) result piece.now }
        ensures finished { ((outside self.new).slot slot.number).finished ≡ false }
        ensures cause { HasCause slot.number (outside self.old) (outside self.new) result };

    /// Finishes a slot for writing. No bytes change.
    fn finish(&mut self, slot: Slot) -> Result<(), CallError>
        requires { IsTrue (can_write (outside self.old) slot.number) }
        ensures finishes { Finishes slot.number (outside self.old) (outside self.new) result }
        ensures cause { HasCause slot.number (outside self.old) (outside self.new) result };
}
