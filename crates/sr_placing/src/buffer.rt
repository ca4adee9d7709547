// A file that is written through a buffer of fixed size.
ghost use Rattle.std.specs.Prelude.{◌≡◌, ◌+◌, ◌≤◌, true, false, [], length, IsTrue, IfOk, OnOk, OnErr, vec_capacity};
ghost use Rattle.sr_desk.specs.Outside.{can_write};
ghost use Rattle.sr_placing.specs.Sinking.{FileState, FilePuts, kept};

use crate::sink::Sink;
use sr_base::NoMemory;
use sr_desk::{CallError, Desk, Slot, put_all};
use std::alloc::Global;
use std::marker::Model;

/// So many bytes are sent at once.
const ROOM: usize = 65_536;

/// A buffer through which files are written, one after another. Once it is made it takes no memory.
#[derive(Drop)]
pub struct Buffer {
    slot: Slot,
    bytes: Vec<u8>,
    failed: bool,
}

impl Model for Buffer {
    ghost use Rattle.std.specs.Prelude.{◌≤◌, vec_len, vec_capacity};
    ghost use Rattle.sr_placing.specs.Sinking.{FileState};

    ghost Value = { FileState };

    ghost view = { λ b. record { slot = b.slot.number; buffered = b.bytes.items; failed = b.failed } };

    ghost invariant = { λ b. (vec_len b.bytes ≤ 65536) × (65536 ≤ vec_capacity b.bytes) };
}

impl Buffer {
    /// An empty buffer.
    pub fn new(alloc: Global) -> Result<Buffer, NoMemory>
        ensures { IfOk result (λ b. b ≡ record { slot = 8; buffered = []; failed = false }) }
    {
        let Ok(bytes) = Vec::with_capacity(alloc, ROOM) else {
            return Err(NoMemory);
        };
        Ok(Buffer {
            slot: Slot::OUT,
            bytes,
            failed: false,
        })
    }

    /// Begins to write to a slot. What was buffered is lost.
    pub(crate) fn begin(&mut self, slot: Slot)
        ensures { self.new ≡ record { slot = slot.number; buffered = []; failed = false } }
    {
        self.slot = slot;
        self.bytes.clear();
        self.failed = false;
    }

    /// Sends what is buffered.
    fn flush<D: Desk>(&mut self, desk: &mut D)
        requires can { IsTrue (can_write (D.outside desk.old) self.old.slot) }
        requires goes_on { self.old.failed ≡ false }
        ensures puts { FilePuts self.old (D.outside desk.old) self.new (D.outside desk.new) [] }
        ensures sent { self.new.buffered ≡ [] }
    {
        if put_all(desk, self.slot, self.bytes.as_slice()).is_err() {
            self.failed = true;
        }
        self.bytes.clear();
    }

    /// Sends what is buffered where there isn't room for so many bytes more.
    fn make_room<D: Desk>(&mut self, desk: &mut D, more: usize)
        requires can { IsTrue (can_write (D.outside desk.old) self.old.slot) }
        requires few { more ≤ 65536 }
        ensures puts { FilePuts self.old (D.outside desk.old) self.new (D.outside desk.new) [] }
        ensures room { self.new.failed ≡ false → length self.new.buffered + more ≤ 65536 }
    {
        if !self.failed && more > ROOM - self.bytes.len() {
            self.flush(desk);
        }
    }

    /// Buffers bytes for which there is room, unless a call has failed.
    fn keep(&mut self, bytes: &[u8])
        requires { self.old.failed ≡ false → length self.old.buffered + length bytes.now ≤ 65536 }
        ensures { self.new ≡ kept self.old bytes.now }
    {
        if !self.failed && self.bytes.extend_from_slice(bytes).is_err() {
            self.failed = true;
        }
    }

    /// Sends what is buffered, and says whether a call has failed.
    pub(crate) fn end<D: Desk>(&mut self, desk: &mut D) -> Result<(), CallError>
        requires { IsTrue (can_write (D.outside desk.old) self.old.slot) }
        ensures puts { FilePuts self.old (D.outside desk.old) self.new (D.outside desk.new) [] }
        ensures ok { OnOk result ((self.new.failed ≡ false) × (self.new.buffered ≡ [])) }
        ensures err { OnErr result (self.new.failed ≡ true) }
    {
        if self.failed {
            return Err(CallError);
        }
        self.flush(desk);
        if self.failed {
            return Err(CallError);
        }
        Ok(())
    }
}

impl<D: Desk> Sink<D> for Buffer {
    ghost use Rattle.sr_placing.specs.SinkLaws.{file_stays, file_none, file_joined};

    ghost can_put = { λ s o. IsTrue (can_write (D.outside o) s.slot) };

    ghost puts = { λ s o t p x. FilePuts s (D.outside o) t (D.outside p) x };

    fn put(&mut self, desk: &mut D, bytes: &[u8]) {
        self.make_room(desk, bytes.len());
        self.keep(bytes);
    }

    ghost stays = { λ s t o p x can put. file_stays s (D.outside o) t (D.outside p) x can put };

    ghost none = { λ s o. file_none s (D.outside o) };

    ghost joined = { λ s t u o p q x y a b. file_joined s (D.outside o) t (D.outside p) u (D.outside q) x y a b };
}
