// What is written, gathered before it is sent.
ghost use Rattle.std.specs.Prelude.{IsTrue, OnOk};
ghost use Rattle.sr_desk.specs.Outside.{OnlyWrites};
ghost use Rattle.sr_wit.specs.LsrItems.{item_of};
ghost use Rattle.sr_lsr.specs.Written.{IsSmallItem};

use crate::copying::CopyStop;
use sr_base::{ByteList, Form};
use sr_desk::{Desk, Slot, put_all};
use sr_dsr::{DsrLine, line_bytes};
use sr_lsr::item_bytes;
use sr_wit::LsrItem;
use std::alloc::Global;

/// The most bytes that are gathered.
const ROOM: usize = 65_536;

/// What becomes of a proof.
#[derive(Clone, Copy)]
pub enum Target {
    /// Each item or line is read.
    Read,
    /// And written in this form.
    Written(Form),
}

/// What becomes of a proof, and what wasn't sent yet.
#[derive(Drop)]
pub struct Output {
    pub target: Target,
    pub bytes: ByteList,
}

impl Output {
    pub fn new(alloc: Global, target: Target) -> Output {
        Output {
            target,
            bytes: ByteList::new(alloc),
        }
    }

    /// Writes an item where that is asked for.
    pub fn put_item<D: Desk>(
        &mut self,
        alloc: Global,
        item: &LsrItem,
        desk: &mut D,
    ) -> Result<(), CopyStop>
        requires { IsSmallItem (item_of item.now) }
        ensures { OnlyWrites 8 (D.outside desk.old) (D.outside desk.new) }
    {
        let Target::Written(form) = self.target else {
            return Ok(());
        };
        let Ok(bytes) = item_bytes(alloc, form, item) else {
            return Err(CopyStop::NoMemory);
        };
        self.add(bytes.as_slice(), desk)
    }

    /// Writes a line where that is asked for.
    pub fn put_line<D: Desk>(
        &mut self,
        alloc: Global,
        line: &DsrLine,
        desk: &mut D,
    ) -> Result<(), CopyStop>
        ensures { OnlyWrites 8 (D.outside desk.old) (D.outside desk.new) }
    {
        let Target::Written(form) = self.target else {
            return Ok(());
        };
        let Ok(bytes) = line_bytes(alloc, form, line) else {
            return Err(CopyStop::NoMemory);
        };
        self.add(bytes.as_slice(), desk)
    }

    /// Adds bytes, and sends what was gathered where that is much.
    pub fn add<D: Desk>(&mut self, more: &[u8], desk: &mut D) -> Result<(), CopyStop>
        ensures { OnlyWrites 8 (D.outside desk.old) (D.outside desk.new) }
    {
        if self.bytes.extend(more).is_err() {
            return Err(CopyStop::NoMemory);
        }
        if self.bytes.as_slice().len() < ROOM {
            return Ok(());
        }
        self.send(desk)
    }

    /// Sends what was gathered.
    pub fn send<D: Desk>(&mut self, desk: &mut D) -> Result<(), CopyStop>
        ensures { OnlyWrites 8 (D.outside desk.old) (D.outside desk.new) }
    {
        let sent = put_all(desk, Slot::OUT, self.bytes.as_slice());
        self.bytes.truncate(0);
        match sent {
            Ok(()) => Ok(()),
            Err(_) => Err(CopyStop::Sink),
        }
    }
}
