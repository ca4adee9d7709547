// Bytes in memory.
ghost use Rattle.std.specs.Prelude.{◌≡◌, true, false, [], IfOk};
ghost use Rattle.sr_placing.specs.Sinking.{ListState, ListPuts};

use crate::sink::Sink;
use sr_base::{ByteList, NoMemory};
use std::alloc::Global;
use std::marker::Model;

/// Bytes that are put into memory.
#[derive(Drop)]
pub struct Bytes {
    list: ByteList,
    failed: bool,
}

impl Model for Bytes {
    ghost use Rattle.sr_placing.specs.Sinking.{ListState};

    ghost Value = { ListState };

    ghost view = { λ b. record { list = b.list; failed = b.failed } };
}

impl Bytes {
    /// No bytes. It takes no memory.
    pub fn new(alloc: Global) -> Bytes
        ensures { result ≡ record { list = []; failed = false } }
    {
        Bytes {
            list: ByteList::new(alloc),
            failed: false,
        }
    }

    /// All that was put, where memory didn't lack.
    pub fn into_list(self) -> Result<ByteList, NoMemory>
        ensures { IfOk result (λ bytes. (self.failed ≡ false) × (bytes ≡ self.list)) }
    {
        let Bytes { list, failed } = self;
        if failed { Err(NoMemory) } else { Ok(list) }
    }
}

impl Sink<()> for Bytes {
    ghost use Rattle.sr_placing.specs.SinkLaws.{list_none, list_joined};

    ghost can_put = { λ s o. Unit {0} };

    ghost puts = { λ s o t p x. ListPuts s t x };

    fn put(&mut self, _out: &mut (), bytes: &[u8]) {
        if self.failed {
            return;
        }
        if self.list.extend(bytes).is_err() {
            self.failed = true;
        }
    }

    ghost stays = { λ s t o p x c u. c };

    ghost none = { λ s o. list_none s };

    ghost joined = { λ s t u o p q x y a b. list_joined s t u x y a b };
}
