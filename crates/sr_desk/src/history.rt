// Bytes that contracts see and no code holds.
ghost use Rattle.std.specs.Prelude.{◌≡◌, ◌++◌, ℕ, List, []};

use std::marker::Model;

/// The bytes that went through a slot, for contracts alone: at run time it is one byte, and its
/// methods do nothing.
#[derive(Drop)]
pub(crate) struct History {
    unit: u8,
    ghost bytes: { List ℕ },
}

impl Model for History {
    ghost use Rattle.std.specs.Prelude.{ℕ, List};
    ghost use Rattle.std.specs.Borrow.{ftrue};

    ghost Value = { List ℕ };

    ghost view = { λ h. h.bytes };

    ghost also_owns = { λ _. ftrue };
}

impl History {
    pub(crate) fn new() -> History
        ensures { result ≡ [] }
    {
        History { unit: 0 }
    }

    pub(crate) fn add(&mut self, _bytes: &[u8])
        ensures { self.new ≡ self.old ++ _bytes.now }
    {}
}
