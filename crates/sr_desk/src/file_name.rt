// Names of files that contracts see and no code holds.
ghost use Rattle.std.specs.Prelude.{◌≡◌, Some, None};
ghost use Rattle.sr_desk.specs.Names.{no_names};

use crate::history::History;
use std::marker::Model;

/// The name of a file, or none, for contracts alone: no code holds its bytes.
#[derive(Drop)]
pub struct FileName {
    bytes: History,
    is_known: bool,
}

impl Model for FileName {
    ghost use Rattle.std.specs.Prelude.{ℕ, List, Option};
    ghost use Rattle.sr_desk.specs.Names.{name_of};

    ghost Value = { Option (List ℕ) };

    ghost view = { name_of };
}

impl FileName {
    pub fn none() -> FileName
        ensures { result ≡ None }
    {
        FileName {
            bytes: History::new(),
            is_known: false,
        }
    }

    pub fn of(name: &str) -> FileName
        ensures { result ≡ Some name.now }
    {
        let mut bytes = History::new();
        bytes.add(name.as_bytes());
        FileName {
            bytes,
            is_known: true,
        }
    }
}

/// The names of nine slots none of which was begun.
pub fn no_names() -> [FileName; 9]
    ensures { result ≡ no_names }
{
    [
        FileName::none(),
        FileName::none(),
        FileName::none(),
        FileName::none(),
        FileName::none(),
        FileName::none(),
        FileName::none(),
        FileName::none(),
        FileName::none(),
    ]
}
