// Opening files of the system, with the names that are told of them.
ghost use Rattle.std.specs.Prelude.{◌≡◌, Some};

use crate::FileName;
use std::fs::{self, Files};

/// What the system answered to a call that opens a file, and the name that the call was made with.
#[derive(Drop)]
pub(crate) struct Opening<F> {
    pub name: FileName,
    pub file: Option<F>,
}

/// Opens a file to read it, by `fs::open` with the name that is told. That the system then opened
/// the file of this name is trusted.
pub(crate) fn open_named<R: Files>(rt: &R, name: &str) -> Opening<R::File>
    ensures { result.name ≡ Some name.now }
{
    Opening {
        name: FileName::of(name),
        file: fs::open(rt, name).ok(),
    }
}

/// Makes a file to write it, which is empty then, by `fs::create` with the name that is told. That
/// the system then made the file of this name is trusted.
pub(crate) fn create_named<R: Files>(rt: &R, name: &str) -> Opening<R::File>
    ensures { result.name ≡ Some name.now }
{
    Opening {
        name: FileName::of(name),
        file: fs::create(rt, name).ok(),
    }
}
