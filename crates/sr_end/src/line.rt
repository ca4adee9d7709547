// The words of the command line, as the system hands them out.
ghost use Rattle.std.specs.Prelude.{◌≡◌, map, string_bytes};
ghost use Rattle.sr_end.specs.Words.{words_of, Takes, status_without};

use std::alloc::Global;
use std::env;
use std::env::{Args, Env};
use std::io::{self, ErrorKind};

/// The status where memory runs out.
const NO_MEMORY: u8 = 7;
/// The status where the words of the command line can't be read.
const NO_WORDS: u8 = 9;

/// The arguments of the process, the program's name first. Only `read` makes one, of what the system hands out.
#[derive(Drop)]
pub(crate) struct CommandLine {
    args: Vec<String>,
}

/// Why there are no words: memory ran out, or the system doesn't hand them out. Only `read` makes one.
#[derive(Drop)]
pub(crate) struct NoWords {
    is_memory: bool,
}

/// What the system hands out.
pub(crate) fn read(rt: &(impl Env + AllocGlobal)) -> Result<CommandLine, NoWords> {
    take(rt.alloc(), env::args(rt))
}

/// The arguments, if they were handed out and there is memory for the list of them.
fn take(alloc: Global, handed_out: io::Result<Args>) -> Result<CommandLine, NoWords>
    ensures { Takes handed_out result }
{
    match handed_out {
        Ok(args) => match args.collect(alloc) {
            Ok(args) => Ok(CommandLine { args }),
            Err(_) => Err(NoWords { is_memory: true }),
        },
        Err(e) => Err(NoWords {
            is_memory: e.kind() == ErrorKind::OutOfMemory,
        }),
    }
}

impl CommandLine {
    /// The words without the program's name.
    pub(crate) fn words(&self) -> &[String]
        ensures { map string_bytes result.now ≡ words_of self.now }
    {
        match self.args.as_slice() {
            [] => &[],
            [_, words @ ..] => words,
        }
    }
}

impl NoWords {
    /// The status with which the process ends then.
    pub(crate) fn status(&self) -> u8
        ensures { result ≡ status_without self.now }
    {
        if self.is_memory { NO_MEMORY } else { NO_WORDS }
    }
}
