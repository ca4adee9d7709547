// The words of the command line, run on the real outside.
ghost use Rattle.std.specs.Prelude.{◌≡◌};
ghost use Rattle.std.specs.Process.{exit_status};
ghost use Rattle.sr_end.specs.Ends.{IsEndOf, Ends, end_status};

use crate::line::{CommandLine, NoWords, read};
use crate::ran::{Ran, run};
use sr_desk::HostDesk;
use std::io::Eprint;
use std::process::{ExitCode, Termination};

/// How the process ends: with what a run of the words of its command line came to, or without words. Only `end` makes one, so
/// a `main` that returns it has run them.
#[derive(Drop)]
pub struct Ended {
    by: Result<Ran<HostDesk<HostRuntime>>, NoWords>,
}

impl Termination for Ended {
    fn report<R: Eprint>(self, _rt: &R) -> ExitCode
        ensures ends { Ends self.by }
        ensures status { exit_status result ≡ end_status self.by }
    {
        match self.by {
            Ok(ran) => ExitCode::from(ran.outcome.status()),
            Err(none) => ExitCode::from(none.status()),
        }
    }
}

/// Runs the words, where there are some.
fn run_words(line: Result<CommandLine, NoWords>, rt: HostRuntime) -> Ended
    ensures { IsEndOf line result.by }
{
    match line {
        Ok(line) => Ended {
            by: Ok(run(rt.alloc(), line, HostDesk::new(rt))),
        },
        Err(none) => Ended { by: Err(none) },
    }
}

/// Runs the words of the command line on the real outside. The status is that of the outcome; it is 7 where there is no memory
/// for the words, and 9 where the system doesn't hand them out.
pub fn end(rt: HostRuntime) -> Ended
    ensures { Ends result.by }
{
    run_words(read(&rt), rt)
}
