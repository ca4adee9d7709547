// A run of the words of a command line.
ghost use Rattle.std.specs.Prelude.{◌≡◌};
ghost use Rattle.sr_desk.specs.Host.{IsUnused};
ghost use Rattle.sr_end.specs.Words.{words_of};
ghost use Rattle.sr_end.specs.Runs.{IsRun, HasRun};

use crate::line::CommandLine;
use sr_cli::Outcome;
use sr_desk::Desk;
use std::alloc::Global;

/// What a run of the words of a command line came to. It keeps the outside as the run left it, of which nothing was used
/// before. Only `run` makes one.
#[derive(Drop)]
pub(crate) struct Ran<D: Desk> {
    pub line: CommandLine,
    pub desk: D,
    pub outcome: Outcome,
    ghost runs: { ∥ HasRun (words_of line) (D.outside desk) outcome ∥₁ },
}

/// Runs the words on the outside.
pub(crate) fn run<D: Desk>(alloc: Global, line: CommandLine, desk: D) -> Ran<D>
    requires { IsUnused (D.outside desk) }
    ensures line { result.line ≡ line }
    ensures runs { IsRun (words_of line) (D.outside desk) (D.outside result.desk) result.outcome }
{
    let mut desk = desk;
    let outcome = sr_cli::run(alloc, line.words(), &mut desk);
    Ran {
        line,
        desk,
        outcome,
    }
}
