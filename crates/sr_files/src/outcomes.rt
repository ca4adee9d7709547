// What is answered where a file isn't read.
ghost use Rattle.std.specs.Prelude.{◌≡◌};
ghost use Rattle.sr_files.specs.Files.{outcome_by};

use sr_base::{InputError, Which};
use sr_emit::Outcome;

/// The outcome of a file that isn't read.
pub fn outcome_of(which: Which, error: InputError) -> Outcome
    ensures { result ≡ outcome_by which error }
{
    match error {
        InputError::Text { kind, place } => Outcome::Text { which, kind, place },
        InputError::Limit(kind) => Outcome::Limit { which, kind },
        InputError::Source => Outcome::SourceFault { which },
        InputError::NoMemory => Outcome::NoMemory,
    }
}
