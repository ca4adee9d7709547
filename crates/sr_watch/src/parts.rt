// Parts of the clauses, and what propagation finds.
ghost use Rattle.std.specs.Prelude.{◌≡◌};
ghost use Rattle.sr_watch.specs.Parts.{is_core};

use sr_arena::Cref;
use sr_base::Lit;

/// A part of the attached clauses. A clause of the core belongs to both.
#[derive(Clone, Copy, Debug, PartialEq, Eq)]
pub enum Part {
    /// The clauses that were attached to the core.
    Core,
    /// All attached clauses.
    All,
}

impl Part {
    /// Whether it is the core.
    pub(crate) fn is_core(self) -> bool
        ensures { result ≡ is_core self }
    {
        match self {
            Part::Core => true,
            Part::All => false,
        }
    }
}

/// What propagation finds.
#[derive(Clone, Copy, Debug, PartialEq, Eq)]
pub enum Found {
    /// Nothing more follows, and no literal is true and false.
    Still,
    /// All literals of this clause are false.
    Conflict(Cref),
    /// This literal and its complement are assumed.
    Pair(Lit),
}
