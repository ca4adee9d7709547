// The outcome of a run.
ghost use Rattle.std.specs.Prelude.{◌≡◌};
ghost use Rattle.sr_emit.specs.Status.{is_verified, status_of};

use crate::topic::Topic;
use sr_base::{Cause, ClauseId, LimitKind, TextKind, Which};

/// Why the words of the command line are refused.
#[derive(Clone, Copy, Debug, PartialEq, Eq)]
pub enum UsageKind {
    /// There are no words.
    NoCommand,
    /// The first word is no command.
    UnknownCommand,
    /// The command doesn't take the rest of the words.
    Words,
    /// Two of the named files have one name.
    SameName,
}

/// What a run answers.
#[derive(Clone, Copy, Debug, PartialEq, Eq)]
pub enum Outcome {
    /// No assignment satisfies the formula.
    Verified,
    /// The item with this number in front doesn't meet the hint rules.
    RejectedStep {
        id: ClauseId,
        cause: Cause,
    },
    /// A lemma that a later step needs isn't redundant: the clause `against` shows it. Without such a clause, the lemma is
    /// empty, and the clauses before it don't refute it.
    RejectedLemma {
        lemma: ClauseId,
        against: Option<ClauseId>,
    },
    /// The proof ends, and no step has the empty clause.
    NoEmptyClause,
    /// The words of the command line are refused.
    Usage(UsageKind),
    /// A file isn't spelled as its format asks, at this offset in bytes.
    Text {
        which: Which,
        kind: TextKind,
        place: u64,
    },
    /// A limit is passed while this file is read, kept or made.
    Limit {
        which: Which,
        kind: LimitKind,
    },
    /// Beginning to read this file, or reading it, failed.
    SourceFault {
        which: Which,
    },
    /// Beginning to write this file, writing it or finishing it failed.
    SinkFault {
        which: Which,
    },
    /// Memory ran out.
    NoMemory,
    /// Help was asked for, and is shown.
    Helped(Topic),
}

impl Outcome {
    /// Whether no assignment satisfies the formula.
    pub fn is_verified(self) -> bool
        ensures { result ≡ is_verified self }
    {
        matches!(self, Outcome::Verified)
    }

    /// The status with which the process ends: 0 verified or help, 1 rejected, 2 the words, 3 a text, 4 a limit, 5 reading,
    /// 6 writing, 7 memory.
    pub fn status(self) -> u8
        ensures { result ≡ status_of self }
    {
        match self {
            Outcome::Verified => 0,
            Outcome::RejectedStep { .. } => 1,
            Outcome::RejectedLemma { .. } => 1,
            Outcome::NoEmptyClause => 1,
            Outcome::Usage(_) => 2,
            Outcome::Text { .. } => 3,
            Outcome::Limit { .. } => 4,
            Outcome::SourceFault { .. } => 5,
            Outcome::SinkFault { .. } => 6,
            Outcome::NoMemory => 7,
            Outcome::Helped(_) => 0,
        }
    }
}
