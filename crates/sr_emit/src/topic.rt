// What help is about, and what is wrong with refused words.
ghost use Rattle.std.specs.Prelude.{◌≡◌};
ghost use Rattle.sr_emit.specs.Flaws.{kind_of_flaw};

use crate::outcome::UsageKind;

/// What help is about, and whose usage is shown where words are refused.
#[derive(Clone, Copy, Debug, PartialEq, Eq)]
pub enum Topic {
    /// The program as a whole.
    General,
    Check,
    Trim,
    Demo,
    /// Its name and version alone.
    Version,
}

/// What is wrong with words that are refused.
#[derive(Clone, Copy, Debug, PartialEq, Eq)]
pub enum Flaw {
    /// There are no words.
    NoCommand,
    /// The first word is no command.
    UnknownCommand,
    /// The command doesn't know a word or an option.
    UnknownWord,
    /// A word that the command needs is missing.
    MissingWord,
    /// An option that may be given once comes twice.
    Repeated,
    /// An option lacks its value.
    MissingValue,
    /// An option that takes no value has one.
    SpareValue,
    /// The name of a form is neither `text` nor `binary`.
    BadForm,
    /// The number of holes is none from 2 to 60.
    BadHoles,
    /// Two of the named files have one name.
    SameName,
}

impl Flaw {
    /// The name that the last line of the report gives to it.
    pub fn kind(self) -> UsageKind
        ensures { result ≡ kind_of_flaw self }
    {
        match self {
            Flaw::NoCommand => UsageKind::NoCommand,
            Flaw::UnknownCommand => UsageKind::UnknownCommand,
            Flaw::SameName => UsageKind::SameName,
            Flaw::UnknownWord => UsageKind::Words,
            Flaw::MissingWord => UsageKind::Words,
            Flaw::Repeated => UsageKind::Words,
            Flaw::MissingValue => UsageKind::Words,
            Flaw::SpareValue => UsageKind::Words,
            Flaw::BadForm => UsageKind::Words,
            Flaw::BadHoles => UsageKind::Words,
        }
    }
}
