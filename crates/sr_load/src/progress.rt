// Where loading stands, and why a line isn't taken.
use sr_base::{ClauseId, NoMemory};
use thiserror::Error;

/// Where loading stands.
#[derive(Clone, Copy, Debug, PartialEq, Eq)]
pub enum Progress {
    /// The clauses don't conflict, and no lemma is empty.
    Going,
    /// Unit propagation refutes the alive clauses.
    Conflict,
    /// The lemma of this number, the last one, is empty.
    EmptyLemma(ClauseId),
}

/// Why a formula or a line isn't taken. A loader is then as it was.
#[derive(Clone, Copy, Debug, PartialEq, Eq, Error)]
pub enum LoadError {
    /// The number of the lemma, with one more for the last step, would pass the limit.
    #[error("the limit of clause numbers is passed")]
    Ids,
    /// The clauses of the formula and all lemmas would be held in more cells than the limit.
    #[error("the limit of cells is passed")]
    Cells,
    #[error("out of memory")]
    NoMemory,
}

impl From<NoMemory> for LoadError {
    ghost use Rattle.std.specs.Prelude.{◌≡◌};
    ghost use Rattle.sr_load.specs.declared.progress.LoadError.TheVariants.{NoMemory};

    ghost from_gives = { λ _ e. e ≡ NoMemory };

    fn from(_fault: NoMemory) -> LoadError {
        LoadError::NoMemory
    }
}
