//! The words that every layer speaks: literals, clauses, lists, limits, and the names of refusals.
#![tactic(auto)]

mod clauses;
mod limits;
mod lists;
mod literal;
mod names;
mod words;

pub use clauses::{Clause, is_short_clause};
pub use limits::{Limits, MOST_BYTES, MOST_CELLS, MOST_IDS};
pub use lists::{ByteList, ClauseId, IdList, Items, LitList, NoMemory};
pub use literal::{Lit, MOST_VARS, has};
pub use names::{AddError, Cause, Form, InputError, LimitKind, TextKind, Which};
pub use words::{Word, as_lits, as_words};
