//! Lemmas, and how files spell them.
#![tactic(auto)]

mod lemma;
mod literals;
mod witnesses;
mod write;

pub use lemma::{DsrLine, Lemma};
pub use literals::{read_all_literals, read_literals, read_more_literals};
pub use witnesses::{clause_of_list, find_witness};
pub use write::put_clause;
