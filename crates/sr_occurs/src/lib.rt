//! Lists of clause numbers by literal, and the candidates of a witness.
//!
//! They speak of any clauses whose numbers a table leads from. A clause enters with its literals; it leaves where the table
//! no longer leads from its number, and its lists lose the number when they are next read.
#![tactic(auto)]

mod candidates;
mod number_list;
mod occurrences;
#[cfg(test)]
mod tests;

pub use candidates::gather_candidates;
pub use occurrences::Occurrences;
