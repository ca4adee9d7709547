//! The definitions that every contract speaks in, and their laws.
//!
//! Each file of specs/ defines what it is named for. A law is the contract of a function with no body.
#![tactic(auto)]

mod images;
mod laws;
mod plain;
mod tokens;
mod verdict;

pub use images::Image;
pub use laws::{
    binary_items_read_again, binary_lines_read_again, closed_chain_refutes, empty_is_sound,
    formulas_are_spelled, formulas_read_again, item_files_read_again, items_read_again,
    line_files_read_again, lines_read_again, met_is_sound, numbers_are_shortest,
    numbers_read_again, read_items_have_pivots, read_lines_have_pivots, redundancy_is_sound,
    redundancy_keeps, refutation_is_sound, rejection_keeps_live, rup_holds, selections_read_again,
    strict_is_verified, taking_judges, taking_keeps_live, unclosed_chain_keeps,
    verification_keeps_live, verified_is_unsat,
};
pub use plain::{has_no_literal, refutes_plain};
pub use tokens::{Token, Word};
pub use verdict::Verdict;
