//! The pigeonhole principle: the formula that n + 1 pigeons sit in n holes, no two in the same one, and a short proof that it has
//! no solution, by lemmas whose witnesses swap two pigeons (Buss and Thapen 2019).
#![tactic(auto)]

mod formula;
mod laws;
mod literals;
mod proof;
#[cfg(test)]
mod tests;

pub use formula::holes_formula;
pub use laws::{
    formula_asks_for_seating, formula_has_clauses, formula_reads_again, pigeons_dont_fit,
    seats_differ, shipped_limits_suffice,
};
pub use literals::MOST_HOLES;
pub use proof::holes_proof;
