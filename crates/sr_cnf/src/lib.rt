//! Formulas in the DIMACS CNF format.
#![tactic(auto)]

mod clause;
mod read;
mod reading;
mod write;

pub use read::read_formula;
pub use write::write_formula;
