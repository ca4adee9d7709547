//! The steps that a backward pass keeps, in flat lists.
#![tactic(auto)]

mod place;
mod table;
#[cfg(test)]
mod tests;

pub use table::StepTable;
