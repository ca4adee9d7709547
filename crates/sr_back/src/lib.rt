//! The backward pass over a loaded proof: lines are taken back from the last one, and for each lemma that a later step cites
//! a step by hints is found, by unit propagation or by its witness.
#![tactic(auto)]

mod cited;
mod groups;
mod passing;
mod queue;
mod testing;
#[cfg(test)]
mod tests;

pub use passing::{Back, backward};
