//! The checker of proofs by hints.
//!
//! It takes the items of a proof one by one, and keeps the clauses that are live and the verdict.
#![tactic(auto)]

mod chains;
mod checker;
mod dead;
mod groups;
mod listing;
mod live;
mod meeting;
mod reading;
mod storage;
#[cfg(test)]
mod tests;
mod trail;
mod walk;
mod witness;

pub use checker::{Checker, TakeError};
pub use sr_model::Verdict;
