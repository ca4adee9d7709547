//! Unit propagation over clauses that the propagator holds.
//!
//! A propagator keeps a list of entries: literals that were assumed, and literals that a clause forces by the
//! entries before. Clauses are held under references, and those that are attached propagate.
#![tactic(auto)]

mod attaching;
mod chains;
mod closing;
mod cutting;
mod examining;
mod marks;
mod needed;
mod parting;
mod parts;
mod propagator;
mod purging;
mod queue;
mod reasons;
mod scanning;
mod settling;
mod spares;
#[cfg(test)]
mod tests;
mod trail;
mod walking;
mod watches;

pub use parts::{Found, Part};
pub use propagator::Propagator;
pub use sr_arena::{Cref, CrefList, Steps};
