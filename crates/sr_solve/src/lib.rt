//! Search by clause learning, over the proved propagator.
//!
//! What is learned from a conflict is cut out of the reasons of its entries: the attached clauses imply it by unit
//! propagation, and none of them is a subset of it.
#![tactic(auto)]

mod counting;
mod heap;
mod laws;
mod learning;
mod levels;
mod order;
mod solving;

pub use laws::{over_goes_on, refutation_loads, whole_goes_on};
pub use learning::{Conflict, learn};
pub use levels::{MarkList, add, back_to, close, decide, descend, level_of, restart};
pub use solving::{SolveStop, Solved, solve};
