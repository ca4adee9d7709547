//! What trimming writes: the steps that a backward pass keeps, as a proof by hints in which each clause is deleted after its
//! last use, and the clauses of the formula that are cited.
#![tactic(auto)]

mod buffer;
mod bytes;
mod chains;
mod core_text;
mod counts;
mod length;
mod placing;
mod sink;
mod spelling;
mod step;
#[cfg(test)]
mod tests;
mod uses;
mod write;

pub use buffer::Buffer;
pub use core_text::{core_bytes, core_length, write_core};
pub use counts::{Sizes, statistics};
pub use placing::Placing;
pub use write::{lsr_bytes, lsr_length, write_lsr};
