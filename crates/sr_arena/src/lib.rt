//! Clauses in one memory, under references that stay until the memory is compacted.
//!
//! All clauses lie in one region of words of 32 bits, each after two words of its own, and no clause has a block of its
//! own. Contracts see a list of cells by reference: literals, a number of the caller's, a mark and a flag.
#![tactic(auto)]

mod counting;
mod memory;
mod moves;
mod naming;
mod references;
mod regions;
mod sliding;
#[cfg(test)]
mod tests;
mod walking;

pub use counting::Steps;
pub use memory::{ClauseMem, MOST_USED};
pub use moves::CrefMap;
pub use references::{Cref, CrefList};
pub use sr_base::AddError;
