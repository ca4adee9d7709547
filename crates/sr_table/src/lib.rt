//! Tables from clause numbers to numbers, and sets of clause numbers.
//!
//! Clause numbers may be far apart, as deletions leave them, so a table has pages. A set tells at once whether a number is in
//! it, and is emptied without touching its numbers.
#![tactic(auto)]

mod id_set;
mod pages;
#[cfg(test)]
mod tests;

pub use id_set::IdSet;
pub use pages::IdTable;
