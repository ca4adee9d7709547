//! Proofs by hints: LRAT's steps and deletions, with witnesses, and groups of hints for the clauses
//! that they touch (Codel, Avigad and Heule 2024), read and written in text and in binary.
#![tactic(auto)]

mod drops;
mod hints;
mod items;
mod lists;
mod reader;
mod sizes;
mod steps;
#[cfg(test)]
mod tests;
mod write;

pub use reader::ItemReader;
pub use write::item_bytes;
