//! Proofs by lemmas: DRAT's lemmas and deletions, and lemmas with witnesses (Buss and Thapen 2019; Codel,
//! Avigad and Heule 2024), read and written in text and in binary.
#![tactic(auto)]

mod lines;
mod reader;
mod write;

pub use reader::LineReader;
pub use sr_lemma::{DsrLine, Lemma};
pub use write::line_bytes;
