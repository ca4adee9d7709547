//! Beginning a file, loading the formula, what is answered where a file isn't read, and writing a file.
#![tactic(auto)]

mod files;
mod outcomes;
mod write;

pub use files::{load_formula, open_file};
pub use outcomes::outcome_of;
pub use write::write_file;
