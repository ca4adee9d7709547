//! `trim` from files to files: the formula and the proof are read, and what is needed of the proof is written.
#![tactic(auto)]

mod loading;
mod passing;
mod reading;
mod ready;
mod reporting;
mod trim;
mod words;
mod writing;

pub use reporting::Wanted;
pub use trim::{Trimmed, trim_between, trim_files};
pub use words::TrimWords;
