//! The top call: it reads the words, runs the command on the outside, reports, and answers the outcome.
#![tactic(auto)]

mod check;
mod demo;
mod proof;
mod report;
mod running;
mod words;

pub use running::{run, run_with};
pub use sr_emit::{Outcome, UsageKind};
