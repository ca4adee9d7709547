//! How the process ends: the words of the command line are run on the real outside, and the status is that of the outcome.
#![tactic(auto)]

mod ending;
mod line;
mod ran;
mod shipped;

pub use ending::{Ended, end};
pub use shipped::shipped_limits;
