//! What `trim` writes, `check` verifies: laws over the definitions of the two commands, and over two runs.
#![tactic(auto)]

mod laws;

pub use laws::{trim_then_check, trimmed_is_accepted};
