//! Two texts in memory that are read as files, and no read of which fails.
#![tactic(auto)]

mod standing;
mod sure;
#[cfg(test)]
mod tests;

pub use sure::SureDesk;
