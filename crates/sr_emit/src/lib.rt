//! What a run answers: its outcome, the status of the process, and the report on standard output.
#![tactic(auto)]

mod counts;
mod files;
mod help;
mod laws;
mod names;
mod outcome;
mod reasons;
mod report;
mod sentences;
mod topic;

pub use counts::Counts;
pub use files::FileNames;
pub use laws::only_verified_says_so;
pub use outcome::{Outcome, UsageKind};
pub use report::{Command, report_bytes, verified_bytes};
pub use topic::{Flaw, Topic};
