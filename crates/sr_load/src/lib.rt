//! Loading a proof by lemmas, and taking it back.
#![tactic(auto)]

mod buckets;
mod by_hash;
mod copies;
mod counting;
mod deleting;
mod finding;
mod hashing;
mod holding;
mod levels;
mod loaded;
mod loader;
mod numbers;
mod progress;
mod proof;
mod records;
mod room;
mod timeline;
mod units;

pub use loaded::Loaded;
pub use loader::Loader;
pub use progress::{LoadError, Progress};
pub use proof::LoadedProof;
