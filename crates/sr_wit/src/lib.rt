//! The values that the formats read and write: formulas, witnesses, steps and deletions.
//!
//! A substitution is seen as the witness that it writes, and answers as the substitution of that witness.
#![tactic(auto)]

mod formula;
mod group;
mod item;
mod part_table;
mod parts;
mod reduce;
mod step;
mod subst;

pub use formula::Formula;
pub use group::GroupList;
pub use item::{ItemList, LsrItem, StepList};
pub use reduce::Reduced;
pub use sr_model::Image;
pub use step::{Step, StepLists};
pub use subst::{Subst, SubstFault};
