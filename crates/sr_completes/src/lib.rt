//! Where each lemma of a proof passes, `trim` doesn't reject it, and where it rejects one, the evidence stands: laws over the
//! definitions of trimming.
#![tactic(auto)]

mod laws;

pub use laws::{
    found_rejections_stand, loaded_lines_have_pivots, passing_is_trimmed, passing_is_verified,
    rejections_stand,
};
