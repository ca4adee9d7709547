//! Laws of proofs that are tested forward, joined, tightened and pruned.
#![tactic(auto)]

mod forward;
mod joining;
mod parts;
mod pruning;
mod tight;

pub use forward::{forward_goes_on, forward_is_determined, forward_is_loading, forward_is_unsat};
pub use joining::{
    goal_is_sound, joined_have_pivots, joined_is_judged, joined_keeps_live, joined_reaches_goal,
    raised_is_judged,
};
pub use parts::{
    all_parts_cover, part_is_loading, parts_decide, parts_make_whole, runs_make_whole,
};
pub use pruning::{plain_needs_no_deletions, pruned_is_of_proof, pruned_is_verified};
pub use tight::{tight_is_determined, tight_stands};
