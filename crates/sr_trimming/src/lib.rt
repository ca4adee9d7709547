//! What it means to trim a proof: the definitions of loading a proof by lemmas, of the steps that a backward pass over it
//! makes, and of the proof by hints that is written of them, with their laws.
//!
//! Each file of specs/ defines what it is named for. A law is the contract of a function with no body.
#![tactic(auto)]

mod orders;
mod trims;

pub use orders::{
    chains_see_sets, judging_sees_sets, lean_chains_see_sets, lean_steps_see_sets,
    meetings_see_sets, needs_see_sets, order_keeps_limits, pivot_is_put_first, reductions_see_sets,
    redundancy_sees_sets, refutation_sees_sets, rup_sees_sets, steps_keep_limits,
};
pub use trims::{
    backward_to_forward, core_first_to_written, failing_does_not_pass, failing_is_needed,
    lean_is_met, lean_to_forward, lean_to_written, loaded_to_written, loading_is_determined,
    passing_never_fails, steps_from_lemmas_have_pivots, trimmed_by_need, trimmed_is_verified,
    written_is_as_read, written_is_verified,
};
