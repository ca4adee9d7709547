//! The program `sr` once more, for a second stored run: it reads real files, and its status isn't 0.
#![tactic(auto)]

use sr_end::{Ended, end};

fn main(rt: HostRuntime) -> Ended {
    end(rt)
}
