//! The program `sr`: it runs the words of the command line, and ends with the status of the outcome.
#![tactic(auto)]

use sr_end::{Ended, end};

fn main(rt: HostRuntime) -> Ended {
    end(rt)
}
