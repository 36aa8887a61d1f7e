//! Scripts that are run beside each other, each by a client of its own, and the one history of what they were told.
#![tactic(auto)]

mod merging;
mod running;
mod worker;

pub use merging::merge;
pub use running::run_all;
pub use worker::Worker;
