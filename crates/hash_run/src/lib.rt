//! Scripts that run beside each other on one hash dictionary.
#![tactic(auto)]

mod capacities;
mod crew;
mod gathering;
mod running;

pub use running::{HashRun, run_scripts};
