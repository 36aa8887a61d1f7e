//! Workloads that are made from a number, and the summary of what came of one.
//!
//! No two scripts of a made workload share a key. So what each operation is answered doesn't depend on how the scripts'
//! callers take turns, and each run of a workload has one summary.
#![tactic(auto)]

pub mod drawing;
mod making;
mod printing;
mod summing;

pub use making::make;
pub use printing::write_summary;
pub use summing::{Summary, summary_of};
