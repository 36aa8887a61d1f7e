//! Scripts that run on one tree, snapshots of a key range that are taken beside them one after another, and the text of an account with
//! four of them.
#![tactic(auto)]

mod pauses;
mod running;
mod snapshot;
mod writing;

pub use running::{WatchedRun, run_watched};
pub use snapshot::{Snapshot, Snapshots};
pub use writing::make_watch_text;
