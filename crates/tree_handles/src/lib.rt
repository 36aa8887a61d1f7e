//! A concurrent ordered index from numbers to numbers by handles: the CITRUS tree, with one of its three waiters, for programs that hand a
//! pointer about. `citrus_c` exports these calls to C.
//!
//! No call has a `requires`: each misuse that a handle or an argument shows is answered with a status.
#![tactic(auto)]

mod answers;
mod any_caller;
mod any_lanes;
mod begun;
mod caller;
mod calls;
mod front_queue;
mod handle;
mod holds;
mod keeper;
mod lane_room;
mod lane_seats;
mod lanes;
pub mod laws;
mod lists;
mod opening;
mod opening_lanes;
mod parts;
mod reopening;
mod shared;
mod sharing;
mod spinning;
mod stats;
mod status;
mod tidying;
mod updates;

pub use answers::Answer;
pub use handle::Handle;
pub use lanes::Lanes;
pub use lists::Pair;
pub use opening::Options;
pub use stats::Stats;
pub use status::Status;
