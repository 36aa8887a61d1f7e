//! Slots of the search tree's table, and their locks: free slots are taken and given back, locks are held for a while, and slots that were
//! unlinked go back after a wait for everybody, or are used again by their own place.
#![tactic(auto)]

mod answers;
mod locks;
pub mod patient;
mod reclaiming;
mod reusing;
mod slots;
mod steadfast;
mod taking;

pub use answers::{Lock, Reserve, Seize, Taken};
pub use locks::{try_lock, unlock};
pub use reclaiming::give_back;
pub use reusing::reuse;
pub use slots::{put_back, reserve, retire, seize};
pub use steadfast::{reclaim, take};
