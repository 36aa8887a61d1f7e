//! The search tree's table: its shared words, the seats that step on them, one call for each kind of atomic step, and the trait of the
//! ways to wait.
#![tactic(auto)]

mod access;
pub mod laws;
mod listed;
mod notes;
mod rule;
mod scan;
mod seat;
pub mod steps;
mod table;
mod told;
mod wait;
mod waiter;

pub use core_state::Part;
pub use listed::Listed;
pub use notes::MOST_NOTED;
pub use scan::next_slot;
pub use seat::Seat;
pub use table::{CitrusTable, words_of};
pub use wait::{Grace, Poll, WaitPart, wait_for_readers, wait_in_grace};
pub use waiter::WaitWords;
