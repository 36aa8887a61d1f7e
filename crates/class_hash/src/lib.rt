//! A hash dictionary of 64 buckets. Lookups take no lock, updates hold the lock of their bucket, and a slot is used again
//! after a wait for the readers of its class alone.
#![tactic(auto)]

mod access;
mod bucket;
mod client;
mod dictionary;
mod puts;
mod rule;
mod search;
mod seat;
mod sections;
mod steps;
mod stocks;
mod table;
mod told;
mod updates;
mod walk;

pub use bucket::{Lock, Poll, free_bucket, lists, poll_class, try_bucket};
pub use client::{HashClient, chains_meet_fronts};
pub use dictionary::{del, get, put, set};
pub use seat::HashSeat;
pub use sections::{enter, leave};
pub use table::HashTable;
