//! What calls that are made beside each other leave behind: the one list of marks of readers, waits and updates; what a call of a
//! caller adds to it, what a chain of calls does, and how such chains make an account; the traits `Client` and `Gate`; and what a split
//! gives away.
#![tactic(auto)]

pub mod access;
pub mod client;
pub mod commit;
pub mod mark;
pub mod share;

pub use access::Access;
pub use client::{Client, Gate, OpenGate, Point};
pub use commit::Commit;
pub use mark::{Mark, Side, Why};
pub use share::Share;
