//! Scripts that run beside each other on one tree, whatever its waiter; and a client of the tree that holds a cookie: it gives its retired
//! slots back by it, where it is over before the place begins another wait.
#![tactic(auto)]

mod client;
mod cookie_client;
pub mod cookie_laws;
mod crew;
mod gathering;
mod running;
mod settling;

pub use client::tickets_for;
pub use cookie_client::CookieClient;
pub use running::{RunWith, SeatRun, TreeRun, run_on, run_scripts};
