//! A writer beside a reader that stays in its sections for long, for each waiter, by a client that holds no cookies and by one that does.

mod beside;
mod measuring;
mod rows;
mod tally;

pub use measuring::{MOST_ROUNDS, measure_all};
