//! Sections, and waits while nobody reads, for each waiter in one, two and four threads.

mod measuring;
mod work;

pub use measuring::{MOST_ROUNDS, measure_all};
