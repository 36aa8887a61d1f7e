//! Operations on the tree, for each waiter in one, two and four threads.

mod measuring;
mod mix;
mod work;

pub use measuring::{MOST_ROUNDS, measure_all};
