//! The shape that a tree has after its keys came in some order, and what the puts took.

mod growing;
mod measuring;
mod order;
mod ways;

pub use measuring::{MOST_ROUNDS, measure_all};
