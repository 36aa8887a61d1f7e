//! Closed intervals of keys, and the classes of keys.
#![tactic(auto)]

mod keys;

pub use keys::{Keys, class_of};
