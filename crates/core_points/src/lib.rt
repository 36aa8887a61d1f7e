//! What a caller of the tree does and knows at each point of each call, as plain data.
#![tactic(auto)]

pub mod laws;
pub mod stage;
