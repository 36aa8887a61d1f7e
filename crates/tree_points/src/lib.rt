//! What a call of the tree knows at each of its points, over the tree's table. There are no calls here; what is promised is in `laws`.
#![tactic(auto)]

pub mod laws;
