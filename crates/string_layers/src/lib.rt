//! Why strings in layers over one index are a map. The functions of `laws` have no body; their promises are the laws.
#![tactic(auto)]

pub mod laws;
