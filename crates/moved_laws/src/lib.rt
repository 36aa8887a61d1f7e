//! Why callers of a table whose pairs moved to another one were told what is so. The functions of `laws` have no body; their promises are the
//! laws.
#![tactic(auto)]

pub mod laws;
