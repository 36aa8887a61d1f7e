//! What the invariant of the tree's core gives, on the functions of `laws`; and the frames: a step that leaves what a group of the
//! invariant's parts reads keeps that group. The crates above prove with them that each kind of step keeps the invariant.
#![tactic(auto)]

pub mod laws;
