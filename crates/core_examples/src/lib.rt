//! Runs of the tree's core on literal words, step by step from a fresh table on: each kind's needs can be met. It has no function to
//! call.
#![tactic(auto)]
