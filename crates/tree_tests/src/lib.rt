//! Tests of the tree's table and waiters, of the tree, and of its lifts.
#![tactic(auto)]

#[cfg(test)]
mod lifts;
#[cfg(test)]
mod merged;
#[cfg(test)]
mod same;
#[cfg(test)]
mod scripts;
#[cfg(test)]
mod table;
#[cfg(test)]
mod tree;
