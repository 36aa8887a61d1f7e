//! Tests of the model, of intervals, of sources and sinks, of texts, of workers, of the machine, and of the hash dictionary. Tests stand here,
//! in `tree_tests` and in `tool_tests`, and not in the crates that they are of, since tests are proved together with all functions of their
//! crate; and in few crates, since each reads what it needs of std anew.
#![tactic(auto)]

#[cfg(test)]
mod hash;
#[cfg(test)]
mod intervals;
#[cfg(test)]
mod machine;
#[cfg(test)]
mod model;
#[cfg(test)]
mod same;
#[cfg(test)]
mod scripts;
#[cfg(test)]
mod streams;
#[cfg(test)]
mod texts;
#[cfg(test)]
mod workers;
