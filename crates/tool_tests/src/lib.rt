//! Tests of the top call. They stand in a crate of their own, so that the other tests are proved beside the tool and not behind it.
#![tactic(auto)]

#[cfg(test)]
mod same;
#[cfg(test)]
mod tool;
