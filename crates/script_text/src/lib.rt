//! The text of scripts: reading it and printing it.
//!
//! Each line is one of these:
//! - nothing at all, or a comment, which begins with `#`;
//! - `script`, which begins one more script: at most 64 in all;
//! - `put K V`, `get K`, `del K` or `set K V`, an operation of the last script: at most 1,048,576 in all scripts. `K` and
//!   `V` are numbers below 2^64 in decimal, without leading zeros, and words are parted by exactly one space.
#![tactic(auto)]

mod error;
mod number;
mod operation;
mod printing;
mod reading;
mod split;

pub use error::ScriptError;
pub use number::{push_number, read_number};
pub use operation::{push_op, read_op};
pub use printing::print;
pub use reading::{parse, parse_up_to};
pub use split::{next_line, split_at_first};
