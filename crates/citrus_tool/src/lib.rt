//! The top call: words and input to output and status.
#![tactic(auto)]

mod details;
pub mod laws;
mod outcome;
mod program;
mod running;
mod top;
mod tree_runs;
mod watching;

pub use command_words::{Command, Detail, Mode, Status, tell};
/// The client that `run --cookies` runs.
pub use outcome::{Outcome, Ran};
pub use program::run_words;
pub use top::tool;
pub use tree_run::CookieClient;
