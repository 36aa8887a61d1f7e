//! What needs no dictionary: the words of the command line, how many slots scripts share, the parts of an input, and how a call ended.
#![tactic(auto)]

mod arguments;
mod commands;
mod line_faults;
mod parts;
mod slots;
mod statuses;

pub use commands::{Command, Mode, command_of};
pub use line_faults::{LineFault, fault_of, line_of};
pub use parts::parts_of;
pub use slots::{default_slots, slots_for};
pub use statuses::{Detail, Status, tell};
