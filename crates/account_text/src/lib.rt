//! Accounts: what every script was told, with its number, the history, and the final pairs. They are numbered, printed,
//! read and checked here.
#![tactic(auto)]

mod checking;
mod judging;
mod key_index;
pub mod laws;
mod numbering;
mod printing;
mod reading;
mod timeline;
mod turns;
mod wrong_lines;

pub use checking::check;
pub use judging::{is_explained, is_legal};
pub use numbering::{fronts, make_account};
pub use printing::{push_last_number, push_pairs, write_account};
pub use reading::{Claimed, read_account};
pub use wrong_lines::{Place, first_wrong_line};
