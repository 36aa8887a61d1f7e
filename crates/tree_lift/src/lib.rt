//! The tree is kept shallow: a call that a caller makes after an update whose way was deep. On the way to a key it lets a node and its child
//! change places where the child is to stand above. The dictionary stays as it was. A client makes its calls so. By the same step a node is
//! turned down, until it can be taken out with no wait for readers.
#![tactic(auto)]

mod calling;
mod client;
mod finding;
pub mod laws;
mod lifting;
mod room;
mod rule;
mod sinking;
mod trying;

pub use calling::call_and_lift;
pub use client::TreeClient;
pub use lifting::{Aim, Lifted, Stop, lift};
pub use room::give_all_back;
pub use rule::{attempts_behind, is_deep, is_far_too_deep, most_depth, most_keys, rises_above};
pub use sinking::{Sunk, turn_down};
