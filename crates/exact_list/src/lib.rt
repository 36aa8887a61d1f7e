//! Exact lists of a key range: the pairs that the dictionary had at one moment, made beside threads that update it. `list` reads without a
//! lock, and may come to nothing; `list_always` then lists while updates wait.
#![tactic(auto)]

mod alone;
mod descent;
mod direction;
mod front;
pub mod laws;
mod listing;
mod nearest;
mod page;
pub mod patient;
mod steadfast;
mod walks;
mod way;

pub use alone::Exact;
pub use listing::Listed;
pub use nearest::{Found, Nearest};
pub use page::Page;
pub use steadfast::{list, list_always, list_always_to, nearest_always};
