//! The search tree: lookups and updates by callers that each step with a seat of their own. Lookups take no lock; updates lock the few
//! nodes that they touch; a delete of a node with two children waits for just the readers that may be on their way to the successor.
#![tactic(auto)]

mod answer;
mod commit;
mod comparing;
mod delete;
mod descent;
mod holding;
mod insert;
mod lives;
mod lookup;
pub mod patient;
mod replace;
mod search;
mod steadfast;

pub use answer::Called;
pub use comparing::Compared;
pub use core_points::stage::Spot;
pub use delete::Removed;
pub use descent::{Descent, Links, Step, descend, load_links, look_on};
pub use holding::{hold, release};
pub use insert::Reuse;
pub use lookup::get;
pub use search::{End, Hop, Search};
pub use steadfast::{call, compare, del, put, remove, set};
