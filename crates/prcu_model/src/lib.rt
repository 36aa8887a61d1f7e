//! The model that everything else speaks of: operations and what they answer, the dictionary as a fold of updates, and scripts.
#![tactic(auto)]

pub mod dict;
pub mod lists;
pub mod memory;
pub mod operation;
pub mod plain_map;
pub mod scripts;

pub use dict::Dict;
pub use lists::{LineList, RoomyList, ToldList};
pub use memory::NoMemory;
pub use operation::{Line, Op, Reply, Told, Update};
pub use plain_map::PlainMap;
pub use scripts::Scripts;
