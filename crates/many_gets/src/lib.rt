//! Many lookups at once by one thread: it goes on with each of them in turn, so that it waits for several words of memory together and not
//! for one after another.
#![tactic(auto)]

mod lane;
mod many;

pub use many::{MOST_LANES, get_many};
