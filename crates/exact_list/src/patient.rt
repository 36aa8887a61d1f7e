//! Lists, for callers with a patience of their own: where it ends, so does the call, and the seat is quiet then too. Where others have the front
//! that a list takes, and its patience would rather be called again than wait, it answers busy: nothing is listed, and the seat is quiet.

pub use crate::alone::{list_always, list_always_to};
pub use crate::listing::list;
pub use crate::nearest::nearest_always;
