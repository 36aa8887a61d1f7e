//! The calls that may have to wait for others, for callers with a patience of their own.

pub use crate::reclaiming::reclaim;
pub use crate::taking::take;
