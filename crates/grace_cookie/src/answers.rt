//! What is answered about a cookie.

use prcu_marks::Why;

/// What `ask` answers.
#[derive(Clone, Copy)]
pub enum Ask {
    /// Each reader with one of the wait's keys has left that read when the cookie was started.
    Over,
    /// This call found a reader that the wait is for, or a count or a stamp that may be one's.
    NotYet { why: Why },
    /// The place has begun a later wait: this is how many it had begun before the latest one.
    GivenUp { latest: u64 },
}
