//! What the calls answer.

/// What `reserve` answers.
#[derive(Clone, Copy)]
pub enum Reserve {
    /// The free count was the number expected, and is one less.
    Held,
    /// The free count was 0.
    Empty,
    /// The free count was this other number.
    Lost { found: u64 },
}

/// What `seize` answers.
#[derive(Clone, Copy)]
pub enum Seize {
    /// The slot was free, and is in hand.
    Got { generation: u64 },
    /// The slot's state was this number, which isn't that of a free one.
    NotFree { found: u64 },
}

/// What `take` answers.
#[derive(Clone, Copy)]
pub enum Taken {
    /// The slot was free, and is in hand.
    Slot { slot: u32, generation: u64 },
    /// No slot was free.
    Empty,
}

/// What `try_lock` answers.
#[derive(Clone, Copy)]
pub enum Lock {
    /// The lock was free, and is the place's now.
    Held,
    /// Another place holds it: this is its number, plus 1.
    Busy { found: u64 },
}
