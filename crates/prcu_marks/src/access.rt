//! What a step does to its word.

/// An access to a word.
#[derive(Clone, Copy)]
pub enum Access {
    /// The word stays.
    Load,
    /// The number is stored.
    Store { number: u64 },
    /// The number is stored where the expected one is found.
    Exchange { expected: u64, number: u64 },
    /// The word is so much more.
    Add { number: u64 },
    /// The word is so much less.
    Subtract { number: u64 },
    /// The word's last bit is turned.
    Flip,
}
