//! An update that is being committed.

/// The front word is odd by this seat: it is committing an update.
pub struct Commit {
    /// The even number that was found.
    pub found: u64,
    /// The update was made.
    pub stored: bool,
}
