//! What the calls of a writer took.

/// How many calls were made, and what they took.
#[derive(Clone, Copy)]
pub struct Tally {
    pub calls: u64,
    /// The nanoseconds of all calls.
    pub nanos: u64,
    /// The nanoseconds of the call that took longest.
    pub longest: u64,
    /// How many calls took longer than the limit.
    pub long: u64,
    /// The sum of the update numbers that were told, which has every answer made.
    pub numbers: u64,
    limit: u64,
}

impl Tally {
    /// No call yet. A call is a long one beyond this limit.
    pub fn new(limit: u64) -> Tally {
        Tally {
            calls: 0,
            nanos: 0,
            longest: 0,
            long: 0,
            numbers: 0,
            limit,
        }
    }

    /// One call more, which took so many nanoseconds and was told this number.
    pub fn add(&mut self, nanos: u64, number: u64) {
        self.numbers = self.numbers.wrapping_add(number);
        self.calls = self.calls.saturating_add(1);
        self.nanos = self.nanos.saturating_add(nanos);
        self.longest = self.longest.max(nanos);
        if nanos > self.limit {
            self.long = self.long.saturating_add(1);
        }
    }
}
