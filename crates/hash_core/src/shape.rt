//! How a table was made.

/// How many slots each class owns, and for how many places and updates the table is made.
#[derive(Drop)]
pub struct Shape {
    /// The slots of each of the 64 classes.
    pub capacities: Vec<u32>,
    /// How many callers can have a place.
    pub places: u32,
    /// How many updates can be made.
    pub tickets: u64,
}
