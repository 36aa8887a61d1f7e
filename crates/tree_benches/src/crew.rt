//! How many threads work.
ghost use Rattle.std.specs.Prelude.{◌≡◌};
ghost use Rattle.tree_benches.specs.Crews.{count_of};

/// The threads that do the work.
#[derive(Clone, Copy)]
pub enum Crew {
    One,
    Two,
    Four,
}

impl Crew {
    pub const ALL: [Crew; 3] = [Crew::One, Crew::Two, Crew::Four];

    /// How many they are.
    pub fn count(self) -> u32
        ensures { result ≡ count_of self }
    {
        match self {
            Crew::One => 1,
            Crew::Two => 2,
            Crew::Four => 4,
        }
    }
}
