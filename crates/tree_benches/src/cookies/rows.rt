//! The rows, and what the reader and the writer do in one.

/// Which nodes the writer deletes, and how long a section lasts.
#[derive(Clone, Copy)]
pub struct Kind {
    pub name: &'static str,
    /// Whether it puts three keys in a row, the middle one first, and deletes them in the same order. So every third delete finds two
    /// children, and waits for the readers of the next key. Else it puts a key and deletes it, so a delete takes a leaf.
    pub middles: bool,
    /// How long the reader stays in a section: so many milliseconds, or microseconds where no times are asked for.
    pub section: u64,
}

impl Kind {
    pub const ALL: [Kind; 4] = [
        Kind {
            name: "leaves",
            middles: false,
            section: 1,
        },
        Kind {
            name: "leaves",
            middles: false,
            section: 10,
        },
        Kind {
            name: "leaves",
            middles: false,
            section: 100,
        },
        Kind {
            name: "every third with two children",
            middles: true,
            section: 10,
        },
    ];
}

/// How long the writer rests after each delete.
#[derive(Clone, Copy)]
pub struct Rest {
    pub name: &'static str,
    /// Which part of a section: none, or the one by this divisor.
    pub part: Option<u64>,
}

impl Rest {
    pub const ALL: [Rest; 3] = [
        Rest {
            name: "no rest",
            part: None,
        },
        Rest {
            name: "rests of a tenth",
            part: Some(10),
        },
        Rest {
            name: "rests of a fifth",
            part: Some(5),
        },
    ];

    /// The rest beside sections of so many nanoseconds.
    pub fn of(&self, section: u64) -> u64 {
        match self.part {
            Some(part) => section.checked_div(part).unwrap_or(0),
            None => 0,
        }
    }
}

/// How the writer holds its retired slots.
#[derive(Clone, Copy)]
pub struct Holds {
    pub name: &'static str,
    /// Whether it holds a cookie, and asks about it after each call. Else it waits for everybody, where many are retired.
    pub cookies: bool,
}

impl Holds {
    pub const ALL: [Holds; 2] = [
        Holds {
            name: "no cookies",
            cookies: false,
        },
        Holds {
            name: "cookies",
            cookies: true,
        },
    ];
}

/// What is measured.
#[derive(Clone, Copy)]
pub struct Row {
    pub kind: Kind,
    pub rest: Rest,
    pub holds: Holds,
}

/// What the two threads do in a row.
#[derive(Clone, Copy)]
pub struct Work {
    pub middles: bool,
    /// The nanoseconds of a section.
    pub section: u64,
    /// The nanoseconds of a rest.
    pub rest: u64,
    /// How many sections the reader enters.
    pub rounds: u32,
}
