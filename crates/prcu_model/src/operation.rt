//! What a script asks of the dictionary, and what it is answered.

/// One operation of a script. Keys and values are any `u64`.
#[derive(Clone, Copy, Debug, PartialEq, Eq)]
pub enum Op {
    /// Adds the pair where the key is absent.
    Put { key: u64, value: u64 },
    /// Asks for the key's value.
    Get { key: u64 },
    /// Takes the key out where it is present.
    Del { key: u64 },
    /// Gives the key another value where it is present.
    Set { key: u64, value: u64 },
}

/// What an operation is answered.
#[derive(Clone, Copy, Debug, PartialEq, Eq)]
pub enum Reply {
    /// To a put: the pair was added.
    New,
    /// To a put: the key is there already.
    Old,
    /// To a put: no slot is left.
    Full,
    /// To a get: the key's value.
    Val { value: u64 },
    /// To a get, a del or a set: the key is absent.
    Absent,
    /// To a del: the key was taken out.
    Gone,
    /// To a set: the value that was replaced.
    Was { value: u64 },
}

impl Reply {
    ghost use Rattle.std.specs.Prelude.{◌≡◌};
    ghost use Rattle.prcu_model.specs.Dictionary.{tells_update};

    /// Whether the reply tells of an update: `New`, `Gone` and `Was` do.
    pub fn tells_update(self) -> bool
        ensures { result ≡ tells_update self }
    {
        matches!(self, Reply::New | Reply::Gone | Reply::Was { .. })
    }
}

/// A reply, with the update's position in the history, counted from 1, at `New`, `Gone` and `Was`, and 0 otherwise.
#[derive(Clone, Copy, Debug, PartialEq, Eq)]
pub struct Told {
    pub reply: Reply,
    pub number: u64,
}

/// An operation with its reply and its number: a position as in `Told`, or a front at which the reply was true.
#[derive(Clone, Copy)]
pub struct Line {
    pub op: Op,
    pub reply: Reply,
    pub number: u64,
}

/// A successful put, del or set of a caller. A list of them is a history.
#[derive(Clone, Copy, Debug, PartialEq, Eq)]
pub struct Update {
    pub caller: u32,
    pub op: Op,
}
