//! What a call answers, as a number of C.
ghost use Rattle.std.specs.Prelude.{◌≡◌};
ghost use Rattle.tree_handles.specs.Callers.{code_of};

/// What a call came to. `citrus.h` names the numbers.
#[derive(Clone, Copy, Debug, PartialEq, Eq)]
pub enum Status {
    /// The call did what it says.
    Done,
    /// The key is absent, or present at an insert, no place waits for a reopen, or no section is open for a release: nothing
    /// has changed. Or a poll found a reader.
    Unchanged,
    /// No slot is free: no pair was added, or there was none for a tidy's next turn.
    Full,
    /// A list has more pairs than there is room for, or a tidy isn't through.
    More,
    /// Others put an upsert's key in and took it out in each of its rounds, or the wait of a poll's cookie isn't the handle's latest any more.
    Moved,
    /// An upsert added the pair.
    New,
    /// The key has another value than the expected one: nothing has changed.
    Different,
    /// Other threads were in the call's way, and it holds nothing: no pair has changed. It is to be made again, once others had the processor.
    Busy,
    /// The handle is closed.
    Closed,
    /// An argument is out of its range: nothing has changed.
    BadArgument,
    /// No memory: nothing has changed.
    NoMemory,
    /// Fewer tickets are left than the call needs: four of a get, an update or a tidy, one of a wait.
    Spent,
    /// This call or an earlier one of the handle gave up in its midst.
    Lost,
    /// The handle is in a section, of a hold or an enter: nothing has changed.
    Holds,
}

impl Status {
    /// The number of the status.
    pub fn code(self) -> i32
        ensures { result ≡ code_of self }
    {
        match self {
            Status::Done => 0,
            Status::Unchanged => 1,
            Status::Full => 2,
            Status::More => 3,
            Status::Moved => 4,
            Status::New => 5,
            Status::Different => 6,
            Status::Busy => 7,
            Status::Closed => -1,
            Status::BadArgument => -2,
            Status::NoMemory => -3,
            Status::Spent => -4,
            Status::Lost => -5,
            Status::Holds => -6,
        }
    }
}
