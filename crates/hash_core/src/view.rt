//! What a seat knows of the table.

use crate::words::{Field, Kind};
use prcu_marks::{Commit, Mark};
use std::collections::LinkedList;

/// Where the search of an open section stands.
pub enum SearchState {
    /// The head is to be loaded.
    Start,
    /// A link to the slot was loaded, and its key wasn't yet.
    Unread { slot: u32 },
    /// The slot has another key.
    Passed { slot: u32 },
    /// The slot has the key.
    Found { slot: u32 },
    /// A link that is 0 was loaded.
    Ended,
}

/// An open section.
pub struct Section {
    /// The announced key.
    pub key: u64,
    /// How many sections were entered at the place before it.
    pub count: u64,
    /// Where in the list of marks it was entered.
    pub entered: u64,
    /// How many updates there were then.
    pub from: u64,
    pub state: SearchState,
    /// The value that was loaded at the slot found.
    pub loaded: Option<u64>,
}

/// What a word was when the view last loaded or stored it under the lock that it holds.
pub struct Known {
    pub field: Field,
    pub number: u64,
}

/// The lock of a class's bucket, and what was done under it.
pub struct Hold {
    pub class: u32,
    /// The words that were loaded or stored, the latest first.
    pub known: LinkedList<Known>,
    /// A load of the readers found 0, since the latest unlinking under this lock.
    pub clear: bool,
    /// The slot that was given and isn't linked yet.
    pub taken: Option<u32>,
    /// The slot that was unlinked and isn't on the retired list yet.
    pub unlinked: Option<u32>,
    /// The first slot of the list that was taken off the retired word and isn't on the free word yet.
    pub moved: Option<u32>,
}

/// A step that was made: its kind, its word, and the number that was found there, or stored where it is a store.
pub struct StepMade {
    pub kind: Kind,
    pub field: Field,
    pub number: u64,
}

/// What a seat knows.
pub struct View {
    /// The seat has the places from `place` to `place + places`, and works at the first. A spent seat has none.
    pub place: u32,
    pub places: u32,
    /// How many updates it may still make.
    pub tickets: u64,
    pub section: Option<Section>,
    /// How many sections were entered at its place.
    pub sections: u64,
    pub hold: Option<Hold>,
    pub commit: Option<Commit>,
    /// The places of seats that were joined into it.
    pub joined: LinkedList<u32>,
    /// What the seats had seen that were joined into it, and what it had seen itself, each at the time of the join.
    pub heard: LinkedList<LinkedList<Mark>>,
    /// The marks that its places left, those of the seats that were joined into it among them, place by place in their
    /// order.
    pub own: LinkedList<Mark>,
    /// The steps that it made.
    pub trail: LinkedList<StepMade>,
    /// The marks that it has seen: a beginning of the one list of all marks.
    pub seen: LinkedList<Mark>,
}
