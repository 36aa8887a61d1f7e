//! What the steps of a run leave behind, in their order, and what a step may wait for.

use prcu_model::Update;

/// An entry of the one list of marks. Only clauses speak of marks: no program makes one.
pub enum Mark {
    /// A reader section was entered at a place, with an announced key. `count` is the number of earlier ones there.
    Entered {
        place: u32,
        count: u64,
        key: u64,
    },
    /// That section was left.
    Left {
        place: u32,
        count: u64,
    },
    /// A wait began at a place, for the readers whose key is from `low` to `high`. `count` is the number of earlier ones.
    Began {
        place: u32,
        count: u64,
        low: u64,
        high: u64,
    },
    /// That wait ended.
    Ended {
        place: u32,
        count: u64,
    },
    /// An update was linked or its value stored: the next of the history.
    Done {
        update: Update,
    },
    /// A slot was taken for a node.
    Given {
        slot: u32,
    },
    /// A node was unlinked from the tree.
    Unlinked {
        slot: u32,
    },
    /// A slot was given back.
    Freed {
        slot: u32,
    },
    /// The structure's pairs moved elsewhere: no update of it comes behind this.
    Moved,
}

/// Why a wait or a step can't go on yet.
#[derive(Clone, Copy, Debug, PartialEq, Eq)]
pub enum Why {
    /// A place's reader announced this key, and its stamp isn't above the wait's clock.
    Reader { place: u32, key: u64, stamp: u64 },
    /// So many readers of a class are counted on a side.
    Counter { class: u32, side: u32, count: u64 },
    /// The stamp of a place in a class isn't above the wait's clock.
    Row { place: u32, class: u32, stamp: u64 },
    /// A slot's lock is held.
    Lock { slot: u32 },
    /// An update is being linked: the front word is odd.
    Front { value: u64 },
}

/// A side of a node.
#[derive(Clone, Copy, Debug, PartialEq, Eq)]
pub enum Side {
    Left,
    Right,
}
