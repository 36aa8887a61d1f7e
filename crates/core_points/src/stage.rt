//! The points of a caller's program, each before one step, with the values that the rest of the call needs.

use prcu_marks::Side;

/// An empty side of a slot, as a search recorded it.
#[derive(Clone, Copy)]
pub struct Spot {
    pub slot: u32,
    pub side: Side,
    pub generation: u64,
    pub tag: u64,
}

/// A node and the slot above it, as a search recorded them.
#[derive(Clone, Copy)]
pub struct Node {
    pub parent: u32,
    pub side: Side,
    pub node: u32,
    pub parent_generation: u64,
    pub generation: u64,
    pub left: u64,
    pub right: u64,
}

/// The successor of a node, as a walk recorded it. A node with at most one child has none.
#[derive(Clone, Copy)]
pub struct Successor {
    pub parent: u32,
    pub slot: u32,
    pub parent_generation: u64,
    pub generation: u64,
}

/// What is deleted.
#[derive(Clone, Copy)]
pub struct Target {
    pub node: Node,
    pub successor: Option<Successor>,
}

/// What was loaded under the locks of a target.
#[derive(Clone, Copy)]
pub struct Found {
    pub parent_life: u64,
    pub link: u64,
    pub life: u64,
    pub left: u64,
    pub right: u64,
    pub successor_parent_life: u64,
    pub successor_link: u64,
    pub successor_life: u64,
    pub successor_left: u64,
}

/// A move that is under way, with the number of its update.
#[derive(Clone, Copy)]
pub struct Moving {
    pub node: Node,
    pub successor: Successor,
    pub copy: u32,
    pub next_key: u64,
    pub number: u64,
}

/// For what a slot is taken, or for what slots are given back.
#[derive(Clone, Copy)]
pub enum Aim {
    /// A put has no slot for its leaf.
    Leaf { spot: Spot },
    /// A delete has no spare.
    Spare,
    /// A delete found many retired slots.
    Room,
}

/// What follows the leaving of a section.
#[derive(Clone, Copy)]
pub enum Then {
    /// The key is absent.
    Absent,
    /// The key has this value.
    Value { value: u64 },
    /// The key that was to be put is present.
    Old,
    /// A leaf is to be linked there.
    Link { spot: Spot },
    /// The value of this slot is to be replaced.
    Replace { slot: u32, generation: u64 },
    /// A node is to be deleted.
    Delete { target: Target },
}

/// What follows once no lock is held any more.
#[derive(Clone, Copy)]
pub enum Last {
    /// The call is started again.
    Again,
    /// The update with this number is done.
    New { number: u64 },
    Gone { number: u64 },
    Was { value: u64, number: u64 },
}

/// What is stored while the front is odd.
#[derive(Clone, Copy)]
pub enum Update {
    Leaf {
        spot: Spot,
    },
    Value {
        slot: u32,
        old: u64,
    },
    Bypass {
        node: Node,
        child: u64,
    },
    Copy {
        node: Node,
        successor: Successor,
        next_key: u64,
        copy: u32,
    },
}

/// For what a wait outlasts readers.
#[derive(Clone, Copy)]
pub enum Waits {
    Reuse { aim: Aim },
    Move { moving: Moving },
}

/// A point of a caller's program.
#[derive(Clone, Copy)]
pub enum Stage {
    /// The script has ended.
    Finished,
    // A search.
    EnterClock,
    EnterKey {
        clock: u64,
    },
    EnterStamp {
        clock: u64,
    },
    AtLink {
        slot: u32,
        side: Side,
    },
    AtKey {
        slot: u32,
        parent: u32,
        side: Side,
    },
    Leave {
        then: Then,
    },
    // A get that found the key.
    Value {
        slot: u32,
    },
    // A put that didn't.
    SpotTag {
        slot: u32,
        side: Side,
    },
    SpotLife {
        slot: u32,
        side: Side,
        tag: u64,
    },
    LeafField {
        spot: Spot,
        at: u32,
    },
    LeafLock {
        spot: Spot,
    },
    LeafLife {
        spot: Spot,
    },
    LeafSide {
        spot: Spot,
        life: u64,
    },
    LeafTag {
        spot: Spot,
        life: u64,
        link: u64,
    },
    // Taking a slot, and giving back the slot in hand.
    Reserve {
        aim: Aim,
        expected: u64,
    },
    Seize {
        aim: Aim,
    },
    Age {
        aim: Aim,
        slot: u32,
    },
    Keep {
        slot: u32,
    },
    Raise,
    Free,
    Count,
    // A wait, and giving back the retired slots.
    Begin {
        waits: Waits,
    },
    LookKey {
        waits: Waits,
        clock: u64,
        place: u32,
    },
    LookStamp {
        waits: Waits,
        clock: u64,
        place: u32,
        key: u64,
    },
    OldAge {
        aim: Aim,
    },
    OldRaise {
        aim: Aim,
        life: u64,
    },
    OldFree {
        aim: Aim,
    },
    OldCount {
        aim: Aim,
    },
    // An update.
    Commit {
        update: Update,
        expected: u64,
    },
    Store {
        update: Update,
        front: u64,
    },
    Even {
        update: Update,
        front: u64,
    },
    Unlock {
        last: Last,
    },
    // A set.
    SetLife {
        slot: u32,
    },
    SetLock {
        slot: u32,
        generation: u64,
    },
    SetCheck {
        slot: u32,
        generation: u64,
    },
    SetValue {
        slot: u32,
    },
    // A delete: what a search records of the node, and of its successor.
    ParentLife {
        parent: u32,
        side: Side,
        node: u32,
    },
    NodeLife {
        node: Node,
    },
    NodeLeft {
        node: Node,
    },
    NodeRight {
        node: Node,
    },
    SuccessorLeft {
        node: Node,
        successor: Successor,
    },
    SuccessorParentLife {
        node: Node,
        successor: Successor,
    },
    SuccessorLife {
        node: Node,
        successor: Successor,
    },
    // Its locks, and what it loads under them.
    TargetLock {
        target: Target,
        at: u32,
    },
    TargetLoad {
        target: Target,
        at: u32,
        found: Found,
    },
    // Few children.
    Mark {
        node: Node,
        child: u64,
    },
    EmptyTag {
        number: u64,
        slot: u32,
        side: Side,
    },
    EmptyRaise {
        number: u64,
        slot: u32,
        side: Side,
        tag: u64,
    },
    // Two children.
    SuccessorKey {
        node: Node,
        successor: Successor,
    },
    SuccessorValue {
        node: Node,
        successor: Successor,
        next_key: u64,
    },
    CopyField {
        node: Node,
        successor: Successor,
        next_key: u64,
        value: u64,
        at: u32,
    },
    CopyAge {
        node: Node,
        successor: Successor,
        next_key: u64,
    },
    CopyLock {
        node: Node,
        successor: Successor,
        next_key: u64,
    },
    CopyMark {
        node: Node,
        successor: Successor,
        next_key: u64,
    },
    OldMark {
        moving: Moving,
    },
    OldRight {
        moving: Moving,
    },
    Unlink {
        moving: Moving,
        child: u64,
    },
}
