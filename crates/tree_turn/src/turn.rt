//! What a turn is given, and what it loads.

use prcu_marks::Side;

/// A node and its child that are to change places: where they hang, and their generations, as one section recorded them.
#[derive(Clone, Copy)]
pub struct Turn {
    /// The slot whose link leads to the node.
    pub parent: u32,
    /// The side of the parent on which the node is.
    pub side: Side,
    pub node: u32,
    /// The side of the node on which the child is.
    pub turn: Side,
    pub child: u32,
    pub parent_generation: u64,
    pub node_generation: u64,
    pub child_generation: u64,
}

/// What a slot holds beside its life: a pair, and the links on the side of the turn and on the other.
#[derive(Clone, Copy)]
pub struct Content {
    pub key: u64,
    pub value: u64,
    pub turn_link: u64,
    pub other_link: u64,
}

/// What is loaded of a node under its lock.
#[derive(Clone, Copy)]
pub struct NodeWords {
    pub life: u64,
    pub content: Content,
}

/// What a turn loads under its three locks.
#[derive(Clone, Copy)]
pub struct TurnWords {
    pub parent_life: u64,
    /// The parent's link on the side of the node.
    pub link: u64,
    pub node: NodeWords,
    pub child: NodeWords,
}
