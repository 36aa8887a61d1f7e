//! What is deleted, as a section finds it.
ghost use Rattle.std.specs.Prelude.{◌≡◌, ◌<◌, ◌^◌, ℕ, IfSome, IfNone, Some, None, is_some};
ghost use Rattle.prcu_model.specs.declared.operation.Op.TheVariants.{Del};
ghost use Rattle.core_points.specs.declared.stage.Then.TheVariants as next;
ghost use Rattle.core_points.specs.declared.stage.Stage.TheVariants as at;
ghost use Rattle.core_points.specs.Programs.{past_left, past_right};
ghost use Rattle.seat_table.specs.Gains.{IsInformed, StoodInside};
ghost use Rattle.seat_table.specs.Sections.{HasStepped};
ghost use Rattle.seat_table.specs.Seats.{shape_of};
ghost use Rattle.tree_points.specs.Points.{IsAt, IsDone};
ghost use Rattle.citrus_tree.specs.Deletes.{StandsAt, Comes, LeavesFor, LoadsSeen, OnlyLoads, HasSearched, HasTwo, FoundTwoChildren, walked_to};
ghost use Rattle.citrus_tree.specs.Going.{MayBegin};
ghost use Rattle.citrus_tree.specs.Replies.{WasAnswered};

use crate::descent::{Descent, descend};
use core_points::stage::{Node, Successor, Target};
use core_state::generation_of;
use prcu_marks::{Gate, Side};
use seat_table::{CitrusTable, Part, Seat, WaitPart, steps};

/// A node that a section found, and its value where it was loaded there.
#[derive(Clone, Copy)]
pub(crate) struct Sighted {
    pub(crate) target: Target,
    pub(crate) value: Option<u64>,
}

/// Finds the node with the key, in a section of its own, and its successor where it has two children; or nothing, where the key is absent. It
/// loads the value too, where it looks at that.
pub(crate) fn find_target<W: WaitPart, G: Gate>(
    table: &CitrusTable<W>,
    seat: &mut Seat<W>,
    gate: &G,
    key: u64,
    looks: bool,
) -> Option<Sighted>
    requires table { seat.old.table ≡ table.now }
    requires at { (kept : ℕ) × MayBegin (shape_of W.WAY table.now) (Del key) kept seat.old.view }
    ensures seat { (seat.new.table ≡ seat.old.table) × (seat.new.listed ≡ seat.old.listed) }
    ensures found { IfSome result
        (λ sighted. (kept : ℕ) → MayBegin (shape_of W.WAY table.now) (Del key) kept seat.old.view
        → IsAt (shape_of W.WAY table.now) (Del key) kept (at.TargetLock sighted.target 0) seat.new.view) }
    ensures looked { IfSome result (λ sighted. is_some sighted.value ≡ looks) }
    ensures said { IfSome result (λ sighted. IfSome sighted.value
        (λ value. WasAnswered seat.old.view key (Some value) seat.new.view)) }
    ensures done { IfNone result
        ((kept : ℕ) → MayBegin (shape_of W.WAY table.now) (Del key) kept seat.old.view
        → IsDone (shape_of W.WAY table.now) (Del key) kept seat.new.view) }
    ensures absent { IfNone result (WasAnswered seat.old.view key None seat.new.view) }
    ensures two { IfSome result (λ sighted. HasTwo sighted.target → FoundTwoChildren key seat.new.view) }
    ensures searched { HasSearched seat.old.view key seat.new.view }
    ensures informed { IsInformed seat.new.view }
    ensures stepped { HasStepped seat.old.view seat.new.view }
{
    match descend(table, seat, gate, key) {
        Descent::Found { slot, parent, side } => {
            let target = load_target(table, seat, parent, side, slot);
            let value = load_seen(table, seat, target, looks);
            W::leave(table, seat);
            Some(Sighted { target, value })
        }
        Descent::Ended { .. } => {
            W::leave(table, seat);
            None
        }
    }
}

// The value of the node that was found, where it is looked at; else no step is made. It is loaded last, so that all that the call records was
// found before it.
fn load_seen<W: WaitPart>(
    table: &CitrusTable<W>,
    seat: &mut Seat<W>,
    target: Target,
    looks: bool,
) -> Option<u64>
    requires table { seat.old.table ≡ table.now }
    requires at { StandsAt (shape_of W.WAY table.now) (at.Leave (next.Delete target)) seat.old.view }
    requires inside { StoodInside (shape_of W.WAY table.now) seat.old.view }
    ensures seat { (seat.new.table ≡ seat.old.table) × (seat.new.listed ≡ seat.old.listed) }
    ensures looked { is_some result ≡ looks }
    ensures seen { IfSome result (λ value. LoadsSeen (shape_of W.WAY table.now) target seat.old.view value seat.new.view) }
    ensures leaves { LeavesFor (shape_of W.WAY table.now) target seat.old.view seat.new.view }
    ensures same { OnlyLoads seat.old.view seat.new.view }
{
    if !looks {
        return None;
    }
    Some(steps::search_load(table, seat, target.node.node, Part::Value))
}

// What has to be known again of the node that was found, under its locks.
fn load_target<W: WaitPart>(
    table: &CitrusTable<W>,
    seat: &mut Seat<W>,
    parent: u32,
    side: Side,
    slot: u32,
) -> Target
    requires table { seat.old.table ≡ table.now }
    requires at { StandsAt (shape_of W.WAY table.now) (at.ParentLife parent side slot) seat.old.view }
    ensures seat { (seat.new.table ≡ seat.old.table) × (seat.new.listed ≡ seat.old.listed) }
    ensures at { Comes (shape_of W.WAY table.now) (at.ParentLife parent side slot) seat.old.view
        (at.Leave (next.Delete result)) seat.new.view }
    ensures inside { StoodInside (shape_of W.WAY table.now) seat.new.view }
    ensures same { OnlyLoads seat.old.view seat.new.view }
{
    let node = load_node(table, seat, parent, side, slot);
    if node.left == 0 || node.right == 0 {
        return Target {
            node,
            successor: None,
        };
    }
    let (parent, slot) = walk(table, seat, node);
    let successor = load_successor(table, seat, node, parent, slot);
    Target {
        node,
        successor: Some(successor),
    }
}

// The node with its links and its generation, and that of its parent.
fn load_node<W: WaitPart>(
    table: &CitrusTable<W>,
    seat: &mut Seat<W>,
    parent: u32,
    side: Side,
    slot: u32,
) -> Node
    requires table { seat.old.table ≡ table.now }
    requires at { StandsAt (shape_of W.WAY table.now) (at.ParentLife parent side slot) seat.old.view }
    ensures seat { (seat.new.table ≡ seat.old.table) × (seat.new.listed ≡ seat.old.listed) }
    ensures at { Comes (shape_of W.WAY table.now) (at.ParentLife parent side slot) seat.old.view (past_right result) seat.new.view }
    ensures inside { StoodInside (shape_of W.WAY table.now) seat.new.view }
    ensures same { OnlyLoads seat.old.view seat.new.view }
{
    let parent_life = steps::search_load(table, seat, parent, Part::Life);
    let life = steps::search_load(table, seat, slot, Part::Life);
    let left = steps::search_load(table, seat, slot, Part::Link { side: Side::Left });
    let right = steps::search_load(table, seat, slot, Part::Link { side: Side::Right });
    Node {
        parent,
        side,
        node: slot,
        parent_generation: generation_of(parent_life),
        generation: generation_of(life),
        left,
        right,
    }
}

// Goes right of the node, and then left as far as there is a left: the slot at which it ends, after the slot above that one. Nor does a walk
// stand at a slot twice.
fn walk<W: WaitPart>(table: &CitrusTable<W>, seat: &mut Seat<W>, node: Node) -> (u32, u32)
    requires table { seat.old.table ≡ table.now }
    requires at { StandsAt (shape_of W.WAY table.now) (at.SuccessorLeft node (walked_to node.node node.right)) seat.old.view }
    requires inside { StoodInside (shape_of W.WAY table.now) seat.old.view }
    ensures seat { (seat.new.table ≡ seat.old.table) × (seat.new.listed ≡ seat.old.listed) }
    ensures at { Comes (shape_of W.WAY table.now) (at.SuccessorLeft node (walked_to node.node node.right)) seat.old.view
        (past_left node (walked_to result.0 result.1) 0) seat.new.view }
    ensures same { OnlyLoads seat.old.view seat.new.view }
{
    let mut parent = node.node;
    let mut slot = node.right as u32;
    loop {
        let left = steps::search_load(table, seat, slot, Part::Link { side: Side::Left });
        if left == 0 {
            return (parent, slot);
        }
        parent = slot;
        slot = left as u32;
    }
}

// The successor with its generation, and that of its parent where this isn't the node.
fn load_successor<W: WaitPart>(
    table: &CitrusTable<W>,
    seat: &mut Seat<W>,
    node: Node,
    parent: u32,
    slot: u32,
) -> Successor
    requires table { seat.old.table ≡ table.now }
    requires at { StandsAt (shape_of W.WAY table.now) (past_left node (walked_to parent slot) 0) seat.old.view }
    ensures seat { (seat.new.table ≡ seat.old.table) × (seat.new.listed ≡ seat.old.listed) }
    ensures at { Comes (shape_of W.WAY table.now) (past_left node (walked_to parent slot) 0) seat.old.view
        (at.Leave (next.Delete (record { node = node; successor = Some result }))) seat.new.view }
    ensures inside { StoodInside (shape_of W.WAY table.now) seat.new.view }
    ensures same { OnlyLoads seat.old.view seat.new.view }
{
    let parent_generation = load_above(table, seat, node, parent, slot);
    let life = steps::search_load(table, seat, slot, Part::Life);
    Successor {
        parent,
        slot,
        parent_generation,
        generation: generation_of(life),
    }
}

// The generation of the successor's parent, and 0 where this is the node.
fn load_above<W: WaitPart>(
    table: &CitrusTable<W>,
    seat: &mut Seat<W>,
    node: Node,
    parent: u32,
    slot: u32,
) -> u64
    requires table { seat.old.table ≡ table.now }
    requires at { StandsAt (shape_of W.WAY table.now) (past_left node (walked_to parent slot) 0) seat.old.view }
    ensures seat { (seat.new.table ≡ seat.old.table) × (seat.new.listed ≡ seat.old.listed) }
    ensures at { Comes (shape_of W.WAY table.now) (past_left node (walked_to parent slot) 0) seat.old.view
        (at.SuccessorLife node (record { parent = parent; slot = slot; parent_generation = result; generation = 0 })) seat.new.view }
    ensures same { OnlyLoads seat.old.view seat.new.view }
{
    if parent == node.node {
        return 0;
    }
    generation_of(steps::search_load(table, seat, parent, Part::Life))
}
