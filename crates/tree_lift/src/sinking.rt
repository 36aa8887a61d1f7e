//! A node is turned down: it and its right child change places.
ghost use Rattle.std.specs.Prelude.{◌≡◌, ◌≤◌, ℕ, [], None, Some, IfOk, IfErr};
ghost use Rattle.prcu_marks.specs.declared.mark.Side.{Side};
ghost use Rattle.core_state.specs.declared.view.SearchState.TheVariants.{Found};
ghost use Rattle.core_state.specs.declared.view.View.{View};
ghost use Rattle.seat_table.specs.Gains.{IsInformed, IsSlot};
ghost use Rattle.seat_table.specs.Sections.{HasMade};
ghost use Rattle.seat_table.specs.Seats.{IsQuietSeat, shape_of};
ghost use Rattle.citrus_tree.specs.Going.{KeepsSeat};
ghost use Rattle.citrus_tree.specs.Lookups.{IsSearching};
ghost use Rattle.tree_lift.specs.Lifts.{LeavesNoUpdate};
ghost use Rattle.tree_lift.specs.Sinks.{ReadsDown, FindsDown, Sinks};

use crate::room::make_room;
use crate::trying::{Outcome, try_turn};
use citrus_tree::{Descent, descend};
use core_state::generation_of;
use patience::Patience;
use prcu_marks::{OpenGate, Side};
use seat_table::{CitrusTable, Part, Seat, WaitPart, steps};
use tree_turn::Turn;

/// What a `turn_down` came to.
#[derive(Clone, Copy, Debug, PartialEq, Eq)]
pub enum Sunk {
    /// The key's node stands below the child that was on its right.
    Turned,
    /// A lock was taken, or something changed meanwhile.
    Moved,
    /// The key is absent, or its node has one child at most.
    Low,
    /// The place has no room for two more retired slots.
    NoRoom,
    /// No slot was free.
    NoSlot,
}

/// Lets the key's node and its right child change places, where the node has two children: so the node comes down on the way to its successor.
/// Where nobody else changes that way, it has one child at most after as many turns as there are slots on it. The dictionary and its history
/// stay as they are but for what others do. Each turn retires two slots and spends up to three tickets, as a lift's. It waits for nobody.
// A section for the key can record the right child alone: the search ends at the node, and its walk to the successor begins on the right.
pub fn turn_down<P: Patience, W: WaitPart>(
    patience: &P,
    table: &CitrusTable<W>,
    seat: &mut Seat<W>,
    key: u64,
) -> Result<Sunk, P::Tired>
    requires table { seat.old.table ≡ table.now }
    requires quiet { IsQuietSeat seat.old }
    requires tickets { 3 ≤ seat.old.view.allowance.tickets }
    ensures table { seat.new.table ≡ seat.old.table }
    ensures updates { IfOk result (λ _. LeavesNoUpdate seat.old.view key seat.new.view) }
    ensures sinks { IfOk result (λ answer. Sinks (shape_of W.WAY table.now) seat.old.view key answer seat.new.view) }
    ensures unwaited { IfOk result (λ _. seat.new.view.counts.waits ≡ seat.old.view.counts.waits) }
    ensures keeps { IfOk result (λ _. KeepsSeat 3 seat.old seat.new) }
    ensures informed { IfOk result (λ _. IsInformed seat.old.view → IsInformed seat.new.view) }
    ensures tired { IfErr result (λ _. HasMade (P.least patience.now) seat.new.view) }
{
    if !make_room(patience, table, seat, false)? {
        return Ok(Sunk::NoRoom);
    }
    let Some(turn) = find_down(table, seat, key) else {
        return Ok(Sunk::Low);
    };
    match try_turn(patience, table, seat, turn)? {
        Outcome::Turned => Ok(Sunk::Turned),
        Outcome::Refused => Ok(Sunk::Moved),
        Outcome::NoSlot => Ok(Sunk::NoSlot),
    }
}

// Finds the key's node in a section with the key and, where it has two children, records it with its parent and its right child.
fn find_down<W: WaitPart>(table: &CitrusTable<W>, seat: &mut Seat<W>, key: u64) -> Option<Turn>
    requires table { seat.old.table ≡ table.now }
    requires outside { seat.old.view.section ≡ None }
    requires unlocked { seat.old.view.locks ≡ [] }
    ensures seat { (seat.new.table ≡ seat.old.table) × (seat.new.listed ≡ seat.old.listed) }
    ensures finds { FindsDown (shape_of W.WAY table.now) seat.old.view key result seat.new.view }
{
    match descend(table, seat, &OpenGate, key) {
        Descent::Found { slot, parent, side } => {
            let turn = record_down(table, seat, parent, side, slot);
            W::leave(table, seat);
            turn
        }
        Descent::Ended { .. } => {
            W::leave(table, seat);
            None
        }
    }
}

// Loads the links of the node that was found, and the generations of the three slots. `None` where a child is missing, or the way led to a
// slot twice.
fn record_down<W: WaitPart>(
    table: &CitrusTable<W>,
    seat: &mut Seat<W>,
    parent: u32,
    side: Side,
    node: u32,
) -> Option<Turn>
    requires table { seat.old.table ≡ table.now }
    requires slot { IsSlot (shape_of W.WAY table.now) node }
    requires found { (v : View) × (key : ℕ) × IsSearching v key (Found node parent side None) seat.old.view }
    ensures seat { (seat.new.table ≡ seat.old.table) × (seat.new.listed ≡ seat.old.listed) }
    ensures reads { (v : View) (key : ℕ) → IsSearching v key (Found node parent side None) seat.old.view
        → ReadsDown (shape_of W.WAY table.now) v key result seat.new.view }
{
    let left = steps::search_load(table, seat, node, Part::Link { side: Side::Left });
    let right = steps::search_load(table, seat, node, Part::Link { side: Side::Right });
    if left == 0 || right == 0 {
        return None;
    }
    let child = right as u32;
    // The rule excludes it, but a seat isn't told so.
    if node == 0 || parent == node || node == child || child == parent {
        return None;
    }
    let parent_life = steps::search_load(table, seat, parent, Part::Life);
    let node_life = steps::search_load(table, seat, node, Part::Life);
    let child_life = steps::search_load(table, seat, child, Part::Life);
    Some(Turn {
        parent,
        side,
        node,
        turn: Side::Right,
        child,
        parent_generation: generation_of(parent_life),
        node_generation: generation_of(node_life),
        child_generation: generation_of(child_life),
    })
}
