//! The way down from the root to a node whose child is to stand above it.
ghost use Rattle.std.specs.Prelude.{◌≡◌, ◌≢◌, ℕ, [], None, ◌+◌, ◌≤◌, IfSome};
ghost use Rattle.core_state.specs.declared.view.Reading.{Reading};
ghost use Rattle.core_state.specs.declared.view.View.{View};
ghost use Rattle.core_state.specs.Memory.{slot_count};
ghost use Rattle.seat_table.specs.Gains.{IsSlot};
ghost use Rattle.seat_table.specs.Seats.{IsQuietSeat, shape_of};
ghost use Rattle.seat_table.specs.Sections.{HasEntered};
ghost use Rattle.citrus_tree.specs.Hops.{slots_met};
ghost use Rattle.tree_lift.specs.Ways.{Comes, Finds, IsCrossing, IsFinding, IsReading, StandsBy, Starts, after_step};

use crate::rule::rises_above;
use core_state::{generation_of, step_side};
use prcu_marks::Side;
use seat_table::{CitrusTable, Part, Seat, WaitPart, steps};
use tree_turn::Turn;

/// A slot to which a link led, and its key.
#[derive(Clone, Copy)]
struct Child {
    slot: u32,
    key: u64,
}

/// A node on the way: where it hangs, its key, and the side on which the way goes on.
#[derive(Clone, Copy)]
struct Stand {
    parent: u32,
    side: Side,
    node: u32,
    key: u64,
    turn: Side,
}

/// A node and its child, where the child is to stand above.
#[derive(Clone, Copy)]
struct Crossing {
    at: Stand,
    child: Child,
}

/// Goes down from the root along the key, in a section with it, to the topmost node whose child on the way is to stand above it, and
/// records both and the node's parent, with their generations. `None` where there is none.
pub(crate) fn find_turn<W: WaitPart>(
    table: &CitrusTable<W>,
    seat: &mut Seat<W>,
    key: u64,
    salt: u64,
) -> Option<Turn>
    requires table { seat.old.table ≡ table.now }
    requires outside { seat.old.view.section ≡ None }
    requires unlocked { seat.old.view.locks ≡ [] }
    ensures seat { (seat.new.table ≡ seat.old.table) × (seat.new.listed ≡ seat.old.listed) }
    ensures finds { Finds (shape_of W.WAY table.now) seat.old.view key salt result seat.new.view }
    ensures quiet { IsQuietSeat seat.old → IsQuietSeat seat.new }
{
    W::enter(table, seat, key);
    let turn = find_inside(table, seat, key, salt);
    W::leave(table, seat);
    turn
}

// The same, in the section that was just entered.
fn find_inside<W: WaitPart>(
    table: &CitrusTable<W>,
    seat: &mut Seat<W>,
    key: u64,
    salt: u64,
) -> Option<Turn>
    requires table { seat.old.table ≡ table.now }
    requires entered { (v : View) × HasEntered v key seat.old.view }
    ensures seat { (seat.new.table ≡ seat.old.table) × (seat.new.listed ≡ seat.old.listed) }
    ensures finds { (v : View) → HasEntered v key seat.old.view
        → IsFinding (shape_of W.WAY table.now) v key salt result seat.new.view }
{
    let Some(crossing) = find_crossing(table, seat, key, salt) else {
        return None;
    };
    record_turn(table, seat, crossing)
}

// The topmost node on the way whose child on the way is to stand above it. The way comes to an end: it stands at no slot twice.
fn find_crossing<W: WaitPart>(
    table: &CitrusTable<W>,
    seat: &mut Seat<W>,
    key: u64,
    salt: u64,
) -> Option<Crossing>
    requires table { seat.old.table ≡ table.now }
    requires entered { (v : View) × HasEntered v key seat.old.view }
    ensures seat { (seat.new.table ≡ seat.old.table) × (seat.new.listed ≡ seat.old.listed) }
    ensures comes { (v : View) → HasEntered v key seat.old.view
        → Comes (shape_of W.WAY table.now) v key salt result seat.new.view }
{
    let Some(mut at) = first_stand(table, seat, key) else {
        return None;
    };
    loop {
        let Some(child) = go_down(table, seat, at.node, at.turn) else {
            return None;
        };
        if rises_above(salt, child.key, at.key) {
            return Some(Crossing { at, child });
        }
        let Some(turn) = step_side(key, child.key) else {
            return None;
        };
        at = Stand {
            parent: at.node,
            side: at.turn,
            node: child.slot,
            key: child.key,
            turn,
        };
    }
}

// The topmost node, where there is one and it hasn't the key itself.
fn first_stand<W: WaitPart>(table: &CitrusTable<W>, seat: &mut Seat<W>, key: u64) -> Option<Stand>
    requires table { seat.old.table ≡ table.now }
    requires entered { (v : View) × HasEntered v key seat.old.view }
    ensures seat { (seat.new.table ≡ seat.old.table) × (seat.new.listed ≡ seat.old.listed) }
    ensures starts { (v : View) (salt : ℕ) → HasEntered v key seat.old.view
        → Starts (shape_of W.WAY table.now) v key salt result seat.new.view }
{
    let top = go_down(table, seat, 0, Side::Right)?;
    let turn = step_side(key, top.key)?;
    Some(Stand {
        parent: 0,
        side: Side::Right,
        node: top.slot,
        key: top.key,
        turn,
    })
}

// Loads the link of the side at which the search stands and, where it leads to a slot, that slot's key.
fn go_down<W: WaitPart>(
    table: &CitrusTable<W>,
    seat: &mut Seat<W>,
    slot: u32,
    side: Side,
) -> Option<Child>
    requires table { seat.old.table ≡ table.now }
    requires slot { IsSlot (shape_of W.WAY table.now) slot }
    requires reading { (v : View) × (key : ℕ) × (r : Reading) × IsReading v key r seat.old.view × StandsBy slot side r }
    ensures seat { (seat.new.table ≡ seat.old.table) × (seat.new.listed ≡ seat.old.listed) }
    ensures slot { IfSome result (λ child. (child.slot ≢ 0) × IsSlot (shape_of W.WAY table.now) child.slot) }
    ensures reading { (v : View) (key : ℕ) (r : Reading) → IsReading v key r seat.old.view
        → IsReading v key (after_step r slot side result) seat.new.view }
    ensures further { IfSome result (λ _. (slots_met seat.new.view ≡ slots_met seat.old.view + 1)
        × (slots_met seat.new.view ≤ slot_count (shape_of W.WAY table.now))) }
{
    let link = steps::search_load(table, seat, slot, Part::Link { side });
    if link == 0 {
        return None;
    }
    let child = link as u32;
    let key = steps::search_load(table, seat, child, Part::Key);
    Some(Child { slot: child, key })
}

// Loads the generations of the three slots. `None` where two of them are one.
fn record_turn<W: WaitPart>(
    table: &CitrusTable<W>,
    seat: &mut Seat<W>,
    crossing: Crossing,
) -> Option<Turn>
    requires table { seat.old.table ≡ table.now }
    requires crossing { (v : View) × (key : ℕ) × (salt : ℕ) × (r : Reading) × IsReading v key r seat.old.view
        × IsCrossing (shape_of W.WAY table.now) key salt crossing r }
    ensures seat { (seat.new.table ≡ seat.old.table) × (seat.new.listed ≡ seat.old.listed) }
    ensures finds { (v : View) (key salt : ℕ) (r : Reading) → IsReading v key r seat.old.view
        → IsCrossing (shape_of W.WAY table.now) key salt crossing r
        → IsFinding (shape_of W.WAY table.now) v key salt result seat.new.view }
{
    let Crossing { at, child } = crossing;
    // The rule excludes it, but a seat isn't told so.
    if at.parent == at.node || at.node == child.slot || child.slot == at.parent {
        return None;
    }
    let parent_life = steps::search_load(table, seat, at.parent, Part::Life);
    let node_life = steps::search_load(table, seat, at.node, Part::Life);
    let child_life = steps::search_load(table, seat, child.slot, Part::Life);
    Some(Turn {
        parent: at.parent,
        side: at.side,
        node: at.node,
        turn: at.turn,
        child: child.slot,
        parent_generation: generation_of(parent_life),
        node_generation: generation_of(node_life),
        child_generation: generation_of(child_life),
    })
}
