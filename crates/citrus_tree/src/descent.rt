//! The way down from the root, in a section and without a lock.
ghost use Rattle.std.specs.Prelude.{◌≡◌, ℕ, ◌%◌, ◌≤◌, [], length, None};
ghost use Rattle.core_state.specs.declared.view.SearchState.TheVariants.{At};
ghost use Rattle.core_state.specs.declared.view.View.{View};
ghost use Rattle.core_state.specs.Parts.{state_slot};
ghost use Rattle.seat_table.specs.Gains.{IsSlot};
ghost use Rattle.seat_table.specs.Seats.{shape_of};
ghost use Rattle.citrus_tree.specs.Hops.{Costs, EndsWithin, Loads, LoadsLinks, LooksAhead, link_on, state_after};
ghost use Rattle.citrus_tree.specs.Lookups.{IsSearching, state_of};

use core_state::step_side;
use prcu_marks::{Gate, Point, Side};
use seat_table::{CitrusTable, Part, Seat, WaitPart, steps};

/// Where a search goes on from a slot and a side.
#[derive(Clone, Copy)]
pub enum Step {
    /// At that side of a slot with another key.
    Moved { slot: u32, side: Side },
    /// Nowhere: the slot has the sought key.
    Found { slot: u32 },
    /// Nowhere: the side is empty.
    Ended,
}

/// What a search comes to.
#[derive(Clone, Copy)]
pub enum Descent {
    /// The slot has the key, and hangs on that side of its parent.
    Found { slot: u32, parent: u32, side: Side },
    /// The key belongs at an empty side. From the root the search came down over so many slots.
    Ended { slot: u32, side: Side, depth: u64 },
}

// Of two links that of a side: a choice between two numbers, and no jump.
#[inline(always)]
fn link_on(side: Side, left: u32, right: u32) -> u32
    ensures { result ≡ link_on side left right }
{
    match side {
        Side::Left => left,
        Side::Right => right,
    }
}

// The lower half of a word: all of a link.
#[inline(always)]
fn low_half(word: u64) -> u32
    ensures { result ≡ word % 4294967296 }
{
    (word % (1 << 32)) as u32
}

/// Both links of a slot: each is the number of a slot, or 0.
// They are chosen as numbers of 32 bits, since a choice between longer ones would have to be cut to these behind it, on the way from one
// load to the next.
#[derive(Clone, Copy)]
pub struct Links {
    /// That of the side to which the search goes.
    pub ahead: u32,
    /// That of the other.
    pub aside: u32,
}

/// Loads both links of the slot at which the search stands.
// A call would hand its answer through memory.
#[inline(always)]
pub fn load_links<W: WaitPart>(
    table: &CitrusTable<W>,
    seat: &mut Seat<W>,
    slot: u32,
    side: Side,
) -> Links
    requires table { seat.old.table ≡ table.now }
    requires slot { IsSlot (shape_of W.WAY table.now) slot }
    requires searching { (v : View) × (key : ℕ) × IsSearching v key (At slot side) seat.old.view }
    ensures seat { (seat.new.table ≡ seat.old.table) × (seat.new.listed ≡ seat.old.listed) }
    ensures loads { LoadsLinks (shape_of W.WAY table.now) seat.old.view slot side result.ahead seat.new.view }
{
    // The side depends on the slot's key, which may still be on its way from memory. The links stand beside the key, and neither load waits
    // for the comparison. The link of the other side only adds to what the section knows, and moves its search nowhere.
    // docs/TREE.md#why-a-get-beside-a-delete-is-right
    let left = steps::search_load(table, seat, slot, Part::Link { side: Side::Left });
    let right = steps::search_load(table, seat, slot, Part::Link { side: Side::Right });
    let left_slot = low_half(left);
    let right_slot = low_half(right);
    let ahead = link_on(side, left_slot, right_slot);
    Links {
        ahead,
        // The other one, and no second choice.
        aside: left_slot ^ right_slot ^ ahead,
    }
}

// Where a link is given, brings the slot near to which it leads. As measured: docs/BENCHMARKS.md#the-tree
#[inline(always)]
fn bring_near<W: WaitPart>(table: &CitrusTable<W>, link: Option<u32>) {
    if let Some(link) = link {
        table.bring_near(link);
    }
}

/// Goes on by the link ahead, the one that was loaded of the side at which the search stands: where it leads to a slot, its key is loaded.
/// The slot of another link is brought near for a later search, where one is given: none is where searches beside this one wait for memory
/// as well.
// A call would hand its answer through memory.
#[inline(always)]
pub fn look_on<W: WaitPart>(
    table: &CitrusTable<W>,
    seat: &mut Seat<W>,
    key: u64,
    ahead: u32,
    aside: Option<u32>,
) -> Step
    requires table { seat.old.table ≡ table.now }
    requires loaded { (v : View) × LooksAhead (shape_of W.WAY table.now) v key ahead seat.old.view }
    ensures seat { (seat.new.table ≡ seat.old.table) × (seat.new.listed ≡ seat.old.listed) }
    ensures place { 1 ≤ table.now.places }
    ensures loads { (u : View) (slot : ℕ) (side : Side) → LoadsLinks (shape_of W.WAY table.now) u slot side ahead seat.old.view
        → Loads (shape_of W.WAY table.now) u key slot side result seat.new.view }
    ensures slot { (slot : ℕ) (side : Side) → IsSlot (shape_of W.WAY table.now) slot
        → IsSlot (shape_of W.WAY table.now) (state_slot (state_after slot side result)) }
    ensures searching { (v u : View) (slot : ℕ) (side : Side) → IsSearching v key (At slot side) u
        → LoadsLinks (shape_of W.WAY table.now) u slot side ahead seat.old.view
        → IsSearching v key (state_after slot side result) seat.new.view }
    ensures costs { (v u : View) (slot : ℕ) (side : Side) → IsSearching v key (At slot side) u
        → LoadsLinks (shape_of W.WAY table.now) u slot side ahead seat.old.view
        → Costs (shape_of W.WAY table.now) u result seat.new.view }
    ensures more { length seat.old.view.trail.steps ≤ length seat.new.view.trail.steps }
{
    // The slot may have been unlinked meanwhile. Its links still lead to the tree, or to slots unlinked later.
    // docs/TREE.md#why-a-get-beside-a-delete-is-right
    if ahead == 0 {
        return Step::Ended;
    }
    let found = steps::search_load(table, seat, ahead, Part::Key);
    bring_near(table, aside);
    match step_side(key, found) {
        None => Step::Found { slot: ahead },
        Some(side) => Step::Moved { slot: ahead, side },
    }
}

/// Loads both links of a slot and, where that of the side leads to a slot, that slot's key.
#[inline(always)]
pub(crate) fn go_down<W: WaitPart>(
    table: &CitrusTable<W>,
    seat: &mut Seat<W>,
    key: u64,
    slot: u32,
    side: Side,
) -> Step
    requires table { seat.old.table ≡ table.now }
    requires slot { IsSlot (shape_of W.WAY table.now) slot }
    requires searching { (v : View) × IsSearching v key (At slot side) seat.old.view }
    ensures seat { (seat.new.table ≡ seat.old.table) × (seat.new.listed ≡ seat.old.listed) }
    ensures place { 1 ≤ table.now.places }
    ensures loads { Loads (shape_of W.WAY table.now) seat.old.view key slot side result seat.new.view }
    ensures slot { IsSlot (shape_of W.WAY table.now) (state_slot (state_after slot side result)) }
    ensures searching { (v : View) → IsSearching v key (At slot side) seat.old.view
        → IsSearching v key (state_after slot side result) seat.new.view }
{
    let links = load_links(table, seat, slot, side);
    look_on(table, seat, key, links.ahead, Some(links.aside))
}

/// Enters a section with the key, and goes down from the root until a slot has the key or a side is empty. The section stays open. It comes to
/// an end whatever others do: a search stands at no slot twice.
// A call would hand its answer through memory.
#[inline(always)]
pub fn descend<W: WaitPart, G: Gate>(
    table: &CitrusTable<W>,
    seat: &mut Seat<W>,
    gate: &G,
    key: u64,
) -> Descent
    requires table { seat.old.table ≡ table.now }
    requires outside { seat.old.view.section ≡ None }
    requires unlocked { seat.old.view.locks ≡ [] }
    ensures seat { (seat.new.table ≡ seat.old.table) × (seat.new.listed ≡ seat.old.listed) }
    ensures place { 1 ≤ table.now.places }
    ensures slot { IsSlot (shape_of W.WAY table.now) (state_slot (state_of result)) }
    ensures searching { IsSearching seat.old.view key (state_of result) seat.new.view }
    ensures within { EndsWithin (shape_of W.WAY table.now) 2 seat.old.view seat.new.view }
{
    W::enter(table, seat, key);
    gate.pass(Point::InSection, seat.place());
    let mut at = 0;
    let mut side = Side::Right;
    let mut depth = 0;
    let mut links = load_links(table, seat, at, side);
    loop {
        match look_on(table, seat, key, links.ahead, Some(links.aside)) {
            Step::Moved { slot, side: next } => {
                at = slot;
                side = next;
                // Behind the comparison, which chooses one of them: else the choice would wait for one more turn.
                links = load_links(table, seat, slot, next);
                depth += 1;
            }
            Step::Found { slot } => {
                return Descent::Found {
                    slot,
                    parent: at,
                    side,
                };
            }
            Step::Ended => {
                return Descent::Ended {
                    slot: at,
                    side,
                    depth,
                };
            }
        }
    }
}
