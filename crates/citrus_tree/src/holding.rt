//! Lookups whose section stays open, and its end.
ghost use Rattle.std.specs.Prelude.{◌≡◌, Some};
ghost use Rattle.core_state.specs.declared.view.Section.{Section};
ghost use Rattle.seat_table.specs.Seats.{IsQuietSeat, shape_of};
ghost use Rattle.seat_table.specs.Sections.{HasLeft, IsQuietButSection};
ghost use Rattle.citrus_tree.specs.Hops.{EndsWithin};
ghost use Rattle.citrus_tree.specs.Lookups.{HoldsOrNot, LeavesQuiet, Releases};

use crate::descent::{Descent, descend};
use prcu_marks::Gate;
use seat_table::{CitrusTable, Part, Seat, WaitPart, steps};

/// The key's value, or none, as the dictionary gave it at some time of a section with the key. With a value the section stays open until
/// `release`: a wait whose keys have this one among them, and that begins meanwhile, is over only after that. With none it was left, as a
/// get leaves it. It takes no lock and waits for nobody's step. Others' updates can make the search longer, but it stands at no slot twice: it
/// makes at most three steps for each slot of the table, and three. docs/TREE.md#why-a-get-comes-to-its-end
// A call would hand its answer through memory.
#[inline(always)]
pub fn hold<W: WaitPart, G: Gate>(
    table: &CitrusTable<W>,
    seat: &mut Seat<W>,
    gate: &G,
    key: u64,
) -> Option<u64>
    requires table { seat.old.table ≡ table.now }
    requires quiet { IsQuietSeat seat.old }
    ensures seat { (seat.new.table ≡ seat.old.table) × (seat.new.listed ≡ seat.old.listed) }
    ensures held { HoldsOrNot seat.old.view key result seat.new.view }
    ensures within { EndsWithin (shape_of W.WAY table.now) 3 seat.old.view seat.new.view }
    ensures quiet { LeavesQuiet result seat.new }
{
    match descend(table, seat, gate, key) {
        Descent::Found { slot, .. } => {
            // Without a lock: a node that is unlinked by now keeps its value, and that was the key's at a front of this section.
            // docs/TREE.md#why-a-get-beside-a-delete-is-right
            let value = steps::search_load(table, seat, slot, Part::Value);
            Some(value)
        }
        Descent::Ended { .. } => {
            W::leave(table, seat);
            None
        }
    }
}

/// Leaves the open section. What a `hold` found in it was the key's value at a front of the section.
pub fn release<W: WaitPart>(table: &CitrusTable<W>, seat: &mut Seat<W>)
    requires table { seat.old.table ≡ table.now }
    requires inside { (section : Section) × (seat.old.view.section ≡ Some section) }
    requires quiet { IsQuietButSection seat.old }
    ensures seat { (seat.new.table ≡ seat.old.table) × (seat.new.listed ≡ seat.old.listed) }
    ensures left { HasLeft seat.old.view seat.new.view }
    ensures released { Releases seat.old.view seat.new.view }
    ensures quiet { IsQuietSeat seat.new }
{
    W::leave(table, seat);
}
