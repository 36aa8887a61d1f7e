//! The calls that may have to wait for others, for callers that never give up.
ghost use Rattle.std.specs.Prelude.{◌≡◌, ℕ, ◌+◌, ◌≤◌, false, [], None};
ghost use Rattle.list_laws.specs.Counts.{Each};
ghost use Rattle.core_state.specs.declared.view.Retired.{Retired};
ghost use Rattle.seat_table.specs.Seats.{AreListed, shape_of};
ghost use Rattle.seat_table.specs.Gains.{IsInformed, StaysIn};
ghost use Rattle.node_slots.specs.declared.answers.Taken.TheVariants.{Slot};
ghost use Rattle.node_slots.specs.Reclaiming.{HasReclaimed};
ghost use Rattle.node_slots.specs.Taking.{Takes, TriesBy};

use crate::answers::Taken;
use crate::patient;
use patience::Steadfast;
use seat_table::{CitrusTable, Seat, WaitPart, WaitWords};
use std::sync::Wait;

/// Takes a free slot, where there is one. `Empty` comes exactly where the last exchange of the free count found 0; all before it found
/// other numbers.
pub fn take<R: Wait, W: WaitWords>(rt: &R, table: &CitrusTable<W>, seat: &mut Seat<W>) -> Taken
    requires table { seat.old.table ≡ table.now }
    requires unreserved { seat.old.view.hands.reserved ≡ false }
    requires empty { seat.old.view.hands.hand ≡ None }
    requires ticket { 1 ≤ seat.old.view.allowance.tickets }
    ensures seat { (seat.new.table ≡ seat.old.table) × (seat.new.listed ≡ seat.old.listed) }
    ensures view { Takes (shape_of W.WAY table.now) seat.old.view result seat.new.view }
    ensures tries { TriesBy (shape_of W.WAY table.now) seat.old.view seat.old.looked result seat.new.view seat.new.looked }
    ensures inside { (slot generation : ℕ) → result ≡ Slot slot generation → (1 ≤ slot) × (slot ≤ table.now.slots + table.now.places) }
    ensures informed { IsInformed seat.new.view }
    ensures stays { StaysIn (shape_of W.WAY table.now) seat.new.view }
{
    match patient::take(&Steadfast::new(rt), table, seat) {
        Ok(taken) => taken,
        Err(never) => match never {},
    }
}

/// Waits until each reader has left that reads now, and gives all retired slots back then. Where the place has no spare the first of them
/// becomes its spare.
pub fn reclaim<R: Wait, W: WaitPart>(rt: &R, table: &CitrusTable<W>, seat: &mut Seat<W>)
    requires table { seat.old.table ≡ table.now }
    requires outside { seat.old.view.section ≡ None }
    requires unlocked { seat.old.view.locks ≡ [] }
    requires settled { seat.old.view.moving ≡ None }
    requires paid { seat.old.view.hands.owes ≡ false }
    requires ticket { 1 ≤ seat.old.view.allowance.tickets }
    requires listed { AreListed seat.old }
    requires unraised { Each seat.old.view.hands.retired (λ (r : Retired). r.raised ≡ false) }
    ensures table { seat.new.table ≡ seat.old.table }
    ensures listed { seat.new.listed ≡ [] }
    ensures view { HasReclaimed (shape_of W.WAY table.now) seat.old.view seat.old.listed seat.new.view }
    ensures informed { IsInformed seat.new.view }
{
    match patient::reclaim(&Steadfast::new(rt), table, seat) {
        Ok(()) => (),
        Err(never) => match never {},
    }
}
