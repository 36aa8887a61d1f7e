//! Lookups, in a section and without a lock.
ghost use Rattle.std.specs.Prelude.{◌≡◌};
ghost use Rattle.seat_table.specs.Seats.{IsQuietSeat, shape_of};
ghost use Rattle.seat_table.specs.Gains.{IsInformed};
ghost use Rattle.citrus_tree.specs.Deletes.{BeginsByLookup};
ghost use Rattle.citrus_tree.specs.Hops.{EndsWithin};
ghost use Rattle.citrus_tree.specs.Going.{KeepsSeat};
ghost use Rattle.citrus_tree.specs.Lookups.{Looked, Gets};

use crate::answer::answered;
use crate::holding::{hold, release};
use prcu_marks::Gate;
use prcu_model::{Reply, Told};
use seat_table::{CitrusTable, Seat, WaitPart};

// What a hold finds, with its section left.
// A call would hand its answer through memory.
#[inline(always)]
pub(crate) fn look_up<W: WaitPart, G: Gate>(
    table: &CitrusTable<W>,
    seat: &mut Seat<W>,
    gate: &G,
    key: u64,
) -> Option<u64>
    requires table { seat.old.table ≡ table.now }
    requires quiet { IsQuietSeat seat.old }
    ensures seat { (seat.new.table ≡ seat.old.table) × (seat.new.listed ≡ seat.old.listed) }
    ensures looked { Looked seat.old.view key result seat.new.view }
    ensures within { EndsWithin (shape_of W.WAY table.now) 4 seat.old.view seat.new.view }
{
    match hold(table, seat, gate, key) {
        Some(value) => {
            release(table, seat);
            Some(value)
        }
        None => None,
    }
}

/// The key's value, or `Absent`, as the dictionary gave it at some time of the call. It takes no lock and waits for nobody's step. Others'
/// updates can make the search longer, but it stands at no slot twice: the call makes at most three steps for each slot of the table, and four.
/// docs/TREE.md#why-a-get-comes-to-its-end
// A call would hand its answer through memory.
#[inline(always)]
pub fn get<W: WaitPart, G: Gate>(
    table: &CitrusTable<W>,
    seat: &mut Seat<W>,
    gate: &G,
    key: u64,
) -> Told
    requires table { seat.old.table ≡ table.now }
    requires quiet { IsQuietSeat seat.old }
    ensures seat { seat.new.table ≡ seat.old.table }
    ensures listed { seat.new.listed ≡ seat.old.listed }
    ensures gets { Gets seat.old.view key result seat.new.view }
    ensures begins { BeginsByLookup seat.old.view key seat.new.view }
    ensures within { EndsWithin (shape_of W.WAY table.now) 4 seat.old.view seat.new.view }
    ensures tickets { seat.new.view.allowance.tickets ≡ seat.old.view.allowance.tickets }
    ensures keeps { KeepsSeat 0 seat.old seat.new }
    ensures informed { IsInformed seat.new.view }
{
    // Each way out has its answer: else the caller would ask once more which one it is.
    match look_up(table, seat, gate, key) {
        Some(value) => answered(gate, seat, Reply::Val { value }, 0),
        None => answered(gate, seat, Reply::Absent, 0),
    }
}
