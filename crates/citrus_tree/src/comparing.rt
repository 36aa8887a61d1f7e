//! A value is replaced where it is an expected one.
ghost use Rattle.std.specs.Prelude.{◌≡◌, ◌≤◌, [], None, IfOk, IfErr};
ghost use Rattle.prcu_model.specs.declared.operation.Op.TheVariants.{Set};
ghost use Rattle.seat_table.specs.Gains.{IsInformed};
ghost use Rattle.seat_table.specs.Sections.{HasMade, HasStepped};
ghost use Rattle.seat_table.specs.Seats.{IsQuietSeat, shape_of};
ghost use Rattle.citrus_tree.specs.Deletes.{BeginsByLookup};
ghost use Rattle.citrus_tree.specs.Replies.{Compares, GaveWay, SoughtValue};
ghost use Rattle.citrus_tree.specs.Going.{KeepsSeat};

use crate::descent::{Descent, descend};
use crate::replace::{Holder, store_value};
use core_state::generation_of;
use patience::Patience;
use prcu_marks::{Gate, Point};
use seat_table::{CitrusTable, Part, Seat, WaitPart, steps};

/// What a compare came to.
#[derive(Clone, Copy, Debug, PartialEq, Eq)]
pub enum Compared {
    /// The value was the expected one, and was replaced by the update of this number.
    Replaced { number: u64 },
    /// The key had another value, this one.
    Differs { found: u64 },
    /// The key was absent.
    Absent,
}

/// A slot that had the key, and the value that was found there.
#[derive(Clone, Copy)]
pub(crate) struct Seen {
    pub(crate) holder: Holder,
    pub(crate) value: u64,
}

/// Gives the key another value, where its value is the expected one: `Replaced` with the update's position. Else it changes nothing:
/// `Differs` with the value that the key had at some time of the call, and `Absent` as at `get`. It waits as a set does, for the holder of
/// the node's lock and for other updates, and for no reader. Busy comes as at a set.
///
/// A value that is replaced and put back between the search and the lock isn't told from one that stayed: it is the expected one at the
/// update, and that is what is said.
pub fn compare<P: Patience, W: WaitPart, G: Gate>(
    patience: &P,
    table: &CitrusTable<W>,
    seat: &mut Seat<W>,
    gate: &G,
    key: u64,
    expected: u64,
    value: u64,
) -> Result<Result<Compared, P::Busy>, P::Tired>
    requires table { seat.old.table ≡ table.now }
    requires quiet { IsQuietSeat seat.old }
    requires tickets { 4 ≤ seat.old.view.allowance.tickets }
    ensures table { seat.new.table ≡ seat.old.table }
    ensures compares { IfOk result (λ answer. IfOk answer (λ compared. Compares seat.old.view key expected value compared seat.new.view)) }
    ensures busy { IfOk result (λ answer. IfErr answer
        (λ _. GaveWay (shape_of W.WAY table.now) seat.old.view (Set key value) seat.new.view)) }
    ensures begins { IfOk result (λ _. BeginsByLookup seat.old.view key seat.new.view) }
    ensures keeps { IfOk result (λ _. KeepsSeat 4 seat.old seat.new) }
    ensures informed { IfOk result (λ answer. IfOk answer (λ _. IsInformed seat.new.view)) }
    ensures tired { IfErr result (λ _. HasMade (P.least patience.now) seat.new.view) }
{
    let mut pauses = patience.pauses();
    for round in 0..u64::MAX {
        let Some(seen) = find_value(table, seat, gate, key) else {
            gate.pass(Point::Answered, seat.place());
            return Ok(Ok(Compared::Absent));
        };
        let found = seen.value;
        if found != expected {
            gate.pass(Point::Answered, seat.place());
            return Ok(Ok(Compared::Differs { found }));
        }
        gate.pass(Point::BeforeLock, seat.place());
        let stored = match store_value(
            patience,
            table,
            seat,
            seen.holder,
            key,
            Some(expected),
            value,
        )? {
            Ok(stored) => stored,
            Err(busy) => return Ok(Err(busy)),
        };
        // Where the value is another one by now, the next search tells which.
        if let Some(done) = stored {
            gate.pass(Point::Answered, seat.place());
            return Ok(Ok(Compared::Replaced {
                number: done.number,
            }));
        }
        if let Err(busy) = patience.rest(&mut pauses) {
            return Ok(Err(busy));
        }
    }
    Err(patience.tired())
}

// The slot that has the key, with its value, or none where the key is absent.
fn find_value<W: WaitPart, G: Gate>(
    table: &CitrusTable<W>,
    seat: &mut Seat<W>,
    gate: &G,
    key: u64,
) -> Option<Seen>
    requires table { seat.old.table ≡ table.now }
    requires outside { seat.old.view.section ≡ None }
    requires unlocked { seat.old.view.locks ≡ [] }
    ensures seat { (seat.new.table ≡ seat.old.table) × (seat.new.listed ≡ seat.old.listed) }
    ensures place { 1 ≤ table.now.places }
    ensures sought { SoughtValue (shape_of W.WAY table.now) seat.old.view key result seat.new.view }
    ensures stepped { HasStepped seat.old.view seat.new.view }
{
    match descend(table, seat, gate, key) {
        Descent::Found { slot, .. } => {
            let value = steps::search_load(table, seat, slot, Part::Value);
            let life = steps::search_load(table, seat, slot, Part::Life);
            W::leave(table, seat);
            let generation = generation_of(life);
            Some(Seen {
                holder: Holder { slot, generation },
                value,
            })
        }
        Descent::Ended { .. } => {
            W::leave(table, seat);
            None
        }
    }
}
