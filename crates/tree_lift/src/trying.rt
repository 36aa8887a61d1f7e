//! A turn that a section recorded is tried.
ghost use Rattle.std.specs.Prelude.{◌≡◌, ◌+◌, ◌<◌, length, IfOk, IfErr};
ghost use Rattle.seat_table.specs.Sections.{HasMade};
ghost use Rattle.seat_table.specs.Seats.{IsQuietSeat, shape_of};
ghost use Rattle.tree_turn.specs.Turns.{HasRecorded};
ghost use Rattle.tree_lift.specs.Lifts.{CanPayTurn, TriesTurn};

use crate::room::take_slots;
use node_slots::put_back;
use patience::Patience;
use seat_table::{CitrusTable, Seat, WaitPart};
use tree_turn::{Turn, make_turn};

/// What came of a turn that was tried.
#[derive(Clone, Copy)]
pub(crate) enum Outcome {
    /// The node and its child changed places.
    Turned,
    /// A lock was taken, or something changed since it was recorded.
    Refused,
    /// No slot was free.
    NoSlot,
}

/// Takes the slots that a turn needs, and makes it. A slot that it took in hand and didn't link is put back.
pub(crate) fn try_turn<P: Patience, W: WaitPart>(
    patience: &P,
    table: &CitrusTable<W>,
    seat: &mut Seat<W>,
    turn: Turn,
) -> Result<Outcome, P::Tired>
    requires table { seat.old.table ≡ table.now }
    requires quiet { IsQuietSeat seat.old }
    requires tickets { CanPayTurn seat.old.view }
    requires room { length seat.old.view.hands.retired + 1 < table.now.room }
    requires recorded { HasRecorded (shape_of W.WAY table.now) seat.old.view turn }
    ensures table { seat.new.table ≡ seat.old.table }
    ensures tries { IfOk result (λ outcome. TriesTurn (shape_of W.WAY table.now) seat.old turn outcome seat.new) }
    ensures tired { IfErr result (λ _. HasMade (P.least patience.now) seat.new.view) }
{
    if !take_slots(patience, table, seat)? {
        return Ok(Outcome::NoSlot);
    }
    if make_turn(table, seat, turn) {
        return Ok(Outcome::Turned);
    }
    put_back(table, seat);
    Ok(Outcome::Refused)
}
