//! The call that makes a turn.
ghost use Rattle.std.specs.Prelude.{◌≡◌, ◌+◌, Some, true, false, [], ◌∷◌, ◌++◌};
ghost use Rattle.core_state.specs.Views.{steps_made};
ghost use Rattle.seat_table.specs.Gains.{IsInformed};
ghost use Rattle.seat_table.specs.Seats.{AreListed, IsQuietSeat, IsSlotOf, shape_of};
ghost use Rattle.tree_points.specs.Points.{HasAdvanced};
ghost use Rattle.tree_turn.specs.Turns.{HasRecorded, IsReadyToTurn, IsQuietButHand, HasTurned, HasTurnedNone, is_rotation, stands_aside};

use crate::loads::{is_as_recorded, load_words};
use crate::locks::{lock_three, unlock_three};
use crate::replacing::replace;
use crate::turn::Turn;
use seat_table::{CitrusTable, Seat, WaitWords};

/// Lets a node and its child change places, where both are as they were recorded: two new nodes with their pairs, the spare and the slot in
/// hand, take their place by one store. The two old ones are listed as retired, the node first. It spends one ticket.
///
/// It tries each of the three locks once and waits for nobody. `false` comes where a lock is taken, where something isn't as it was
/// recorded any more, or where one of the three slots is by now in hand or the spare; then nothing is changed.
pub fn make_turn<W: WaitWords>(table: &CitrusTable<W>, seat: &mut Seat<W>, turn: Turn) -> bool
    requires table { seat.old.table ≡ table.now }
    requires recorded { HasRecorded (shape_of W.WAY table.now) seat.old.view turn }
    requires ready { IsReadyToTurn table.now.room seat.old.view }
    requires listed { AreListed seat.old }
    ensures table { seat.new.table ≡ seat.old.table }
    ensures turned { result ≡ true → HasTurned seat.old.view turn seat.new.view }
    ensures refused { result ≡ false → HasTurnedNone seat.old.view turn seat.new.view }
    ensures once { result ≡ true → steps_made is_rotation seat.new.view ≡ steps_made is_rotation seat.old.view + 1 }
    ensures none { result ≡ false → steps_made is_rotation seat.new.view ≡ steps_made is_rotation seat.old.view }
    ensures gone { HasAdvanced seat.old.view seat.new.view [] }
    ensures retires { result ≡ true → seat.new.listed ≡ seat.old.listed ++ turn.node ∷ (turn.child ∷ []) }
    ensures same_list { result ≡ false → seat.new.listed ≡ seat.old.listed }
    ensures listed { AreListed seat.new }
    ensures quiet { result ≡ true → IsQuietButHand seat.old → IsQuietSeat seat.new }
    ensures still { result ≡ false → IsQuietButHand seat.old → IsQuietButHand seat.new }
    ensures informed { result ≡ true → IsInformed seat.new.view }
{
    let Some(bottom) = seat.in_hand() else {
        unreachable!();
    };
    let Some(top) = seat.spare() else {
        unreachable!();
    };
    if !attempt(table, seat, turn, bottom, top) {
        return false;
    }
    seat.list_retired(turn.node);
    seat.list_retired(turn.child);
    true
}

// All of a turn but the list of retired slots.
fn attempt<W: WaitWords>(
    table: &CitrusTable<W>,
    seat: &mut Seat<W>,
    turn: Turn,
    bottom: u32,
    top: u32,
) -> bool
    requires table { seat.old.table ≡ table.now }
    requires recorded { HasRecorded (shape_of W.WAY table.now) seat.old.view turn }
    requires ready { IsReadyToTurn table.now.room seat.old.view }
    requires hand { IsSlotOf (Some bottom) seat.old.view.hands.hand }
    requires spare { IsSlotOf (Some top) seat.old.view.hands.spare }
    ensures seat { (seat.new.table ≡ seat.old.table) × (seat.new.listed ≡ seat.old.listed) }
    ensures turned { result ≡ true → HasTurned seat.old.view turn seat.new.view }
    ensures refused { result ≡ false → HasTurnedNone seat.old.view turn seat.new.view }
    ensures informed { result ≡ true → IsInformed seat.new.view }
{
    // A stale record may name a slot that was given back and is this place's own by now.
    if !are_aside(turn, bottom, top) {
        return false;
    }
    if !lock_three(table, seat, turn) {
        return false;
    }
    let words = load_words(table, seat, turn);
    if !is_as_recorded(turn, words) {
        unlock_three(table, seat, turn);
        return false;
    }
    replace(table, seat, turn, words, bottom, top);
    unlock_three(table, seat, turn);
    true
}

// Whether the slots in hand and spare are none of the three, and two.
fn are_aside(turn: Turn, bottom: u32, top: u32) -> bool
    ensures { result ≡ stands_aside turn bottom top }
{
    bottom != top
        && bottom != turn.parent
        && bottom != turn.node
        && bottom != turn.child
        && top != turn.parent
        && top != turn.node
        && top != turn.child
}
