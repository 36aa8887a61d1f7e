//! The three locks of a turn.
ghost use Rattle.std.specs.Prelude.{◌≡◌, List, [], true, false, None};
ghost use Rattle.core_state.specs.declared.view.Known.{Known};
ghost use Rattle.seat_table.specs.Gains.{IsInformed};
ghost use Rattle.seat_table.specs.Seats.{shape_of};
ghost use Rattle.tree_turn.specs.Turns.{AreThree, HasLocked, HasGivenUp, HasUnlocked, three_locks};

use crate::turn::Turn;
use seat_table::{CitrusTable, Seat, WaitWords, steps};

/// Locks the parent, the node and the child, each tried once. Where one is found taken, those that it got are given up, and it answers
/// `false`.
pub(crate) fn lock_three<W: WaitWords>(
    table: &CitrusTable<W>,
    seat: &mut Seat<W>,
    turn: Turn,
) -> bool
    requires table { seat.old.table ≡ table.now }
    requires three { AreThree (shape_of W.WAY table.now) turn }
    requires outside { seat.old.view.section ≡ None }
    requires unlocked { seat.old.view.locks ≡ [] }
    requires settled { seat.old.view.moving ≡ None }
    ensures seat { (seat.new.table ≡ seat.old.table) × (seat.new.listed ≡ seat.old.listed) }
    ensures got { result ≡ true → HasLocked seat.old.view turn seat.new.view }
    ensures busy { result ≡ false → HasGivenUp seat.old.view turn seat.new.view }
{
    // Tried, and not waited for: others lock in other orders, and what was recorded may be out of date.
    if steps::lock(table, seat, turn.parent) != 0 {
        return false;
    }
    if steps::lock(table, seat, turn.node) != 0 {
        steps::unlock(table, seat, turn.parent);
        return false;
    }
    if steps::lock(table, seat, turn.child) != 0 {
        steps::unlock(table, seat, turn.node);
        steps::unlock(table, seat, turn.parent);
        return false;
    }
    true
}

/// Gives up the three locks, that of the child first.
pub(crate) fn unlock_three<W: WaitWords>(table: &CitrusTable<W>, seat: &mut Seat<W>, turn: Turn)
    requires table { seat.old.table ≡ table.now }
    requires three { AreThree (shape_of W.WAY table.now) turn }
    requires locked { (parent node child : List Known) × (seat.old.view.locks ≡ three_locks turn parent node child) }
    requires settled { seat.old.view.moving ≡ None }
    ensures seat { (seat.new.table ≡ seat.old.table) × (seat.new.listed ≡ seat.old.listed) }
    ensures view { HasUnlocked seat.old.view turn seat.new.view }
    ensures informed { IsInformed seat.new.view }
{
    steps::unlock(table, seat, turn.child);
    steps::unlock(table, seat, turn.node);
    steps::unlock(table, seat, turn.parent);
}
