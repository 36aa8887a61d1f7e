//! The call that uses a retired slot again, after a wait for everybody.
ghost use Rattle.std.specs.Prelude.{◌≡◌, ℕ, ◌≤◌, false, [], Some, None};
ghost use Rattle.core_state.specs.declared.view.Held.{Held};
ghost use Rattle.seat_table.specs.Seats.{shape_of, unlisted};
ghost use Rattle.seat_table.specs.Gains.{IsInformed, StaysIn};
ghost use Rattle.node_slots.specs.Reclaiming.{IsReady, Reuses};

use seat_table::{CitrusTable, Seat, WaitWords, steps};

/// Takes a listed slot into the hand, with the next generation, after a wait for everybody that was begun since it was unlinked and that is
/// over. It costs a ticket, as a take does. The free count stays as it is, and nobody else sees the slot as free in between.
pub fn reuse<W: WaitWords>(table: &CitrusTable<W>, seat: &mut Seat<W>, slot: u32)
    requires table { seat.old.table ≡ table.now }
    requires ready { IsReady seat.old.view slot }
    requires unlocked { seat.old.view.locks ≡ [] }
    requires settled { seat.old.view.moving ≡ None }
    requires some { (held : Held) × (seat.old.view.hands.spare ≡ Some held) }
    requires empty { seat.old.view.hands.hand ≡ None }
    requires unreserved { seat.old.view.hands.reserved ≡ false }
    requires ticket { 1 ≤ seat.old.view.allowance.tickets }
    ensures table { seat.new.table ≡ seat.old.table }
    ensures looked { seat.new.looked ≡ seat.old.looked }
    ensures listed { seat.new.listed ≡ unlisted slot seat.old.listed }
    ensures view { Reuses seat.old.view slot seat.new.view }
    ensures informed { IsInformed seat.new.view }
    ensures stays { StaysIn (shape_of W.WAY table.now) seat.new.view }
{
    let life = steps::load_retired_life(table, seat, slot);
    // The generation rises before the slot is filled: every record of what it was is out of date. docs/TREE.md#what-could-go-wrong
    steps::raise_to_hand(table, seat, slot, 2 * (life / 2 + 1));
}
