//! The locks of slots.
ghost use Rattle.std.specs.Prelude.{◌≡◌, ◌+◌, ◌≤◌, ◌<◌, length, None};
ghost use Rattle.core_state.specs.Views.{HasLock};
ghost use Rattle.core_state.specs.Steps.{NeedsUnlock};
ghost use Rattle.seat_table.specs.Seats.{shape_of};
ghost use Rattle.core_state.specs.declared.act.Act.TheVariants as acts;
ghost use Rattle.seat_table.specs.Gains.{Told};
ghost use Rattle.node_slots.specs.Slots.{Tries, Unlocks, found_by};

use crate::answers::Lock;
use seat_table::{CitrusTable, Seat, WaitWords, steps};

/// Tries once to lock a slot, by one exchange. `Busy` comes where another place holds the lock.
pub fn try_lock<W: WaitWords>(table: &CitrusTable<W>, seat: &mut Seat<W>, slot: u32) -> Lock
    requires table { seat.old.table ≡ table.now }
    requires slot { slot ≤ table.now.slots + table.now.places }
    requires outside { seat.old.view.section ≡ None }
    requires unlocked { HasLock seat.old.view slot → ⊥ }
    requires few { length seat.old.view.locks < 5 }
    ensures seat { (seat.new.table ≡ seat.old.table) × (seat.new.listed ≡ seat.old.listed) }
    ensures view { Tries (shape_of W.WAY table.now) seat.old.view slot result seat.new.view }
    ensures told { Told (shape_of W.WAY table.now) seat.old.view (acts.Lock slot) (found_by result) seat.new.view }
{
    let found = steps::lock(table, seat, slot);
    if found == 0 {
        return Lock::Held;
    }
    Lock::Busy { found }
}

/// Gives up the lock of a slot. No pending move stands on the slot, no side of it that was emptied and whose tag isn't raised, and it isn't
/// a linked slot that this place marked.
pub fn unlock<W: WaitWords>(table: &CitrusTable<W>, seat: &mut Seat<W>, slot: u32)
    requires table { seat.old.table ≡ table.now }
    requires held { NeedsUnlock seat.old.view slot }
    ensures seat { (seat.new.table ≡ seat.old.table) × (seat.new.listed ≡ seat.old.listed) }
    ensures view { Unlocks seat.old.view slot seat.new.view }
    ensures told { Told (shape_of W.WAY table.now) seat.old.view (acts.Unlock slot) 0 seat.new.view }
{
    steps::unlock(table, seat, slot);
}
