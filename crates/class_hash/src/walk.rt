//! The walk along a bucket's chain under its lock.
ghost use Rattle.std.specs.Prelude.{◌≡◌, ◌%◌, true, Option, Some, None, IfNone, IfSome};
ghost use Rattle.hash_core.specs.declared.view.Hold.{Hold};
ghost use Rattle.hash_core.specs.Steps.{ShowsAbsent};
ghost use Rattle.class_hash.specs.Calls.{HasLoaded, WalksPast, WalksTo};

use crate::search::slot_at;
use crate::seat::HashSeat;
use crate::steps;
use crate::table::HashTable;
use hash_core::Field;
use std::sync::Wait;

/// Where a walk found the key: the slot, and the slot before it, if it isn't the first.
#[derive(Clone, Copy, Drop)]
pub(crate) struct Place {
    pub(crate) previous: Option<u32>,
    pub(crate) slot: u32,
}

/// Looks for the key along the chain of its class, whose lock the seat holds.
pub(crate) fn walk_locked<R: Wait>(
    rt: &R,
    table: &HashTable,
    seat: &mut HashSeat,
    key: u64,
) -> Option<Place>
    requires table { seat.old.table ≡ table.now.id }
    requires held { (hold : Hold) × (seat.old.view.hold ≡ Some hold) }
    ensures table { seat.new.table ≡ seat.old.table }
    ensures absent { IfNone result ((hold : Hold) → seat.old.view.hold ≡ Some hold → WalksPast key seat.old.view hold seat.new.view) }
    ensures found { IfSome result (λ place. (hold : Hold) → seat.old.view.hold ≡ Some hold
        → WalksTo table.now.capacities key seat.old.view hold place.previous place.slot seat.new.view) }
{
    let class = seat.class_held();
    let mut previous = None;
    let mut link = steps::locked_load(table, seat, Field::Head { class });
    for _ in rt.forever() {
        if link == 0 {
            return None;
        }
        let slot = slot_at(table, link);
        if steps::locked_load(table, seat, Field::Key { slot }) == key {
            return Some(Place { previous, slot });
        }
        link = steps::locked_load(table, seat, Field::Next { slot });
        previous = Some(slot);
    }
    unreachable!()
}

/// Whether the chain of the key's class, whose lock the seat holds, lacks the key.
pub(crate) fn lacks<R: Wait>(rt: &R, table: &HashTable, seat: &mut HashSeat, key: u64) -> bool
    requires table { seat.old.table ≡ table.now.id }
    requires held { (hold : Hold) × (seat.old.view.hold ≡ Some hold) }
    ensures table { seat.new.table ≡ seat.old.table }
    ensures walked { (hold : Hold) → seat.old.view.hold ≡ Some hold
        → (new : Hold) × HasLoaded seat.old.view hold seat.new.view new × (result ≡ true → ShowsAbsent new key) }
{
    walk_locked(rt, table, seat, key).is_none()
}
