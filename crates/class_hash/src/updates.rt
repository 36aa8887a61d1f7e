//! Updates under a bucket's lock.
ghost use Rattle.std.specs.Prelude.{◌≡◌, ◌+◌, ◌<◌, Some, None};
ghost use Rattle.hash_core.specs.declared.view.Hold.{Hold};
ghost use Rattle.hash_core.specs.Steps.{IsQuiet};
ghost use Rattle.class_hash.specs.Answers.{IsInformed};
ghost use Rattle.class_hash.specs.Calls.{HasFinished, AddsNoLists};
ghost use Rattle.class_hash.specs.Updates.{HasLocked, HasTurned, MayReplace, Replaced, link_after, MayUnlink, Removed};

use crate::bucket::{Lock, try_bucket};
use crate::seat::HashSeat;
use crate::steps;
use crate::table::HashTable;
use crossbeam_utils::Backoff;
use hash_core::Field;
use std::sync::Wait;

/// Locks the bucket of a class, as soon as nobody holds it.
pub(crate) fn lock_bucket<R: Wait>(rt: &R, table: &HashTable, seat: &mut HashSeat, class: u32)
    requires table { seat.old.table ≡ table.now.id }
    requires quiet { IsQuiet seat.old.view }
    requires class { class < 64 }
    ensures table { seat.new.table ≡ seat.old.table }
    ensures view { HasLocked seat.old.view class seat.new.view }
    ensures commit { seat.old.view.commit ≡ None }
    ensures finished { HasFinished seat.new.view }
{
    let backoff = Backoff::new();
    for _ in rt.forever() {
        match try_bucket(table, seat, class) {
            Lock::Held => return,
            Lock::Busy { found: _ } => backoff.snooze(),
        }
    }
    unreachable!()
}

/// Makes the front odd, as soon as it is even, and answers what it was.
pub(crate) fn open_commit<R: Wait>(rt: &R, table: &HashTable, seat: &mut HashSeat) -> u64
    requires table { seat.old.table ≡ table.now.id }
    requires held { (hold : Hold) × (seat.old.view.hold ≡ Some hold) }
    ensures table { seat.new.table ≡ seat.old.table }
    ensures view { HasTurned seat.old.view result seat.new.view }
{
    let backoff = Backoff::new();
    let mut even = 0;
    for _ in rt.forever() {
        let found = steps::open_commit(table, seat, even);
        if found == even {
            return even;
        }
        even = found + found % 2;
        backoff.snooze();
    }
    unreachable!()
}

/// Replaces the value of the slot found, gives up the lock, and answers the old value and the update's position.
pub(crate) fn replace<R: Wait>(
    rt: &R,
    table: &HashTable,
    seat: &mut HashSeat,
    slot: u32,
    key: u64,
    value: u64,
) -> (u64, u64)
    requires table { seat.old.table ≡ table.now.id }
    requires case { MayReplace table.now.capacities seat.old.view slot key }
    ensures table { seat.new.table ≡ seat.old.table }
    ensures view { Replaced seat.old.view key value result.0 result.1 seat.new.view }
    ensures trail { AddsNoLists seat.old.view.trail seat.new.view.trail }
    ensures informed { IsInformed table.now.capacities table.now.places seat.new.view }
{
    let old = steps::locked_load(table, seat, Field::Value { slot });
    let even = open_commit(rt, table, seat);
    steps::replace_value(table, seat, slot, key, value);
    steps::close_commit(table, seat, even + 2);
    steps::unlock(table, seat);
    (old, even / 2 + 1)
}

// The link to the slot that comes after another, or first.
fn link_from(class: u32, previous: Option<u32>) -> Field
    ensures { result ≡ link_after class previous }
{
    match previous {
        Some(slot) => Field::Next { slot },
        None => Field::Head { class },
    }
}

/// Unlinks the slot found, puts it on the retired list, gives up the lock, and answers the update's position.
pub(crate) fn unlink<R: Wait>(
    rt: &R,
    table: &HashTable,
    seat: &mut HashSeat,
    previous: Option<u32>,
    slot: u32,
    key: u64,
) -> u64
    requires table { seat.old.table ≡ table.now.id }
    requires case { MayUnlink table.now.capacities seat.old.view previous slot key }
    ensures table { seat.new.table ≡ seat.old.table }
    ensures view { Removed seat.old.view key result seat.new.view }
    ensures trail { AddsNoLists seat.old.view.trail seat.new.view.trail }
    ensures informed { IsInformed table.now.capacities table.now.places seat.new.view }
{
    let class = seat.class_held();
    let next = steps::locked_load(table, seat, Field::Next { slot });
    let first = steps::locked_load(table, seat, Field::Retired { class });
    let even = open_commit(rt, table, seat);
    let link = link_from(class, previous);
    steps::unlink_slot(table, seat, link, slot, key, next);
    steps::store_chain(table, seat, slot, first);
    steps::retire(table, seat, slot);
    steps::close_commit(table, seat, even + 2);
    steps::unlock(table, seat);
    even / 2 + 1
}
