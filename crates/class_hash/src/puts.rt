//! A pair added under a bucket's lock.
ghost use Rattle.std.specs.Prelude.{◌≡◌, ◌≢◌, IfNone, IfSome};
ghost use Rattle.class_hash.specs.Answers.{IsInformed};
ghost use Rattle.class_hash.specs.Calls.{AddsNoLists, HasFinished, Lists, MayPoll};
ghost use Rattle.class_hash.specs.Updates.{HasPolled, HasFree, MayAdd, MayFill, MayLink, Filled, Linked, Added, LeavesFull};

use crate::bucket::{Poll, free_bucket, lists, poll_class};
use crate::search::slot_at;
use crate::seat::HashSeat;
use crate::steps;
use crate::table::HashTable;
use crate::updates::open_commit;
use crossbeam_utils::Backoff;
use hash_core::Field;
use std::sync::Wait;

/// Makes the retired slots free, as soon as no reader of the class is found.
fn refill<R: Wait>(rt: &R, table: &HashTable, seat: &mut HashSeat)
    requires table { seat.old.table ≡ table.now.id }
    requires lists { MayPoll seat.old.view }
    ensures table { seat.new.table ≡ seat.old.table }
    ensures view { HasPolled seat.old.view seat.new.view }
{
    let backoff = Backoff::new();
    for _ in rt.forever() {
        match poll_class(table, seat) {
            Poll::Over => return,
            Poll::NotYet { why: _ } => backoff.snooze(),
        }
    }
    unreachable!()
}

/// The first free slot of the bucket's class, where need be after a wait for the readers of the class; 0 where no slot is
/// free or retired.
fn find_free<R: Wait>(rt: &R, table: &HashTable, seat: &mut HashSeat) -> u64
    requires table { seat.old.table ≡ table.now.id }
    requires finished { HasFinished seat.old.view }
    ensures table { seat.new.table ≡ seat.old.table }
    ensures full { result ≡ 0 → Lists table.now.capacities seat.old.view 0 0 seat.new.view }
    ensures free { result ≢ 0 → HasFree table.now.capacities seat.old.view result seat.new.view }
{
    let (free, retired) = lists(table, seat);
    if free != 0 {
        return free;
    }
    if retired == 0 {
        return 0;
    }
    refill(rt, table, seat);
    retired
}

/// Takes the first free slot, and writes the pair and the link to the head into it.
fn fill_pair(table: &HashTable, seat: &mut HashSeat, slot: u32, key: u64, value: u64)
    requires table { seat.old.table ≡ table.now.id }
    requires case { MayFill table.now.capacities seat.old.view slot key }
    ensures table { seat.new.table ≡ seat.old.table }
    ensures view { Filled seat.old.view slot key value seat.new.view }
{
    let class = seat.class_held();
    let next = steps::locked_load(table, seat, Field::Chain { slot });
    let first = steps::locked_load(table, seat, Field::Head { class });
    steps::take_slot(table, seat, slot, next);
    steps::fill(table, seat, Field::Key { slot }, key);
    steps::fill(table, seat, Field::Value { slot }, value);
    steps::fill(table, seat, Field::Next { slot }, first);
}

/// Links the slot taken, gives up the lock, and answers the update's position.
fn link<R: Wait>(
    rt: &R,
    table: &HashTable,
    seat: &mut HashSeat,
    slot: u32,
    key: u64,
    value: u64,
) -> u64
    requires table { seat.old.table ≡ table.now.id }
    requires case { MayLink seat.old.view slot key value }
    ensures table { seat.new.table ≡ seat.old.table }
    ensures view { Linked seat.old.view key value result seat.new.view }
    ensures trail { AddsNoLists seat.old.view.trail seat.new.view.trail }
    ensures informed { IsInformed table.now.capacities table.now.places seat.new.view }
{
    let even = open_commit(rt, table, seat);
    steps::link_slot(table, seat, slot, key, value);
    steps::close_commit(table, seat, even + 2);
    steps::unlock(table, seat);
    even / 2 + 1
}

/// Adds the pair in a free slot, and answers the update's position, or `None` where no slot is free or retired. The lock is
/// given up either way.
pub(crate) fn add<R: Wait>(
    rt: &R,
    table: &HashTable,
    seat: &mut HashSeat,
    key: u64,
    value: u64,
) -> Option<u64>
    requires table { seat.old.table ≡ table.now.id }
    requires case { MayAdd seat.old.view key }
    ensures table { seat.new.table ≡ seat.old.table }
    ensures full { IfNone result (LeavesFull table.now.capacities seat.old.view seat.new.view) }
    ensures added { IfSome result (λ number. Added table.now.capacities seat.old.view key value number seat.new.view) }
    ensures informed { IsInformed table.now.capacities table.now.places seat.new.view }
{
    let free = find_free(rt, table, seat);
    if free == 0 {
        free_bucket(table, seat);
        return None;
    }
    let slot = slot_at(table, free);
    fill_pair(table, seat, slot, key, value);
    Some(link(rt, table, seat, slot, key, value))
}
