//! A seat that read and a seat that waited are still quiet: they are joined, and the seat of both goes on, for each waiter.
ghost use Rattle.std.specs.Prelude.{◌≡◌, ◌≤◌};
ghost use Rattle.seat_table.specs.Seats.{IsQuietSeat};

use crate::same::assert_same;
use key_interval::Keys;
use seat_table::{CitrusTable, Poll, Seat, WaitPart, wait_for_readers};
use std::alloc::Global;
use std::process::Abort;
use std::sync::Wait;
use std::test::Fail;
use waiters::{Deer, Domain, Eer};

// One seat reads, the other waits, and they are joined.
fn joined<R: Wait + Abort, W: WaitPart>(
    rt: &R,
    table: &CitrusTable<W>,
    mut waiter: Seat<W>,
    mut reader: Seat<W>,
) -> Seat<W>
    requires table { (waiter.table ≡ table.now) × (reader.table ≡ table.now) }
    requires quiet { IsQuietSeat waiter × IsQuietSeat reader }
    ensures table { result.table ≡ table.now }
    ensures quiet { IsQuietSeat result }
{
    W::enter(table, &mut reader, 70);
    W::leave(table, &mut reader);
    assert!(rt; waiter.tickets() != 0);
    wait_for_readers(rt, table, &mut waiter, Keys::between(61, 66));
    waiter.join(table, reader)
}

// A seat reads, waits by a poll, and gives a place away: so many tickets it has left.
fn goes_on<R: Abort, W: WaitPart>(
    rt: &R,
    alloc: Global,
    table: &CitrusTable<W>,
    mut seat: Seat<W>,
) -> Result<u64, Fail>
    requires table { seat.table ≡ table.now }
    requires quiet { IsQuietSeat seat }
{
    W::enter(table, &mut seat, 3);
    W::leave(table, &mut seat);
    assert!(rt; seat.tickets() != 0);
    let mut grace = W::begin(table, &mut seat, Keys::all());
    let polled = W::poll(table, &mut seat, &mut grace);
    assert_same(rt, polled, Poll::Over, "the poll");
    assert!(rt; seat.unused() != 0);
    let list = seat.empty_list(alloc)?;
    let (first, _second) = seat.split(table, 1, 0, list);
    Ok(first.tickets())
}

// The table has eight tickets, of which the waiter has six. It waits once by itself, and once with those of both.
fn joins_and_goes_on<R: Wait + Abort, W: WaitPart>(rt: &R, alloc: Global) -> Result<u64, Fail>
    requires way { W.WAY ≤ 2 }
{
    let (table, seat) = CitrusTable::<W>::new(alloc, 1, 3, 8)?;
    let list = seat.empty_list(alloc)?;
    let (waiter, reader) = seat.split(&table, 1, 2, list);
    let both = joined(rt, &table, waiter, reader);
    goes_on(rt, alloc, &table, both)
}

#[test]
fn a_seat_that_read_and_one_that_waited_are_joined(rt: HostRuntime) -> Result<(), Fail> {
    let left = [
        joins_and_goes_on::<_, Eer>(&rt, rt.alloc())?,
        joins_and_goes_on::<_, Domain>(&rt, rt.alloc())?,
        joins_and_goes_on::<_, Deer>(&rt, rt.alloc())?,
    ];
    assert_same(&rt, left, [6, 6, 6], "each waiter");
    Ok(())
}
