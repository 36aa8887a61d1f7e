//! Waits by one thread: for whom there is no waiting, and how many gates are turned.
use crate::same::assert_same;
use key_interval::Keys;
use seat_table::{CitrusTable, Poll, WaitPart, wait_for_readers};
use std::test::Fail;
use waiters::{Domain, Eer};

#[test]
fn a_reader_that_came_later_is_not_waited_for(rt: HostRuntime) -> Result<(), Fail> {
    let (table, seat) = CitrusTable::<Eer>::new(rt.alloc(), 1, 2, 4)?;
    let list = seat.empty_list(rt.alloc())?;
    let (mut b, mut a) = seat.split(&table, 1, 2, list);
    wait_for_readers(&rt, &table, &mut b, Keys::all());
    let mut grace = Eer::begin(&table, &mut b, Keys::all());
    Eer::enter(&table, &mut a, 7);
    let polled = Eer::poll(&table, &mut b, &mut grace);
    assert_same(&rt, polled, Poll::Over, "the poll");
    assert_same(
        &rt,
        (b.waits(), b.turns()),
        (2, 0),
        "the waits and the turns",
    );
    Ok(())
}

#[test]
fn the_second_waiter_turns_the_gate_of_each_class_of_its_keys(rt: HostRuntime) -> Result<(), Fail> {
    let (table, seat) = CitrusTable::<Domain>::new(rt.alloc(), 1, 2, 8)?;
    let list = seat.empty_list(rt.alloc())?;
    let (mut waiter, mut reader) = seat.split(&table, 1, 4, list);
    Domain::enter(&table, &mut reader, 100);
    wait_for_readers(&rt, &table, &mut waiter, Keys::between(61, 66));
    assert_same(&rt, waiter.turns(), 5, "the turns");
    Ok(())
}
