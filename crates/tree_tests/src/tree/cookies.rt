//! What no clause says: what a cookie answers beside a reader, and which slots go back. With one slot and two places slots 1 and 2 are the
//! spares, and slot 3 begins free.
ghost use Rattle.std.specs.Prelude.{◌≡◌};
ghost use Rattle.seat_table.specs.Seats.{IsQuietSeat};
ghost use Rattle.grace_cookie.specs.Cookies.{KeepsCookies, KeepsListed};

use super::*;
use citrus_tree::get;
use grace_cookie::{Ask, ask, give_back, start};
use key_interval::Keys;
use node_slots::{Taken, take};
use prcu_marks::Why;
use seat_table::wait_for_readers;
use std::test::Fail;
use waiters::Eer;

// Gets the pair, which leaves the seat's cookies as they are.
fn get_beside(table: &CitrusTable<Eer>, seat: &mut Seat<Eer>) -> Reply
    requires table { seat.old.table ≡ table.now }
    requires quiet { IsQuietSeat seat.old }
    ensures table { seat.new.table ≡ seat.old.table }
    ensures quiet { IsQuietSeat seat.new }
    ensures keeps { KeepsCookies seat.old seat.new }
    ensures listed { KeepsListed seat.old seat.new }
{
    let Told { reply, number: _ } = get(table, seat, &OpenGate, 5);
    reply
}

#[test]
fn slots_go_back_once_the_cookie_is_over(rt: HostRuntime) -> Result<(), Fail> {
    let (table, seat) = CitrusTable::<Eer>::new(rt.alloc(), 1, 2, 64)?;
    let list = seat.empty_list(rt.alloc())?;
    let (writer, mut reader) = seat.split(&table, 1, 4, list);
    let calls = [call!(put 5 50 new 1), call!(del 5 gone 2)];
    let mut writer = run(&rt, &table, writer, "a slot is retired", &calls);
    assert!(rt; writer.tickets() > 0);
    Eer::enter(&table, &mut reader, 7);
    let mut cookie = start(&table, &mut writer, Keys::all());
    let Ask::NotYet { why } = ask(&table, &mut writer, &mut cookie) else {
        panic!(rt; "the reader is inside");
    };
    let reply = get_beside(&table, &mut writer);
    Eer::leave(&table, &mut reader);
    let Ask::Over = ask(&table, &mut writer, &mut cookie) else {
        panic!(rt; "the reader has left");
    };
    let given = give_back(&table, &mut writer, cookie);
    let Taken::Slot { slot, generation } = take(&rt, &table, &mut reader) else {
        panic!(rt; "the slot is free");
    };
    let reader = Why::Reader {
        place: 1,
        key: 7,
        stamp: 0,
    };
    assert_same(
        &rt,
        (why, reply),
        (reader, Reply::Absent),
        "beside the reader",
    );
    assert_same(
        &rt,
        (given, slot, generation),
        (1, 3, 1),
        "after the reader",
    );
    Ok(())
}

#[test]
fn a_later_wait_gives_the_cookie_up(rt: HostRuntime) -> Result<(), Fail> {
    let (table, mut seat) = CitrusTable::<Eer>::new(rt.alloc(), 1, 1, 4)?;
    let mut cookie = start(&table, &mut seat, Keys::all());
    wait_for_readers(&rt, &table, &mut seat, Keys::all());
    let Ask::GivenUp { latest } = ask(&table, &mut seat, &mut cookie) else {
        panic!(rt; "a later wait was begun");
    };
    assert_same(&rt, latest, 1, "the wait");
    Ok(())
}

#[test]
fn a_cookie_for_some_keys_waits_for_their_readers_alone(rt: HostRuntime) -> Result<(), Fail> {
    let (table, seat) = CitrusTable::<Eer>::new(rt.alloc(), 1, 2, 8)?;
    let list = seat.empty_list(rt.alloc())?;
    let (mut writer, mut reader) = seat.split(&table, 1, 4, list);
    let keys = Keys::between(4, 9);
    Eer::enter(&table, &mut reader, 10);
    let mut beside = start(&table, &mut writer, keys);
    let Ask::Over = ask(&table, &mut writer, &mut beside) else {
        panic!(rt; "the reader has another key");
    };
    Eer::leave(&table, &mut reader);
    Eer::enter(&table, &mut reader, 9);
    assert!(rt; writer.tickets() > 0);
    let mut cookie = start(&table, &mut writer, keys);
    let Ask::NotYet { why: _ } = ask(&table, &mut writer, &mut cookie) else {
        panic!(rt; "the reader is inside");
    };
    Eer::leave(&table, &mut reader);
    let Ask::Over = ask(&table, &mut writer, &mut cookie) else {
        panic!(rt; "the reader has left");
    };
    Ok(())
}
