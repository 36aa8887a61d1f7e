//! Cookies beside lifts: a lift that waits for nobody leaves a cookie as good as it was, and one that stands still gives it up.
ghost use Rattle.std.specs.Prelude.{◌≡◌};
ghost use Rattle.seat_table.specs.Seats.{IsQuietSeat};
ghost use Rattle.grace_cookie.specs.Cookies.{KeepsCookies};

use super::{NO_SALT, assert_there, put_new};
use crate::same::assert_same;
use grace_cookie::{Ask, ask, give_back, start};
use key_interval::Keys;
use patience::Steadfast;
use seat_table::{CitrusTable, Seat, WaitPart};
use std::process::Abort;
use std::sync::Wait;
use std::test::Fail;
use tree_lift::{Aim, Stop, lift};
use waiters::Eer;

const KEYS: u64 = 60;

// Puts the keys, ascending.
fn put_path<R: Abort + Wait>(rt: &R, table: &CitrusTable<Eer>, seat: &mut Seat<Eer>)
    requires table { seat.old.table ≡ table.now }
    requires quiet { IsQuietSeat seat.old }
    ensures table { seat.new.table ≡ seat.old.table }
    ensures quiet { IsQuietSeat seat.new }
{
    for key in 0..KEYS {
        put_new(rt, table, seat, key);
    }
}

// Lifts the way to the greatest key by so many turns. A cookie of the seat stays good unless the lift stands still. How many slots are
// retired then.
fn lift_beside<R: Abort + Wait>(
    rt: &R,
    table: &CitrusTable<Eer>,
    seat: &mut Seat<Eer>,
    turns: u32,
    hard: bool,
) -> usize
    requires table { seat.old.table ≡ table.now }
    requires quiet { IsQuietSeat seat.old }
    ensures table { seat.new.table ≡ seat.old.table }
    ensures quiet { IsQuietSeat seat.new }
    ensures keeps { KeepsCookies seat.old seat.new }
{
    assert!(rt;
        seat.tickets() / 3 >= u64::from(turns),
        "no tickets are left"
    );
    let aim = Aim {
        key: KEYS - 1,
        salt: NO_SALT,
        attempts: turns,
        hard,
    };
    match lift(&Steadfast::new(rt), table, seat, aim) {
        Ok(lifted) => {
            let ended = (lifted.turns, lifted.stop);
            assert_same(rt, ended, (turns, Stop::Spent), "the lift");
            seat.retired().len()
        }
        Err(never) => match never {},
    }
}

#[test]
fn slots_of_lifts_go_back_once_the_cookie_is_over(rt: HostRuntime) -> Result<(), Fail> {
    let (table, seat) = CitrusTable::<Eer>::new(rt.alloc(), 100, 2, 1000)?;
    let list = seat.empty_list(rt.alloc())?;
    let (mut writer, mut reader) = seat.split(&table, 1, 4, list);
    put_path(&rt, &table, &mut writer);
    let before = lift_beside(&rt, &table, &mut writer, 2, false);
    assert!(rt; writer.tickets() > 0);
    Eer::enter(&table, &mut reader, 7);
    let mut cookie = start(&table, &mut writer, Keys::all());
    let beside = lift_beside(&rt, &table, &mut writer, 3, false);
    let Ask::NotYet { why: _ } = ask(&table, &mut writer, &mut cookie) else {
        panic!(rt; "the reader is inside");
    };
    Eer::leave(&table, &mut reader);
    let Ask::Over = ask(&table, &mut writer, &mut cookie) else {
        panic!(rt; "the reader has left");
    };
    // Those that were retired before it began. The first becomes the spare.
    let given = give_back(&table, &mut writer, cookie);
    let found = (before, beside, given, writer.retired().len());
    assert_same(&rt, found, (4, 10, 4, 6), "the slots");
    assert_same(&rt, writer.waits(), 1, "the waits");
    assert_there(&rt, &table, &mut writer, KEYS - 1, true);
    Ok(())
}

#[test]
fn a_lift_that_stands_still_gives_the_cookie_up(rt: HostRuntime) -> Result<(), Fail> {
    let (table, mut seat) = CitrusTable::<Eer>::new(rt.alloc(), 100, 1, 1000)?;
    put_path(&rt, &table, &mut seat);
    let before = lift_beside(&rt, &table, &mut seat, 8, false);
    assert!(rt; seat.tickets() > 0);
    let mut cookie = start(&table, &mut seat, Keys::all());
    // The place has room for 16.
    let after = lift_beside(&rt, &table, &mut seat, 1, true);
    let Ask::GivenUp { latest } = ask(&table, &mut seat, &mut cookie) else {
        panic!(rt; "a later wait was begun");
    };
    let found = (before, after, latest);
    assert_same(&rt, found, (16, 2, 1), "the slots and the wait");
    assert_there(&rt, &table, &mut seat, KEYS - 1, true);
    Ok(())
}
