//! How a lift ends, and what the seat has left. The seat is alone at its table but for one test.
ghost use Rattle.std.specs.Prelude.{◌≡◌};
ghost use Rattle.seat_table.specs.Seats.{IsQuietSeat};

use super::{NO_SALT, assert_there, lift_by, put_new};
use crate::same::assert_same;
use node_slots::{Lock, try_lock, unlock};
use seat_table::{CitrusTable, Seat};
use std::process::Abort;
use std::sync::Wait;
use std::test::Fail;
use tree_lift::{Aim, Stop};
use waiters::Eer;

// What is asked of a lift to the greatest key, what it comes to, and what the seat has then.
#[derive(Clone, Copy)]
struct Row {
    attempts: u32,
    hard: bool,
    turns: u32,
    stop: Stop,
    left: Left,
}

// How many slots are retired, how many waits the place has begun, how many tickets the lift took, and whether the place has a spare.
type Left = (usize, u64, u64, bool);

// Puts so many keys, ascending, so that the tree is a path.
fn put_path<R: Abort + Wait>(rt: &R, table: &CitrusTable<Eer>, seat: &mut Seat<Eer>, keys: u64)
    requires table { seat.old.table ≡ table.now }
    requires quiet { IsQuietSeat seat.old }
    ensures table { seat.new.table ≡ seat.old.table }
    ensures quiet { IsQuietSeat seat.new }
{
    for key in 0..keys {
        put_new(rt, table, seat, key);
    }
}

// Lifts the way to this key as each row asks, one after another. Nothing is in hand then.
fn lift_each<R: Abort + Wait>(
    rt: &R,
    table: &CitrusTable<Eer>,
    seat: &mut Seat<Eer>,
    key: u64,
    rows: &[Row],
)
    requires table { seat.old.table ≡ table.now }
    requires quiet { IsQuietSeat seat.old }
    ensures table { seat.new.table ≡ seat.old.table }
    ensures quiet { IsQuietSeat seat.new }
{
    for (number, row) in rows.iter().enumerate() {
        let before = seat.tickets();
        let aim = Aim {
            key,
            salt: NO_SALT,
            attempts: row.attempts,
            hard: row.hard,
        };
        let lifted = lift_by(rt, table, seat, aim);
        let came_to = (lifted.turns, lifted.stop);
        assert_same(rt, came_to, (row.turns, row.stop), number);
        let taken = before.wrapping_sub(seat.tickets());
        let left = (
            seat.retired().len(),
            seat.waits(),
            taken,
            seat.spare().is_some(),
        );
        assert_same(rt, left, row.left, number);
        assert_same(rt, seat.in_hand(), None, number);
        assert_there(rt, table, seat, key, true);
    }
}

// A row of these.
fn wanted(attempts: u32, hard: bool, turns: u32, stop: Stop, left: Left) -> Row {
    Row {
        attempts,
        hard,
        turns,
        stop,
        left,
    }
}

#[test]
fn a_path_is_lifted_as_far_as_there_is_room(rt: HostRuntime) -> Result<(), Fail> {
    let (table, mut seat) = CitrusTable::<Eer>::new(rt.alloc(), 100, 1, 1_000_000)?;
    put_path(&rt, &table, &mut seat, 60);
    let rows = [
        wanted(0, false, 0, Stop::Spent, (0, 0, 0, true)),
        // The first turn takes the spare that is there.
        wanted(3, false, 3, Stop::Spent, (6, 0, 8, false)),
        wanted(20, false, 5, Stop::NoRoom, (16, 0, 15, false)),
        wanted(1, false, 0, Stop::NoRoom, (16, 0, 0, false)),
        // The wait takes a ticket, and its first slot becomes the spare.
        wanted(1, true, 1, Stop::Spent, (2, 1, 3, false)),
        wanted(200, true, 44, Stop::Level, (10, 6, 132, false)),
        wanted(1, false, 0, Stop::Level, (10, 6, 0, false)),
    ];
    lift_each(&rt, &table, &mut seat, 59, &rows);
    Ok(())
}

#[test]
fn a_tree_of_at_most_one_key_is_level(rt: HostRuntime) -> Result<(), Fail> {
    let (table, mut seat) = CitrusTable::<Eer>::new(rt.alloc(), 4, 1, 1000)?;
    let aim = Aim {
        key: 0,
        salt: NO_SALT,
        attempts: 1,
        hard: true,
    };
    let empty = lift_by(&rt, &table, &mut seat, aim);
    assert_same(&rt, (empty.turns, empty.stop), (0, Stop::Level), "no key");
    put_path(&rt, &table, &mut seat, 1);
    let rows = [wanted(1, true, 0, Stop::Level, (0, 0, 0, true))];
    lift_each(&rt, &table, &mut seat, 0, &rows);
    Ok(())
}

#[test]
fn a_full_table_is_lifted_as_far_as_there_are_slots(rt: HostRuntime) -> Result<(), Fail> {
    let (table, mut seat) = CitrusTable::<Eer>::new(rt.alloc(), 4, 1, 1000)?;
    put_path(&rt, &table, &mut seat, 4);
    let rows = [wanted(2, true, 0, Stop::NoSlot, (0, 0, 0, true))];
    lift_each(&rt, &table, &mut seat, 3, &rows);
    let (table, mut seat) = CitrusTable::<Eer>::new(rt.alloc(), 5, 1, 1000)?;
    put_path(&rt, &table, &mut seat, 4);
    let rows = [
        wanted(2, true, 1, Stop::NoSlot, (2, 0, 2, false)),
        // There is room for more retired slots, so it doesn't stand still.
        wanted(2, true, 0, Stop::NoSlot, (2, 0, 0, false)),
    ];
    lift_each(&rt, &table, &mut seat, 3, &rows);
    Ok(())
}

#[test]
fn a_lock_that_another_holds_costs_an_attempt(rt: HostRuntime) -> Result<(), Fail> {
    let (table, seat) = CitrusTable::<Eer>::new(rt.alloc(), 20, 2, 1000)?;
    let list = seat.empty_list(rt.alloc())?;
    let (mut seat, mut other) = seat.split(&table, 1, 100, list);
    put_path(&rt, &table, &mut seat, 4);
    let Lock::Held = try_lock(&table, &mut other, 0) else {
        panic!(rt; "nobody holds the root");
    };
    let rows = [wanted(2, true, 0, Stop::Spent, (0, 0, 2, true))];
    lift_each(&rt, &table, &mut seat, 3, &rows);
    unlock(&table, &mut other, 0);
    let rows = [wanted(5, true, 2, Stop::Level, (4, 0, 5, false))];
    lift_each(&rt, &table, &mut seat, 3, &rows);
    Ok(())
}
