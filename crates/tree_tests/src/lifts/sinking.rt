//! A node that is turned down until it can be taken out with no wait for readers. The seat is alone at its table but for one test.
ghost use Rattle.std.specs.Prelude.{◌≡◌};
ghost use Rattle.seat_table.specs.Seats.{IsQuietSeat};

use super::{assert_there, put_new, value_of};
use crate::same::assert_same;
use citrus_tree::patient::remove_by_bypass;
use citrus_tree::{Removed, remove};
use node_slots::{Lock, try_lock, unlock};
use patience::Steadfast;
use prcu_marks::OpenGate;
use seat_table::{CitrusTable, Seat};
use std::process::Abort;
use std::sync::Wait;
use std::test::Fail;
use tree_lift::{Sunk, turn_down};
use waiters::Eer;

// A call, and what it comes to.
#[derive(Clone, Copy)]
enum Row {
    /// The key's node is turned down.
    Sinks {
        key: u64,
        comes_to: Sunk,
    },
    /// The key's pair is taken out by a bypass; or its node has two children.
    Goes {
        key: u64,
        gone: bool,
    },
    /// The key's pair is taken out where its value is the expected one.
    Takes {
        key: u64,
        expected: u64,
        comes_to: Removed,
    },
}

// The value that a remove took out.
fn taken_by(removed: Removed) -> Option<u64> {
    match removed {
        Removed::Gone { value, .. } => Some(value),
        _ => None,
    }
}

fn make<R: Abort + Wait>(rt: &R, table: &CitrusTable<Eer>, seat: &mut Seat<Eer>, row: Row)
    requires table { seat.old.table ≡ table.now }
    requires quiet { IsQuietSeat seat.old }
    ensures table { seat.new.table ≡ seat.old.table }
    ensures quiet { IsQuietSeat seat.new }
{
    assert!(rt; seat.tickets() >= 4, "no tickets are left");
    let patience = Steadfast::new(rt);
    match row {
        Row::Sinks { key, comes_to } => match turn_down(&patience, table, seat, key) {
            Ok(sunk) => assert_same(rt, sunk, comes_to, key),
            Err(never) => match never {},
        },
        Row::Goes { key, gone } => {
            match remove_by_bypass(&patience, table, seat, &OpenGate, key, None) {
                Ok(Ok(Some(removed))) => {
                    assert_same(rt, taken_by(removed), gone.then_some(value_of(key)), key);
                }
                Ok(Ok(None)) => assert_same(rt, gone, false, key),
                Ok(Err(never)) => match never {},
                Err(never) => match never {},
            }
        }
        Row::Takes {
            key,
            expected,
            comes_to,
        } => {
            let removed = remove(rt, table, seat, &OpenGate, key, Some(expected));
            assert_same(rt, removed, comes_to, key);
        }
    }
}

// The calls, one after another. No wait for readers was begun.
fn make_each<R: Abort + Wait>(rt: &R, table: &CitrusTable<Eer>, seat: &mut Seat<Eer>, rows: &[Row])
    requires table { seat.old.table ≡ table.now }
    requires quiet { IsQuietSeat seat.old }
    ensures table { seat.new.table ≡ seat.old.table }
    ensures quiet { IsQuietSeat seat.new }
{
    for row in rows {
        make(rt, table, seat, *row);
    }
    assert_same(rt, seat.waits(), 0, "waits");
}

// A tree whose top has two children, and the way to its successor two slots.
fn put_all<R: Abort + Wait>(rt: &R, table: &CitrusTable<Eer>, seat: &mut Seat<Eer>, keys: &[u64])
    requires table { seat.old.table ≡ table.now }
    requires quiet { IsQuietSeat seat.old }
    ensures table { seat.new.table ≡ seat.old.table }
    ensures quiet { IsQuietSeat seat.new }
{
    for key in keys {
        put_new(rt, table, seat, *key);
    }
}

fn assert_all_there<R: Abort + Wait>(
    rt: &R,
    table: &CitrusTable<Eer>,
    seat: &mut Seat<Eer>,
    keys: &[u64],
)
    requires table { seat.old.table ≡ table.now }
    requires quiet { IsQuietSeat seat.old }
    ensures table { seat.new.table ≡ seat.old.table }
    ensures quiet { IsQuietSeat seat.new }
{
    for key in keys {
        assert_there(rt, table, seat, *key, true);
    }
}

#[test]
fn a_node_sinks_until_it_has_one_child(rt: HostRuntime) -> Result<(), Fail> {
    let (table, mut seat) = CitrusTable::<Eer>::new(rt.alloc(), 40, 1, 1000)?;
    put_all(&rt, &table, &mut seat, &[4, 2, 8, 6, 7]);
    let rows = [
        Row::Goes {
            key: 4,
            gone: false,
        },
        Row::Sinks {
            key: 4,
            comes_to: Sunk::Turned,
        },
        Row::Goes {
            key: 4,
            gone: false,
        },
        Row::Sinks {
            key: 4,
            comes_to: Sunk::Turned,
        },
        Row::Sinks {
            key: 4,
            comes_to: Sunk::Low,
        },
        Row::Goes { key: 4, gone: true },
        Row::Sinks {
            key: 4,
            comes_to: Sunk::Low,
        },
    ];
    make_each(&rt, &table, &mut seat, &rows);
    assert_all_there(&rt, &table, &mut seat, &[2, 6, 7, 8]);
    assert_there(&rt, &table, &mut seat, 4, false);
    assert_same(
        &rt,
        seat.retired().len(),
        5,
        "two for each turn, and the one",
    );
    Ok(())
}

#[test]
fn a_lock_that_another_holds_is_in_the_way(rt: HostRuntime) -> Result<(), Fail> {
    let (table, seat) = CitrusTable::<Eer>::new(rt.alloc(), 40, 2, 1000)?;
    let list = seat.empty_list(rt.alloc())?;
    let (mut seat, mut other) = seat.split(&table, 1, 100, list);
    put_all(&rt, &table, &mut seat, &[2, 1, 3]);
    let Lock::Held = try_lock(&table, &mut other, 0) else {
        panic!(rt; "nobody holds the root");
    };
    make_each(
        &rt,
        &table,
        &mut seat,
        &[Row::Sinks {
            key: 2,
            comes_to: Sunk::Moved,
        }],
    );
    unlock(&table, &mut other, 0);
    let rows = [
        Row::Sinks {
            key: 2,
            comes_to: Sunk::Turned,
        },
        Row::Goes { key: 2, gone: true },
    ];
    make_each(&rt, &table, &mut seat, &rows);
    Ok(())
}

#[test]
fn a_full_table_turns_nothing(rt: HostRuntime) -> Result<(), Fail> {
    let (table, mut seat) = CitrusTable::<Eer>::new(rt.alloc(), 3, 1, 1000)?;
    put_all(&rt, &table, &mut seat, &[2, 1, 3]);
    make_each(
        &rt,
        &table,
        &mut seat,
        &[Row::Sinks {
            key: 2,
            comes_to: Sunk::NoSlot,
        }],
    );
    Ok(())
}

#[test]
fn a_pair_goes_where_its_value_is_the_expected_one(rt: HostRuntime) -> Result<(), Fail> {
    let (table, mut seat) = CitrusTable::<Eer>::new(rt.alloc(), 40, 1, 1000)?;
    put_all(&rt, &table, &mut seat, &[2, 1, 3]);
    let rows = [
        Row::Takes {
            key: 4,
            expected: value_of(4),
            comes_to: Removed::Absent,
        },
        Row::Takes {
            key: 2,
            expected: value_of(3),
            comes_to: Removed::Differs { found: value_of(2) },
        },
        Row::Takes {
            key: 3,
            expected: value_of(3),
            comes_to: Removed::Gone {
                number: 4,
                value: value_of(3),
            },
        },
        Row::Takes {
            key: 3,
            expected: value_of(3),
            comes_to: Removed::Absent,
        },
    ];
    make_each(&rt, &table, &mut seat, &rows);
    assert_all_there(&rt, &table, &mut seat, &[1, 2]);
    assert_there(&rt, &table, &mut seat, 3, false);
    Ok(())
}
