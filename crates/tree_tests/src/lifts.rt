//! What no clause says: which of a node and its child is to stand above, how shallow ways become, how a lift ends, and what others are told
//! beside lifts. Of most tests the priorities of keys are SplitMix64's numbers, so each tree can be drawn by hand.
ghost use Rattle.std.specs.Prelude.{◌≡◌};
ghost use Rattle.seat_table.specs.Seats.{IsQuietSeat};

use crate::same::assert_same;
use citrus_tree::{Hop, Search, get, put};
use patience::Steadfast;
use prcu_marks::OpenGate;
use prcu_model::{Reply, Told};
use seat_table::{CitrusTable, Seat, WaitPart};
use std::process::Abort;
use std::sync::Wait;
use tree_lift::{Aim, Lifted, lift};

mod beside;
mod cookies;
mod endings;
mod rule;
mod shapes;
mod sinking;

// A salt that leaves each key as it is.
const NO_SALT: u64 = 0;

// More slots than the way to any key of a test leads over.
const MOST_DEPTH: u64 = 1000;

// What a key's value is in each test.
fn value_of(key: u64) -> u64 {
    key.wrapping_add(1000)
}

// Puts the key, which isn't there.
fn put_new<R: Abort + Wait, W: WaitPart>(
    rt: &R,
    table: &CitrusTable<W>,
    seat: &mut Seat<W>,
    key: u64,
)
    requires table { seat.old.table ≡ table.now }
    requires quiet { IsQuietSeat seat.old }
    ensures table { seat.new.table ≡ seat.old.table }
    ensures quiet { IsQuietSeat seat.new }
{
    assert!(rt; seat.tickets() >= 4, "no tickets are left");
    let Told { reply, number: _ } = put(rt, table, seat, &OpenGate, key, value_of(key));
    assert_same(rt, reply, Reply::New, key);
}

// That the key is there, or isn't.
fn assert_there<R: Abort + Wait, W: WaitPart>(
    rt: &R,
    table: &CitrusTable<W>,
    seat: &mut Seat<W>,
    key: u64,
    there: bool,
)
    requires table { seat.old.table ≡ table.now }
    requires quiet { IsQuietSeat seat.old }
    ensures table { seat.new.table ≡ seat.old.table }
    ensures quiet { IsQuietSeat seat.new }
{
    let wanted = if there {
        Reply::Val {
            value: value_of(key),
        }
    } else {
        Reply::Absent
    };
    let Told { reply, number: _ } = get(table, seat, &OpenGate, key);
    assert_same(rt, reply, wanted, key);
}

// A lift, for which there are tickets.
fn lift_by<R: Abort + Wait, W: WaitPart>(
    rt: &R,
    table: &CitrusTable<W>,
    seat: &mut Seat<W>,
    aim: Aim,
) -> Lifted
    requires table { seat.old.table ≡ table.now }
    requires quiet { IsQuietSeat seat.old }
    ensures table { seat.new.table ≡ seat.old.table }
    ensures quiet { IsQuietSeat seat.new }
{
    assert!(rt;
        seat.tickets() / 3 >= u64::from(aim.attempts),
        "no tickets are left"
    );
    match lift(&Steadfast::new(rt), table, seat, aim) {
        Ok(lifted) => lifted,
        Err(never) => match never {},
    }
}

// Over how many slots the way to a key leads, its own with it.
fn depth_of<R: Abort, W: WaitPart>(
    rt: &R,
    table: &CitrusTable<W>,
    seat: &mut Seat<W>,
    key: u64,
) -> u64
    requires table { seat.old.table ≡ table.now }
    requires quiet { IsQuietSeat seat.old }
    ensures table { seat.new.table ≡ seat.old.table }
    ensures quiet { IsQuietSeat seat.new }
{
    let mut search = Search::start(table, seat, key);
    for depth in 1..MOST_DEPTH {
        let hop = search.hop();
        if let Hop::Moved = hop {
            continue;
        }
        search.finish();
        return depth;
    }
    panic!(rt; "the way to {key} has no end");
}
