//! How shallow a tree becomes whose keys come in an order that would make it a path.
ghost use Rattle.std.specs.Prelude.{◌≡◌, ◌<◌};
ghost use Rattle.seat_table.specs.Seats.{IsQuietSeat};

use super::{NO_SALT, assert_there, depth_of, lift_by, put_new};
use crate::same::assert_same;
use seat_table::{CitrusTable, Seat};
use std::alloc::Global;
use std::process::Abort;
use std::sync::Wait;
use std::test::Fail;
use tree_lift::{Aim, Stop, attempts_behind, is_far_too_deep, most_depth};
use waiters::Eer;

const KEYS: u64 = 300;

const TICKETS: u64 = 1_000_000;

// An order in which the keys are put.
#[derive(Clone, Copy, Debug)]
enum Order {
    Ascending,
    Descending,
    /// The least, the greatest, the least but one, and so on.
    Zigzag,
}

impl Order {
    const ALL: [Order; 3] = [Order::Ascending, Order::Descending, Order::Zigzag];

    // The key that is put after so many others.
    fn key(self, before: u64) -> u64
        requires { before < KEYS }
    {
        match self {
            Order::Ascending => before,
            Order::Descending => KEYS - 1 - before,
            Order::Zigzag if before % 2 == 0 => before / 2,
            Order::Zigzag => KEYS - 1 - before / 2,
        }
    }
}

// The slots on the ways to all keys together, and on the longest.
fn depths<R: Abort + Wait>(rt: &R, table: &CitrusTable<Eer>, seat: &mut Seat<Eer>) -> (u64, u64)
    requires table { seat.old.table ≡ table.now }
    requires quiet { IsQuietSeat seat.old }
    ensures table { seat.new.table ≡ seat.old.table }
    ensures quiet { IsQuietSeat seat.new }
{
    let mut sum = 0u64;
    let mut most = 0;
    for key in 0..KEYS {
        assert_there(rt, table, seat, key, true);
        let depth = depth_of(rt, table, seat, key);
        sum = sum.wrapping_add(depth);
        most = most.max(depth);
    }
    (sum, most)
}

// Puts the keys, and after each makes the way to it level. How many turns that took.
fn level_all<R: Abort + Wait>(
    rt: &R,
    table: &CitrusTable<Eer>,
    seat: &mut Seat<Eer>,
    order: Order,
) -> u32
    requires table { seat.old.table ≡ table.now }
    requires quiet { IsQuietSeat seat.old }
    ensures table { seat.new.table ≡ seat.old.table }
    ensures quiet { IsQuietSeat seat.new }
{
    let mut turns = 0u32;
    for before in 0..KEYS {
        let key = order.key(before);
        put_new(rt, table, seat, key);
        let aim = Aim {
            key,
            salt: NO_SALT,
            attempts: 64,
            hard: true,
        };
        let lifted = lift_by(rt, table, seat, aim);
        assert_same(rt, lifted.stop, Stop::Level, key);
        turns = turns.wrapping_add(lifted.turns);
        assert_there(rt, table, seat, key, true);
    }
    turns
}

// Where each way is level the tree is the one in which each node has a greater priority than its children: there is just one such. A
// program that makes it in the textbook's way turned as often.
#[test]
fn level_ways_make_the_same_tree_in_any_order(rt: HostRuntime) -> Result<(), Fail> {
    for (order, turns) in [
        (Order::Ascending, 291),
        (Order::Descending, 295),
        (Order::Zigzag, 592),
    ] {
        let (table, mut seat) = CitrusTable::<Eer>::new(rt.alloc(), 400, 1, TICKETS)?;
        let made = level_all(&rt, &table, &mut seat, order);
        assert_same(&rt, made, turns, order);
        let found = depths(&rt, &table, &mut seat);
        assert_same(&rt, found, (3167, 19), order);
    }
    Ok(())
}

// Puts the keys, and lifts after each whose way was deep: by as many attempts as the rule tells, standing still where three quarters of it
// would be deep. The longest way that a key had when it was put.
fn lift_deep<R: Abort + Wait>(
    rt: &R,
    table: &CitrusTable<Eer>,
    seat: &mut Seat<Eer>,
    order: Order,
) -> u64
    requires table { seat.old.table ≡ table.now }
    requires quiet { IsQuietSeat seat.old }
    ensures table { seat.new.table ≡ seat.old.table }
    ensures quiet { IsQuietSeat seat.new }
{
    let mut longest = 0;
    for before in 0..KEYS {
        let key = order.key(before);
        put_new(rt, table, seat, key);
        let depth = depth_of(rt, table, seat, key);
        longest = longest.max(depth);
        let attempts = attempts_behind(depth, KEYS);
        if attempts > 0 {
            let aim = Aim {
                key,
                salt: NO_SALT,
                attempts,
                hard: is_far_too_deep(depth, KEYS),
            };
            lift_by(rt, table, seat, aim);
            assert_there(rt, table, seat, key, true);
        }
    }
    longest
}

// A put whose way is a third longer than one that isn't deep stands still, and turns up to 24 nodes of it. So a way grows by one key at a
// time until it is that long, and not far beyond. Half of the average is left to chance: 3,167 slots are on all ways where each is level.
#[test]
fn lifts_after_deep_puts_keep_ways_short(rt: HostRuntime) -> Result<(), Fail> {
    let most = most_depth(KEYS).wrapping_mul(4) / 3 + 8;
    for room in [16, 64, 256] {
        for order in Order::ALL {
            let (table, mut seat) = CitrusTable::<Eer>::with_room(
                rt.alloc(),
                600,
                1,
                room,
                TICKETS,
            )?;
            let longest = lift_deep(&rt, &table, &mut seat, order);
            let (sum, deepest) = depths(&rt, &table, &mut seat);
            let short = (longest <= most, deepest <= most, sum <= 2 * 3167);
            assert_same(&rt, short, (true, true, true), (order, room));
        }
    }
    Ok(())
}

// Over how many slots the ways to the keys 0 to 3 lead. Each has its value.
fn four_depths<R: Abort + Wait>(rt: &R, table: &CitrusTable<Eer>, seat: &mut Seat<Eer>) -> [u64; 4]
    requires table { seat.old.table ≡ table.now }
    requires quiet { IsQuietSeat seat.old }
    ensures table { seat.new.table ≡ seat.old.table }
    ensures quiet { IsQuietSeat seat.new }
{
    let mut depths = [0; 4];
    for key in 0..4_usize {
        assert_there(rt, table, seat, key as u64, true);
        depths[key] = depth_of(rt, table, seat, key as u64);
    }
    depths
}

// The priorities ascend from 0 by way of 1 to 2, and 3 has less than 2.
#[test]
fn the_topmost_node_goes_below_its_child(rt: HostRuntime) -> Result<(), Fail> {
    let (table, mut seat) = CitrusTable::<Eer>::new(rt.alloc(), 20, 1, 1000)?;
    for key in 0..4 {
        put_new(&rt, &table, &mut seat, key);
    }
    let aim = Aim {
        key: 3,
        salt: NO_SALT,
        attempts: 1,
        hard: false,
    };
    for (turns, depths) in [(1, [2, 1, 2, 3]), (1, [3, 2, 1, 2]), (0, [3, 2, 1, 2])] {
        let lifted = lift_by(&rt, &table, &mut seat, aim);
        assert_same(&rt, lifted.turns, turns, depths);
        let found = four_depths(&rt, &table, &mut seat);
        assert_same(&rt, found, depths, depths);
    }
    // Twice a node, and then its child.
    assert_same(&rt, seat.retired().len(), 4, "the retired slots");
    Ok(())
}
