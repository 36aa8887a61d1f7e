//! Lists of a key range beside a thread that lifts, for each waiter.
ghost use Rattle.std.specs.Prelude.{◌≡◌, ◌≤◌};
ghost use Rattle.seat_table.specs.Seats.{IsQuietSeat};

use super::{lift_by, put_new, value_of};
use crate::same::assert_same;
use crate::scripts::drawn;
use exact_list::{Listed, Page, list};
use key_interval::Keys;
use seat_table::{CitrusTable, Seat, WaitPart};
use std::alloc::Global;
use std::process::Abort;
use std::sync::{Barrier, Wait};
use std::test::Fail;
use std::thread::{Threads, join};
use tree_lift::Aim;
use waiters::{Deer, Domain, Eer};

// How often one thread lifts, and how many lists another makes meanwhile.
const LIFTS: u64 = 1500;

const LISTS: u32 = 150;

// The keys of the tree that is listed.
const LISTED: u64 = 100;

const TICKETS: u64 = 100_000;

// Lifts the way to a key by a salt. How many turns that took.
fn lift_with<R: Abort + Wait, W: WaitPart>(
    rt: &R,
    table: &CitrusTable<W>,
    seat: &mut Seat<W>,
    key: u64,
    salt: u64,
) -> u64
    requires table { seat.old.table ≡ table.now }
    requires quiet { IsQuietSeat seat.old }
    ensures table { seat.new.table ≡ seat.old.table }
    ensures quiet { IsQuietSeat seat.new }
{
    let aim = Aim {
        key,
        salt,
        attempts: 4,
        hard: true,
    };
    u64::from(lift_by(rt, table, seat, aim).turns)
}

// Lifts the ways to drawn keys, each by a salt of its own, so that there is always something to turn. How many turns that took.
fn lifts<R: Abort + Wait, W: WaitPart>(
    rt: &R,
    table: &CitrusTable<W>,
    mut seat: Seat<W>,
    gate: &Barrier,
) -> u64
    requires { (seat.table ≡ table.now) × IsQuietSeat seat }
{
    gate.wait(rt);
    let mut turns = 0u64;
    let mut state = 1;
    for salt in 0..LIFTS {
        state = drawn(state);
        let key = (state >> 33) % LISTED;
        turns = turns.wrapping_add(lift_with(rt, table, &mut seat, key, salt));
    }
    turns
}

// Lists all pairs again and again. No update is under way, so each list counts at its first try, and has them all.
fn lists<R: Abort + Wait, W: WaitPart>(
    rt: &R,
    table: &CitrusTable<W>,
    mut seat: Seat<W>,
    mut page: Page,
    gate: &Barrier,
)
    requires { (seat.table ≡ table.now) × IsQuietSeat seat }
{
    gate.wait(rt);
    for round in 0..LISTS {
        let listed = list(rt, table, &mut seat, Keys::all(), &mut page, 1);
        assert_same(rt, listed, Listed::Whole { front: LISTED }, round);
        assert_same(rt, page.pairs().len() as u64, LISTED, round);
        for ((key, value), wanted) in page.pairs().iter().zip(0..LISTED) {
            assert_same(rt, (*key, *value), (wanted, value_of(wanted)), round);
        }
    }
}

// Puts the keys that are listed, ascending.
fn put_listed<R: Abort + Wait, W: WaitPart>(rt: &R, table: &CitrusTable<W>, seat: &mut Seat<W>)
    requires table { seat.old.table ≡ table.now }
    requires quiet { IsQuietSeat seat.old }
    ensures table { seat.new.table ≡ seat.old.table }
    ensures quiet { IsQuietSeat seat.new }
{
    for key in 0..LISTED {
        put_new(rt, table, seat, key);
    }
}

// A thread that lifts, and one that lists.
fn list_beside<R: Threads + Wait + Sync + Abort, W: WaitPart + Sync>(
    rt: &R,
    alloc: Global,
) -> Result<(), Fail>
    requires way { W.WAY ≤ 2 }
{
    let (table, seat) = CitrusTable::<W>::new(alloc, 200, 2, TICKETS)?;
    let list = seat.empty_list(alloc)?;
    let (mut lifter, lister) = seat.split(&table, 1, 0, list);
    put_listed(rt, &table, &mut lifter);
    let page = Page::new(alloc, 128)?;
    let gate = Barrier::new(2);
    let (_, turns) = join(
        rt,
        || -> ()
            requires { (lister.table ≡ table) × IsQuietSeat lister }
        { lists(rt, &table, lister, page, &gate) },
        || -> u64
            requires { (lifter.table ≡ table) × IsQuietSeat lifter }
        { lifts(rt, &table, lifter, &gate) },
    );
    assert!(rt; turns > LIFTS, "hardly anything was turned");
    Ok(())
}

#[test]
fn lists_have_all_pairs_beside_lifts(rt: HostRuntime) -> Result<(), Fail> {
    list_beside::<_, Eer>(&rt, rt.alloc())?;
    list_beside::<_, Domain>(&rt, rt.alloc())?;
    list_beside::<_, Deer>(&rt, rt.alloc())?;
    Ok(())
}
