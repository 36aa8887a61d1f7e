//! What a wait finds beside a reader in a thread of its own and after it, whatever the waiter.
ghost use Rattle.std.specs.Prelude.{◌≡◌, ◌≤◌};
ghost use Rattle.seat_table.specs.Seats.{IsQuietSeat};

use crate::same::assert_same;
use key_interval::Keys;
use prcu_marks::Why;
use seat_table::{CitrusTable, Poll, Seat, WaitPart};
use std::alloc::Global;
use std::sync::{Barrier, Wait};
use std::test::Fail;
use std::thread::{Threads, join};
use waiters::{Deer, Domain, Eer};

// Enters with the key, and leaves once the other thread has polled.
fn reads<R: Wait, W: WaitPart>(
    rt: &R,
    table: &CitrusTable<W>,
    mut seat: Seat<W>,
    key: u64,
    gate: &Barrier,
)
    requires { (seat.table ≡ table.now) × IsQuietSeat seat }
{
    W::enter(table, &mut seat, key);
    gate.wait(rt);
    gate.wait(rt);
    W::leave(table, &mut seat);
    gate.wait(rt);
}

// Polls before the other thread leaves, and once more after it has, unless the wait was over.
fn waits<R: Wait, W: WaitPart>(
    rt: &R,
    table: &CitrusTable<W>,
    mut seat: Seat<W>,
    keys: Keys,
    gate: &Barrier,
) -> (Poll, Option<Poll>)
    requires { (seat.table ≡ table.now) × IsQuietSeat seat × (1 ≤ seat.view.allowance.tickets) }
{
    gate.wait(rt);
    let mut grace = W::begin(table, &mut seat, keys);
    let first = W::poll(table, &mut seat, &mut grace);
    gate.wait(rt);
    gate.wait(rt);
    let second = match first {
        Poll::Over => None,
        Poll::NotYet { .. } => Some(W::poll(table, &mut seat, &mut grace)),
    };
    (first, second)
}

// What a wait for the keys finds beside a reader with this key, and once it has left: a thread for the reader and one for the wait.
fn found_beside<R: Threads + Wait + Sync, W: WaitPart + Sync>(
    rt: &R,
    alloc: Global,
    key: u64,
    keys: Keys,
) -> Result<(Poll, Option<Poll>), Fail>
    requires way { W.WAY ≤ 2 }
{
    let (table, seat) = CitrusTable::<W>::new(alloc, 1, 2, 4)?;
    let list = seat.empty_list(alloc)?;
    let (b, a) = seat.split(&table, 1, 2, list);
    let gate = Barrier::new(2);
    let (_, found) = join(
        rt,
        || -> ()
            requires { (a.table ≡ table) × IsQuietSeat a }
        { reads(rt, &table, a, key, &gate) },
        || -> (Poll, Option<Poll>)
            requires { (b.table ≡ table) × IsQuietSeat b × (1 ≤ b.view.allowance.tickets) }
        { waits(rt, &table, b, keys, &gate) },
    );
    Ok(found)
}

// What is found where there is this to wait for.
fn found(why: Why) -> (Poll, Option<Poll>) {
    (Poll::NotYet { why }, Some(Poll::Over))
}

const NOTHING: (Poll, Option<Poll>) = (Poll::Over, None);

#[test]
fn the_first_waiter_waits_for_readers_of_its_keys(rt: HostRuntime) -> Result<(), Fail> {
    let reader = Why::Reader {
        place: 1,
        key: 7,
        stamp: 0,
    };
    let beside = found_beside::<_, Eer>(&rt, rt.alloc(), 7, Keys::between(5, 8))?;
    assert_same(&rt, beside, found(reader), 7);
    let beside = found_beside::<_, Eer>(&rt, rt.alloc(), 7, Keys::between(7, 9))?;
    assert_same(&rt, beside, NOTHING, 7);
    let beside = found_beside::<_, Eer>(&rt, rt.alloc(), 70, Keys::between(5, 6))?;
    assert_same(&rt, beside, NOTHING, 70);
    Ok(())
}

#[test]
fn the_second_waiter_waits_for_readers_of_its_classes(rt: HostRuntime) -> Result<(), Fail> {
    let counter = Why::Counter {
        class: 6,
        side: 0,
        count: 1,
    };
    let beside = found_beside::<_, Domain>(&rt, rt.alloc(), 70, Keys::between(5, 6))?;
    assert_same(&rt, beside, found(counter), 70);
    let beside = found_beside::<_, Domain>(&rt, rt.alloc(), 100, Keys::between(61, 66))?;
    assert_same(&rt, beside, NOTHING, 100);
    Ok(())
}

#[test]
fn the_third_waiter_waits_for_readers_of_its_classes(rt: HostRuntime) -> Result<(), Fail> {
    let row = Why::Row {
        place: 1,
        class: 6,
        stamp: 0,
    };
    let beside = found_beside::<_, Deer>(&rt, rt.alloc(), 70, Keys::between(62, 128))?;
    assert_same(&rt, beside, found(row), 70);
    let beside = found_beside::<_, Deer>(&rt, rt.alloc(), 66, Keys::between(62, 65))?;
    assert_same(&rt, beside, NOTHING, 66);
    Ok(())
}
