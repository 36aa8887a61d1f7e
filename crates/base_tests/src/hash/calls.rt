//! What no clause says: that a table is made, that it may cross threads, and what its calls answer together.
use super::{Call, answered, run};
use crate::same::assert_same;
use class_hash::{HashClient, HashSeat, HashTable, Lock, Poll, try_bucket};
use prcu_marks::{Gate, OpenGate};
use prcu_model::{NoMemory, Op, Reply};
use std::alloc::Global;
use std::process::Abort;
use std::sync::Wait;
use std::test::Fail;

fn is_send<T: Send>() {}

fn is_sync<T: Sync>() {}

#[test]
fn a_table_its_seats_and_clients_cross_threads() {
    is_send::<HashTable>();
    is_sync::<HashTable>();
    is_send::<HashSeat>();
    a_client_crosses_threads::<OpenGate>();
    is_send::<Lock>();
    is_send::<Poll>();
}

// A client may cross threads where its gate may be shared by them.
fn a_client_crosses_threads<G: Gate + Sync + 'static>() {
    is_send::<HashClient<'static, G>>();
}

#[test]
fn a_bucket_that_is_held_names_its_holder(rt: HostRuntime) -> Result<(), Fail> {
    let mut capacities = [0; 64];
    capacities[6] = 2;
    let (table, seat) = HashTable::new(rt.alloc(), &capacities, 2, 8)?;
    let (mut a, mut b) = seat.split(&table, 1, 4);
    let seats = (a.place(), a.tickets(), b.place(), b.unused());
    assert_same(&rt, seats, (0, 4, 1, 0), "the seats");
    assert_same(
        &rt,
        try_bucket(&table, &mut b, 6),
        Lock::Held,
        "the first try",
    );
    let busy = Lock::Busy { found: 2 };
    assert_same(&rt, try_bucket(&table, &mut a, 6), busy, "the second try");
    Ok(())
}

// That calls one after another on a fresh table, with one slot of class 6 and none of the other classes, are answered so.
fn assert_calls<R: Abort + Wait>(rt: &R, alloc: Global, calls: &[Call]) -> Result<(), NoMemory> {
    let mut capacities = [0; 64];
    capacities[6] = 1;
    let (table, seat) = HashTable::new(alloc, &capacities, 1, 8)?;
    run(rt, &table, seat, calls);
    Ok(())
}

#[test]
fn nothing_is_found_in_a_fresh_table(rt: HostRuntime) -> Result<(), Fail> {
    let calls = [
        answered(Op::Get { key: 6 }, Reply::Absent, 0),
        answered(Op::Set { key: 70, value: 1 }, Reply::Absent, 0),
        answered(Op::Del { key: 134 }, Reply::Absent, 0),
    ];
    Ok(assert_calls(&rt, rt.alloc(), &calls)?)
}

#[test]
fn a_slot_is_put_into_again_after_its_key_is_taken_out(rt: HostRuntime) -> Result<(), Fail> {
    let calls = [
        answered(Op::Put { key: 6, value: 10 }, Reply::New, 1),
        answered(Op::Put { key: 70, value: 12 }, Reply::Full, 0),
        answered(Op::Del { key: 6 }, Reply::Gone, 2),
        answered(Op::Put { key: 70, value: 13 }, Reply::New, 3),
    ];
    Ok(assert_calls(&rt, rt.alloc(), &calls)?)
}

#[test]
fn a_pair_stays_until_it_is_set(rt: HostRuntime) -> Result<(), Fail> {
    let calls = [
        answered(Op::Put { key: 6, value: 10 }, Reply::New, 1),
        answered(Op::Put { key: 6, value: 12 }, Reply::Old, 0),
        answered(Op::Set { key: 6, value: 11 }, Reply::Was { value: 10 }, 2),
        answered(Op::Get { key: 6 }, Reply::Val { value: 11 }, 0),
    ];
    Ok(assert_calls(&rt, rt.alloc(), &calls)?)
}
