//! A seat that reads and a seat that waits for readers, in threads of their own.
ghost use Rattle.std.specs.Prelude.{◌≡◌, ◌≢◌};
ghost use Rattle.hash_core.specs.Steps.{IsQuiet};
ghost use Rattle.class_hash.specs.declared.bucket.Poll.TheVariants.{Over};
ghost use Rattle.class_hash.specs.Calls.{HasFinished, MayPoll};

use super::{answered, run};
use crate::same::assert_same;
use class_hash::{
    HashSeat, HashTable, Lock, Poll, enter, free_bucket, leave, lists, poll_class, try_bucket,
};
use prcu_marks::Why;
use prcu_model::{Op, Reply};
use std::alloc::Global;
use std::process::Abort;
use std::sync::{Barrier, Wait};
use std::test::Fail;
use std::thread::{Threads, join};

// Enters with the key, and leaves once the other thread has looked for readers.
fn reads<R: Wait>(rt: &R, table: &HashTable, mut seat: HashSeat, key: u64, gate: &Barrier)
    requires { (seat.table ≡ table.now.id) × IsQuiet seat.view }
{
    enter(table, &mut seat, key);
    gate.wait(rt);
    gate.wait(rt);
    leave(table, &mut seat);
    gate.wait(rt);
}

// Looks once for readers.
fn looks(table: &HashTable, seat: &mut HashSeat) -> Poll
    requires table { seat.old.table ≡ table.now.id }
    requires lists { MayPoll seat.old.view }
    ensures table { seat.new.table ≡ seat.old.table }
    ensures section { seat.new.view.section ≡ seat.old.view.section }
    ensures finished { HasFinished seat.new.view }
    ensures again { result ≢ Over → MayPoll seat.new.view }
{
    poll_class(table, seat)
}

// Holds the bucket, whose one slot is retired, and looks for readers before the other thread leaves, and once more after it has,
// unless there was none.
fn waits<R: Wait + Abort>(
    rt: &R,
    table: &HashTable,
    mut seat: HashSeat,
    gate: &Barrier,
) -> (Poll, Option<Poll>, HashSeat)
    requires { (seat.table ≡ table.now.id) × IsQuiet seat.view }
    ensures { (result.2.table ≡ seat.table) × IsQuiet result.2.view }
{
    let Lock::Held = try_bucket(table, &mut seat, 6) else {
        panic!(rt; "the bucket is held");
    };
    let (free, retired) = lists(table, &mut seat);
    assert!(rt; free == 0, "a slot is free");
    assert!(rt; retired == 1, "the slot isn't retired");
    gate.wait(rt);
    let first = looks(table, &mut seat);
    gate.wait(rt);
    gate.wait(rt);
    let second = match first {
        Poll::Over => None,
        Poll::NotYet { .. } => Some(looks(table, &mut seat)),
    };
    free_bucket(table, &mut seat);
    (first, second, seat)
}

// What looks for readers of class 6 find beside a reader with this key, and after it.
fn found_beside<R: Threads + Wait + Abort + Sync>(
    rt: &R,
    alloc: Global,
    key: u64,
) -> Result<(Poll, Option<Poll>), Fail> {
    let mut capacities = [0; 64];
    capacities[6] = 1;
    let (table, seat) = HashTable::new(alloc, &capacities, 2, 8)?;
    let (a, b) = seat.split(&table, 1, 4);
    let before = [
        answered(Op::Put { key: 6, value: 10 }, Reply::New, 1),
        answered(Op::Del { key: 6 }, Reply::Gone, 2),
    ];
    let b = run(rt, &table, b, &before);
    let gate = Barrier::new(2);
    let (_, (first, second, b)) = join(
        rt,
        || -> ()
            requires { (a.table ≡ table.id) × IsQuiet a.view }
        { reads(rt, &table, a, key, &gate) },
        || -> (Poll, Option<Poll>, HashSeat)
            requires { (b.table ≡ table.id) × IsQuiet b.view }
            ensures { (result.2.table ≡ table.id) × IsQuiet result.2.view }
        { waits(rt, &table, b, &gate) },
    );
    let after = [
        answered(Op::Put { key: 6, value: 11 }, Reply::New, 3),
        answered(Op::Put { key: 70, value: 12 }, Reply::Full, 0),
    ];
    run(rt, &table, b, &after);
    Ok((first, second))
}

#[test]
fn a_slot_is_used_again_once_the_readers_of_its_class_have_left(
    rt: HostRuntime,
) -> Result<(), Fail> {
    let one = Poll::NotYet {
        why: Why::Counter {
            class: 6,
            side: 0,
            count: 1,
        },
    };
    for (key, wanted) in [(70, (one, Some(Poll::Over))), (7, (Poll::Over, None))] {
        assert_same(&rt, found_beside(&rt, rt.alloc(), key)?, wanted, key);
    }
    Ok(())
}
