//! Scripts by one caller on trees of few slots: what they are told, for each form of node that is deleted, and what the seat has left.
ghost use Rattle.std.specs.Prelude.{◌≤◌};

use super::*;
use std::alloc::Global;
use std::test::Fail;
use waiters::{Deer, Domain, Eer};

// The spare, how many slots are retired, and how many waits the place has begun.
type Left = (Option<u32>, usize, u64);

// A script on a tree of so many slots, and what its seat has left then.
#[derive(Clone, Copy)]
struct Script<'a> {
    name: &'a str,
    slots: u32,
    calls: &'a [Call],
    left: Left,
}

fn left<W: WaitPart>(seat: &Seat<W>) -> Left {
    (seat.spare(), seat.retired().len(), seat.waits())
}

// Runs each script on a tree of its own.
fn run_each<R: Abort + Wait, W: WaitPart>(
    rt: &R,
    alloc: Global,
    scripts: &[Script],
) -> Result<(), Fail>
    requires way { W.WAY ≤ 2 }
{
    for script in scripts {
        let Script {
            name,
            slots,
            calls,
            ..
        } = *script;
        assert!(rt; 1 <= slots && slots <= 8);
        let (table, seat) = CitrusTable::<W>::new(alloc, slots, 1, 256)?;
        let seat = run(rt, &table, seat, name, calls);
        assert_same(rt, left(&seat), script.left, name);
    }
    Ok(())
}

#[test]
fn the_first_waiters_scripts_are_told_what_they_did(rt: HostRuntime) -> Result<(), Fail> {
    let scripts = [
        Script {
            name: "a key is added once and found",
            slots: 4,
            calls: &[
                call!(put 5 50 new 1),
                call!(put 5 60 Old),
                call!(get 5 val 50),
                call!(get 6 none),
            ],
            left: (Some(1), 0, 0),
        },
        Script {
            name: "one slot holds one pair at a time",
            slots: 1,
            calls: &[
                call!(put 1 10 new 1),
                call!(put 2 20 Full),
                call!(del 1 gone 2),
                call!(put 2 20 new 3),
                call!(get 2 val 20),
                call!(get 1 none),
            ],
            left: (Some(1), 0, 1),
        },
        Script {
            name: "a node with at most one child is bypassed",
            slots: 8,
            calls: &[
                call!(put 5 50 new 1),
                call!(put 3 30 new 2),
                call!(put 2 20 new 3),
                call!(put 8 80 new 4),
                call!(put 9 90 new 5),
                call!(del 3 gone 6),
                call!(del 8 gone 7),
                call!(get 2 val 20),
                call!(get 5 val 50),
                call!(get 9 val 90),
                call!(del 2 gone 8),
                call!(del 9 gone 9),
                call!(del 5 gone 10),
                call!(get 5 none),
            ],
            left: (Some(1), 5, 0),
        },
        Script {
            name: "a place without a free slot has a spare again",
            slots: 3,
            calls: &[
                call!(put 5 50 new 1),
                call!(put 2 20 new 2),
                call!(put 8 80 new 3),
                call!(del 5 gone 4),
                call!(del 8 gone 5),
                call!(get 2 val 20),
            ],
            left: (Some(2), 1, 2),
        },
    ];
    run_each::<HostRuntime, Eer>(&rt, rt.alloc(), &scripts)
}

#[test]
fn the_second_waiters_scripts_are_told_what_they_did(rt: HostRuntime) -> Result<(), Fail> {
    let scripts = [
        Script {
            name: "a value is replaced until its key is deleted",
            slots: 4,
            calls: &[
                call!(put 5 50 new 1),
                call!(set 5 51 was 50 2),
                call!(get 5 val 51),
                call!(set 6 1 none),
                call!(del 5 gone 3),
                call!(set 5 9 none),
                call!(get 5 none),
            ],
            left: (Some(1), 1, 0),
        },
        Script {
            name: "a full tree takes a pair again after a delete",
            slots: 3,
            calls: &[
                call!(put 2 20 new 1),
                call!(put 1 10 new 2),
                call!(put 3 30 new 3),
                call!(del 2 gone 4),
                call!(put 4 40 new 5),
                call!(put 5 50 Full),
                call!(get 1 val 10),
                call!(get 2 none),
                call!(get 3 val 30),
                call!(get 4 val 40),
            ],
            left: (Some(2), 0, 2),
        },
        Script {
            name: "a successor further down takes the place",
            slots: 8,
            calls: &[
                call!(put 5 50 new 1),
                call!(put 2 20 new 2),
                call!(put 8 80 new 3),
                call!(put 6 60 new 4),
                call!(put 9 90 new 5),
                call!(del 5 gone 6),
                call!(get 2 val 20),
                call!(get 5 none),
                call!(get 6 val 60),
                call!(get 7 none),
                call!(get 8 val 80),
                call!(get 9 val 90),
            ],
            left: (None, 2, 1),
        },
    ];
    run_each::<HostRuntime, Domain>(&rt, rt.alloc(), &scripts)
}

#[test]
fn the_third_waiters_scripts_are_told_what_they_did(rt: HostRuntime) -> Result<(), Fail> {
    let scripts = [
        Script {
            name: "an empty tree has nothing to find, delete or replace",
            slots: 4,
            calls: &[
                call!(del 9 none),
                call!(get 18446744073709551615 none),
                call!(set 0 1 none),
            ],
            left: (Some(1), 0, 0),
        },
        Script {
            name: "a side that was emptied is filled again",
            slots: 8,
            calls: &[
                call!(put 0 1 new 1),
                call!(put 18446744073709551615 2 new 2),
                call!(del 0 gone 3),
                call!(del 18446744073709551615 gone 4),
                call!(put 0 3 new 5),
                call!(put 18446744073709551615 4 new 6),
                call!(get 0 val 3),
                call!(get 18446744073709551615 val 4),
            ],
            left: (Some(1), 2, 0),
        },
        Script {
            name: "a right child takes the place",
            slots: 8,
            calls: &[
                call!(put 5 50 new 1),
                call!(put 2 20 new 2),
                call!(put 8 80 new 3),
                call!(put 9 90 new 4),
                call!(del 5 gone 5),
                call!(get 2 val 20),
                call!(get 5 none),
                call!(get 8 val 80),
                call!(get 9 val 90),
            ],
            left: (None, 2, 1),
        },
    ];
    run_each::<HostRuntime, Deer>(&rt, rt.alloc(), &scripts)
}

// What the seat of a table with so much room at a place has left, after a key was put and deleted so many times.
fn put_and_delete<R: Abort + Wait>(
    rt: &R,
    alloc: Global,
    room: u32,
    times: u32,
) -> Result<Left, Fail>
    requires room { (16 ≤ room) × (room ≤ 1000) }
{
    let (table, mut seat) = CitrusTable::<Eer>::with_room(alloc, 2 * room + 5, 1, room, 10_000)?;
    for time in 0..times {
        let put = 2 * u64::from(time) + 1;
        let del = put + 1;
        let calls = [call!(put 7 70 new put), call!(del 7 gone del)];
        seat = run(rt, &table, seat, "a key again and again", &calls);
    }
    Ok(left(&seat))
}

#[test]
fn many_retired_slots_are_given_back(rt: HostRuntime) -> Result<(), Fail> {
    for (times, left) in [
        (15, (Some(1), 15, 0)),
        (16, (Some(1), 1, 1)),
        (17, (Some(1), 2, 1)),
        (100, (Some(1), 10, 6)),
    ] {
        assert_same(
            &rt,
            put_and_delete(&rt, rt.alloc(), 16, times)?,
            left,
            times,
        );
    }
    Ok(())
}

#[test]
fn a_place_with_more_room_keeps_more_retired_slots(rt: HostRuntime) -> Result<(), Fail> {
    for (room, times, left) in [
        (24, 23, (Some(1), 23, 0)),
        (24, 24, (Some(1), 1, 1)),
        (1000, 999, (Some(1), 999, 0)),
        (1000, 1000, (Some(1), 1, 1)),
    ] {
        assert_same(
            &rt,
            put_and_delete(&rt, rt.alloc(), room, times)?,
            left,
            times,
        );
    }
    Ok(())
}
