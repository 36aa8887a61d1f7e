//! Runs by hand.
ghost use Rattle.std.specs.Prelude.{◌≡◌, ◌<◌, ◌≤◌, length, IfOk};

use crate::same::assert_same;
use crate::scripts::scripts_of;
use core_machine::{Machine, Stepped};
use prcu_marks::Why;
use prcu_model::{Dict, NoMemory, Op, Told, Update};
use std::alloc::Global;
use std::process::Abort;
use std::test::Fail;

// How far a caller is stepped.
#[derive(Clone, Copy)]
enum Until {
    // Until it was told so many answers.
    Told { count: usize },
    // Until its search stands at the slot.
    At { slot: u32 },
    // Until it is in no section.
    Outside,
    // Until a step is blocked, or has nothing to do.
    Stopped,
}

fn is_reached(machine: &Machine, caller: u32, until: Until) -> bool
    requires { caller < length machine.now.owns }
{
    match until {
        Until::Told { count } => machine.told(caller).len() >= count,
        Until::At { slot } => machine.standing(caller) == Some(slot),
        Until::Outside => machine.standing(caller).is_none(),
        Until::Stopped => false,
    }
}

// Steps the caller so far, and answers what a step did that didn't move.
fn step_until(machine: &mut Machine, caller: u32, until: Until) -> Stepped
    requires { caller < length machine.old.owns }
    ensures { length machine.new.owns ≡ length machine.old.owns }
{
    for _ in 0..2000 {
        if is_reached(machine, caller, until) {
            return Stepped::Moved;
        }
        let stepped = machine.step(caller);
        if stepped != Stepped::Moved {
            return stepped;
        }
    }
    Stepped::Moved
}

// A machine of two scripts on so many slots.
fn machine_of(
    rt: &impl Abort,
    alloc: Global,
    first: &[Op],
    second: &[Op],
    slots: u32,
) -> Result<Machine, NoMemory>
    requires slots { (1 ≤ slots) × (slots ≤ 2097152) }
    ensures callers { IfOk result (λ machine. length machine.owns ≡ 2) }
{
    let scripts = scripts_of(rt, alloc, &[first, second])?;
    assert!(rt; scripts.count() == 2);
    Machine::new(alloc, &scripts, slots)
}

// A turn of a caller: who it is and how far it is stepped. Then how that ends, at which slot its search stands, and how many answers it was
// told, with the number of the last.
type Turn = (u32, Until, Stepped, Option<u32>, (usize, u64));

// How many answers these are, and the number of the last.
fn count_of(told: &[Told]) -> (usize, u64) {
    match told.last() {
        Some(last) => (told.len(), last.number),
        None => (0, 0),
    }
}

// That the turns of two callers, one after another, end as they say.
fn assert_turns(rt: &impl Abort, machine: &mut Machine, turns: &[Turn])
    requires { length machine.old.owns ≡ 2 }
{
    for (place, turn) in turns.iter().enumerate() {
        let (caller, until, ends, stands, told) = *turn;
        assert!(rt; caller < 2);
        let ended = step_until(machine, caller, until);
        let found = (
            ended,
            machine.standing(caller),
            count_of(machine.told(caller)),
        );
        assert_same(rt, found, (ends, stands, told), place);
    }
}

// The pairs that the updates leave, ascending.
fn assert_pairs(
    rt: &impl Abort,
    alloc: Global,
    updates: &[Update],
    pairs: &[(u64, u64)],
) -> Result<(), NoMemory> {
    let dict = Dict::replay(alloc, updates)?;
    assert!(rt; dict.len() == pairs.len() as u64);
    for i in 0..pairs.len() {
        assert!(rt; (i as u64) < dict.len());
        assert!(rt; dict.pair(i as u64) == pairs[i]);
    }
    Ok(())
}

#[test]
fn a_put_beside_a_move_searches_again(rt: HostRuntime) -> Result<(), Fail> {
    let first = [
        Op::Put { key: 5, value: 50 },
        Op::Put { key: 2, value: 20 },
        Op::Put { key: 9, value: 90 },
        Op::Put { key: 7, value: 70 },
        Op::Del { key: 5 },
    ];
    let second = [Op::Put { key: 6, value: 60 }];
    let on = Why::Reader {
        place: 1,
        key: 6,
        stamp: 0,
    };
    let turns = [
        (0, Until::Told { count: 4 }, Stepped::Moved, None, (4, 4)),
        (1, Until::At { slot: 5 }, Stepped::Moved, Some(5), (0, 0)),
        (0, Until::Stopped, Stepped::Blocked { on }, None, (4, 4)),
        (1, Until::Outside, Stepped::Moved, None, (0, 0)),
        (0, Until::Stopped, Stepped::Finished, None, (5, 5)),
        (1, Until::Stopped, Stepped::Finished, None, (1, 6)),
        // one step more
        (0, Until::Stopped, Stepped::Finished, None, (5, 5)),
    ];
    let mut machine = machine_of(&rt, rt.alloc(), &first, &second, 45)?;
    assert_turns(&rt, &mut machine, &turns);
    let pairs = [(2, 20), (6, 60), (7, 70), (9, 90)];
    Ok(assert_pairs(&rt, rt.alloc(), machine.updates(), &pairs)?)
}

#[test]
fn a_put_at_a_node_that_is_deleted_searches_again(rt: HostRuntime) -> Result<(), Fail> {
    let first = [Op::Put { key: 5, value: 50 }, Op::Del { key: 5 }];
    let second = [Op::Put { key: 6, value: 60 }];
    let turns = [
        (0, Until::Told { count: 1 }, Stepped::Moved, None, (1, 1)),
        // below the node
        (1, Until::At { slot: 3 }, Stepped::Moved, Some(3), (0, 0)),
        (1, Until::Outside, Stepped::Moved, None, (0, 0)),
        (0, Until::Stopped, Stepped::Finished, None, (2, 2)),
        (1, Until::Stopped, Stepped::Finished, None, (1, 3)),
    ];
    let mut machine = machine_of(&rt, rt.alloc(), &first, &second, 42)?;
    assert_turns(&rt, &mut machine, &turns);
    Ok(assert_pairs(&rt, rt.alloc(), machine.updates(), &[(6, 60)])?)
}
