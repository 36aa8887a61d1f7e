//! Scripts in threads of their own, on few slots: one history explains what all of them were told.
ghost use Rattle.std.specs.Prelude.{◌≤◌};

use super::{Call, run};
use crate::same::assert_same;
use crate::scripts::{drawn_scripts, key_of};
use prcu_marks::OpenGate;
use prcu_model::{NoMemory, Op, PlainMap, Reply, Scripts, Told, ToldList, Update};
use seat_table::WaitPart;
use std::alloc::Global;
use std::process::Abort;
use std::sync::Wait;
use std::test::Fail;
use std::thread::Threads;
use tree_run::{TreeRun, run_scripts};
use waiters::{Deer, Domain, Eer};

const CALLERS: u32 = 4;

const CALLS: u32 = 2000;

const KEYS: u64 = 8;

// The values of the keys at a front.
pub(super) type Values = [Option<u64>; 8];

// Whether an operation is given this reply where the keys have these values, and four scripts share the slots.
fn is_reply(values: &Values, slots: u32, op: Op, reply: Reply) -> bool {
    let there = values[(key_of(op) % KEYS) as usize];
    match (op, reply) {
        (Op::Put { .. }, Reply::New) => there.is_none(),
        (Op::Put { .. }, Reply::Full) => slots.saturating_sub(60) as usize
            <= values.iter().flatten().count(),
        (Op::Put { .. }, Reply::Old) => there.is_some(),
        (Op::Del { .. }, Reply::Gone) => there.is_some(),
        (Op::Set { .. }, Reply::Was { value }) | (Op::Get { .. }, Reply::Val { value }) => there
            == Some(value),
        (Op::Del { .. } | Op::Set { .. } | Op::Get { .. }, Reply::Absent) => there.is_none(),
        _ => false,
    }
}

// The values after each front of the history, from none on. Each update does something.
pub(super) fn values_at(
    rt: &impl Abort,
    alloc: Global,
    history: &[Update],
) -> Result<Vec<Values>, NoMemory> {
    let mut map = PlainMap::new(alloc);
    let mut fronts = Vec::new(alloc);
    fronts.push([None; 8])?;
    for update in history {
        let op = update.op;
        assert_same(rt, map.reply_to(None, op).tells_update(), true, op);
        map.update(op)?;
        let mut values = [None; 8];
        for key in 0..KEYS {
            values[key as usize] = map.get(key);
        }
        fronts.push(values)?;
    }
    Ok(fronts)
}

// The least front from another on at which the operation is given the reply.
fn least_front(fronts: &[Values], slots: u32, from: usize, op: Op, reply: Reply) -> Option<usize> {
    for front in from..fronts.len() {
        if is_reply(&fronts[front], slots, op, reply) {
            return Some(front);
        }
    }
    None
}

// The front after an update, where its number is one behind the front before, and its reply is one at the front before its own.
fn front_of_update(
    fronts: &[Values],
    slots: u32,
    before: usize,
    op: Op,
    answer: Told,
) -> Option<usize> {
    let number = answer.number as usize;
    if before < number && number < fronts.len() {
        let values = &fronts[number - 1];
        if is_reply(values, slots, op, answer.reply) {
            return Some(number);
        }
    }
    None
}

// That each reply of a script is one at some front, where the fronts never fall. An update's is the one before it.
fn assert_explained(rt: &impl Abort, fronts: &[Values], slots: u32, script: &[Op], told: &[Told]) {
    assert_same(rt, script.len(), told.len(), "the length");
    let mut front = 0;
    for (op, answer) in script.iter().zip(told) {
        let next = if answer.reply.tells_update() {
            front_of_update(fronts, slots, front, *op, *answer)
        } else {
            least_front(fronts, slots, front, *op, answer.reply)
        };
        assert_same(rt, next.is_some(), true, (*op, *answer));
        front = next.unwrap_or(front);
    }
}

// That all that the scripts were told is explained.
pub(super) fn assert_all_explained(
    rt: &impl Abort,
    fronts: &[Values],
    slots: u32,
    scripts: &Scripts,
    told: &[ToldList],
) {
    for (caller, list) in told.iter().enumerate() {
        assert!(rt; caller < scripts.count() as usize);
        assert_explained(
            rt,
            fronts,
            slots,
            scripts.script(caller as u32),
            list.entries(),
        );
    }
}

// A get of each key, which is told the value that is there.
pub(super) fn gets_of(values: &Values) -> [Call; 8] {
    let mut calls = [call!(get 0 none); 8];
    for key in 0..KEYS {
        let reply = match values[key as usize] {
            Some(value) => Reply::Val { value },
            None => Reply::Absent,
        };
        calls[key as usize] = (Op::Get { key }, Told { reply, number: 0 });
    }
    calls
}

// That one history explains a run on so many slots, with cookies or without, and gives the values that are there in the end.
fn assert_run<R: Threads + Wait + Sync + Abort, W: WaitPart + Send + Sync>(
    rt: &R,
    alloc: Global,
    slots: u32,
    cookies: bool,
) -> Result<(), NoMemory>
    requires { (W.WAY ≤ 2) × (1 ≤ slots) × (slots ≤ 2097152) }
{
    let keys = [0, 1, 2, 3, 4, 5, 6, 7];
    let scripts = drawn_scripts(rt, alloc, CALLERS, CALLS, &keys)?;
    assert!(rt; 0 < scripts.count());
    let TreeRun {
        told,
        history,
        table,
        seat,
    } = run_scripts::<R, W, OpenGate>(rt, alloc, &scripts, slots, cookies, &OpenGate)?;
    let fronts = values_at(rt, alloc, &history)?;
    assert_all_explained(rt, &fronts, slots, &scripts, &told);
    let Some(last) = fronts.last() else {
        panic!(rt; "there is no front");
    };
    run(rt, &table, seat, "the tree in the end", &gets_of(last));
    Ok(())
}

#[test]
fn one_history_explains_each_waiters_threads(rt: HostRuntime) -> Result<(), Fail> {
    for cookies in [false, true] {
        assert_run::<HostRuntime, Eer>(&rt, rt.alloc(), 5, cookies)?;
        assert_run::<HostRuntime, Domain>(&rt, rt.alloc(), 70, cookies)?;
        assert_run::<HostRuntime, Deer>(&rt, rt.alloc(), 65, cookies)?;
    }
    Ok(())
}
