//! A history by hand, of what scripts were told.
use crate::same::assert_same;
use prcu_model::{NoMemory, Op, Scripts, Told, ToldList};
use std::alloc::Global;
use std::process::Abort;

// Stands where there is none.
const NO_UPDATE: Op = Op::Get { key: 0 };

// Stores the update at its number, counted from 1. No number is told twice.
fn store(rt: &impl Abort, history: &mut [Op], update: Op, answer: Told) {
    let place = answer.number.wrapping_sub(1) as usize;
    let before = history.get(place).copied();
    assert_same(rt, before, Some(NO_UPDATE), (update, answer));
    if let Some(stored) = history.get_mut(place) {
        *stored = update;
    }
}

// Stores each update that the script was told of, and tells how many there are.
fn store_script(rt: &impl Abort, history: &mut [Op], script: &[Op], told: &[Told]) -> usize {
    let mut count = 0usize;
    for (op, answer) in script.iter().zip(told) {
        if answer.reply.tells_update() {
            store(rt, history, *op, *answer);
            count = count.saturating_add(1);
        }
    }
    count
}

// Stores each update that all scripts were told of, and tells how many there are.
fn store_all(rt: &impl Abort, history: &mut [Op], scripts: &Scripts, told: &[ToldList]) -> usize {
    let mut count = 0usize;
    for (caller, list) in told.iter().enumerate() {
        assert!(rt; caller < scripts.count() as usize);
        let script = scripts.script(caller as u32);
        count = count.saturating_add(store_script(rt, history, script, list.entries()));
    }
    count
}

/// The history of all updates that the scripts were told of. A number that none was told has no update.
pub fn merged(
    rt: &impl Abort,
    alloc: Global,
    scripts: &Scripts,
    told: &[ToldList],
) -> Result<Vec<Op>, NoMemory> {
    let mut history = vec![in alloc; NO_UPDATE; scripts.ops() as usize]?;
    let count = store_all(rt, &mut history, scripts, told);
    history.truncate(count);
    Ok(history)
}
