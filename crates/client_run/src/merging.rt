//! One history of what all scripts were told.
ghost use Rattle.std.specs.Prelude.{◌≡◌, ◌-◌, ◌≤◌, List, length, map, count_by, slice_set, IsTrue, if◌then◌else◌, IfOk};
ghost use Rattle.prcu_model.specs.declared.operation.Update.{Update};
ghost use Rattle.prcu_model.specs.Scripts.{entries_of};
ghost use Rattle.prcu_model.specs.Dictionary.{tells_update};
ghost use Rattle.prcu_model.specs.Fronts.{told_lines, all_told_lines};
ghost use Rattle.client_run.specs.Crews.{numbered_updates, all_numbered_updates, AreOneToCount, IsHistoryOf, TellOwnUpdates, stored, AreInside};

use prcu_model::{NoMemory, Op, Scripts, Told, ToldList, Update};
use std::alloc::Global;

// Stands where no update was stored yet.
const NO_UPDATE: Update = Update {
    caller: 0,
    op: Op::Get { key: 0 },
};

/// The history of all updates that scripts were told of, where the one with number n stands as the n-th. Its caller is
/// the number of its script, counted from 0. The time is that of the scripts.
pub fn merge(alloc: Global, scripts: &Scripts, told: &[ToldList]) -> Result<Vec<Update>, NoMemory>
    requires lengths { map length (entries_of told.now) ≡ map length scripts.now }
    requires numbers { AreOneToCount (all_numbered_updates 0 (all_told_lines scripts.now (entries_of told.now))) }
    ensures history { IfOk result (λ merged. IsHistoryOf
        (all_numbered_updates 0 (all_told_lines scripts.now (entries_of told.now))) merged.items) }
    ensures only { IfOk result (λ merged. (history : List Update)
        → TellOwnUpdates history (all_told_lines scripts.now (entries_of told.now)) → merged.items ≡ history) }
{
    let count = count_updates(scripts, told);
    let mut history = vec![in alloc; NO_UPDATE; count]?;
    store_all(&mut history, scripts, told);
    Ok(history)
}

// How many updates all scripts were told of.
fn count_updates(scripts: &Scripts, told: &[ToldList]) -> usize
    requires { map length (entries_of told.now) ≡ map length scripts.now }
    ensures { result ≡ length (all_numbered_updates 0 (all_told_lines scripts.now (entries_of told.now))) }
{
    prove!(scripts.ops() <= Scripts::MOST_OPS);
    let mut count = 0;
    for list in told {
        count += count_in(list.entries());
    }
    count
}

// How many of the answers tell of an update.
fn count_in(told: &[Told]) -> usize
    ensures { result ≡ count_by (λ answer. tells_update answer.reply) told.now }
{
    told.iter()
        .filter(|answer| answer.reply.tells_update())
        .count()
}

// Stores each update that the scripts were told of at its number, counted from 1.
fn store_all(history: &mut [Update], scripts: &Scripts, told: &[ToldList])
    requires lengths { map length (entries_of told.now) ≡ map length scripts.now }
    requires inside { AreInside (length history.old) (all_numbered_updates 0 (all_told_lines scripts.now (entries_of told.now))) }
    ensures { history.new ≡ stored history.old (all_numbered_updates 0 (all_told_lines scripts.now (entries_of told.now))) }
{
    prove!(scripts.count() <= Scripts::MOST_SCRIPTS);
    for (i, list) in told.iter().enumerate() {
        let caller = i as u32;
        store_script(history, caller, scripts.script(caller), list.entries());
    }
}

// Stores each update that the caller's script was told of at its number.
fn store_script(history: &mut [Update], caller: u32, script: &[Op], told: &[Told])
    requires inside { AreInside (length history.old) (numbered_updates caller (told_lines script.now told.now)) }
    ensures { history.new ≡ stored history.old (numbered_updates caller (told_lines script.now told.now)) }
{
    for (op, answer) in script.iter().zip(told) {
        store_update(history, caller, *op, *answer);
    }
}

// Stores the update, where the answer tells of one.
fn store_update(history: &mut [Update], caller: u32, op: Op, answer: Told)
    requires { IsTrue (tells_update answer.reply) → (1 ≤ answer.number) × (answer.number ≤ length history.old) }
    ensures { history.new ≡ if tells_update answer.reply then slice_set history.old (answer.number - 1)
        (record { caller = caller; op = op }) else history.old }
{
    if answer.reply.tells_update() {
        history[(answer.number - 1) as usize] = Update { caller, op };
    }
}
