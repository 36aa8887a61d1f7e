//! A run by a schedule: the machine's run, and what it leaves as lists of one's own.
ghost use Rattle.std.specs.Prelude.{◌≡◌, ◌≤◌, IfOk, length, map};
ghost use Rattle.prcu_model.specs.Fronts.{AreExplainable, StaysWithin};
ghost use Rattle.prcu_model.specs.Dictionary.{IsLegal};
ghost use Rattle.prcu_model.specs.Scripts.{entries_of};
ghost use Rattle.core_machine.specs.Laws.{IsOfSchedule};

use crate::Machine;
use prcu_model::{NoMemory, Scripts, Told, ToldList, Update};
use std::alloc::Global;
use std::sync::Wait;

/// What a run leaves.
#[derive(Drop)]
pub struct Scheduled {
    /// What each script was told.
    pub told: Vec<ToldList>,
    /// All updates, in their order.
    pub history: Vec<Update>,
}

/// Runs each script by a caller of its own on one new tree with so many slots, on this thread. Before each step of the tree a caller is
/// drawn from the number among those whose scripts haven't ended, and it makes the step. So what is left is the same for the same scripts,
/// slots and number. One legal history explains what the scripts were told, and at none of its fronts were there more pairs than slots.
pub fn run_scripts<R: Wait>(
    rt: &R,
    alloc: Global,
    scripts: &Scripts,
    slots: u32,
    number: u64,
) -> Result<Scheduled, NoMemory>
    requires some { 1 ≤ length scripts.now }
    requires slots { (1 ≤ slots) × (slots ≤ 2097152) }
    ensures explained { IfOk result (λ run. AreExplainable scripts.now (entries_of run.told.items) run.history.items slots) }
    ensures legal { IfOk result (λ run. IsLegal run.history.items) }
    ensures within { IfOk result (λ run. StaysWithin run.history.items slots) }
    ensures drawn { IfOk result (λ run. IsOfSchedule scripts.now slots number (entries_of run.told.items) run.history.items) }
{
    let mut machine = Machine::new(alloc, scripts, slots)?;
    machine.run(rt, number);
    let told = tolds_of(alloc, &machine, scripts.count())?;
    let updates = machine.updates();
    let mut history = Vec::with_capacity(alloc, updates.len())?;
    history.extend_from_slice(updates)?;
    Ok(Scheduled { told, history })
}

// What each caller of the machine was told.
fn tolds_of(alloc: Global, machine: &Machine, count: u32) -> Result<Vec<ToldList>, NoMemory>
    requires count { count ≡ length machine.now.owns }
    ensures told { IfOk result (λ told. entries_of told.items ≡ map (λ own. own.told) machine.now.owns) }
{
    let mut told = Vec::with_capacity(alloc, count as usize)?;
    for caller in 0..count {
        told.push(list_of(alloc, machine.told(caller))?)?;
    }
    Ok(told)
}

// The same answers, as a list.
fn list_of(alloc: Global, answers: &[Told]) -> Result<ToldList, NoMemory>
    requires few { length answers.now ≤ 1048576 }
    ensures entries { IfOk result (λ list. list.entries ≡ answers.now) }
{
    let mut list = ToldList::new(alloc, answers.len() as u32)?;
    for answer in answers {
        list.push(*answer);
    }
    Ok(list)
}
