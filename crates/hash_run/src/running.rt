//! Scripts run beside each other.
ghost use Rattle.std.specs.Prelude.{◌≡◌, ℕ, ◌<◌, ◌≤◌, IfOk, length};
ghost use Rattle.prcu_model.specs.Fronts.{AreExplainable};
ghost use Rattle.prcu_model.specs.Dictionary.{IsLegal};
ghost use Rattle.prcu_model.specs.Scripts.{entries_of, op_count};
ghost use Rattle.prcu_marks.specs.Marks.{updates_of};
ghost use Rattle.prcu_marks.specs.Callers.{FitsScripts};
ghost use Rattle.client_run.specs.Crews.{HaveMade, IsCrew, HaveRun};
ghost use Rattle.hash_core.specs.Rule.{AnswersFor};
ghost use Rattle.hash_core.specs.Steps.{IsQuiet};
ghost use Rattle.class_hash.specs.Answers.{IsInformed};
ghost use Rattle.class_hash.specs.Seats.{TableAt};
ghost use Rattle.class_hash.specs.Replies.{HasCalled};
ghost use Rattle.hash_run.specs.Capacities.{AreCapacities};
ghost use Rattle.hash_run.specs.Crews.{HaveNoWaits, client_for, StandsFor};

use crate::capacities::capacities_for;
use crate::crew::hire;
use crate::gathering::gather;
use class_hash::{HashClient, HashSeat, HashTable};
use client_run::{Worker, merge, run_all};
use prcu_marks::Gate;
use prcu_model::{NoMemory, Scripts, ToldList, Update};
use std::alloc::Global;
use std::sync::Wait;
use std::thread::Threads;

/// What a run leaves.
#[derive(Drop)]
pub struct HashRun {
    /// What each script was told.
    pub told: Vec<ToldList>,
    /// All updates, in their order.
    pub history: Vec<Update>,
    pub table: HashTable,
    /// The seats of all clients, as one.
    pub seat: HashSeat,
}

/// Runs each script by a client of its own on one new table, in threads beside each other where they can be made. A class has as
/// many slots as there are different keys of it in puts, so no put is told `Full`: whatever the number of slots, one legal history
/// explains what the scripts were told. It is that of the updates among the marks that the joined seat has seen. That seat may go
/// on: it is quiet, answers for the place of every script, and is informed of all that their clients did.
pub fn run_scripts<R: Threads + Wait + Sync, G: Gate + Sync>(
    rt: &R,
    alloc: Global,
    scripts: &Scripts,
    gate: &G,
) -> Result<HashRun, NoMemory>
    requires some { 1 ≤ length scripts.now }
    ensures run { IfOk result (λ run. HaveRun (client_for run.table) HasCalled
        (StandsFor run.table) scripts.now run.told.items run.seat.view) }
    ensures explained { IfOk result (λ run. (slots : ℕ) → AreExplainable scripts.now (entries_of run.told.items) run.history.items slots) }
    ensures legal { IfOk result (λ run. IsLegal run.history.items) }
    ensures history { IfOk result (λ run. run.history.items ≡ updates_of run.seat.view.seen) }
    ensures marks { IfOk result (λ run. FitsScripts scripts.now run.seat.view.seen) }
    ensures waits { IfOk result (λ run. HaveNoWaits run.seat.view.seen) }
    ensures capacities { IfOk result (λ run. AreCapacities scripts.now run.table.capacities) }
    ensures places { IfOk result (λ run. run.table.places ≡ length scripts.now) }
    ensures tickets { IfOk result (λ run. run.table.tickets ≡ op_count scripts.now) }
    ensures seat { IfOk result (λ run. run.seat.table ≡ run.table.id) }
    ensures quiet { IfOk result (λ run. IsQuiet run.seat.view) }
    ensures informed { IfOk result (λ run. IsInformed run.table.capacities run.table.places run.seat.view) }
    ensures answers { IfOk result (λ run. (place : ℕ) → place < length scripts.now → AnswersFor run.seat.view place) }
{
    let capacities = capacities_for(alloc, scripts)?;
    let count = scripts.count();
    let mut told = Vec::with_capacity(alloc, count as usize)?;
    let (table, seat) = HashTable::new(alloc, &capacities, count, u64::from(scripts.ops()))?;
    let workers = hire(alloc, &table, seat, gate, scripts)?;
    let seat = gather(&table, run_crew(rt, workers, scripts), &mut told);
    let history = merge(alloc, scripts, &told)?;
    Ok(HashRun {
        told,
        history,
        table,
        seat,
    })
}

// The workers, after they have run their scripts.
fn run_crew<'a, R: Threads + Wait + Sync, G: Gate + Sync>(
    rt: &R,
    mut workers: Vec<Worker<HashClient<'a, G>>>,
    scripts: &Scripts,
) -> Vec<Worker<HashClient<'a, G>>>
    requires crew { (table : TableAt) × IsCrew (client_for table) scripts.now workers.items }
    ensures count { length result.items ≡ length workers.entry.items }
    ensures made { HaveMade HasCalled workers.entry.items scripts.now result.items }
{
    run_all(rt, &mut workers, scripts);
    workers
}
