//! Workers for scripts, each with a seat of its own on one table.
ghost use Rattle.std.specs.Prelude.{◌≡◌, ℕ, ◌≤◌, length, IfOk};
ghost use Rattle.prcu_model.specs.Scripts.{op_count};
ghost use Rattle.hash_core.specs.Steps.{IsQuiet};
ghost use Rattle.client_run.specs.Crews.{IsHired, IsCrew};
ghost use Rattle.hash_run.specs.Crews.{idle_view, client_for};

use class_hash::{HashClient, HashSeat, HashTable};
use client_run::Worker;
use prcu_marks::Gate;
use prcu_model::{NoMemory, Op, Scripts};
use std::alloc::Global;

/// A worker for each script, whose client has the place of the script's number and a ticket for each operation.
pub(crate) fn hire<'a, G: Gate>(
    alloc: Global,
    table: &'a HashTable,
    seat: HashSeat,
    gate: &'a G,
    scripts: &Scripts,
) -> Result<Vec<Worker<HashClient<'a, G>>>, NoMemory>
    requires table { seat.table ≡ table.now.id }
    requires some { 1 ≤ length scripts.now }
    requires seat { seat.view ≡ idle_view 0 (length scripts.now) (op_count scripts.now) }
    ensures { IfOk result (λ workers. IsCrew (client_for table.now) scripts.now workers.items) }
{
    let mut workers = Vec::with_capacity(alloc, scripts.count() as usize)?;
    let mut rest = seat;
    let last = scripts.count() - 1;
    for i in 0..last {
        let script = scripts.script(i);
        let tickets = rest.tickets() - script.len() as u64;
        let (mine, others) = rest.split(table, last - i, tickets);
        rest = others;
        workers.push(hire_one(alloc, table, mine, gate, script)?)?;
    }
    workers.push(hire_one(alloc, table, rest, gate, scripts.script(last))?)?;
    Ok(workers)
}

// A worker for the script, with this seat.
fn hire_one<'a, G: Gate>(
    alloc: Global,
    table: &'a HashTable,
    seat: HashSeat,
    gate: &'a G,
    script: &[Op],
) -> Result<Worker<HashClient<'a, G>>, NoMemory>
    requires table { seat.table ≡ table.now.id }
    requires quiet { IsQuiet seat.view }
    requires script { length script.now ≤ 1048576 }
    ensures { (place : ℕ) → seat.view ≡ idle_view place 1 (length script.now)
        → IfOk result (λ worker. IsHired (client_for table.now place (length script.now)) script.now worker) }
{
    Worker::new(
        alloc,
        HashClient::new(table, seat, gate),
        script.len() as u32,
    )
}
