//! Workers for scripts, each with a seat of its own on one tree.
ghost use Rattle.std.specs.Prelude.{◌≡◌, ℕ, ◌≤◌, [], ◌∷◌, ◌++◌, length, IfOk};
ghost use Rattle.prcu_model.specs.Scripts.{op_count};
ghost use Rattle.client_run.specs.Crews.{Work, IsHired, IsCrew};
ghost use Rattle.seat_table.specs.Seats.{IsQuietSeat};
ghost use Rattle.tree_run.specs.Runs.{ScriptClientAt, run_with, seat_for, client_for, tickets_for};

use crate::client::{ScriptClient, tickets_for};
use client_run::Worker;
use prcu_marks::Gate;
use prcu_model::{NoMemory, Op, Scripts};
use seat_table::{CitrusTable, Seat, WaitPart};
use std::alloc::Global;

/// A worker for each script, whose client has the place of the script's number and the tickets for its operations.
pub(crate) fn hire<'a, W: WaitPart, G: Gate>(
    alloc: Global,
    table: &'a CitrusTable<W>,
    seat: Seat<W>,
    gate: &'a G,
    scripts: &Scripts,
    cookies: bool,
) -> Result<Vec<Worker<ScriptClient<'a, W, G>>>, NoMemory>
    requires some { 1 ≤ length scripts.now }
    requires seat { seat ≡ seat_for table.now 0 (length scripts.now) (tickets_for cookies (op_count scripts.now)) }
    requires quiet { IsQuietSeat seat }
    ensures { IfOk result (λ workers. IsCrew (client_for (run_with W.WAY cookies) table.now) scripts.now workers.items) }
{
    let mut workers = Vec::with_capacity(alloc, scripts.count() as usize)?;
    let mut rest = seat;
    let last = scripts.count() - 1;
    for i in 0..last {
        let script = scripts.script(i);
        let used = tickets_for(cookies, script.len() as u64);
        let left = rest.tickets() - used;
        let list = rest.empty_list(alloc)?;
        let (mine, others) = rest.split(table, last - i, left, list);
        rest = others;
        hire_one(&mut workers, alloc, table, mine, gate, script, cookies)?;
    }
    let script = scripts.script(last);
    hire_one(&mut workers, alloc, table, rest, gate, script, cookies)?;
    Ok(workers)
}

// Appends a worker for the script, with this seat.
fn hire_one<'a, W: WaitPart, G: Gate>(
    workers: &mut Vec<Worker<ScriptClient<'a, W, G>>>,
    alloc: Global,
    table: &'a CitrusTable<W>,
    seat: Seat<W>,
    gate: &'a G,
    script: &[Op],
    cookies: bool,
) -> Result<(), NoMemory>
    requires table { seat.table ≡ table.now }
    requires quiet { IsQuietSeat seat }
    requires script { length script.now ≤ 1048576 }
    ensures { (place : ℕ) → seat ≡ seat_for table.now place 1 (tickets_for cookies (length script.now))
        → IfOk result (λ done. (worker : Work ScriptClientAt)
        × IsHired (client_for (run_with W.WAY cookies) table.now place (length script.now)) script.now worker
        × (workers.new.items ≡ workers.old.items ++ worker ∷ [])) }
{
    let client = ScriptClient::new(table, seat, gate, cookies);
    let worker = Worker::new(alloc, client, script.len() as u32)?;
    workers.push(worker)?;
    Ok(())
}
