//! Scripts run beside each other.
ghost use Rattle.std.specs.Prelude.{◌≡◌, ℕ, ◌<◌, ◌≤◌, Bool, IfOk, length};
ghost use Rattle.prcu_model.specs.Fronts.{AreExplainable, StaysWithin};
ghost use Rattle.prcu_model.specs.Dictionary.{IsLegal};
ghost use Rattle.prcu_model.specs.Scripts.{entries_of, op_count};
ghost use Rattle.prcu_marks.specs.Marks.{updates_of};
ghost use Rattle.prcu_marks.specs.Callers.{FitsScripts};
ghost use Rattle.client_run.specs.Crews.{HaveMade, IsCrew};
ghost use Rattle.list_laws.specs.Counts.{times};
ghost use Rattle.core_state.specs.Views.{places_of};
ghost use Rattle.seat_table.specs.Seats.{TableAt, IsQuietSeat, shape_of};
ghost use Rattle.seat_table.specs.Gains.{IsInformed, StaysIn};
ghost use Rattle.tree_run.specs.Runs.{HasCalled, run_with, seat_for, client_for, tickets_for, HasRun};

use crate::client::{ScriptClient, tickets_for};
use crate::crew::hire;
use crate::gathering::gather;
use client_run::{Worker, merge, run_all};
use core_state::shape::Waiter;
use prcu_marks::Gate;
use prcu_model::{NoMemory, Scripts, ToldList, Update};
use seat_table::{CitrusTable, Seat, WaitPart};
use std::alloc::Global;
use std::sync::Wait;
use std::thread::Threads;

/// How scripts run on a tree.
#[derive(Clone, Copy)]
pub struct RunWith {
    /// How deletes wait for readers. The clients of a run have it as their type.
    pub waiter: Waiter,
    /// Whether clients hold cookies, or stand still for readers where many slots are retired.
    pub cookies: bool,
}

/// What a run leaves.
#[derive(Drop)]
pub struct TreeRun<W: WaitPart> {
    /// What each script was told.
    pub told: Vec<ToldList>,
    /// All updates, in their order.
    pub history: Vec<Update>,
    pub table: CitrusTable<W>,
    /// The seats of all clients, as one.
    pub seat: Seat<W>,
}

/// Runs each script by a client of its own on one new tree with so many slots, in threads beside each other where they can be made. The
/// clients hold cookies, or else stand still for readers where many slots are retired.
///
/// One legal history explains what the scripts were told. It is that of the updates among the marks that the joined seat has seen, and
/// at none of its fronts were there more pairs than slots. That seat may go on: it is quiet, answers for the place of every script, and
/// is informed of all that their clients did.
pub fn run_scripts<R: Threads + Wait + Sync, W: WaitPart + Send + Sync, G: Gate + Sync>(
    rt: &R,
    alloc: Global,
    scripts: &Scripts,
    slots: u32,
    cookies: bool,
    gate: &G,
) -> Result<TreeRun<W>, NoMemory>
    requires way { W.WAY ≤ 2 }
    requires some { 1 ≤ length scripts.now }
    requires slots { (1 ≤ slots) × (slots ≤ 2097152) }
    ensures run { IfOk result (λ run. HasRun (run_with W.WAY cookies) run.table scripts.now run.told.items run.seat) }
    ensures explained { IfOk result (λ run. AreExplainable scripts.now (entries_of run.told.items) run.history.items slots) }
    ensures legal { IfOk result (λ run. IsLegal run.history.items) }
    ensures within { IfOk result (λ run. StaysWithin run.history.items slots) }
    ensures history { IfOk result (λ run. run.history.items ≡ updates_of run.seat.view.seen) }
    ensures marks { IfOk result (λ run. FitsScripts scripts.now run.seat.view.seen) }
    ensures table { IfOk result (λ run. (run.table.slots ≡ slots) × (run.table.places ≡ length scripts.now)
        × (run.table.tickets ≡ tickets_for cookies (op_count scripts.now))) }
    ensures room { IfOk result (λ run. run.table.room ≡ 16) }
    ensures seat { IfOk result (λ run. run.seat.table ≡ run.table) }
    ensures quiet { IfOk result (λ run. IsQuietSeat run.seat) }
    ensures informed { IfOk result (λ run. IsInformed run.seat.view) }
    ensures answers { IfOk result (λ run. (place : ℕ) → place < length scripts.now → 1 ≤ times place (places_of run.seat.view)) }
{
    let tickets = tickets_for(cookies, u64::from(scripts.ops()));
    let (table, seat) = CitrusTable::new(alloc, slots, scripts.count(), tickets)?;
    let ran = run_on(rt, alloc, &table, seat, scripts, cookies, gate)?;
    let history = merge(alloc, scripts, &ran.told)?;
    Ok(TreeRun {
        told: ran.told,
        history,
        table,
        seat: ran.seat,
    })
}

/// What scripts were told on a table, and the seats of their clients, as one.
#[derive(Drop)]
pub struct SeatRun<W: WaitPart> {
    pub told: Vec<ToldList>,
    pub seat: Seat<W>,
}

/// Runs each script by a client of its own on the table, in threads beside each other where they can be made. The seat is cut into one
/// for each script, at the places from 0 on, with the tickets for its operations. The table may have more places, where others work.
pub fn run_on<R: Threads + Wait + Sync, W: WaitPart + Send + Sync, G: Gate + Sync>(
    rt: &R,
    alloc: Global,
    table: &CitrusTable<W>,
    seat: Seat<W>,
    scripts: &Scripts,
    cookies: bool,
    gate: &G,
) -> Result<SeatRun<W>, NoMemory>
    requires some { 1 ≤ length scripts.now }
    requires seat { seat ≡ seat_for table.now 0 (length scripts.now) (tickets_for cookies (op_count scripts.now)) }
    requires quiet { IsQuietSeat seat }
    ensures run { IfOk result (λ run. HasRun (run_with W.WAY cookies) table.now scripts.now run.told.items run.seat) }
    ensures table { IfOk result (λ run. run.seat.table ≡ table.now) }
    ensures quiet { IfOk result (λ run. IsQuietSeat run.seat) }
    ensures stays { IfOk result (λ run. StaysIn (shape_of W.WAY table.now) run.seat.view) }
{
    prove!(scripts.ops() <= Scripts::MOST_OPS);
    let mut told = Vec::with_capacity(alloc, scripts.count() as usize)?;
    let workers = hire(alloc, table, seat, gate, scripts, cookies)?;
    let seat = gather(table, run_crew(rt, workers, scripts), &mut told);
    Ok(SeatRun { told, seat })
}

// The workers, after they have run their scripts.
fn run_crew<'a, R: Threads + Wait + Sync, W: WaitPart + Send + Sync, G: Gate + Sync>(
    rt: &R,
    mut workers: Vec<Worker<ScriptClient<'a, W, G>>>,
    scripts: &Scripts,
) -> Vec<Worker<ScriptClient<'a, W, G>>>
    requires crew { (cookies : Bool) × (table : TableAt) × IsCrew (client_for (run_with W.WAY cookies) table) scripts.now workers.items }
    ensures count { length result.items ≡ length workers.entry.items }
    ensures made { HaveMade HasCalled workers.entry.items scripts.now result.items }
{
    run_all(rt, &mut workers, scripts);
    workers
}
