//! Workers that have made their scripts' calls: their seats as one, and what each was told.
ghost use Rattle.std.specs.Prelude.{◌≡◌, ◌+◌, ◌≤◌, ◌++◌, ◌∷◌, length, map, vec_len, vec_capacity};
ghost use Rattle.seat_table.specs.Seats.{IsQuietSeat, shape_of};
ghost use Rattle.seat_table.specs.Gains.{IsInformed, StaysIn};
ghost use Rattle.client_run.specs.Crews.{Work, AreDone, HasDismissed};
ghost use Rattle.tree_run.specs.Runs.{ScriptClientAt, IsDone, StandsFor};

use crate::client::ScriptClient;
use client_run::Worker;
use prcu_marks::Gate;
use prcu_model::ToldList;
use seat_table::{CitrusTable, Seat, WaitPart, steps};

/// The workers' seats as one. What each worker was told goes to the end of a list that has room for it. It takes no memory. At last the
/// seat looks at the clock, which also tells it that its marks stay within the table.
pub(crate) fn gather<W: WaitPart, G: Gate>(
    table: &CitrusTable<W>,
    workers: Vec<Worker<ScriptClient<'_, W, G>>>,
    told: &mut Vec<ToldList>,
) -> Seat<W>
    requires done { AreDone (IsDone table.now) workers.items }
    requires some { 1 ≤ vec_len workers }
    requires room { vec_len told.old + vec_len workers ≤ vec_capacity told.old }
    ensures joined { StandsFor (map (λ worker. worker.client) workers.entry.items) result }
    ensures table { result.table ≡ table.now }
    ensures quiet { IsQuietSeat result }
    ensures informed { IsInformed result.view }
    ensures stays { StaysIn (shape_of W.WAY table.now) result.view }
    ensures told { told.new.items ≡ told.old.items ++ map (λ worker. worker.told) workers.entry.items }
{
    let mut rest = workers;
    let mut seat = dismiss_first(&mut rest, told);
    while !rest.is_empty() {
        seat = seat.join(table, dismiss_first(&mut rest, told));
    }
    steps::load_clock(table, &mut seat);
    seat
}

// The first worker's seat, and behind the list what it was told.
fn dismiss_first<W: WaitPart, G: Gate>(
    workers: &mut Vec<Worker<ScriptClient<'_, W, G>>>,
    told: &mut Vec<ToldList>,
) -> Seat<W>
    requires some { 1 ≤ vec_len workers.old }
    requires room { vec_len told.old + 1 ≤ vec_capacity told.old }
    ensures seat { HasDismissed (λ client. client.tree.seat) workers.old.items workers.new.items told.old.items told.new.items result }
    ensures table { (worker : Work ScriptClientAt) → workers.old.items ≡ worker ∷ workers.new.items
        → result.table ≡ worker.client.tree.table }
    ensures quiet { IsQuietSeat result }
    ensures works { 1 ≤ result.view.allowance.places }
    ensures lengths { (vec_len workers.old ≡ vec_len workers.new + 1) × (vec_len told.new ≡ vec_len told.old + 1) }
    ensures room { vec_capacity told.old ≤ vec_capacity told.new }
{
    let (client, list) = workers.remove(0).into_parts();
    told.push(list).unwrap();
    let seat = client.into_seat();
    prove!(seat.unused() < u32::MAX);
    seat
}
