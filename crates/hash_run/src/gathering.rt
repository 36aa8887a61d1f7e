//! Workers that have made their scripts' calls: their seats as one, and what each was told.
ghost use Rattle.std.specs.Prelude.{◌≡◌, ◌+◌, ◌≤◌, ◌∷◌, ◌++◌, length, map, vec_len, vec_capacity};
ghost use Rattle.class_hash.specs.Replies.{ClientAt};
ghost use Rattle.client_run.specs.Crews.{Work, AreDone, HasDismissed};
ghost use Rattle.hash_core.specs.Steps.{IsQuiet};
ghost use Rattle.hash_run.specs.Crews.{IsDone, StandsFor};

use class_hash::{HashClient, HashSeat, HashTable};
use client_run::Worker;
use prcu_marks::Gate;
use prcu_model::ToldList;

/// The workers' seats as one. What each worker was told goes to the end of a list that has room for it. It takes no memory.
pub(crate) fn gather<G: Gate>(
    table: &HashTable,
    workers: Vec<Worker<HashClient<'_, G>>>,
    told: &mut Vec<ToldList>,
) -> HashSeat
    requires done { AreDone (IsDone table.now) workers.items }
    requires some { 1 ≤ vec_len workers }
    requires room { vec_len told.old + vec_len workers ≤ vec_capacity told.old }
    ensures table { result.table ≡ table.now.id }
    ensures joined { StandsFor table.now (map (λ worker. worker.client) workers.entry.items) result.view }
    ensures told { told.new.items ≡ told.old.items ++ map (λ worker. worker.told) workers.entry.items }
{
    let mut rest = workers;
    let mut seat = dismiss_first(&mut rest, told);
    while !rest.is_empty() {
        seat = seat.join(table, dismiss_first(&mut rest, told));
    }
    seat
}

// The first worker's seat, and behind the list what it was told.
fn dismiss_first<G: Gate>(
    workers: &mut Vec<Worker<HashClient<'_, G>>>,
    told: &mut Vec<ToldList>,
) -> HashSeat
    requires some { 1 ≤ vec_len workers.old }
    requires room { vec_len told.old + 1 ≤ vec_capacity told.old }
    ensures seat { HasDismissed (λ client. client.view) workers.old.items workers.new.items told.old.items told.new.items result.view }
    ensures table { (worker : Work ClientAt) → workers.old.items ≡ worker ∷ workers.new.items → result.table ≡ worker.client.table.id }
    ensures quiet { IsQuiet result.view }
    ensures lengths { (vec_len workers.old ≡ vec_len workers.new + 1) × (vec_len told.new ≡ vec_len told.old + 1) }
    ensures room { vec_capacity told.old ≤ vec_capacity told.new }
{
    let (client, list) = workers.remove(0).into_parts();
    told.push(list).unwrap();
    client.into_seat()
}
