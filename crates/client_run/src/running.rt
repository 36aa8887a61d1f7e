//! Scripts run beside each other.
ghost use Rattle.std.specs.Prelude.{◌≡◌, ℕ, ◌+◌, ◌<◌, ◌≤◌, [], length, slice_index_or, slice_get, Some};
ghost use Rattle.prcu_marks.specs.Callers.{IsChain};
ghost use Rattle.client_run.specs.Crews.{IsReadyFor, AreReadyFor, HaveMade};

use crate::worker::Worker;
use prcu_marks::Client;
use prcu_model::Scripts;
use std::sync::Wait;
use std::thread;
use std::thread::Threads;

/// Runs each script at the worker of its number, each in a thread of its own where one can be made, and else in that of
/// the caller. A worker makes its script's operations once each, in order. No memory is taken.
pub fn run_all<R: Threads + Wait + Sync, C: Client + Send>(
    rt: &R,
    workers: &mut [Worker<C>],
    scripts: &Scripts,
)
    requires workers { length workers.old ≡ length scripts.now }
    requires ready { AreReadyFor C.left workers.old scripts.now }
    ensures workers { length workers.new ≡ length workers.old }
    ensures made { HaveMade C.made workers.old scripts.now workers.new }
    ensures left { (i : ℕ) (before after : _) → slice_get workers.old i ≡ Some before → slice_get workers.new i ≡ Some after
        → C.left before.client ≤ C.left after.client + length (slice_index_or scripts.now i []) }
{
    let threads = workers.len().max(1);
    thread::for_each_mut(
        rt,
        workers,
        threads,
        &|i, worker| run_script(rt, worker, scripts, i),
    );
}

// Runs script `i`, counted from 0, at the worker.
fn run_script<R: Wait, C: Client>(rt: &R, worker: &mut Worker<C>, scripts: &Scripts, i: usize)
    requires inside { i < length scripts.now }
    requires ready { IsReadyFor C.left worker.old (slice_index_or scripts.now i []) }
    ensures chain { IsChain C.made worker.old.client (slice_index_or scripts.now i []) worker.new.told.entries worker.new.client }
    ensures left { C.left worker.old.client ≤ C.left worker.new.client + length (slice_index_or scripts.now i []) }
{
    prove!(scripts.count() <= Scripts::MOST_SCRIPTS);
    worker.run(rt, scripts.script(i as u32));
}
