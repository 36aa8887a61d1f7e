//! Scripts run beside each other, and snapshots taken beside them.
ghost use Rattle.std.specs.Prelude.{◌≡◌, ℕ, ◌+◌, ◌<◌, ◌≤◌, ◌*◌, false, IfOk, [], length};
ghost use Rattle.std.specs.Thread.{IsSync};
ghost use Rattle.prcu_model.specs.Fronts.{AreExplainable, StaysWithin};
ghost use Rattle.prcu_model.specs.Dictionary.{IsLegal};
ghost use Rattle.prcu_model.specs.Scripts.{entries_of, op_count};
ghost use Rattle.prcu_marks.specs.Marks.{updates_of, own_of};
ghost use Rattle.prcu_marks.specs.Callers.{FitsScripts};
ghost use Rattle.list_laws.specs.Counts.{times};
ghost use Rattle.core_state.specs.Views.{places_of};
ghost use Rattle.seat_table.specs.Seats.{IsQuietSeat, shape_of};
ghost use Rattle.seat_table.specs.Gains.{IsInformed, StaysIn};
ghost use Rattle.tree_run.specs.Runs.{run_with, seat_for, tickets_for, HasRun};
ghost use Rattle.tree_watch.specs.Snapshots.{AreSnapshots, WereLookedAt, HasLookedAt, OnlyLists, none_yet};

use crate::pauses::Pace;
use crate::snapshot::Snapshots;
use client_run::merge;
use key_interval::Keys;
use prcu_marks::Gate;
use prcu_model::{NoMemory, Scripts, ToldList, Update};
use seat_table::{CitrusTable, Seat, WaitPart};
use std::alloc::Global;
use std::sync::Wait;
use std::sync::atomic::{AtomicBool, Ordering};
use std::thread::{Threads, join};
use tree_run::{SeatRun, run_on, tickets_for};

// A put is told that nothing is free where twenty slots for each other place count. Twenty more are there for the place that takes
// snapshots, so that this is as without it.
const SLOTS_OF_ONE_PLACE: u32 = 20;

/// What a run leaves that was watched.
#[derive(Drop)]
pub struct WatchedRun<W: WaitPart> {
    /// What each script was told.
    pub told: Vec<ToldList>,
    /// All updates, in their order.
    pub history: Vec<Update>,
    /// What was seen of the tree meanwhile.
    pub snapshots: Snapshots,
    pub table: CitrusTable<W>,
    /// The seats of all clients and that of the snapshots, as one.
    pub seat: Seat<W>,
}

/// Runs each script by a client of its own on one new tree, in threads beside each other where they can be made. One more thread takes four
/// snapshots of the keys beside them, one after another; after each it passes the gate with the number of scripts as its caller's.
///
/// One legal history explains what the scripts were told, as where they share so many slots without that thread: the tree has twenty
/// slots more. It is the history of the updates among the marks that the joined seat has seen. The snapshots are those of its
/// dictionary, at fronts that never fall. The seat may go on: it is quiet, answers for all places, and is informed.
///
/// A snapshot counts where no update is made while it is taken, and is taken again where one is: so beside a tree that others update
/// for ever this may wait for ever, here as long as the scripts go on.
pub fn run_watched<R: Threads + Wait + Sync, W: WaitPart + Send + Sync, G: Gate + Sync>(
    rt: &R,
    alloc: Global,
    scripts: &Scripts,
    slots: u32,
    keys: Keys,
    gate: &G,
) -> Result<WatchedRun<W>, NoMemory>
    requires way { W.WAY ≤ 2 }
    requires scripts { (1 ≤ length scripts.now) × (length scripts.now ≤ 63) }
    requires slots { (1 ≤ slots) × (slots ≤ 2097132) }
    ensures run { IfOk result (λ run. HasRun (run_with W.WAY false) run.table scripts.now run.told.items run.seat) }
    ensures explained { IfOk result (λ run. AreExplainable scripts.now (entries_of run.told.items) run.history.items slots) }
    ensures legal { IfOk result (λ run. IsLegal run.history.items) }
    ensures within { IfOk result (λ run. StaysWithin run.history.items (slots + 20)) }
    ensures history { IfOk result (λ run. run.history.items ≡ updates_of run.seat.view.seen) }
    ensures snapshots { IfOk result (λ run. AreSnapshots run.history.items keys.low keys.high 0 run.snapshots) }
    ensures looked { IfOk result (λ run. WereLookedAt (length scripts.now) run.seat.view.looks run.snapshots) }
    ensures marks { IfOk result (λ run. FitsScripts scripts.now run.seat.view.seen) }
    ensures table { IfOk result (λ run. (run.table.slots ≡ slots + 20) × (run.table.places ≡ length scripts.now + 1)
        × (run.table.tickets ≡ 16 * op_count scripts.now)) }
    ensures room { IfOk result (λ run. run.table.room ≡ 16) }
    ensures seat { IfOk result (λ run. run.seat.table ≡ run.table) }
    ensures quiet { IfOk result (λ run. IsQuietSeat run.seat) }
    ensures informed { IfOk result (λ run. IsInformed run.seat.view) }
    ensures answers { IfOk result (λ run. (place : ℕ) → place < length scripts.now + 1 → 1 ≤ times place (places_of run.seat.view)) }
{
    let tickets = tickets_for(false, u64::from(scripts.ops()));
    let places = scripts.count() + 1;
    let (table, seat) = CitrusTable::new(alloc, slots + SLOTS_OF_ONE_PLACE, places, tickets)?;
    let list = seat.empty_list(alloc)?;
    let (workers, lister) = seat.split(&table, 1, 0, list);
    let snapshots = Snapshots::empty(alloc)?;
    let watched = run_beside(
        rt, alloc, &table, workers, lister, scripts, keys, snapshots, gate,
    )?;
    let history = merge(alloc, scripts, &watched.told)?;
    Ok(WatchedRun {
        told: watched.told,
        history,
        snapshots: watched.snapshots,
        table,
        seat: watched.seat,
    })
}

// What was told and seen on a table.
#[derive(Drop)]
struct Beside<W: WaitPart> {
    told: Vec<ToldList>,
    snapshots: Snapshots,
    seat: Seat<W>,
}

// Runs the scripts on the table, takes the snapshots beside them, and joins the two seats. Once the scripts have ended no snapshot waits
// for updates.
fn run_beside<R: Threads + Wait + Sync, W: WaitPart + Send + Sync, G: Gate + Sync>(
    rt: &R,
    alloc: Global,
    table: &CitrusTable<W>,
    workers: Seat<W>,
    lister: Seat<W>,
    scripts: &Scripts,
    keys: Keys,
    snapshots: Snapshots,
    gate: &G,
) -> Result<Beside<W>, NoMemory>
    requires some { 1 ≤ length scripts.now }
    requires workers { workers ≡ seat_for table.now 0 (length scripts.now) (tickets_for false (op_count scripts.now)) }
    requires lister { lister ≡ seat_for table.now (length scripts.now) 1 0 }
    requires quiet { IsQuietSeat workers × IsQuietSeat lister }
    ensures run { IfOk result (λ made. HasRun (run_with W.WAY false) table.now scripts.now made.told.items made.seat) }
    ensures table { IfOk result (λ made. made.seat.table ≡ table.now) }
    ensures quiet { IfOk result (λ made. IsQuietSeat made.seat) }
    ensures stays { IfOk result (λ made. StaysIn (shape_of W.WAY table.now) made.seat.view) }
    ensures idle { IfOk result (λ made. updates_of (own_of (length scripts.now) made.seat.view.seen) ≡ []) }
    ensures answers { IfOk result (λ made. (place : ℕ) → place < length scripts.now + 1 → 1 ≤ times place (places_of made.seat.view)) }
    ensures snapshots { IfOk result (λ made. AreSnapshots (updates_of made.seat.view.seen) keys.low keys.high 0 made.snapshots) }
    ensures looked { IfOk result (λ made. WereLookedAt (length scripts.now) made.seat.view.looks made.snapshots) }
{
    let ended = AtomicBool::new(false);
    let (ran, listed) = join(
        rt,
        || -> Result<SeatRun<W>, NoMemory>
            requires { IsSync R.row × (1 ≤ length scripts.now)
                × (workers ≡ seat_for table.now 0 (length scripts.now) (tickets_for false (op_count scripts.now))) × IsQuietSeat workers }
            ensures run { IfOk result (λ run. HasRun (run_with W.WAY false) table.entry.now scripts.entry.now run.told.items run.seat) }
            ensures table { IfOk result (λ run. run.seat.table ≡ table.entry.now) }
            ensures quiet { IfOk result (λ run. IsQuietSeat run.seat) }
        {
            let run = run_on(rt, alloc, table, workers, scripts, false, gate);
            ended.store(true, Ordering::SeqCst);
            run
        },
        || -> (Seat<W>, Snapshots)
            requires { (lister ≡ seat_for table.now (length scripts.now) 1 0) × IsQuietSeat lister }
            ensures seat { (result.0.table ≡ table.entry.now) × IsQuietSeat result.0 }
            ensures only { OnlyLists (seat_for table.entry.now (length scripts.entry.now) 1 0).view result.0.view }
            ensures snapshots { AreSnapshots (updates_of result.0.view.seen) keys.low keys.high 0 result.1 }
            ensures looked { HasLookedAt (seat_for table.entry.now (length scripts.entry.now) 1 0).view result.0.view result.1 }
        { take_all(rt, table, lister, scripts, keys, snapshots, &ended, gate) },
    );
    let run = ran?;
    let (lister, snapshots) = listed;
    Ok(Beside {
        told: run.told,
        snapshots,
        seat: run.seat.join(table, lister),
    })
}

// The snapshots, taken by this seat, which has seen nothing before. How many updates the scripts will make isn't known, but what is there
// to be seen was put: so an eighth of the puts shares the snapshots out over the first half of a run of puts. Where the keys are few and
// some puts find them there, dels and sets are mostly as many updates more.
fn take_all<R: Wait, W: WaitPart, G: Gate>(
    rt: &R,
    table: &CitrusTable<W>,
    mut seat: Seat<W>,
    scripts: &Scripts,
    keys: Keys,
    mut snapshots: Snapshots,
    ended: &AtomicBool,
    gate: &G,
) -> (Seat<W>, Snapshots)
    requires table { seat.table ≡ table.now }
    requires quiet { IsQuietSeat seat }
    requires fresh { seat.view.seen ≡ [] }
    ensures seat { (result.0.table ≡ table.now) × IsQuietSeat result.0 }
    ensures only { OnlyLists seat.view result.0.view }
    ensures snapshots { AreSnapshots (updates_of result.0.view.seen) keys.low keys.high 0 result.1 }
    ensures looked { HasLookedAt seat.view result.0.view result.1 }
{
    let pace = Pace {
        updates: (scripts.puts() / 8).max(1),
        ended,
    };
    let caller = scripts.count();
    snapshots.take(rt, table, &mut seat, keys, &pace, gate, caller);
    (seat, snapshots)
}
