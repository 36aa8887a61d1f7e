//! Scripts that run beside each other on one search tree, and lists of a key range beside them: what is written of both, and the tree.
ghost use Rattle.std.specs.Prelude.{◌≡◌, ◌+◌, ◌≤◌, List, [], IfOk, length};
ghost use Rattle.prcu_model.specs.declared.operation.Told.{Told};
ghost use Rattle.prcu_model.specs.Scripts.{Roomy, entries_of};
ghost use Rattle.prcu_model.specs.Fronts.{StaysWithin};
ghost use Rattle.account_text.specs.Account.{HaveReplies};
ghost use Rattle.tree_watch.specs.Snapshots.{IsWatchText};
ghost use Rattle.seat_table.specs.Seats.{way_of};
ghost use Rattle.citrus_tool.specs.Leavings.{IsWatchedTree, LeavesWatched};

use crate::outcome::Ran;
use crate::tree_runs::Written;
use core_state::shape::Waiter;
use key_interval::Keys;
use prcu_marks::Gate;
use prcu_model::{NoMemory, Scripts};
use seat_table::WaitPart;
use std::alloc::Global;
use std::sync::Wait;
use std::thread::Threads;
use tree_watch::{Snapshots, WatchedRun, make_watch_text, run_watched};

/// Runs the scripts on a tree of this waiter, as where they share so many slots, and lists the keys beside them: the watch text, and the
/// tree. Without scripts no tree is made, and the lists are those of an empty dictionary.
pub(crate) fn watch_in_threads<R: Threads + Wait + Sync, G: Gate + Sync>(
    rt: &R,
    alloc: Global,
    scripts: &Scripts,
    slots: u32,
    waiter: Waiter,
    keys: Keys,
    gate: &G,
) -> Result<(Vec<u8>, Ran), NoMemory>
    requires few { length scripts.now ≤ 63 }
    requires slots { (1 ≤ slots) × (slots ≤ 2097132) }
    ensures { IfOk result (λ made. (watch : IsWatchText scripts.now slots keys.low keys.high made.0.items)
        × StaysWithin watch.account.history (slots + 20) × LeavesWatched waiter scripts.now slots watch.account.lines watch.account.history watch.snapshots made.1) }
{
    if scripts.count() == 0 {
        return Ok((watch_of_none(alloc, scripts, slots, keys)?, Ran::Nothing));
    }
    match waiter {
        Waiter::Eer => {
            let Written { text, table, seat } = watch_on(rt, alloc, scripts, slots, keys, gate)?;
            Ok((text, Ran::Eer { table, seat }))
        }
        Waiter::Domain => {
            let Written { text, table, seat } = watch_on(rt, alloc, scripts, slots, keys, gate)?;
            Ok((text, Ran::Domain { table, seat }))
        }
        Waiter::Deer => {
            let Written { text, table, seat } = watch_on(rt, alloc, scripts, slots, keys, gate)?;
            Ok((text, Ran::Deer { table, seat }))
        }
    }
}

// The watch text of no scripts.
fn watch_of_none(
    alloc: Global,
    scripts: &Scripts,
    slots: u32,
    keys: Keys,
) -> Result<Vec<u8>, NoMemory>
    requires { length scripts.now ≡ 0 }
    ensures { IfOk result (λ text. (watch : IsWatchText scripts.now slots keys.low keys.high text.items)
        × (watch.account.history ≡ []) × HaveReplies [] watch.account.lines) }
{
    let none = Snapshots::empty(alloc)?;
    make_watch_text(alloc, scripts, &[], &[], slots, keys, &none)
}

// The same on a tree of the waiter W.
fn watch_on<R: Threads + Wait + Sync, W: WaitPart + Send + Sync, G: Gate + Sync>(
    rt: &R,
    alloc: Global,
    scripts: &Scripts,
    slots: u32,
    keys: Keys,
    gate: &G,
) -> Result<Written<W>, NoMemory>
    requires way { W.WAY ≤ 2 }
    requires scripts { (1 ≤ length scripts.now) × (length scripts.now ≤ 63) }
    requires slots { (1 ≤ slots) × (slots ≤ 2097132) }
    ensures { IfOk result (λ made. (watch : IsWatchText scripts.now slots keys.low keys.high made.text.items)
        × StaysWithin watch.account.history (slots + 20)
        × ((told : List (Roomy Told)) × IsWatchedTree (way_of W.WAY) scripts.now slots told watch.account.history watch.snapshots made.table made.seat
        × HaveReplies (entries_of told) watch.account.lines)) }
{
    let ran = run_watched(rt, alloc, scripts, slots, keys, gate)?;
    let text = make_watch_text(
        alloc,
        scripts,
        &ran.told,
        &ran.history,
        slots,
        keys,
        &ran.snapshots,
    )?;
    Ok(written_of(text, ran))
}

// The text, and what a run left.
fn written_of<W: WaitPart>(text: Vec<u8>, ran: WatchedRun<W>) -> Written<W>
    ensures { result ≡ record { text = text; table = ran.table; seat = ran.seat } }
{
    Written {
        text,
        table: ran.table,
        seat: ran.seat,
    }
}
