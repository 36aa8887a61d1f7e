//! Scripts that run beside each other on one search tree: what is written of them, and the tree.
ghost use Rattle.std.specs.Prelude.{◌≡◌, ◌≤◌, false, List, IfOk, length};
ghost use Rattle.prcu_model.specs.Fronts.{StaysWithin};
ghost use Rattle.prcu_model.specs.Scripts.{default_slots_of, Roomy, entries_of};
ghost use Rattle.prcu_model.specs.declared.operation.Told.{Told};
ghost use Rattle.prcu_model.specs.declared.operation.Update.{Update};
ghost use Rattle.account_text.specs.Account.{IsAccount, HaveReplies};
ghost use Rattle.workload.specs.Draws.{IsMade};
ghost use Rattle.workload.specs.Summaries.{plain_summary, summary_text};
ghost use Rattle.tree_run.specs.Runs.{run_with};
ghost use Rattle.citrus_tool.specs.Leavings.{IsTreeLeftOf, RunsInThreads, IsSummedUp, LeavesMade};

use crate::outcome::Ran;
use account_text::make_account;
use command_words::default_slots;
use core_state::shape::Waiter;
use prcu_marks::Gate;
use prcu_model::{NoMemory, Scripts};
use seat_table::{CitrusTable, Seat, WaitPart};
use std::alloc::Global;
use std::sync::Wait;
use std::thread::Threads;
use tree_run::{RunWith, run_scripts};
use waiters::{Deer, Domain, Eer};
use workload::{summary_of, write_summary};

/// What is written of a run, and the tree with all seats as one.
#[derive(Drop)]
pub(crate) struct Written<W: WaitPart> {
    pub text: Vec<u8>,
    pub table: CitrusTable<W>,
    pub seat: Seat<W>,
}

/// Runs the scripts on a tree of the chosen waiter with so many slots, by clients that hold cookies or by clients that hold none: their
/// account, and the tree.
pub(crate) fn account_in_threads<R: Threads + Wait + Sync, G: Gate + Sync>(
    rt: &R,
    alloc: Global,
    scripts: &Scripts,
    slots: u32,
    how: RunWith,
    gate: &G,
) -> Result<(Vec<u8>, Ran), NoMemory>
    requires some { 1 ≤ length scripts.now }
    requires slots { (1 ≤ slots) × (slots ≤ 2097152) }
    ensures { IfOk result (λ made. (account : IsAccount scripts.now slots made.0.items) × StaysWithin account.history slots
        × RunsInThreads how scripts.now slots account.lines account.history made.1) }
{
    match how.waiter {
        Waiter::Eer => {
            let Written { text, table, seat } = account_on(
                rt,
                alloc,
                scripts,
                slots,
                how.cookies,
                gate,
            )?;
            Ok((text, Ran::Eer { table, seat }))
        }
        Waiter::Domain => {
            let Written { text, table, seat } = account_on(
                rt,
                alloc,
                scripts,
                slots,
                how.cookies,
                gate,
            )?;
            Ok((text, Ran::Domain { table, seat }))
        }
        Waiter::Deer => {
            let Written { text, table, seat } = account_on(
                rt,
                alloc,
                scripts,
                slots,
                how.cookies,
                gate,
            )?;
            Ok((text, Ran::Deer { table, seat }))
        }
    }
}

// The same on a tree of the waiter W.
fn account_on<R: Threads + Wait + Sync, W: WaitPart + Send + Sync, G: Gate + Sync>(
    rt: &R,
    alloc: Global,
    scripts: &Scripts,
    slots: u32,
    cookies: bool,
    gate: &G,
) -> Result<Written<W>, NoMemory>
    requires way { W.WAY ≤ 2 }
    requires some { 1 ≤ length scripts.now }
    requires slots { (1 ≤ slots) × (slots ≤ 2097152) }
    ensures { IfOk result (λ made. (account : IsAccount scripts.now slots made.text.items) × StaysWithin account.history slots
        × ((told : List (Roomy Told)) × IsTreeLeftOf (run_with W.WAY cookies) scripts.now slots (length scripts.now) told account.history made.table made.seat
        × HaveReplies (entries_of told) account.lines)) }
{
    let ran = run_scripts(rt, alloc, scripts, slots, cookies, gate)?;
    let text = make_account(alloc, scripts, &ran.told, &ran.history, slots)?;
    Ok(Written {
        text,
        table: ran.table,
        seat: ran.seat,
    })
}

/// Runs a made workload on a tree of this waiter with the default slots: its summary, and the tree.
pub(crate) fn summary_in_threads<R: Threads + Wait + Sync, G: Gate + Sync>(
    rt: &R,
    alloc: Global,
    scripts: &Scripts,
    waiter: Waiter,
    gate: &G,
) -> Result<(Vec<u8>, Ran), NoMemory>
    requires made { IsMade scripts.now }
    requires some { 1 ≤ length scripts.now }
    ensures text { IfOk result (λ made. made.0.items ≡ summary_text (plain_summary scripts.now)) }
    ensures left { IfOk result (λ made. LeavesMade waiter scripts.now made.1) }
{
    match waiter {
        Waiter::Eer => {
            let Written { text, table, seat } = summary_on(rt, alloc, scripts, gate)?;
            Ok((text, Ran::Eer { table, seat }))
        }
        Waiter::Domain => {
            let Written { text, table, seat } = summary_on(rt, alloc, scripts, gate)?;
            Ok((text, Ran::Domain { table, seat }))
        }
        Waiter::Deer => {
            let Written { text, table, seat } = summary_on(rt, alloc, scripts, gate)?;
            Ok((text, Ran::Deer { table, seat }))
        }
    }
}

// The same on a tree of the waiter W.
fn summary_on<R: Threads + Wait + Sync, W: WaitPart + Send + Sync, G: Gate + Sync>(
    rt: &R,
    alloc: Global,
    scripts: &Scripts,
    gate: &G,
) -> Result<Written<W>, NoMemory>
    requires way { W.WAY ≤ 2 }
    requires made { IsMade scripts.now }
    requires some { 1 ≤ length scripts.now }
    ensures text { IfOk result (λ made. made.text.items ≡ summary_text (plain_summary scripts.now)) }
    ensures left { IfOk result (λ made. (told : List (Roomy Told)) × (history : List Update)
        × IsTreeLeftOf (run_with W.WAY false) scripts.now (default_slots_of scripts.now) (length scripts.now) told history made.table made.seat
        × IsSummedUp scripts.now told history) }
{
    let ran = run_scripts(rt, alloc, scripts, default_slots(scripts), false, gate)?;
    let summary = summary_of(alloc, scripts, &ran.told, &ran.history)?;
    Ok(Written {
        text: write_summary(alloc, &summary)?,
        table: ran.table,
        seat: ran.seat,
    })
}
