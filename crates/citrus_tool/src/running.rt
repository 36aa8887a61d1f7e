//! What each command makes of its input.
ghost use Rattle.std.specs.Prelude.{◌≡◌, ◌≤◌, ◌++◌, [], ℕ, List, IfOk, length, codes, decimal};
ghost use Rattle.prcu_model.specs.Fronts.{StaysWithin};
ghost use Rattle.account_text.specs.Account.{IsAccount, HaveReplies};
ghost use Rattle.prcu_model.specs.Scripts.{default_slots_of};
ghost use Rattle.citrus_tool.specs.Answers.{Writes, Leaves, Judges};
ghost use Rattle.citrus_tool.specs.Leavings.{RunsBy, IsDrawn, LeavesHash};
ghost use Rattle.command_words.specs.Commands.{AreSlots, IsInRange, limit_of, slots_of};

use crate::outcome::Ran;
use crate::tree_runs::{account_in_threads, summary_in_threads};
use crate::watching::watch_in_threads;
use account_text::{check, make_account};
use command_words::{Command, Mode, Status, parts_of, slots_for};
use core_state::shape::Waiter;
use key_interval::Keys;
use prcu_marks::Gate;
use prcu_model::{NoMemory, Scripts};
use script_text::{ScriptError, parse, parse_up_to, push_number};
use std::alloc::Global;
use std::sync::Wait;
use std::thread::Threads;
use tree_run::RunWith;
use workload::make;

// How many scripts may be watched: the lists are made at the last of 64 places.
pub(crate) const MOST_WATCHED: u32 = 63;

/// The text that answers an input, the status with which it is written whole, and what the run leaves.
#[derive(Drop)]
pub struct Answer {
    pub status: Status,
    pub text: Vec<u8>,
    pub ran: Ran,
}

/// Makes what the command writes for an input.
pub fn answer_to<R: Threads + Wait + Sync, G: Gate + Sync>(
    rt: &R,
    alloc: Global,
    command: Command,
    input: &[u8],
    gate: &G,
) -> Result<Answer, NoMemory>
    requires short { length input.now ≤ limit_of command }
    requires in_range { IsInRange command }
    ensures { IfOk result (λ answer. (writes : Writes command answer.status input.now answer.text.items)
        × Leaves command answer.status input.now answer.text.items writes answer.ran) }
{
    match command {
        Command::Run { slots, mode } => run(rt, alloc, slots, mode, input, gate),
        Command::Check { slots } => check_claim(alloc, slots, input),
        Command::Load {
            number,
            scripts,
            ops,
            waiter,
        } => load(rt, alloc, number, scripts, ops, waiter, gate),
        Command::Watch {
            low,
            high,
            slots,
            waiter,
        } => watch(rt, alloc, low, high, slots, waiter, input, gate),
        Command::Hash => hash(rt, alloc, input, gate),
    }
}

// Runs the scripts that the input holds on one search tree: their account, or the number of the first bad line.
fn run<R: Threads + Wait + Sync, G: Gate + Sync>(
    rt: &R,
    alloc: Global,
    slots: Option<u32>,
    mode: Mode,
    input: &[u8],
    gate: &G,
) -> Result<Answer, NoMemory>
    requires short { length input.now ≤ 16777216 }
    requires slots { AreSlots slots }
    ensures { IfOk result (λ answer. (writes : Writes (Command.Run slots mode) answer.status input.now answer.text.items)
        × Leaves (Command.Run slots mode) answer.status input.now answer.text.items writes answer.ran) }
{
    match parse(alloc, input) {
        Ok(scripts) => {
            let shared = slots_for(slots, &scripts);
            let (text, ran) = run_by(rt, alloc, &scripts, shared, mode, gate)?;
            Ok(Answer {
                status: Status::Done,
                text,
                ran,
            })
        }
        Err(error) => bad_line(alloc, error),
    }
}

// Runs the scripts as the mode says, on a tree with so many slots: their account, and what is left. Without scripts no tree is
// made.
fn run_by<R: Threads + Wait + Sync, G: Gate + Sync>(
    rt: &R,
    alloc: Global,
    scripts: &Scripts,
    slots: u32,
    mode: Mode,
    gate: &G,
) -> Result<(Vec<u8>, Ran), NoMemory>
    requires { (1 ≤ slots) × (slots ≤ 2097152) }
    ensures { IfOk result (λ made. (account : IsAccount scripts.now slots made.0.items) × StaysWithin account.history slots
        × RunsBy mode scripts.now slots account.lines account.history made.1) }
{
    if scripts.count() == 0 {
        return Ok((account_of_none(alloc, scripts, slots)?, Ran::Nothing));
    }
    match mode {
        Mode::Threads { waiter, cookies } => {
            let how = RunWith { waiter, cookies };
            account_in_threads(rt, alloc, scripts, slots, how, gate)
        }
        Mode::Schedule { number } => Ok((
            account_by_schedule(rt, alloc, scripts, slots, number)?,
            Ran::Nothing,
        )),
    }
}

// The account of no scripts.
fn account_of_none(alloc: Global, scripts: &Scripts, slots: u32) -> Result<Vec<u8>, NoMemory>
    requires { length scripts.now ≡ 0 }
    ensures { IfOk result (λ text. (account : IsAccount scripts.now slots text.items) × (account.history ≡ [])
        × HaveReplies [] account.lines) }
{
    make_account(alloc, scripts, &[], &[], slots)
}

// The account of the scripts, run in one thread step by step, as the number draws them.
fn account_by_schedule<R: Wait>(
    rt: &R,
    alloc: Global,
    scripts: &Scripts,
    slots: u32,
    number: u64,
) -> Result<Vec<u8>, NoMemory>
    requires some { 1 ≤ length scripts.now }
    requires slots { (1 ≤ slots) × (slots ≤ 2097152) }
    ensures { IfOk result (λ text. (account : IsAccount scripts.now slots text.items) × StaysWithin account.history slots
        × IsDrawn scripts.now slots number account.lines account.history) }
{
    let ran = core_machine::run_scripts(rt, alloc, scripts, slots, number)?;
    make_account(alloc, scripts, &ran.told, &ran.history, slots)
}

// Judges the account that the input claims of its scripts.
fn check_claim(alloc: Global, slots: Option<u32>, input: &[u8]) -> Result<Answer, NoMemory>
    requires short { length input.now ≤ 134217728 }
    requires slots { AreSlots slots }
    ensures written { IfOk result (λ answer. Writes (Command.Check slots) answer.status input.now answer.text.items) }
    ensures ran { IfOk result (λ answer. answer.ran ≡ Ran.Nothing) }
{
    let (before, account) = parts_of(input);
    match parse(alloc, before) {
        Ok(scripts) => judge(alloc, slots, &scripts, account),
        Err(error) => bad_line(alloc, error),
    }
}

// Whether the bytes are an account of the scripts.
fn judge(
    alloc: Global,
    slots: Option<u32>,
    scripts: &Scripts,
    account: &[u8],
) -> Result<Answer, NoMemory>
    requires { AreSlots slots }
    ensures judges { IfOk result (λ answer. Judges slots scripts.now account.now answer.status answer.text.items) }
    ensures ran { IfOk result (λ answer. answer.ran ≡ Ran.Nothing) }
{
    if check(alloc, scripts, slots_for(slots, scripts), account)? {
        return Ok(Answer {
            status: Status::Done,
            text: Vec::from_slice(alloc, b"yes\n")?,
            ran: Ran::Nothing,
        });
    }
    Ok(Answer {
        status: Status::Refused,
        text: Vec::from_slice(alloc, b"no\n")?,
        ran: Ran::Nothing,
    })
}

// Runs the scripts that the input holds beside each other on one hash dictionary: their account, or the number of the first
// bad line.
fn hash<R: Threads + Wait + Sync, G: Gate + Sync>(
    rt: &R,
    alloc: Global,
    input: &[u8],
    gate: &G,
) -> Result<Answer, NoMemory>
    requires short { length input.now ≤ 16777216 }
    ensures { IfOk result (λ answer. (writes : Writes Command.Hash answer.status input.now answer.text.items)
        × Leaves Command.Hash answer.status input.now answer.text.items writes answer.ran) }
{
    match parse(alloc, input) {
        Ok(scripts) => {
            let (text, ran) = hash_scripts(rt, alloc, &scripts, gate)?;
            Ok(Answer {
                status: Status::Done,
                text,
                ran,
            })
        }
        Err(error) => bad_line(alloc, error),
    }
}

// Runs the scripts beside each other on one hash dictionary: their account, and the dictionary with the seats of all as one.
// Without scripts no dictionary is made.
fn hash_scripts<R: Threads + Wait + Sync, G: Gate + Sync>(
    rt: &R,
    alloc: Global,
    scripts: &Scripts,
    gate: &G,
) -> Result<(Vec<u8>, Ran), NoMemory>
    ensures { IfOk result (λ made. (account : IsAccount scripts.now (default_slots_of scripts.now) made.0.items)
        × LeavesHash scripts.now account.lines account.history made.1) }
{
    if scripts.count() == 0 {
        return Ok((
            account_of_none(alloc, scripts, scripts.default_slots())?,
            Ran::Nothing,
        ));
    }
    let ended = hash_run::run_scripts(rt, alloc, scripts, gate)?;
    let text = make_account(
        alloc,
        scripts,
        &ended.told,
        &ended.history,
        scripts.default_slots(),
    )?;
    let ran = Ran::Hash {
        table: ended.table,
        seat: ended.seat,
    };
    Ok((text, ran))
}

// Runs the scripts that the input holds, at most 63, on one search tree, and lists the range beside them: their account with the lists,
// or the number of the first bad line.
fn watch<R: Threads + Wait + Sync, G: Gate + Sync>(
    rt: &R,
    alloc: Global,
    low: u64,
    high: u64,
    slots: Option<u32>,
    waiter: Waiter,
    input: &[u8],
    gate: &G,
) -> Result<Answer, NoMemory>
    requires short { length input.now ≤ 16777216 }
    requires in_range { IsInRange (Command.Watch low high slots waiter) }
    ensures { IfOk result (λ answer. (writes : Writes (Command.Watch low high slots waiter) answer.status input.now answer.text.items)
        × Leaves (Command.Watch low high slots waiter) answer.status input.now answer.text.items writes answer.ran) }
{
    let Some(keys) = Keys::new(low, high) else {
        unreachable!()
    };
    match parse_up_to(alloc, input, MOST_WATCHED) {
        Ok(scripts) => {
            let shared = slots_for(slots, &scripts);
            let (text, ran) = watch_in_threads(rt, alloc, &scripts, shared, waiter, keys, gate)?;
            Ok(Answer {
                status: Status::Done,
                text,
                ran,
            })
        }
        Err(error) => bad_line(alloc, error),
    }
}

// Runs a made workload on one search tree, each script in a thread of its own: its summary.
fn load<R: Threads + Wait + Sync, G: Gate + Sync>(
    rt: &R,
    alloc: Global,
    number: u64,
    scripts: u32,
    ops: u32,
    waiter: Waiter,
    gate: &G,
) -> Result<Answer, NoMemory>
    requires { IsInRange (Command.Load number scripts ops waiter) }
    ensures { IfOk result (λ answer. (input : List ℕ)
        → (writes : Writes (Command.Load number scripts ops waiter) answer.status input answer.text.items)
        × Leaves (Command.Load number scripts ops waiter) answer.status input answer.text.items writes answer.ran) }
{
    let made = make(alloc, number, scripts, ops)?;
    let (text, ran) = summary_in_threads(rt, alloc, &made, waiter, gate)?;
    Ok(Answer {
        status: Status::Done,
        text,
        ran,
    })
}

// The answer to scripts that couldn't be read: which line is the first bad one.
fn bad_line(alloc: Global, error: ScriptError) -> Result<Answer, NoMemory>
    ensures { IfOk result (λ answer. (answer.status ≡ Status.BadScript) × (answer.ran ≡ Ran.Nothing)
        × (number : ℕ) × (error ≡ ScriptError.Line number) × (answer.text.items ≡ codes "bad line " ++ decimal number ++ codes "\n")) }
{
    let ScriptError::Line { number } = error else {
        return Err(NoMemory);
    };
    let mut text = Vec::from_slice(alloc, b"bad line ")?;
    push_number(&mut text, u64::from(number))?;
    text.push(b'\n')?;
    Ok(Answer {
        status: Status::BadScript,
        text,
        ran: Ran::Nothing,
    })
}
