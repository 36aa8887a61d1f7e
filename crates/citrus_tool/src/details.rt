//! What is told of an input beside the status.
ghost use Rattle.std.specs.Prelude.{◌≡◌, ◌<◌, ◌≤◌, ◌⊎◌, IfOk, IfSome, length, take, slice_get};
ghost use Rattle.prcu_model.specs.Scripts.{entries_of};
ghost use Rattle.citrus_tool.specs.Details.{IsDetail, IsFirstFault, IsFaultIn, IsWrongLine, DiffersIn, IsUnexplained, IsUnexplainedIn, ClaimsUnexplained, place_line, ended_in};
ghost use Rattle.command_words.specs.Commands.{AreSlots, IsInRange, limit_of};

use crate::running::MOST_WATCHED;
use account_text::{
    Claimed, Place, first_wrong_line, is_explained, is_legal, make_account, read_account,
};
use command_words::{Command, Detail, LineFault, Status, fault_of, line_of, parts_of, slots_for};
use prcu_model::{NoMemory, Scripts, ToldList, Update};
use script_text::{ScriptError, parse, parse_up_to};
use std::alloc::Global;

/// What more is known of the input, with which the command ended so: nothing where the memory to find it out isn't there.
pub(crate) fn detail_of(alloc: Global, command: Command, status: Status, input: &[u8]) -> Detail
    requires short { length input.now ≤ limit_of command }
    requires in_range { IsInRange command }
    ensures { IsDetail command status input.now result }
{
    match status {
        Status::BadScript => match fault_in(alloc, command, input) {
            Some(fault) => Detail::BadLine { fault },
            None => Detail::Nothing,
        },
        Status::Refused => match unexplained_in(alloc, command, input) {
            Some(line) => Detail::Unexplained { line },
            None => Detail::Nothing,
        },
        _ => Detail::Nothing,
    }
}

// What is wrong with the first bad line of the scripts that the command reads.
fn fault_in(alloc: Global, command: Command, input: &[u8]) -> Option<LineFault>
    requires short { length input.now ≤ limit_of command }
    ensures { IfSome result (IsFaultIn command input.now) }
{
    match command {
        Command::Run { .. } | Command::Hash => first_fault(alloc, input, Scripts::MOST_SCRIPTS),
        Command::Watch { .. } => first_fault(alloc, input, MOST_WATCHED),
        Command::Check { .. } => {
            let (before, _) = parts_of(input);
            first_fault(alloc, before, Scripts::MOST_SCRIPTS)
        }
        Command::Load { .. } => None,
    }
}

// What is wrong with the first bad line of the text, which may have so many scripts.
fn first_fault(alloc: Global, text: &[u8], most: u32) -> Option<LineFault>
    requires short { length text.now ≤ 134217728 }
    requires most { most ≤ 64 }
    ensures { IfSome result (IsFirstFault most text.now) }
{
    let Err(ScriptError::Line { number }) = parse_up_to(alloc, text, most) else {
        return None;
    };
    Some(fault_of(line_of(text, number)))
}

// The first line of the input that nothing explains, where the command judges accounts.
fn unexplained_in(alloc: Global, command: Command, input: &[u8]) -> Option<u64>
    requires short { length input.now ≤ limit_of command }
    requires in_range { IsInRange command }
    ensures { IfSome result (IsUnexplainedIn command input.now) }
{
    match command {
        Command::Check { slots } => unexplained_after(alloc, slots, input),
        _ => None,
    }
}

// The first line of the input that nothing explains, where it claims an account of its scripts.
fn unexplained_after(alloc: Global, slots: Option<u32>, input: &[u8]) -> Option<u64>
    requires short { length input.now ≤ 134217728 }
    requires slots { AreSlots slots }
    ensures { IfSome result (ClaimsUnexplained slots input.now) }
{
    let (before, account) = parts_of(input);
    let Ok(scripts) = parse(alloc, before) else {
        return None;
    };
    let shared = slots_for(slots, &scripts);
    let Ok(Some(line)) = unexplained_of(alloc, &scripts, shared, account) else {
        return None;
    };
    Some(lines_ended(&input[..input.len() - account.len()]) + line)
}

// The first line of the claimed account that nothing explains. `None` where what it claims can't be read, or its history has updates of
// which no line tells.
fn unexplained_of(
    alloc: Global,
    scripts: &Scripts,
    slots: u32,
    text: &[u8],
) -> Result<Option<u64>, NoMemory>
    requires short { length text.now ≤ 134217728 }
    ensures unexplained { IfOk result (λ line. IfSome line (IsUnexplained scripts.now slots text.now)) }
    ensures limit { IfOk result (λ line. IfSome line (λ line. line ≤ 134217729)) }
{
    let Some(Claimed { told, history }) = read_account(alloc, scripts, text)? else {
        return Ok(None);
    };
    unexplained_line(alloc, scripts, &told, &history, slots, text)
}

// The first line that the history doesn't explain, or else the first in which the text isn't the account with these replies and this history.
fn unexplained_line(
    alloc: Global,
    scripts: &Scripts,
    told: &[ToldList],
    history: &[Update],
    slots: u32,
    text: &[u8],
) -> Result<Option<u64>, NoMemory>
    requires short { length text.now ≤ 134217728 }
    ensures unexplained { IfOk result (λ line. IfSome line (λ line. IsWrongLine scripts.now (entries_of told.now) history.now slots line
        ⊎ DiffersIn scripts.now (entries_of told.now) history.now slots text.now line)) }
    ensures limit { IfOk result (λ line. IfSome line (λ line. line ≤ 134217729)) }
{
    if let Some(place) = first_wrong_line(alloc, scripts, told, history, slots)? {
        return Ok(Some(line_of_place(scripts, place)));
    }
    if !is_legal(alloc, history)? {
        return Ok(None);
    }
    if !is_explained(alloc, scripts, told, history, slots)? {
        return Ok(None);
    }
    let right = make_account(alloc, scripts, told, history, slots)?;
    let same = common_front(text, &right);
    Ok(Some(lines_ended(&text[..same]) + 1))
}

// The number of the line in an account, counted from 1: each script has a line of its own before its operations.
fn line_of_place(scripts: &Scripts, place: Place) -> u64
    requires script { place.script < length scripts.now }
    requires line { place.line < 1048576 }
    ensures is { result ≡ place_line scripts.now place }
    ensures limit { result ≤ 134217729 }
{
    prove!(scripts.count() <= Scripts::MOST_SCRIPTS);
    let mut line = place.line + u64::from(place.script) + 2;
    for i in 0..place.script {
        line += scripts.script(i).len() as u64;
    }
    line
}

// How many bytes both texts begin with.
fn common_front(one: &[u8], other: &[u8]) -> usize
    ensures within { result ≤ length one.now }
    ensures same { take result one.now ≡ take result other.now }
    ensures ends { result < length one.now → result < length other.now → slice_get one.now result ≡ slice_get other.now result → ⊥ }
{
    let mut count = 0;
    while count < one.len() && count < other.len() && one[count] == other[count] {
        count += 1;
    }
    count
}

// How many lines the text ends.
fn lines_ended(text: &[u8]) -> u64
    ensures count { result ≡ ended_in text.now }
    ensures within { result ≤ length text.now }
{
    let mut count = 0;
    for byte in text {
        if *byte == b'\n' {
            count += 1;
        }
    }
    count
}
