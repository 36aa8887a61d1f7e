//! Whole runs of the top call whose text depends on who is where, or that are too long for a row of `tool_rows`.
//!
//! A line is what a user types: the program's name and the words, each after one blank. In what is read or written `;` stands for a line's
//! end.
use crate::same::assert_same;
use citrus_tool::{Status, tool};
use io_edge::{MemorySink, SteadySource};
use prcu_marks::{Gate, OpenGate};
use std::alloc::Global;
use std::process::Abort;
use std::sync::Wait;
use std::test::Fail;
use std::thread::Threads;

mod gates;
mod generated;
mod left;
mod meetings;

// The words of this line behind the program's name.
fn words_of(alloc: Global, line: &str) -> Result<Vec<String>, Fail> {
    let mut words = Vec::new(alloc);
    for word in line.split(' ').skip(1) {
        words.push(String::from_str(alloc, word)?)?;
    }
    Ok(words)
}

// The status of this line, and what it wrote, where the scripts pass this gate.
fn answer<R: Threads + Wait + Sync, G: Gate + Sync>(
    rt: &R,
    alloc: Global,
    line: &str,
    input: &[u8],
    gate: &G,
) -> Result<(Status, Vec<u8>), Fail> {
    let words = words_of(alloc, line)?;
    let mut source = SteadySource::new(Vec::from_slice(alloc, input)?, 1000);
    let mut sink = MemorySink::new(alloc, 100_000, 7, Vec::new(alloc))?;
    let outcome = tool(rt, alloc, &words, &mut source, &mut sink, gate);
    Ok((outcome.status, Vec::from_slice(alloc, sink.bytes())?))
}

// That the line has this status on the input and writes this text.
fn assert_written<R: Threads + Wait + Sync + Abort>(
    rt: &R,
    alloc: Global,
    line: &str,
    input: &[u8],
    status: Status,
    text: &[u8],
) -> Result<(), Fail> {
    let (got, written) = answer(rt, alloc, line, input, &OpenGate)?;
    assert_same(rt, (got, written.as_slice() == text), (status, true), line);
    Ok(())
}

// Each key is put and deleted.
fn ops_of(alloc: Global, keys: u64) -> Result<String, Fail> {
    let mut text = String::new(alloc);
    for key in 1..=keys.min(1000) {
        text.push_str(&format!(in alloc; "put {key} {key}\ndel {key}\n")?)?;
    }
    Ok(text)
}

// What is told of it.
fn told_of(alloc: Global, keys: u64) -> Result<String, Fail> {
    let mut text = String::new(alloc);
    for key in 1..=keys.min(1000) {
        let (put, del) = (2 * key - 1, 2 * key);
        text.push_str(&format!(in alloc; "put {key} {key} new {put}\ndel {key} gone {del}\n")?)?;
    }
    Ok(text)
}

// The updates of it by this caller.
fn updates_of(alloc: Global, keys: u64, caller: u32) -> Result<String, Fail> {
    let mut text = String::new(alloc);
    for key in 1..=keys.min(1000) {
        let (put, del) = (2 * key - 1, 2 * key);
        let lines = format!(in alloc;
            "{put} {caller} put {key} {key}\n{del} {caller} del {key}\n"
        )?;
        text.push_str(&lines)?;
    }
    Ok(text)
}

// Keys from 1 on, each put and deleted by the last of some scripts: their text, and their account. These are the lines of the scripts
// before it, and those of the account.
fn put_and_deleted(
    alloc: Global,
    keys: u64,
    caller: u32,
    text: &str,
    account: &str,
) -> Result<(String, String), Fail> {
    let ops = ops_of(alloc, keys)?;
    let text = format!(in alloc; "{text}script\n{ops}")?;
    let told = told_of(alloc, keys)?;
    let updates = updates_of(alloc, keys, caller)?;
    let count = 2 * keys.min(1000);
    let account = format!(in alloc;
        "{account}script {caller}\n{told}history {count}\n{updates}final 0\nend\n"
    )?;
    Ok((text, account))
}

#[test]
fn a_slot_is_used_again_and_again(rt: HostRuntime) -> Result<(), Fail> {
    let (text, account) = put_and_deleted(rt.alloc(), 1000, 0, "", "")?;
    assert_written(
        &rt,
        rt.alloc(),
        "citrus run --slots 1",
        text.as_bytes(),
        Status::Done,
        account.as_bytes(),
    )
}

// That a comment of so many bytes has this status and writes this text.
fn assert_of_length<R: Threads + Wait + Sync + Abort>(
    rt: &R,
    alloc: Global,
    length: usize,
    status: Status,
    text: &[u8],
) -> Result<(), Fail> {
    let comment = vec![in alloc; b'#'; length]?;
    assert_written(rt, alloc, "citrus run", &comment, status, text)
}

#[test]
fn an_input_as_long_as_the_limit_is_read(rt: HostRuntime) -> Result<(), Fail> {
    let text = b"history 0\nfinal 0\nend\n";
    assert_of_length(&rt, rt.alloc(), 16_777_216, Status::Done, text)
}

#[test]
fn an_input_is_too_long_by_one_byte_over_the_limit(rt: HostRuntime) -> Result<(), Fail> {
    assert_of_length(&rt, rt.alloc(), 16_777_217, Status::TooLong, b"")
}
