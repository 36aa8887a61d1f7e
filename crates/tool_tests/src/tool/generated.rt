//! Scripts that nobody chose, run and checked.
use super::{answer, assert_written};
use crate::same::assert_same;
use citrus_tool::Status;
use prcu_marks::OpenGate;
use std::alloc::Global;
use std::process::Abort;
use std::sync::Wait;
use std::test::Fail;
use std::thread::Threads;
use workload::drawing::next_state;

// That the account which the first line writes of these scripts is a true one by the second.
fn assert_checked_as_true<R: Threads + Wait + Sync + Abort>(
    rt: &R,
    alloc: Global,
    line: &str,
    check: &str,
    scripts: &[u8],
) -> Result<(), Fail> {
    let (status, account) = answer(rt, alloc, line, scripts, &OpenGate)?;
    assert_same(rt, status, Status::Done, line);
    let mut claim = Vec::from_slice(alloc, scripts)?;
    claim.extend_from_slice(b"account\n")?;
    claim.extend_from_slice(&account)?;
    assert_written(rt, alloc, check, &claim, Status::Done, b"yes\n")
}

// The line of this choice.
fn line_of(alloc: Global, choice: u64, key: u64, value: u64) -> Result<String, Fail> {
    Ok(match choice {
        0 | 1 => format!(in alloc; "put {key} {value}\n")?,
        2 => format!(in alloc; "get {key}\n")?,
        3 => format!(in alloc; "del {key}\n")?,
        4 => format!(in alloc; "set {key} {value}\n")?,
        _ => format!(in alloc; "script\n")?,
    })
}

// Scripts of 39 lines together, one of six of which begins the next.
fn short_scripts(alloc: Global, mut state: u64) -> Result<String, Fail> {
    let mut text = String::from_str(alloc, "script\n")?;
    state = next_state(state);
    for i in 1..40u64 {
        state = next_state(state);
        let line = line_of(alloc, (state >> 40) % 6, (state >> 33) % 5, i)?;
        text.push_str(&line)?;
    }
    Ok(text)
}

// 2 to 64 scripts of twelve lines each, by the number, which share a few keys, most of them of one class.
fn long_scripts(alloc: Global, number: u64) -> Result<String, Fail> {
    let mut text = String::new(alloc);
    let mut state = number;
    for _ in 0..2 + number % 63 {
        text.push_str("script\n")?;
        for i in 0..12u64 {
            state = next_state(state);
            let key = (state >> 33) % 4 * ((state >> 40) % 2 * 63 + 1);
            let line = line_of(alloc, (state >> 50) % 5, key, i)?;
            text.push_str(&line)?;
        }
    }
    Ok(text)
}

// That the accounts of fifteen short scripts by a line with this option are true ones, where the first follows from this number.
fn assert_short_ones<R: Threads + Wait + Sync + Abort>(
    rt: &R,
    alloc: Global,
    option: &str,
    first: u32,
) -> Result<(), Fail> {
    let line = format!(in alloc; "citrus run {option}")?;
    for number in 0..15u64 {
        let text = short_scripts(alloc, 4 * number + u64::from(first))?;
        assert_checked_as_true(rt, alloc, &line, "citrus check", text.as_bytes())?;
    }
    Ok(())
}

#[test]
fn what_is_written_is_checked_as_true(rt: HostRuntime) -> Result<(), Fail> {
    let options = "--waiter=eer --waiter=d --waiter=deer --schedule=9";
    for (first, option) in (0..4).zip(options.split(' ')) {
        assert_short_ones(&rt, rt.alloc(), option, first)?;
    }
    Ok(())
}

// That the accounts of every third of a hundred long texts on the hash dictionary are true ones, from the text of this number on.
fn assert_long_ones<R: Threads + Wait + Sync + Abort>(
    rt: &R,
    alloc: Global,
    first: u32,
) -> Result<(), Fail> {
    for number in 0..34u64 {
        let text = long_scripts(alloc, 3 * number + u64::from(first))?;
        assert_checked_as_true(rt, alloc, "citrus hash", "citrus check", text.as_bytes())?;
    }
    Ok(())
}

#[test]
fn what_the_hash_dictionary_writes_of_a_third_of_the_texts_is_checked_as_true(
    rt: HostRuntime,
) -> Result<(), Fail> {
    assert_long_ones(&rt, rt.alloc(), 0)
}

#[test]
fn what_the_hash_dictionary_writes_of_the_next_third_is_checked_as_true(
    rt: HostRuntime,
) -> Result<(), Fail> {
    assert_long_ones(&rt, rt.alloc(), 1)
}

#[test]
fn what_the_hash_dictionary_writes_of_the_last_third_is_checked_as_true(
    rt: HostRuntime,
) -> Result<(), Fail> {
    assert_long_ones(&rt, rt.alloc(), 2)
}

// 64 scripts with a put each.
fn puts_of_64(alloc: Global) -> Result<String, Fail> {
    let mut text = String::new(alloc);
    for key in 0..64u64 {
        text.push_str(&format!(in alloc; "script\nput {key} {key}\n")?)?;
    }
    Ok(text)
}

// Each script but the first has twenty slots more: all share one slot and those.
#[test]
fn what_scripts_with_few_slots_write_is_checked_as_true(rt: HostRuntime) -> Result<(), Fail> {
    let text = puts_of_64(rt.alloc())?;
    assert_checked_as_true(
        &rt,
        rt.alloc(),
        "citrus run --slots=1",
        "citrus check --slots 1",
        text.as_bytes(),
    )
}
