//! The program's work on rows of standard input: of each what is written, what is told, the status, and how much of the input is left.
//!
//! A row is `LINE|INPUT|PIECE|FAULT|ROOM`. The line is what a user types, each word after one blank. In the input `;` stands for a line's
//! end, `~` for a carriage return, `^` for the byte 0 and `@` for a byte that no text has. The source gives so many bytes a read, and fails
//! at the read with this number, counted from 0; the sink has room for so many bytes. What a row leaves out is 1000, no read and 100000.
#![tactic(auto)]

use citrus_tool::{Status, run_words};
use io_edge::{MemorySink, MemorySource, StdSink, StdSource, read_all, write_all};
use prcu_marks::OpenGate;
use prcu_model::NoMemory;
use std::alloc::Global;
use std::process::ExitCode;
use std::str;
use std::sync::Wait;
use std::thread::Threads;

fn main(rt: HostRuntime) -> ExitCode {
    let Ok(input) = read_all(rt.alloc(), &mut StdSource::new(rt.stdin()), 1 << 24) else {
        return ExitCode::from(1);
    };
    let Ok(rows) = str::from_utf8(&input) else {
        return ExitCode::from(2);
    };
    let mut sink = StdSink::new(rt.stdout());
    for row in rows.lines() {
        let Ok(text) = text_of(&rt, rt.alloc(), row) else {
            return ExitCode::from(3);
        };
        if write_all(&mut sink, &text).is_err() {
            return ExitCode::from(4);
        }
    }
    ExitCode::SUCCESS
}

// What comes of a row: its line after `>`, what was written, what was told after `!`, and the status after `=`.
fn text_of<R: Threads + Wait + Sync>(
    rt: &R,
    alloc: Global,
    row: &str,
) -> Result<Vec<u8>, NoMemory> {
    let line = part_of(row, 0);
    let words = words_of(alloc, line)?;
    let mut source = source_of(alloc, row)?;
    let mut sink = sink_with(alloc, number_at(row, 4, 100_000))?;
    let mut errors = sink_with(alloc, 200)?;
    let status = run_words(
        rt,
        alloc,
        &words,
        &mut source,
        &mut sink,
        &mut errors,
        &OpenGate,
    );
    let mut text = output_of(alloc, line, sink.bytes(), errors.bytes())?;
    push_end(&mut text, alloc, status, &mut source)?;
    Ok(text)
}

// The words of a line but the first, which is the program's name.
fn words_of(alloc: Global, line: &str) -> Result<Vec<String>, NoMemory> {
    let mut words = Vec::new(alloc);
    for word in line.split(' ').skip(1) {
        words.push(String::from_str(alloc, word)?)?;
    }
    Ok(words)
}

// A sink that has room for so many bytes.
fn sink_with(alloc: Global, room: u64) -> Result<MemorySink, NoMemory> {
    MemorySink::new(alloc, room as usize, 7, Vec::new(alloc))
}

// The line after `>`, what was written, and what was told after `!`.
fn output_of(alloc: Global, line: &str, written: &[u8], told: &[u8]) -> Result<Vec<u8>, NoMemory> {
    let mut text = Vec::from_slice(alloc, b"> ")?;
    text.extend_from_slice(line.as_bytes())?;
    text.push(b'\n')?;
    text.extend_from_slice(written)?;
    if !told.is_empty() {
        text.extend_from_slice(b"! ")?;
        text.extend_from_slice(told)?;
    }
    Ok(text)
}

// Appends the status after `=`, and how many bytes of the source are left.
fn push_end(
    text: &mut Vec<u8>,
    alloc: Global,
    status: Status,
    source: &mut MemorySource,
) -> Result<(), NoMemory> {
    text.extend_from_slice(format!(in alloc; "= {}", status.number())?.as_bytes())?;
    if let Ok(left) = read_all(alloc, source, 1 << 24) {
        text.extend_from_slice(format!(in alloc; ", {} left", left.len())?.as_bytes())?;
    }
    text.push(b'\n')?;
    Ok(())
}

// The source of a row.
fn source_of(alloc: Global, row: &str) -> Result<MemorySource, NoMemory> {
    let mut bytes = Vec::from_slice(alloc, part_of(row, 1).as_bytes())?;
    for byte in bytes.iter_mut() {
        *byte = match *byte {
            b';' => b'\n',
            b'~' => b'\r',
            b'^' => 0,
            b'@' => 255,
            other => other,
        };
    }
    let piece = number_at(row, 2, 1000).max(1) as usize;
    let fault = number_at(row, 3, u64::MAX);
    Ok(MemorySource::new(bytes, piece, Vec::from_slice(alloc, &[fault])?))
}

// The part of a row with this number, counted from 0, and nothing where it has fewer.
fn part_of(row: &str, number: usize) -> &str {
    row.split('|').nth(number).unwrap_or("")
}

// The number that this part of a row is, or the other where it is none.
fn number_at(row: &str, number: usize, otherwise: u64) -> u64 {
    part_of(row, number).parse::<u64>().unwrap_or(otherwise)
}
