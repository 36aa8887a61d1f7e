//! `tree_benches [times] BENCH ROUNDS ..`: each bench with its number of rounds, one after another. It writes what was done, and how
//! long it took only where `times` asks. The benches: `waits`, sections and waits while nobody reads; `calls`, operations on a tree;
//! `cookies`, a writer beside a reader that stays in its sections for long; `shapes`, the shape of a tree after its keys came in some order.
#![tactic(auto)]

mod calls;
mod cookies;
mod crew;
mod jobs;
mod seated;
mod shapes;
mod waits;
mod words;

use std::alloc::Global;
use std::process::ExitCode;
use std::rt::Runtime;
use std::sync::Wait;
use std::thread::Threads;
use std::{env, io};
use words::{Ask, Bench, rounds_of};

// Runs a bench. Whether the word is a number of rounds for it.
fn measure<R: Threads + Wait + Sync + Runtime>(
    rt: &R,
    alloc: Global,
    bench: Bench,
    word: &str,
    timed: bool,
) -> io::Result<bool> {
    let most = match bench {
        Bench::Waits => waits::MOST_ROUNDS,
        Bench::Calls => calls::MOST_ROUNDS,
        Bench::Cookies => cookies::MOST_ROUNDS,
        Bench::Shapes => shapes::MOST_ROUNDS,
    };
    let Some(rounds) = rounds_of(word, most) else {
        return Ok(false);
    };
    let ask = Ask { rounds, timed };
    match bench {
        Bench::Waits => waits::measure_all(rt, alloc, &ask)?,
        Bench::Calls => calls::measure_all(rt, alloc, &ask)?,
        Bench::Cookies => cookies::measure_all(rt, alloc, &ask)?,
        Bench::Shapes => shapes::measure_all(rt, alloc, &ask)?,
    }
    Ok(true)
}

// Runs the benches that the words name, up to the first that isn't one or has no number of rounds. Whether there is none such.
fn measure_asked<R: Threads + Wait + Sync + Runtime + env::Env + AllocGlobal>(
    rt: &R,
    alloc: Global,
) -> io::Result<bool> {
    let mut timed = false;
    let mut named = None;
    for word in env::args(rt)?.skip(1) {
        let word = word.as_str();
        if let Some(bench) = named {
            if !measure(rt, alloc, bench, word, timed)? {
                return Ok(false);
            }
            named = None;
        } else if word == "times" {
            timed = true;
        } else {
            named = Bench::named(word);
            if named.is_none() {
                return Ok(false);
            }
        }
    }
    Ok(named.is_none())
}

fn main(rt: HostRuntime) -> ExitCode {
    match measure_asked(&rt, rt.alloc()) {
        Ok(true) => ExitCode::SUCCESS,
        Ok(false) => ExitCode::from(2),
        Err(_) => ExitCode::from(70),
    }
}
