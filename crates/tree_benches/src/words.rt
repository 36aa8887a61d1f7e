//! The words of the program, and what is written of times.

use crate::crew::Crew;
use crate::jobs::Worked;
use std::io;
use std::rt::Runtime;
use std::time::Duration;

/// What is measured.
#[derive(Clone, Copy)]
pub enum Bench {
    Waits,
    Calls,
    Cookies,
    Shapes,
}

impl Bench {
    /// The bench of this name.
    pub fn named(name: &str) -> Option<Bench> {
        match name {
            "waits" => Some(Bench::Waits),
            "calls" => Some(Bench::Calls),
            "cookies" => Some(Bench::Cookies),
            "shapes" => Some(Bench::Shapes),
            _ => None,
        }
    }
}

/// What the words ask of a bench.
#[derive(Clone, Copy)]
pub struct Ask {
    /// How often each thread does its work.
    pub rounds: u32,
    /// Whether times are written too.
    pub timed: bool,
}

/// The number of rounds that a word is, from 1 to the most.
pub fn rounds_of(word: &str, most: u32) -> Option<u32> {
    let Ok(rounds) = word.parse::<u32>() else {
        return None;
    };
    if rounds == 0 || rounds > most {
        return None;
    }
    Some(rounds)
}

/// How many nanoseconds a time is, where it is shorter than five centuries.
pub fn nanos_of(time: Duration) -> u64 {
    time.as_secs()
        .saturating_mul(1_000_000_000)
        .saturating_add(u64::from(time.subsec_nanos()))
}

/// How long one of so many took, at least one: whole nanoseconds, and tenths beside them.
pub fn tenths_of(nanos: u64, count: u64) -> (u64, u64) {
    let tenths = nanos.saturating_mul(10) / count.max(1);
    (tenths / 10, tenths % 10)
}

/// A line: what did the work, which work, the threads, and how often, or where times are asked for, the nanoseconds of each one in tenths
/// and what was told.
pub fn write_line<R: Runtime>(
    rt: &R,
    whose: &str,
    name: &str,
    crew: Crew,
    unit: &str,
    worked: Worked,
    ask: &Ask,
) -> io::Result<()> {
    let threads = crew.count();
    let rounds = ask.rounds;
    if !ask.timed {
        return println!(rt; "{whose}, {name}, {threads} threads: {rounds} {unit} each");
    }
    let (whole, tenth) = tenths_of(worked.nanos, u64::from(rounds));
    let sum = worked.sum;
    println!(rt; "{whose}, {name}, {threads} threads: {whole}.{tenth} ns, answers {sum}")
}
