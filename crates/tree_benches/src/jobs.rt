//! What threads do, one beside another, and how long it takes.

use crate::words::nanos_of;
use std::io;
use std::sync::Wait;
use std::thread::{Threads, join};
use std::time::{Clock, Instant};

/// What one thread does, from its begin to its end.
pub trait Job {
    /// What it tells at its end.
    type Told;

    fn run<R: Threads + Wait + Sync + Clock>(self, rt: &R) -> Self::Told;
}

/// Does both, the first in a thread of its own.
pub fn side_by_side<R: Threads + Wait + Sync + Clock, A: Job + Drop + Send, B: Job + Drop>(
    rt: &R,
    first: A,
    second: B,
) -> (A::Told, B::Told)
where
    A::Told: Send,
{
    join(rt, || first.run(rt), || second.run(rt))
}

/// The jobs of one, two or four threads.
#[derive(Drop)]
pub enum Crewed<J> {
    One(J),
    Two(J, J),
    Four((J, J), (J, J)),
}

fn run_two<R: Threads + Wait + Sync + Clock, J: Job<Told = u64> + Drop + Send>(
    rt: &R,
    first: J,
    second: J,
) -> u64 {
    let (one, other) = join(rt, || first.run(rt), || second.run(rt));
    one.wrapping_add(other)
}

fn run_three<R: Threads + Wait + Sync + Clock, J: Job<Told = u64> + Drop + Send>(
    rt: &R,
    first: J,
    rest: (J, J),
) -> u64 {
    let (one, others) = join(rt, || first.run(rt), || run_two(rt, rest.0, rest.1));
    one.wrapping_add(others)
}

// One thread starts all others. If a started one started the next, two would wait for a processor one after another.
fn run_four<R: Threads + Wait + Sync + Clock, J: Job<Told = u64> + Drop + Send>(
    rt: &R,
    pair: (J, J),
    rest: (J, J),
) -> u64 {
    let (first, second) = pair;
    let (one, others) = join(rt, || first.run(rt), || run_three(rt, second, rest));
    one.wrapping_add(others)
}

// The sum of what the jobs tell, each in a thread of its own.
fn run_crew<R: Threads + Wait + Sync + Clock, J: Job<Told = u64> + Drop + Send>(
    rt: &R,
    crewed: Crewed<J>,
) -> u64 {
    match crewed {
        Crewed::One(job) => job.run(rt),
        Crewed::Two(first, second) => run_two(rt, first, second),
        Crewed::Four(first, second) => run_four(rt, first, second),
    }
}

/// What comes of jobs.
#[derive(Clone, Copy)]
pub struct Worked {
    /// How long they took.
    pub nanos: u64,
    /// The sum of what they told, which has every answer made.
    pub sum: u64,
}

/// Does the jobs, and takes the time.
pub fn time<R: Threads + Wait + Sync + Clock, J: Job<Told = u64> + Drop + Send>(
    rt: &R,
    crewed: Crewed<J>,
) -> io::Result<Worked> {
    let begun = Instant::now(rt)?;
    let sum = run_crew(rt, crewed);
    let nanos = nanos_of(begun.elapsed(rt)?);
    Ok(Worked { nanos, sum })
}
