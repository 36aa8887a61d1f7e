//! Which work is done and timed.
ghost use Rattle.std.specs.Prelude.{◌≤◌};

use crate::crew::Crew;
use crate::jobs::{Crewed, Worked, time};
use crate::seated::Seated;
use crate::waits::work::{Rounds, Work};
use crate::words::{Ask, write_line};
use seat_table::{CitrusTable, WaitPart};
use std::alloc::Global;
use std::io;
use std::rt::Runtime;
use std::sync::Wait;
use std::thread::Threads;
use waiters::{Deer, Domain, Eer};

/// So many rounds at most.
pub const MOST_ROUNDS: u32 = 1_000_000_000;

/// Does all work for each waiter, and writes a line for each.
pub fn measure_all<R: Threads + Wait + Sync + Runtime>(
    rt: &R,
    alloc: Global,
    ask: &Ask,
) -> io::Result<()> {
    measure::<R, Eer>(rt, alloc, "first waiter", ask)?;
    measure::<R, Domain>(rt, alloc, "second waiter", ask)?;
    measure::<R, Deer>(rt, alloc, "third waiter", ask)
}

// What is done, with its name.
const WORKS: [(&str, Work); 3] = [
    ("enter and leave", Work::Section),
    ("wait for 8 keys", Work::WaitForFew),
    ("wait for all keys", Work::WaitForAll),
];

// Does each kind of work for one waiter, by each crew.
fn measure<R: Threads + Wait + Sync + Runtime, W: WaitPart + Sync>(
    rt: &R,
    alloc: Global,
    waiter: &str,
    ask: &Ask,
) -> io::Result<()>
    requires way { W.WAY ≤ 2 }
{
    for (name, work) in WORKS {
        for crew in Crew::ALL {
            let worked = time_rounds::<R, W>(rt, alloc, crew, work, ask.rounds)?;
            write_line(rt, waiter, name, crew, "rounds", worked, ask)?;
        }
    }
    Ok(())
}

// What comes of it that each of the threads does the work so many times.
fn time_rounds<R: Threads + Wait + Sync + Runtime, W: WaitPart + Sync>(
    rt: &R,
    alloc: Global,
    crew: Crew,
    work: Work,
    count: u32,
) -> io::Result<Worked>
    requires way { W.WAY ≤ 2 }
{
    let places = crew.count();
    let tickets = u64::from(places) * u64::from(count);
    let Ok((table, seat)) = CitrusTable::<W>::new(alloc, 1, places, tickets) else {
        return Err(io::Error::from(io::ErrorKind::OutOfMemory));
    };
    let seated = Seated::new(&table, seat);
    let crewed = match crew {
        Crew::One => Crewed::One(rounds_of(seated, work, count)),
        Crew::Two => {
            let (first, second) = two_of(alloc, seated, work, count)?;
            Crewed::Two(first, second)
        }
        Crew::Four => {
            let (half, rest) = seated.halves(alloc, 2)?;
            let first = two_of(alloc, half, work, count)?;
            let second = two_of(alloc, rest, work, count)?;
            Crewed::Four(first, second)
        }
    };
    time(rt, crewed)
}

// The work by two, which share the tickets.
fn two_of<'a, W: WaitPart>(
    alloc: Global,
    seated: Seated<'a, W>,
    work: Work,
    count: u32,
) -> io::Result<(Rounds<'a, W>, Rounds<'a, W>)>
    requires places { 2 ≤ seated }
{
    let (first, second) = seated.halves(alloc, 1)?;
    Ok((
        rounds_of(first, work, count),
        rounds_of(second, work, count),
    ))
}

// The work by one.
fn rounds_of<'a, W: WaitPart>(seated: Seated<'a, W>, work: Work, count: u32) -> Rounds<'a, W> {
    Rounds {
        seated,
        work,
        count,
    }
}
