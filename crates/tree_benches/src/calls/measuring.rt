//! Which work is done and timed.
ghost use Rattle.std.specs.Prelude.{◌≤◌};
ghost use Rattle.tree_benches.specs.Crews.{count_of};

use crate::calls::mix::Row;
use crate::calls::work::{Calls, fill};
use crate::crew::Crew;
use crate::jobs::{Crewed, Worked, time};
use crate::seated::Seated;
use crate::words::{Ask, write_line};
use prcu_marks::OpenGate;
use seat_table::{CitrusTable, WaitPart};
use std::alloc::Global;
use std::io;
use std::rt::Runtime;
use std::sync::Wait;
use std::thread::Threads;
use tree_lift::TreeClient;
use waiters::{Deer, Domain, Eer};

/// So many rounds at most.
pub const MOST_ROUNDS: u32 = 100_000_000;

/// Does all work on a tree for each waiter, and writes a line for each.
pub fn measure_all<R: Threads + Wait + Sync + Runtime>(
    rt: &R,
    alloc: Global,
    ask: &Ask,
) -> io::Result<()> {
    measure_tree::<R, Eer>(rt, alloc, "first waiter", ask)?;
    measure_tree::<R, Domain>(rt, alloc, "second waiter", ask)?;
    measure_tree::<R, Deer>(rt, alloc, "third waiter", ask)
}

// Does all work on a tree with one waiter.
fn measure_tree<R: Threads + Wait + Sync + Runtime, W: WaitPart + Sync>(
    rt: &R,
    alloc: Global,
    name: &str,
    ask: &Ask,
) -> io::Result<()>
    requires way { W.WAY ≤ 2 }
{
    for row in Row::ALL {
        for crew in Crew::ALL {
            let worked = time_tree::<R, W>(rt, alloc, crew, row, ask.rounds)?;
            write_line(rt, name, row.name, crew, "operations", worked, ask)?;
        }
    }
    Ok(())
}

// What comes of it that each of the threads makes so many operations on a tree. Some more slots than keys are there.
fn time_tree<R: Threads + Wait + Sync + Runtime, W: WaitPart + Sync>(
    rt: &R,
    alloc: Global,
    crew: Crew,
    row: Row,
    rounds: u32,
) -> io::Result<Worked>
    requires way { W.WAY ≤ 2 }
{
    let places = crew.count();
    let rounds = rounds.min(MOST_ROUNDS);
    let keys = row.keys.min(200_000);
    let tickets = 16 * u64::from(places) * (u64::from(rounds) + u64::from(keys));
    let Ok((table, seat)) = CitrusTable::<W>::new(alloc, keys + 64, places, tickets) else {
        return Err(io::Error::from(io::ErrorKind::OutOfMemory));
    };
    let seated = Seated::new(&table, seat);
    time(rt, tree_calls(rt, alloc, seated, crew, row, rounds)?)
}

// So many operations on the tree by each of the threads, the first of which has put the keys that come first.
fn tree_calls<'a, R: Wait, W: WaitPart>(
    rt: &R,
    alloc: Global,
    seated: Seated<'a, W>,
    crew: Crew,
    row: Row,
    rounds: u32,
) -> io::Result<Crewed<Calls<TreeClient<'a, W, OpenGate>>>>
    requires places { count_of crew ≤ seated }
{
    match crew {
        Crew::One => Ok(Crewed::One(calls_of(filled(rt, seated, row), row, rounds, 0))),
        Crew::Two => {
            let (first, second) = seated.halves(alloc, 1)?;
            let client = filled(rt, first, row);
            Ok(Crewed::Two(
                calls_of(client, row, rounds, 0),
                calls_of(second.client(), row, rounds, 1),
            ))
        }
        Crew::Four => {
            let (half, rest) = seated.halves(alloc, 2)?;
            let (first, second) = half.halves(alloc, 1)?;
            let (third, fourth) = rest.halves(alloc, 1)?;
            let client = filled(rt, first, row);
            Ok(Crewed::Four(
                two_of(client, second.client(), row, rounds, 0),
                two_of(third.client(), fourth.client(), row, rounds, 2),
            ))
        }
    }
}

// A client of the tree, after it put the keys that come first.
fn filled<'a, R: Wait, W: WaitPart>(
    rt: &R,
    seated: Seated<'a, W>,
    row: Row,
) -> TreeClient<'a, W, OpenGate> {
    let mut client = seated.client();
    fill(rt, &mut client, row);
    client
}

// So many operations of a row by a client, whose draws begin at the place.
fn calls_of<C>(client: C, row: Row, rounds: u32, place: u32) -> Calls<C> {
    Calls {
        client,
        row,
        rounds,
        place,
    }
}

// Those of two clients.
fn two_of<C>(first: C, second: C, row: Row, rounds: u32, place: u32) -> (Calls<C>, Calls<C>)
    requires place { place ≤ 2 }
{
    (
        calls_of(first, row, rounds, place),
        calls_of(second, row, rounds, place + 1),
    )
}
