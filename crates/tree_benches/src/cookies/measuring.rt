//! Which rows are measured, and what is written of them.
ghost use Rattle.std.specs.Prelude.{◌≤◌};

use crate::cookies::beside::{Reading, Writing, fill};
use crate::cookies::rows::{Holds, Kind, Rest, Row, Work};
use crate::cookies::tally::Tally;
use crate::jobs::side_by_side;
use crate::seated::Seated;
use crate::words::{Ask, tenths_of};
use prcu_marks::{Client, OpenGate};
use seat_table::{CitrusTable, WaitPart};
use std::alloc::Global;
use std::io;
use std::rt::Runtime;
use std::sync::{Mutex, Wait};
use std::thread::Threads;
use tree_run::CookieClient;
use waiters::{Deer, Domain, Eer};

/// So many rounds at most.
pub const MOST_ROUNDS: u32 = 1_000_000;

// How many keys the tree has before the writer begins.
const KEYS: u32 = 1000;

/// Measures each row for each waiter, and writes a line for each.
pub fn measure_all<R: Threads + Wait + Sync + Runtime>(
    rt: &R,
    alloc: Global,
    ask: &Ask,
) -> io::Result<()> {
    measure_rows::<R, Eer>(rt, alloc, "first", ask)?;
    measure_rows::<R, Domain>(rt, alloc, "second", ask)?;
    measure_rows::<R, Deer>(rt, alloc, "third", ask)
}

// Measures each row for one waiter.
fn measure_rows<R: Threads + Wait + Sync + Runtime, W: WaitPart + Sync>(
    rt: &R,
    alloc: Global,
    waiter: &str,
    ask: &Ask,
) -> io::Result<()>
    requires way { W.WAY ≤ 2 }
{
    for kind in Kind::ALL {
        measure_kind::<R, W>(rt, alloc, waiter, kind, ask)?;
    }
    Ok(())
}

// Measures each row of a kind.
fn measure_kind<R: Threads + Wait + Sync + Runtime, W: WaitPart + Sync>(
    rt: &R,
    alloc: Global,
    waiter: &str,
    kind: Kind,
    ask: &Ask,
) -> io::Result<()>
    requires way { W.WAY ≤ 2 }
{
    for rest in Rest::ALL {
        for holds in Holds::ALL {
            let row = Row { kind, rest, holds };
            let tally = measure::<R, W>(rt, alloc, row, ask)?;
            write_line(rt, waiter, row, tally, ask)?;
        }
    }
    Ok(())
}

// What the two threads do in a row. Where no times are asked for a section is short.
fn work_of(row: Row, ask: &Ask) -> Work {
    let section = if ask.timed {
        row.kind.section.saturating_mul(1_000_000)
    } else {
        row.kind.section.saturating_mul(1000)
    };
    Work {
        middles: row.kind.middles,
        section,
        rest: row.rest.of(section),
        rounds: ask.rounds,
    }
}

// Measures one row, on a tree with some more slots than keys.
fn measure<R: Threads + Wait + Sync + Runtime, W: WaitPart + Sync>(
    rt: &R,
    alloc: Global,
    row: Row,
    ask: &Ask,
) -> io::Result<Tally>
    requires way { W.WAY ≤ 2 }
{
    let Ok((table, seat)) = CitrusTable::<W>::new(alloc, KEYS + 64, 2, 1 << 36) else {
        return Err(io::Error::from(io::ErrorKind::OutOfMemory));
    };
    let Ok(list) = seat.empty_list(alloc) else {
        return Err(io::Error::from(io::ErrorKind::OutOfMemory));
    };
    let (writer, reader) = seat.split(&table, 1, 0, list);
    let writer = fill(rt, Seated::new(&table, writer), KEYS);
    let stop = Mutex::new(false);
    let work = work_of(row, ask);
    let reading = Reading {
        seated: Seated::new(&table, reader),
        work,
        stop: &stop,
    };
    if row.holds.cookies {
        let (table, seat) = writer.parts();
        let client = CookieClient::new(table, seat, &OpenGate);
        write_beside(rt, reading, client)
    } else {
        write_beside(rt, reading, writer.client())
    }
}

// What the calls of the writer with this client take beside the reader.
fn write_beside<'a, R: Threads + Wait + Sync + Runtime, W: WaitPart + Sync, C: Client + Drop>(
    rt: &R,
    reading: Reading<'a, W>,
    client: C,
) -> io::Result<Tally> {
    let work = reading.work;
    let stop = reading.stop;
    let ((), tally) = side_by_side(rt, reading, Writing { client, work, stop });
    tally
}

// A line: the row, and where they are asked for, how many calls the writer made, and what they took.
fn write_line<R: Runtime>(
    rt: &R,
    waiter: &str,
    row: Row,
    tally: Tally,
    ask: &Ask,
) -> io::Result<()> {
    let section = row.kind.section;
    let deletes = row.kind.name;
    let rest = row.rest.name;
    let holds = row.holds.name;
    if !ask.timed {
        return println!(rt;
            "{waiter} waiter, sections of {section}, {deletes}, {rest}, {holds}: {} sections",
            ask.rounds
        );
    }
    let (longest, _) = tenths_of(tally.longest, 1000);
    let (mean, tenth) = tenths_of(tally.nanos / 1000, tally.calls);
    println!(rt;
        "{waiter} waiter, sections of {section} ms, {deletes}, {rest}, {holds}: {} calls, {longest} us at most, {mean}.{tenth} us in the mean, {} of more than a tenth of a section, numbers {}",
        tally.calls, tally.long, tally.numbers
    )
}
