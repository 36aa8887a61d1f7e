//! Which trees are grown, and what is written of them.
ghost use Rattle.std.specs.Prelude.{◌≡◌, ◌≤◌};
ghost use Rattle.tree_benches.specs.Crews.{count_of};

use crate::crew::Crew;
use crate::jobs::{Crewed, Worked, time};
use crate::seated::Seated;
use crate::shapes::growing::Growing;
use crate::shapes::order::Order;
use crate::shapes::ways::{Ways, measure_ways};
use crate::words::{Ask, tenths_of};
use prcu_marks::OpenGate;
use seat_table::CitrusTable;
use std::alloc::Global;
use std::io;
use std::rt::Runtime;
use std::sync::Wait;
use std::thread::Threads;
use tree_lift::TreeClient;
use waiters::Eer;

/// So many rounds at most.
pub const MOST_ROUNDS: u32 = 250_000;

// How many keys a tree has for each of four threads.
const SHARES: [u32; 3] = [8_000, 50_000, MOST_ROUNDS];

// A tree that is grown.
#[derive(Clone, Copy)]
struct Row {
    order: Order,
    keys: u32,
    crew: Crew,
}

/// Grows a tree of each number of keys, in each order, by one thread and by four, and writes a line for each. The rounds are the keys that
/// each of four threads puts at most.
pub fn measure_all<R: Threads + Wait + Sync + Runtime>(
    rt: &R,
    alloc: Global,
    ask: &Ask,
) -> io::Result<()> {
    let rounds = ask.rounds.min(MOST_ROUNDS);
    let mut before = 0;
    for share in SHARES {
        let share = share.min(rounds);
        if share == before {
            break;
        }
        measure_share(rt, alloc, share, ask)?;
        before = share;
    }
    Ok(())
}

// Grows a tree with so many keys for each of four threads, in each order.
fn measure_share<R: Threads + Wait + Sync + Runtime>(
    rt: &R,
    alloc: Global,
    share: u32,
    ask: &Ask,
) -> io::Result<()>
    requires few { share ≤ 250000 }
{
    let keys = 4 * share;
    for order in Order::ALL {
        for crew in [Crew::One, Crew::Four] {
            let row = Row { order, keys, crew };
            let (worked, ways) = measure(rt, alloc, row)?;
            write_line(rt, row, worked, ways, ask)?;
        }
    }
    Ok(())
}

// What the puts of a row took, and how long the ways are then. Besides the threads' a seat goes down to the keys. There are some more
// slots than keys.
fn measure<R: Threads + Wait + Sync + Runtime>(
    rt: &R,
    alloc: Global,
    row: Row,
) -> io::Result<(Worked, Ways)> {
    let places = row.crew.count() + 1;
    let slots = row.keys.min(1_000_000) + 2_000;
    let Ok((table, seat)) = CitrusTable::<Eer>::new(alloc, slots, places, 1 << 36) else {
        return Err(io::Error::from(io::ErrorKind::OutOfMemory));
    };
    let (crewed, walker) = Seated::new(&table, seat).halves(alloc, 1)?;
    let worked = time(rt, crew_of(alloc, crewed, row)?)?;
    let keys = u64::from(row.keys);
    let puts = keys.wrapping_mul(u64::from(row.order.times()));
    let ways = measure_ways(rt, walker, row.order, keys, puts);
    Ok((worked, ways))
}

// A job of each thread.
fn crew_of<'a>(
    alloc: Global,
    seated: Seated<'a, Eer>,
    row: Row,
) -> io::Result<Crewed<Growing<TreeClient<'a, Eer, OpenGate>>>>
    requires places { count_of row.crew ≤ seated }
{
    match row.crew {
        Crew::One => Ok(Crewed::One(growing(seated, row, 0))),
        Crew::Two => {
            let (first, second) = two_of(alloc, seated, row, 0)?;
            Ok(Crewed::Two(first, second))
        }
        Crew::Four => {
            let (half, rest) = seated.halves(alloc, 2)?;
            let first = two_of(alloc, half, row, 0)?;
            let second = two_of(alloc, rest, row, 2)?;
            Ok(Crewed::Four(first, second))
        }
    }
}

// Those of two threads.
fn two_of<'a>(
    alloc: Global,
    seated: Seated<'a, Eer>,
    row: Row,
    remainder: u32,
) -> io::Result<
    (
        Growing<TreeClient<'a, Eer, OpenGate>>,
        Growing<TreeClient<'a, Eer, OpenGate>>,
    ),
>
    requires places { 2 ≤ seated }
    requires remainder { remainder ≤ 2 }
{
    let (first, second) = seated.halves(alloc, 1)?;
    Ok((
        growing(first, row, remainder),
        growing(second, row, remainder + 1),
    ))
}

// That of one.
fn growing<'a>(
    seated: Seated<'a, Eer>,
    row: Row,
    remainder: u32,
) -> Growing<TreeClient<'a, Eer, OpenGate>> {
    let threads = row.crew.count();
    Growing {
        client: seated.client(),
        order: row.order,
        keys: u64::from(row.keys),
        puts: row.keys.wrapping_mul(row.order.times()) / threads.max(1),
        threads,
        remainder,
    }
}

// A line: the order, the keys and the threads, and where they are asked for, what a put of a thread took, and over how many slots the ways
// to the keys lead, on average and at most.
fn write_line<R: Runtime>(
    rt: &R,
    row: Row,
    worked: Worked,
    ways: Ways,
    ask: &Ask,
) -> io::Result<()> {
    let name = row.order.name();
    let keys = row.keys;
    let threads = row.crew.count();
    if !ask.timed {
        return println!(rt;
            "{name}, {keys} keys, {threads} threads: {} updates",
            worked.sum
        );
    }
    let puts = row.keys.wrapping_mul(row.order.times()) / threads.max(1);
    let (whole, tenth) = tenths_of(worked.nanos, u64::from(puts));
    let (slots, part) = tenths_of(ways.sum, u64::from(keys));
    let longest = ways.longest;
    let updates = worked.sum;
    println!(rt;
        "{name}, {keys} keys, {threads} threads: {whole}.{tenth} ns, ways over {slots}.{part} slots, {longest} at most, {updates} updates"
    )
}
