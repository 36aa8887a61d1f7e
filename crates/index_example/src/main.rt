//! An index of articles and their prices, which two threads share. Each adds articles of its own, looks up others beside the other thread,
//! raises every second price, and takes every fourth article out. Then the index is counted.
#![tactic(auto)]

ghost use Rattle.std.specs.Prelude.{◌/◌, ◌≤◌};
ghost use Rattle.citrus_tree.specs.Lookups.{Looked};

use prcu_marks::{Client, OpenGate};
use prcu_model::{NoMemory, Op, Reply};
use seat_table::CitrusTable;
use std::alloc::Global;
use std::process::ExitCode;
use std::sync::Wait;
use std::thread::{Threads, join};
use tree_lift::TreeClient;
use waiters::Eer;

/// How many articles each thread adds, and how many tickets it may use: sixteen for each of four calls about an article.
const OWN: u32 = 100;

const SHARE: u64 = 6400;

/// What a thread works with: a seat at the index, with no call under way.
type Keeper<'a> = TreeClient<'a, Eer, OpenGate>;

/// The price of an article, as the index had it at some time of the call.
fn price<R: Wait>(rt: &R, keeper: &mut Keeper, article: u64) -> Option<u64>
    requires tickets { 1 ≤ keeper.old.seat.view.allowance.tickets / 16 }
    ensures looked { Looked keeper.old.seat.view article result keeper.new.seat.view }
{
    match keeper.call(rt, Op::Get { key: article }).reply {
        Reply::Val { value } => Some(value),
        _ => None,
    }
}

/// Adds the articles from this number on, asks for the other thread's, and tells how many of its own it took out again.
fn keep<'a, R: Wait>(rt: &R, keeper: Keeper<'a>, first: u32) -> (Keeper<'a>, u32) {
    let mut keeper = keeper;
    let mut taken_out: u32 = 0;
    for at in 0..OWN {
        if keeper.remaining() < 4 {
            return (keeper, taken_out);
        }
        let key = u64::from(first) + u64::from(at);
        keeper.call(rt, Op::Put { key, value: 10 });
        price(rt, &mut keeper, key + u64::from(OWN));
        if key % 2 == 0 {
            keeper.call(rt, Op::Set { key, value: 15 });
        }
        if key % 4 == 0 {
            let gone = keeper.call(rt, Op::Del { key }).reply == Reply::Gone;
            taken_out = taken_out.saturating_add(u32::from(gone));
        }
    }
    (keeper, taken_out)
}

/// The worth of all articles.
fn total<R: Wait>(rt: &R, keeper: Keeper) -> u64 {
    let mut keeper = keeper;
    let mut sum: u64 = 0;
    for article in 0..2 * OWN {
        if keeper.remaining() < 1 {
            return sum;
        }
        sum = sum.saturating_add(price(rt, &mut keeper, u64::from(article)).unwrap_or(0));
    }
    sum
}

/// How many articles each thread took out, and the worth of those that are left.
struct Kept {
    taken_out: [u32; 2],
    left: u64,
}

/// Lets two threads keep one index.
fn keep_index<R: Threads + Wait + Sync>(rt: &R, alloc: Global) -> Result<Kept, NoMemory> {
    let (index, seat) = CitrusTable::<Eer>::new(alloc, 200, 2, 2 * SHARE)?;
    let list = seat.empty_list(alloc)?;
    let (one, two) = seat.split(&index, 1, SHARE, list);
    let one = TreeClient::new(&index, one, &OpenGate);
    let two = TreeClient::new(&index, two, &OpenGate);
    let ((one, first), (_, second)) = join(rt, || keep(rt, one, 0), || keep(rt, two, OWN));
    Ok(Kept {
        taken_out: [first, second],
        left: total(rt, one),
    })
}

fn main(rt: HostRuntime) -> ExitCode {
    let Ok(kept) = keep_index(&rt, rt.alloc()) else {
        return ExitCode::from(70);
    };
    let Kept { taken_out, left } = kept;
    match println!(rt; "taken out, by thread: {taken_out:?}\nleft in the index: {left}") {
        Ok(()) => ExitCode::SUCCESS,
        Err(_) => ExitCode::from(74),
    }
}
