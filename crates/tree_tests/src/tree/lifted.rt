//! Callers in threads of their own that lift after each call, on few slots: one history explains what all of them were told.
ghost use Rattle.std.specs.Prelude.{◌≡◌, ◌/◌, ◌≤◌, length, IfOk, vec_len};
ghost use Rattle.seat_table.specs.Seats.{IsQuietSeat};
ghost use Rattle.client_run.specs.Crews.{AreReadyFor};

use super::histories::{assert_all_explained, gets_of, values_at};
use super::run;
use crate::merged::merged;
use crate::scripts::{drawn_scripts, key_of};
use citrus_tree::call;
use client_run::{Worker, run_all};
use patience::Steadfast;
use prcu_marks::{Client, OpenGate};
use prcu_model::{NoMemory, Op, Scripts, Told, ToldList, Update};
use seat_table::{CitrusTable, Seat, WaitPart};
use std::alloc::Global;
use std::marker::Model;
use std::process::Abort;
use std::sync::Wait;
use std::test::Fail;
use std::thread::Threads;
use tree_lift::{Aim, lift};
use waiters::{Deer, Domain, Eer};

const CALLERS: u32 = 4;

const CALLS: u32 = 1000;

// How often a turn is tried after a call.
const ATTEMPTS: u32 = 4;

// How many tickets a call may take: four for its operation, and three for each attempt.
const TICKETS: u64 = 16;

// Lifts the way to the key after each of its calls, by a salt that changes with each.
#[derive(Drop)]
struct Lifter<'a, W: WaitPart> {
    table: &'a CitrusTable<W>,
    seat: Seat<W>,
    salt: u64,
}

impl<'a, W: WaitPart> Model for Lifter<'a, W> {
    ghost use Rattle.std.specs.Prelude.{◌≡◌, ◌/◌, ℕ};
    ghost use Rattle.seat_table.specs.Seats.{IsQuietSeat};

    ghost Value = { ℕ };

    ghost view = { λ c. c.seat.view.allowance.tickets / 16 };

    ghost invariant = { λ c. (c.seat.table ≡ c.table.now) × IsQuietSeat c.seat };
}

impl<'a, W: WaitPart> Lifter<'a, W> {
    fn new(table: &'a CitrusTable<W>, seat: Seat<W>, salt: u64) -> Lifter<'a, W>
        requires table { seat.table ≡ table.now }
        requires quiet { IsQuietSeat seat }
        ensures client { result ≡ seat.view.allowance.tickets / 16 }
    {
        Lifter { table, seat, salt }
    }
}

impl<'a, W: WaitPart> Client for Lifter<'a, W> {
    ghost use Rattle.std.specs.Prelude.{ℕ};

    ghost left = { λ c. c };

    ghost made = { λ a op told b. Unit {0} };

    fn call<R: Wait>(&mut self, rt: &R, op: Op) -> Told {
        let told = call(rt, self.table, &mut self.seat, &OpenGate, op).told;
        self.salt = self.salt.wrapping_add(1);
        let aim = Aim {
            key: key_of(op),
            salt: self.salt,
            attempts: ATTEMPTS,
            hard: true,
        };
        match lift(&Steadfast::new(rt), self.table, &mut self.seat, aim) {
            Ok(_) => told,
            Err(never) => match never {},
        }
    }

    fn remaining(&self) -> u64 {
        self.seat.tickets() / TICKETS
    }
}

// A worker for each script, with a seat of its own, and the seat that is left.
fn crew<'a, W: WaitPart>(
    rt: &impl Abort,
    alloc: Global,
    scripts: &Scripts,
    table: &'a CitrusTable<W>,
    seat: Seat<W>,
) -> Result<(Vec<Worker<Lifter<'a, W>>>, Seat<W>), NoMemory>
    requires { (seat.table ≡ table.now) × IsQuietSeat seat }
    ensures workers { IfOk result (λ made. vec_len made.0 ≡ length scripts.now) }
    ensures ready { IfOk result (λ made. AreReadyFor (λ client. client) made.0.items scripts.now) }
    ensures seat { IfOk result (λ made. (made.1.table ≡ table.now) × IsQuietSeat made.1) }
{
    let mut workers = Vec::new(alloc);
    let mut rest = seat;
    for i in 0..scripts.count() {
        let calls = scripts.script(i).len();
        let tickets = TICKETS * calls as u64;
        assert!(rt; 0 < rest.unused() && tickets <= rest.tickets());
        let list = rest.empty_list(alloc)?;
        let (left, own) = rest.split(table, 1, tickets, list);
        rest = left;
        let client = Lifter::new(table, own, u64::from(i));
        workers.push(Worker::new(alloc, client, calls as u32)?)?;
    }
    Ok((workers, rest))
}

// What the workers were told.
fn lists_told<W: WaitPart>(
    alloc: Global,
    workers: Vec<Worker<Lifter<'_, W>>>,
) -> Result<Vec<ToldList>, NoMemory> {
    let mut told = Vec::new(alloc);
    for worker in workers {
        let (_, list) = worker.into_parts();
        told.push(list)?;
    }
    Ok(told)
}

// The history of what was told.
fn history_of(
    rt: &impl Abort,
    alloc: Global,
    scripts: &Scripts,
    told: &[ToldList],
) -> Result<Vec<Update>, NoMemory> {
    let ops = merged(rt, alloc, scripts, told)?;
    let mut history = Vec::new(alloc);
    for op in ops {
        history.push(Update { caller: 0, op })?;
    }
    Ok(history)
}

// That one history explains a run on so many slots, and gives the values that are there in the end.
fn assert_run<R: Threads + Wait + Sync + Abort, W: WaitPart + Send + Sync>(
    rt: &R,
    alloc: Global,
    slots: u32,
) -> Result<(), NoMemory>
    requires { (W.WAY ≤ 2) × (1 ≤ slots) × (slots ≤ 2097152) }
{
    let keys = [0, 1, 2, 3, 4, 5, 6, 7];
    let scripts = drawn_scripts(rt, alloc, CALLERS, CALLS, &keys)?;
    let tickets = TICKETS * u64::from(CALLERS * CALLS) + 64;
    let (table, seat) = CitrusTable::<W>::new(alloc, slots, CALLERS + 1, tickets)?;
    let (mut workers, seat) = crew(rt, alloc, &scripts, &table, seat)?;
    run_all(rt, &mut workers, &scripts);

    let told = lists_told(alloc, workers)?;
    let history = history_of(rt, alloc, &scripts, &told)?;
    let fronts = values_at(rt, alloc, &history)?;
    assert_all_explained(rt, &fronts, slots, &scripts, &told);
    let Some(last) = fronts.last() else {
        panic!(rt; "there is no front");
    };
    run(rt, &table, seat, "the tree in the end", &gets_of(last));
    Ok(())
}

#[test]
fn one_history_explains_threads_that_lift_after_each_call(rt: HostRuntime) -> Result<(), Fail> {
    assert_run::<HostRuntime, Eer>(&rt, rt.alloc(), 5)?;
    assert_run::<HostRuntime, Domain>(&rt, rt.alloc(), 70)?;
    assert_run::<HostRuntime, Deer>(&rt, rt.alloc(), 65)?;
    Ok(())
}
