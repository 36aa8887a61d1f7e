//! A reader that stays in its sections for long, in one thread, and a writer in another.

use crate::cookies::rows::Work;
use crate::cookies::tally::Tally;
use crate::jobs::Job;
use crate::seated::Seated;
use crate::words::nanos_of;
use citrus_tree::call;
use prcu_marks::{Client, OpenGate};
use prcu_model::Op;
use seat_table::WaitPart;
use std::io;
use std::sync::{Mutex, Wait};
use std::thread::{Threads, sleep};
use std::time::{Clock, Duration, Instant};
use workload::drawing::{drawn, next_state};

// The reader's key. No delete waits for it, and none for a key of its class.
const READ_KEY: u64 = u64::MAX;

/// So many sections, of so many nanoseconds each. At their end the job says that there are no more.
#[derive(Drop)]
pub struct Reading<'a, W: WaitPart> {
    pub seated: Seated<'a, W>,
    pub work: Work,
    pub stop: &'a Mutex<bool>,
}

impl<'a, W: WaitPart> Job for Reading<'a, W> {
    type Told = ();

    fn run<R: Threads + Wait + Sync + Clock>(self, rt: &R) {
        let (table, mut seat) = self.seated.parts();
        for _ in 0..self.work.rounds {
            W::enter(table, &mut seat, READ_KEY);
            sleep(rt, Duration::from_nanos(self.work.section));
            W::leave(table, &mut seat);
        }
        *self.stop.lock(rt) = true;
    }
}

/// The seat, after it put so many keys, of class 0.
pub fn fill<'a, R: Wait, W: WaitPart>(rt: &R, seated: Seated<'a, W>, count: u32) -> Seated<'a, W> {
    let (table, mut seat) = seated.parts();
    let mut state = 12_345;
    for _ in 0..count {
        if seat.tickets() < 4 {
            break;
        }
        state = next_state(state);
        let key = 64 * drawn(state);
        let op = Op::Put { key, value: state };
        call(rt, table, &mut seat, &OpenGate, op);
    }
    Seated::new(table, seat)
}

// Makes the operation, where the client has the means for it, and adds what it took.
fn make_call<R: Wait + Clock, C: Client>(
    rt: &R,
    client: &mut C,
    op: Op,
    tally: &mut Tally,
) -> io::Result<()> {
    if client.remaining() == 0 {
        return Ok(());
    }
    let begun = Instant::now(rt)?;
    let told = client.call(rt, op);
    tally.add(nanos_of(begun.elapsed(rt)?), told.number);
    Ok(())
}

// Puts the keys, and deletes them in the same order, with a rest after each delete.
fn put_and_delete<R: Wait + Clock, C: Client>(
    rt: &R,
    client: &mut C,
    keys: &[u64],
    work: Work,
    tally: &mut Tally,
) -> io::Result<()> {
    for key in keys {
        let op = Op::Put {
            key: *key,
            value: 1,
        };
        make_call(rt, client, op, tally)?;
    }
    for key in keys {
        make_call(rt, client, Op::Del { key: *key }, tally)?;
        if work.rest > 0 {
            sleep(rt, Duration::from_nanos(work.rest));
        }
    }
    Ok(())
}

/// Keys are put and deleted until the job is told to stop, or has no means any more. The classes of the keys are 31, 32 and 33.
#[derive(Drop)]
pub struct Writing<'a, C> {
    pub client: C,
    pub work: Work,
    pub stop: &'a Mutex<bool>,
}

impl<'a, C: Client + Drop> Job for Writing<'a, C> {
    type Told = io::Result<Tally>;

    fn run<R: Threads + Wait + Sync + Clock>(self, rt: &R) -> io::Result<Tally> {
        let mut client = self.client;
        let work = self.work;
        let mut tally = Tally::new(work.section / 10);
        let mut state = 99;
        for _ in 0..client.remaining() {
            if *self.stop.lock(rt) {
                break;
            }
            state = next_state(state);
            let middle = 64 * drawn(state) + 32;
            if work.middles {
                let keys = [middle, middle - 1, middle + 1];
                put_and_delete(rt, &mut client, &keys, work, &mut tally)?;
            } else {
                put_and_delete(rt, &mut client, &[middle], work, &mut tally)?;
            }
        }
        Ok(tally)
    }
}
