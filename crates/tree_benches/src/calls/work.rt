//! A mix of operations by a client.

use crate::calls::mix::Row;
use crate::jobs::Job;
use prcu_marks::Client;
use prcu_model::{Op, Reply, Told};
use std::sync::Wait;
use std::thread::Threads;
use std::time::Clock;
use workload::drawing::{drawn, next_state};

/// So many operations of a row's mix, by a client.
#[derive(Drop)]
pub struct Calls<C> {
    pub client: C,
    pub row: Row,
    pub rounds: u32,
    /// Where the draws begin.
    pub place: u32,
}

// What an answer adds to the sum.
fn weight_of(told: Told) -> u64 {
    match told.reply {
        Reply::Val { value } => value,
        _ => told.number,
    }
}

/// Puts the drawn keys of a row that come first.
pub fn fill<R: Wait, C: Client>(rt: &R, client: &mut C, row: Row) {
    let mut state = 12_345;
    for _ in 0..row.first_puts {
        if client.remaining() == 0 {
            return;
        }
        state = next_state(state);
        let key = drawn(state) % u64::from(row.keys.max(1));
        client.call(rt, Op::Put { key, value: state });
    }
}

impl<C: Client + Drop> Job for Calls<C> {
    /// The sum of what the operations are answered, one after another, or of as many as the client has the means for.
    type Told = u64;

    fn run<R: Threads + Wait + Sync + Clock>(self, rt: &R) -> u64 {
        let mut client = self.client;
        let mut state = u64::from(self.place);
        let mut sum = 0u64;
        for _ in 0..self.rounds {
            if client.remaining() == 0 {
                return sum;
            }
            let (op, after) = self.row.mix.draw(self.place, state);
            sum = sum.wrapping_add(weight_of(client.call(rt, op)));
            state = after;
        }
        sum
    }
}
