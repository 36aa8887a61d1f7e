//! What a thread puts.

use crate::jobs::Job;
use crate::shapes::order::Order;
use prcu_marks::Client;
use prcu_model::Op;
use std::sync::Wait;
use std::thread::Threads;
use std::time::Clock;

/// The puts of one thread: those whose place in the order leaves this remainder by the number of threads.
#[derive(Clone, Copy, Drop)]
pub struct Growing<C> {
    pub client: C,
    pub order: Order,
    /// How many keys the tree is to have.
    pub keys: u64,
    /// How many puts the thread makes.
    pub puts: u32,
    pub threads: u32,
    pub remainder: u32,
}

impl<C: Client + Drop> Job for Growing<C> {
    /// How many updates were made, by as many operations as the client has the means for.
    type Told = u64;

    fn run<R: Threads + Wait + Sync + Clock>(self, rt: &R) -> u64 {
        let mut client = self.client;
        let mut updates = 0u64;
        for put in 0..self.puts {
            let before = u64::from(put)
                .wrapping_mul(u64::from(self.threads))
                .wrapping_add(u64::from(self.remainder));
            let key = self.order.key(before, self.keys);
            updates = updates.wrapping_add(update(rt, &mut client, Op::Put { key, value: before }));
            if let Order::Window = self.order
                && let Some(oldest) = before.checked_sub(self.keys)
            {
                updates = updates.wrapping_add(update(rt, &mut client, Op::Del { key: oldest }));
            }
        }
        updates
    }
}

// Makes the operation, where the client has the means for it. 1 where it was an update.
fn update<R: Wait, C: Client>(rt: &R, client: &mut C, op: Op) -> u64 {
    if client.remaining() == 0 {
        return 0;
    }
    let told = client.call(rt, op);
    u64::from(told.reply.tells_update())
}
