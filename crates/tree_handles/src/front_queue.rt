//! A queue beside the table, for callers that wait for the front: each waits on a line of memory of its own, and who has the front lets the next
//! one try. Without it many processors ask for one line of memory at a time, and the answer of each is old when it comes.
//!
//! The form is that of Anderson's queue lock (1990), with numbers that can be given up (Scott and Scherer 2001). It is no lock: the front is
//! had by an exchange alone, by whomever, so nobody's update rests on the queue.

use crossbeam_utils::CachePadded;
use prcu_model::NoMemory;
use std::alloc::Global;
use std::sync::atomic::AtomicU64;
use std::sync::atomic::Ordering::SeqCst;

/// How many stands there are for each place: with two of them the number that a place gave up is passed over before its stand is needed.
const STANDS_A_PLACE: u32 = 2;

/// The first number, whose turn it is from the start.
const FIRST: u64 = 1;

/// A number's stand has twice the number where its turn has come, and one more where it was given up before.
#[derive(Drop)]
pub(crate) struct FrontQueue {
    // The number of whoever lines up next.
    next: CachePadded<AtomicU64>,
    stands: Vec<CachePadded<AtomicU64>, Global>,
}

fn come(number: u64) -> u64 {
    number.wrapping_mul(2)
}

fn given_up(number: u64) -> u64 {
    come(number).wrapping_add(1)
}

impl FrontQueue {
    /// A queue for so many places, in which nobody stands.
    pub(crate) fn new(alloc: Global, places: u32) -> Result<FrontQueue, NoMemory> {
        let count = places.saturating_mul(STANDS_A_PLACE);
        let Ok(mut stands) = Vec::with_capacity(alloc, count as usize) else {
            return Err(NoMemory);
        };
        for stand in 0..u64::from(count) {
            let word = if stand == FIRST { come(FIRST) } else { 0 };
            if stands.push(CachePadded::new(AtomicU64::new(word))).is_err() {
                return Err(NoMemory);
            }
        }
        Ok(FrontQueue {
            next: CachePadded::new(AtomicU64::new(FIRST)),
            stands,
        })
    }

    // Where this number stands.
    fn stand(&self, number: u64) -> Option<&AtomicU64> {
        let stand = number.checked_rem(self.stands.len() as u64)?;
        let stand = self.stands.get(stand as usize)?;
        Some(stand)
    }

    /// Lines up, and answers the number.
    pub(crate) fn line_up(&self) -> u64 {
        self.next.fetch_add(1, SeqCst)
    }

    /// Whether the turn of this number has come.
    pub(crate) fn has_come(&self, number: u64) -> bool {
        match self.stand(number) {
            Some(stand) => stand.load(SeqCst) == come(number),
            None => true,
        }
    }

    /// Gives the number up, unless its turn has come: then it answers so.
    pub(crate) fn give_up(&self, number: u64) -> bool {
        match self.stand(number) {
            Some(stand) => stand.swap(given_up(number), SeqCst) == come(number),
            None => true,
        }
    }

    /// Whether the number, which was given up, was passed over since.
    pub(crate) fn was_passed_over(&self, number: u64) -> bool {
        match self.stand(number) {
            Some(stand) => stand.load(SeqCst) != given_up(number),
            None => true,
        }
    }

    /// Lets the next one try behind this number, who hasn't given up.
    pub(crate) fn pass_on(&self, number: u64) {
        let mut next = number;
        for _ in 0..self.stands.len() {
            next = next.wrapping_add(1);
            let Some(stand) = self.stand(next) else {
                return;
            };
            if stand.swap(come(next), SeqCst) != given_up(next) {
                return;
            }
        }
    }
}
