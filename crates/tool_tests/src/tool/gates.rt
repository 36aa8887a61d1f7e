//! A gate that holds callers where they meet.
ghost use Rattle.std.specs.Prelude.{◌≤◌, ◌<◌};

use super::answer;
use crate::same::assert_same;
use citrus_tool::Status;
use prcu_marks::{Gate, Point};
use std::alloc::Global;
use std::process::Abort;
use std::sync::Wait;
use std::sync::atomic::{AtomicU64, Ordering};
use std::test::Fail;
use std::thread;
use std::thread::Threads;

/// One of two callers stays at this visit of a point until the other has come to a point so many times, or for so many turns.
#[derive(Clone, Copy)]
pub struct Hold {
    pub caller: u32,
    pub at: Point,
    pub visit: u64,
    pub comes_to: Point,
    pub times: u64,
    pub turns: u64,
}

pub const MANY: u64 = 10_000_000;

impl Hold {
    /// The caller stays at its first visit.
    pub fn first(caller: u32, at: Point, comes_to: Point, times: u64) -> Hold {
        Hold {
            caller,
            at,
            visit: 1,
            comes_to,
            times,
            turns: MANY,
        }
    }
}

// Holds two callers, and counts the holds that lasted for all their turns.
#[derive(Drop)]
struct Holding {
    holds: [Hold; 4],
    // of each caller at each point
    visits: [AtomicU64; 8],
    misses: AtomicU64,
}

// Where the visits of a caller to a point are counted.
fn number_of(caller: u32, point: Point) -> usize
    requires { caller ≤ 1 }
    ensures { result < 8 }
{
    let at = match point {
        Point::InSection => 0,
        Point::BeforeLock => 1,
        Point::InGrace => 2,
        Point::Answered => 3,
    };
    4 * caller as usize + at
}

impl Gate for Holding {
    fn pass(&self, point: Point, caller: u32) {
        if caller > 1 {
            return;
        }
        let before = self.visits[number_of(caller, point)].fetch_add(1, Ordering::SeqCst);
        for hold in self.holds.iter() {
            if hold.caller == caller && hold.at == point && hold.visit.wrapping_sub(1) == before {
                self.wait_for(hold);
            }
        }
    }
}

impl Holding {
    fn wait_for(&self, hold: &Hold)
        requires { hold.now.caller ≤ 1 }
    {
        let other = number_of(1 - hold.caller, hold.comes_to);
        for _ in 0..hold.turns {
            if self.visits[other].load(Ordering::SeqCst) >= hold.times {
                return;
            }
            thread::yield_now();
        }
        self.misses.fetch_add(1, Ordering::SeqCst);
    }
}

/// That the line writes this text of these scripts through a gate with these holds, so many of which are too long, and that both callers
/// come to an answer.
pub fn assert_held<R: Threads + Wait + Sync + Abort>(
    rt: &R,
    alloc: Global,
    line: &str,
    input: &[u8],
    holds: [Hold; 4],
    misses: u64,
    text: &[u8],
) -> Result<(), Fail> {
    let gate = Holding {
        holds,
        visits: [
            AtomicU64::new(0),
            AtomicU64::new(0),
            AtomicU64::new(0),
            AtomicU64::new(0),
            AtomicU64::new(0),
            AtomicU64::new(0),
            AtomicU64::new(0),
            AtomicU64::new(0),
        ],
        misses: AtomicU64::new(0),
    };
    let (status, written) = answer(rt, alloc, line, input, &gate)?;
    let missed = gate.misses.load(Ordering::SeqCst);
    let found = (status, written.as_slice() == text, missed);
    assert_same(rt, found, (Status::Done, true, misses), line);
    for caller in 0..2 {
        let answers = gate.visits[number_of(caller, Point::Answered)].load(Ordering::SeqCst);
        assert_same(rt, answers >= 1, true, (line, caller));
    }
    Ok(())
}
