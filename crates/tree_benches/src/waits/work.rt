//! What a thread does with a seat of its own.
ghost use Rattle.std.specs.Prelude.{◌≡◌, [], None};
ghost use Rattle.seat_table.specs.Seats.{IsQuietSeat};

use crate::jobs::Job;
use crate::seated::Seated;
use key_interval::Keys;
use seat_table::{CitrusTable, Seat, WaitPart, wait_for_readers};
use std::sync::Wait;
use std::thread::Threads;
use std::time::Clock;

/// What a thread does in a round.
#[derive(Clone, Copy)]
pub enum Work {
    /// It enters a section with a key and leaves it.
    Section,
    /// It waits for the readers with one of eight keys.
    WaitForFew,
    /// It waits for all readers.
    WaitForAll,
}

/// So many rounds of work.
#[derive(Drop)]
pub struct Rounds<'a, W: WaitPart> {
    pub seated: Seated<'a, W>,
    pub work: Work,
    pub count: u32,
}

// Enters and leaves so many sections, with one key after another.
fn read<W: WaitPart>(table: &CitrusTable<W>, seat: &mut Seat<W>, rounds: u32)
    requires table { seat.old.table ≡ table.now }
    requires quiet { IsQuietSeat seat.old }
{
    for key in 0..rounds {
        W::enter(table, seat, u64::from(key));
        W::leave(table, seat);
    }
}

// Waits so many times, or until no ticket is left.
fn wait<R: Wait, W: WaitPart>(
    rt: &R,
    table: &CitrusTable<W>,
    seat: &mut Seat<W>,
    keys: Keys,
    rounds: u32,
)
    requires table { seat.old.table ≡ table.now }
    requires quiet { IsQuietSeat seat.old }
{
    for _ in 0..rounds {
        if seat.tickets() == 0 {
            return;
        }
        wait_for_readers(rt, table, seat, keys);
    }
}

impl<'a, W: WaitPart> Job for Rounds<'a, W> {
    /// How many waits were begun.
    type Told = u64;

    fn run<R: Threads + Wait + Sync + Clock>(self, rt: &R) -> u64 {
        let (table, mut seat) = self.seated.parts();
        match self.work {
            Work::Section => read(table, &mut seat, self.count),
            Work::WaitForFew => wait(rt, table, &mut seat, Keys::between(7, 15), self.count),
            Work::WaitForAll => wait(rt, table, &mut seat, Keys::all(), self.count),
        }
        seat.waits()
    }
}
