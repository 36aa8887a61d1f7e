//! What all callers of one index share: its table, and the seats that callers left which were closed.
ghost use Rattle.std.specs.Prelude.{◌≡◌, IfOk, IfSome};
ghost use Rattle.seat_table.specs.Seats.{IsQuietSeat};

use crate::front_queue::FrontQueue;
use counted_slot::{Counted, FREE, Fits, PRESENT, TAKEN};
use prcu_model::NoMemory;
use seat_table::{CitrusTable, Seat, WaitPart};
use std::alloc::Global;
use std::marker::Model;
use std::sync::atomic::AtomicU64;
use std::sync::atomic::Ordering::SeqCst;

/// A seat that a closed caller left. It doesn't own the table, so an index goes with its last caller.
#[derive(Drop)]
pub(crate) struct Left<W: WaitPart> {
    seat: Seat<W>,
}

impl<W: WaitPart> Fits for Left<W> {
    type Tag = CitrusTable<W>;

    ghost fits = { λ table left. (left.seat.table ≡ table) × IsQuietSeat left.seat };
}

/// The table, with a cell for the seat of each place. A clause sees the table.
#[derive(Drop)]
pub(crate) struct Shared<W: WaitPart> {
    table: CitrusTable<W>,
    cells: Vec<Counted<Option<Left<W>>>, Global>,
    // In which callers wait for the front.
    queue: FrontQueue,
    // How many seats lie in the cells, less those that a call is about to take.
    count: AtomicU64,
}

impl<W: WaitPart> Model for Shared<W> {
    ghost use Rattle.std.specs.Prelude.{◌≡◌, length, replicate};
    ghost use Rattle.seat_table.specs.Seats.{TableAt};

    ghost Value = { TableAt };

    ghost view = { λ s. s.table };

    ghost invariant = { λ s. s.cells.items ≡ replicate (length s.cells.items) s.table };
}

impl<W: WaitPart> Shared<W> {
    /// The table of so many places, with no seat left.
    pub(crate) fn new(
        alloc: Global,
        table: CitrusTable<W>,
        places: u32,
    ) -> Result<Shared<W>, NoMemory>
        ensures { IfOk result (λ shared. shared ≡ table) }
    {
        let Ok(mut cells) = Vec::with_capacity(alloc, places as usize) else {
            return Err(NoMemory);
        };
        for _ in 0..places {
            if cells.push(Counted::new(None, &table)).is_err() {
                return Err(NoMemory);
            }
        }
        Ok(Shared {
            table,
            cells,
            queue: FrontQueue::new(alloc, places)?,
            count: AtomicU64::new(0),
        })
    }

    /// The table.
    pub(crate) fn table(&self) -> &CitrusTable<W>
        ensures { result.now ≡ self.now }
    {
        &self.table
    }

    /// The queue of those who wait for the front.
    #[inline(always)]
    pub(crate) fn queue(&self) -> &FrontQueue {
        &self.queue
    }

    /// Leaves the seat for another caller. Its cell is free, since whoever took a seat out freed its cell first.
    pub(crate) fn leave(&self, seat: Seat<W>)
        requires table { seat.table ≡ self.now }
        requires quiet { IsQuietSeat seat }
    {
        let Some(cell) = self.cells.get(seat.place() as usize) else {
            return;
        };
        let (found, claim) = cell.turn(FREE, TAKEN);
        if found == FREE {
            claim.put(Some(Left { seat }), PRESENT);
            self.count.fetch_add(1, SeqCst);
        } else {
            claim.done();
        }
    }

    // Goes through the cells once. Beside other calls it may miss a seat that is there.
    fn look(&self) -> Option<Seat<W>>
        ensures table { IfSome result (λ seat. seat.table ≡ self.now) }
        ensures quiet { IfSome result (λ seat. IsQuietSeat seat) }
    {
        for cell in &self.cells {
            let (found, claim) = cell.turn(PRESENT, TAKEN);
            if found != PRESENT {
                claim.done();
            } else if let Some(left) = claim.put(None, FREE) {
                return Some(left.seat);
            }
        }
        None
    }

    /// Takes a seat that was left, if there is one.
    pub(crate) fn take(&self) -> Option<Seat<W>>
        ensures table { IfSome result (λ seat. seat.table ≡ self.now) }
        ensures quiet { IfSome result (λ seat. IsQuietSeat seat) }
    {
        let counted = self
            .count
            .fetch_update(SeqCst, SeqCst, |count| count.checked_sub(1));
        if counted.is_err() {
            return None;
        }
        // One seat more lies there than other calls are about to take. So a look misses only where another one found.
        for _ in 0..u64::MAX {
            let seat = self.look();
            if seat.is_some() {
                return seat;
            }
        }
        None
    }
}
