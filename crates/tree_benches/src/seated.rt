//! A seat and its table.
ghost use Rattle.std.specs.Prelude.{◌≡◌, ◌+◌, ◌<◌, ◌≤◌, IfOk};
ghost use Rattle.seat_table.specs.Seats.{IsQuietSeat};

use prcu_marks::OpenGate;
use seat_table::{CitrusTable, Seat, WaitPart};
use std::alloc::Global;
use std::io;
use std::marker::Model;
use tree_lift::TreeClient;

/// A quiet seat at its table. Callers see for how many places it answers.
#[derive(Drop)]
pub struct Seated<'a, W: WaitPart> {
    table: &'a CitrusTable<W>,
    seat: Seat<W>,
}

impl<'a, W: WaitPart> Model for Seated<'a, W> {
    ghost use Rattle.std.specs.Prelude.{◌≡◌, ℕ};
    ghost use Rattle.seat_table.specs.Seats.{IsQuietSeat};

    ghost Value = { ℕ };

    ghost view = { λ s. s.seat.view.allowance.places };

    ghost invariant = { λ s. (s.seat.table ≡ s.table.now) × IsQuietSeat s.seat };
}

impl<'a, W: WaitPart> Seated<'a, W> {
    pub fn new(table: &'a CitrusTable<W>, seat: Seat<W>) -> Seated<'a, W>
        requires table { seat.table ≡ table.now }
        requires quiet { IsQuietSeat seat }
        ensures places { result ≡ seat.view.allowance.places }
    {
        Seated { table, seat }
    }

    /// Two of which each has half of the tickets. The second answers for so many places.
    pub fn halves(self, alloc: Global, places: u32) -> io::Result<(Seated<'a, W>, Seated<'a, W>)>
        requires places { (1 ≤ places) × (places < self) }
        ensures places { IfOk result (λ halves. (halves.0 + places ≡ self.entry) × (halves.1 ≡ places)) }
    {
        let Ok(list) = self.seat.empty_list(alloc) else {
            return Err(io::Error::from(io::ErrorKind::OutOfMemory));
        };
        let tickets = self.seat.tickets() / 2;
        let (first, second) = self.seat.split(self.table, places, tickets, list);
        Ok((
            Seated::new(self.table, first),
            Seated::new(self.table, second),
        ))
    }

    /// The table and the seat.
    pub fn parts(self) -> (&'a CitrusTable<W>, Seat<W>)
        ensures table { result.1.table ≡ result.0.now }
        ensures quiet { IsQuietSeat result.1 }
    {
        (self.table, self.seat)
    }

    /// A client of the tree.
    pub fn client(self) -> TreeClient<'a, W, OpenGate> {
        TreeClient::new(self.table, self.seat, &OpenGate)
    }
}
