//! The seats by which one thread looks up many keys at once, by their waiter.
ghost use Rattle.std.specs.Prelude.{◌≡◌, length};
ghost use Rattle.std.specs.Arc.{arc_value};
ghost use Rattle.list_laws.specs.Counts.{Each};
ghost use Rattle.seat_table.specs.Seats.{SeatAt, IsQuietSeat};
ghost use Rattle.tree_handles.specs.Lanes.{AreSeated, HaveLookedUp, MayLookUp};

use crate::shared::Shared;
use many_gets::get_many;
use seat_table::{Seat, WaitPart};
use std::alloc::Global;
use std::marker::Model;
use std::sync::Arc;

/// 1 to 8 seats, and their table, which they share.
pub(crate) struct LaneSeats<W: WaitPart> {
    shared: Arc<Shared<W>, Global>,
    seats: Vec<Seat<W>, Global>,
}

impl<W: WaitPart> Model for LaneSeats<W> {
    ghost use Rattle.std.specs.Arc.{arc_value};
    ghost use Rattle.list_laws.specs.Counts.{Each};
    ghost use Rattle.seat_table.specs.Seats.{IsQuietSeat};
    ghost use Rattle.tree_handles.specs.Lanes.{AreSeated, LanesAt};

    ghost Value = { LanesAt };

    ghost view = { λ l. record { way = W.WAY; table = arc_value l.shared; seats = l.seats.items } };

    ghost invariant = { λ l. AreSeated (arc_value l.shared) l.seats.items × Each l.seats.items IsQuietSeat };
}

// Leaves the seats to other callers.
fn leave_all<W: WaitPart>(shared: &Shared<W>, mut seats: Vec<Seat<W>, Global>)
    requires tables { Each seats.items (λ (s : SeatAt). s.table ≡ shared.now) }
    requires quiet { Each seats.items IsQuietSeat }
{
    for at in 0..seats.len() {
        let Some(seat) = seats.pop() else {
            return;
        };
        shared.leave(seat);
    }
}

impl<W: WaitPart> Drop for LaneSeats<W> {
    /// The seats are left to other callers.
    fn drop(self) {
        let Self { shared, seats } = self;
        leave_all(&shared, seats);
    }
}

impl<W: WaitPart> LaneSeats<W> {
    /// Lanes with these seats.
    pub(crate) fn new(shared: Arc<Shared<W>, Global>, seats: Vec<Seat<W>, Global>) -> LaneSeats<W>
        requires seated { AreSeated (arc_value shared) seats.items }
        requires quiet { Each seats.items IsQuietSeat }
        ensures is { result ≡ record { way = W.WAY; table = arc_value shared; seats = seats.items } }
        ensures may { MayLookUp result }
    {
        LaneSeats { shared, seats }
    }

    /// Looks up each of the keys, and writes its value, or `None`, at its index.
    pub(crate) fn get_many(&mut self, keys: &[u64], found: &mut [Option<u64>])
        requires room { length found.old ≡ length keys.now }
        ensures looked_up { HaveLookedUp self.old keys.now found.new self.new }
    {
        get_many(self.shared.table(), self.seats.as_mut_slice(), keys, found);
    }
}
