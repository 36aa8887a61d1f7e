//! The client.
ghost use Rattle.std.specs.Prelude.{◌≡◌, ◌/◌};
ghost use Rattle.seat_table.specs.Seats.{IsQuietSeat, shape_of};

use crate::calling::call_and_lift;
use prcu_marks::{Client, Gate};
use prcu_model::{Op, Told};
use seat_table::{CitrusTable, Seat, WaitPart};
use std::marker::Model;
use std::sync::Wait;

/// How many tickets a call may use: four for its operation, and three for each attempt of a lift.
const TICKETS: u64 = 16;

/// A seat that makes operations on a tree, one after another, passes a gate, and keeps the tree shallow. It may be sent to another thread
/// where its gate may be shared with one.
#[derive(Drop)]
pub struct TreeClient<'a, W: WaitPart, G: Gate> {
    table: &'a CitrusTable<W>,
    seat: Seat<W>,
    gate: &'a G,
}

impl<'a, W: WaitPart, G: Gate> Model for TreeClient<'a, W, G> {
    ghost use Rattle.std.specs.Prelude.{◌≡◌};
    ghost use Rattle.seat_table.specs.Seats.{IsQuietSeat, shape_of};
    ghost use Rattle.citrus_tree.specs.Replies.{ClientAt};

    ghost Value = { ClientAt };

    ghost view = { λ c. record { shape = shape_of W.WAY c.table.now; table = c.table.now; seat = c.seat } };

    ghost invariant = { λ c. (c.seat.table ≡ c.table.now) × IsQuietSeat c.seat };
}

impl<'a, W: WaitPart, G: Gate> TreeClient<'a, W, G> {
    /// A client with this seat. Its caller number is the seat's place.
    pub fn new(table: &'a CitrusTable<W>, seat: Seat<W>, gate: &'a G) -> TreeClient<'a, W, G>
        requires table { seat.table ≡ table.now }
        requires quiet { IsQuietSeat seat }
        ensures client { result ≡ record { shape = shape_of W.WAY table.now; table = table.now; seat = seat } }
    {
        TreeClient { table, seat, gate }
    }

    /// The seat, as the calls left it.
    pub fn into_seat(self) -> Seat<W>
        ensures seat { result ≡ self.entry.seat }
        ensures table { result.table ≡ self.entry.table }
        ensures quiet { IsQuietSeat result }
    {
        self.seat
    }
}

impl<'a, W: WaitPart, G: Gate> Client for TreeClient<'a, W, G> {
    ghost use Rattle.std.specs.Prelude.{◌/◌};
    ghost use Rattle.tree_lift.specs.Lifts.{HasCalled};

    /// Sixteen tickets are left for each.
    ghost left = { λ c. c.seat.view.allowance.tickets / 16 };

    /// What the operation is told, what may come after the answer, and that the seat is quiet and informed afterwards.
    ghost made = { HasCalled };

    // As `call_and_lift`.
    #[inline(always)]
    fn call<R: Wait>(&mut self, rt: &R, op: Op) -> Told {
        call_and_lift(rt, self.table, &mut self.seat, self.gate, op)
    }

    fn remaining(&self) -> u64 {
        self.seat.tickets() / TICKETS
    }
}
