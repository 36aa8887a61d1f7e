//! The client.
ghost use Rattle.std.specs.Prelude.{◌≡◌, ◌/◌, None};
ghost use Rattle.seat_table.specs.Seats.{IsQuietSeat, shape_of};

use crate::settling::{make_room, settle};
use grace_cookie::Cookie;
use prcu_marks::{Client, Gate};
use prcu_model::{Op, Told};
use seat_table::{CitrusTable, Seat, WaitPart};
use std::marker::Model;
use std::sync::Wait;
use tree_lift::call_and_lift;

/// How many tickets a call may use: sixteen for its operation with the lift behind it, and one for a cookie.
pub(crate) const TICKETS: u64 = 17;

/// A seat that makes operations on a tree, one after another, passes a gate, keeps the tree shallow as a `TreeClient` does, and holds at most
/// one cookie. After each call, and the lift behind it, it asks once about the cookie that it holds. When the cookie is over, its slots go
/// back; where the call or the lift began a later wait, it is dropped. Then the client starts one, where it holds none and half of the room
/// for retired slots is taken, of 16 slots 8. Only before a del that finds room for one more at most does it ask until the cookie is over,
/// and so wait. It may be sent to another thread where its gate may be shared with one.
#[derive(Drop)]
pub struct CookieClient<'a, W: WaitPart, G: Gate> {
    table: &'a CitrusTable<W>,
    seat: Seat<W>,
    gate: &'a G,
    cookie: Option<Cookie<W>>,
}

impl<'a, W: WaitPart, G: Gate> Model for CookieClient<'a, W, G> {
    ghost use Rattle.std.specs.Prelude.{◌≡◌};
    ghost use Rattle.seat_table.specs.Seats.{IsQuietSeat, shape_of};
    ghost use Rattle.tree_run.specs.Clients.{IsGood, CookieClientAt};

    ghost Value = { CookieClientAt };

    ghost view = { λ c. record {
      tree = record { shape = shape_of W.WAY c.table.now; table = c.table.now; seat = c.seat };
      cookie = c.cookie;
    } };

    ghost invariant = { λ c. (c.seat.table ≡ c.table.now) × IsQuietSeat c.seat × IsGood (shape_of W.WAY c.table.now) c.seat c.cookie };
}

impl<'a, W: WaitPart, G: Gate> CookieClient<'a, W, G> {
    /// A client with this seat, which holds no cookie. Its caller number is the seat's place.
    pub fn new(table: &'a CitrusTable<W>, seat: Seat<W>, gate: &'a G) -> CookieClient<'a, W, G>
        requires table { seat.table ≡ table.now }
        requires quiet { IsQuietSeat seat }
        ensures client { result ≡ record {
          tree = record { shape = shape_of W.WAY table.now; table = table.now; seat = seat };
          cookie = None;
        } }
    {
        CookieClient {
            table,
            seat,
            gate,
            cookie: None,
        }
    }

    /// The seat, as the calls left it. A cookie that is held is dropped.
    pub fn into_seat(self) -> Seat<W>
        ensures seat { result ≡ self.entry.tree.seat }
        ensures table { result.table ≡ self.entry.tree.table }
        ensures quiet { IsQuietSeat result }
    {
        self.seat
    }
}

impl<'a, W: WaitPart, G: Gate> Client for CookieClient<'a, W, G> {
    ghost use Rattle.std.specs.Prelude.{◌/◌};
    ghost use Rattle.tree_run.specs.Clients.{HasCalled};

    /// Seventeen tickets are left for each.
    ghost left = { λ c. c.tree.seat.view.allowance.tickets / 17 };

    /// What was done about the cookie before the call of the tree, that call with what may come after its answer, what was done about the
    /// cookie then, and what holds at the end.
    ghost made = { HasCalled };

    fn call<R: Wait>(&mut self, rt: &R, op: Op) -> Told {
        self.cookie = make_room(rt, self.table, &mut self.seat, self.cookie.take(), op);
        let told = call_and_lift(rt, self.table, &mut self.seat, self.gate, op);
        self.cookie = settle(self.table, &mut self.seat, self.cookie.take());
        told
    }

    fn remaining(&self) -> u64 {
        self.seat.tickets() / TICKETS
    }
}
