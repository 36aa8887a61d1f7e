//! The client of a script.
ghost use Rattle.std.specs.Prelude.{◌≡◌, ◌≤◌};
ghost use Rattle.seat_table.specs.Seats.{IsQuietSeat, shape_of};
ghost use Rattle.tree_run.specs.Runs.{newcomer, left_of, HasCalled, tickets_for};

use crate::CookieClient;
use prcu_marks::{Client, Gate};
use prcu_model::{Op, Told};
use seat_table::{CitrusTable, Seat, WaitPart};
use std::marker::Model;
use std::sync::Wait;
use tree_lift::TreeClient;

/// How many tickets so many operations may use: sixteen for each, and one more for each where cookies are held.
pub fn tickets_for(cookies: bool, ops: u64) -> u64
    requires few { ops ≤ 1048576 }
    ensures { result ≡ tickets_for cookies ops }
{
    if cookies { 17 * ops } else { 16 * ops }
}

/// A client of the tree, which stands still for readers where many slots are retired, or one that holds cookies.
#[derive(Drop)]
pub(crate) enum EitherClient<'a, W: WaitPart, G: Gate> {
    Waiting(TreeClient<'a, W, G>),
    Holding(CookieClient<'a, W, G>),
}

/// Makes the operations of a script.
#[derive(Drop)]
pub(crate) struct ScriptClient<'a, W: WaitPart, G: Gate> {
    client: EitherClient<'a, W, G>,
}

impl<'a, W: WaitPart, G: Gate> Model for ScriptClient<'a, W, G> {
    ghost use Rattle.tree_run.specs.Runs.{ScriptClientAt, seen_as};

    ghost Value = { ScriptClientAt };

    ghost view = { λ c. seen_as c.client };
}

impl<'a, W: WaitPart, G: Gate> ScriptClient<'a, W, G> {
    /// A client with this seat, which holds cookies or doesn't. Its caller number is the seat's place.
    pub(crate) fn new(
        table: &'a CitrusTable<W>,
        seat: Seat<W>,
        gate: &'a G,
        cookies: bool,
    ) -> ScriptClient<'a, W, G>
        requires table { seat.table ≡ table.now }
        requires quiet { IsQuietSeat seat }
        ensures client { result ≡ newcomer cookies (record { shape = shape_of W.WAY table.now; table = table.now; seat = seat }) }
    {
        let client = if cookies {
            EitherClient::Holding(CookieClient::new(table, seat, gate))
        } else {
            EitherClient::Waiting(TreeClient::new(table, seat, gate))
        };
        ScriptClient { client }
    }

    /// The seat, as the calls left it. A cookie that is held is dropped.
    pub(crate) fn into_seat(self) -> Seat<W>
        ensures seat { result ≡ self.entry.tree.seat }
        ensures table { result.table ≡ self.entry.tree.table }
        ensures quiet { IsQuietSeat result }
    {
        match self.client {
            EitherClient::Waiting(client) => client.into_seat(),
            EitherClient::Holding(client) => client.into_seat(),
        }
    }
}

impl<'a, W: WaitPart, G: Gate> Client for ScriptClient<'a, W, G> {
    ghost use Rattle.tree_run.specs.Runs.{left_of, HasCalled};

    /// Sixteen tickets are left for each, or seventeen where cookies are held.
    ghost left = { left_of };

    /// The call of the client that it is.
    ghost made = { HasCalled };

    fn call<R: Wait>(&mut self, rt: &R, op: Op) -> Told {
        match &mut self.client {
            EitherClient::Waiting(client) => client.call(rt, op),
            EitherClient::Holding(client) => client.call(rt, op),
        }
    }

    fn remaining(&self) -> u64 {
        match &self.client {
            EitherClient::Waiting(client) => client.remaining(),
            EitherClient::Holding(client) => client.remaining(),
        }
    }
}
