//! Clients of the dictionary.
ghost use Rattle.std.specs.Prelude.{◌≡◌};
ghost use Rattle.hash_core.specs.Steps.{IsQuiet};
ghost use Rattle.class_hash.specs.Replies.{ChainsMeetFronts};

use crate::dictionary::{del, get, put, set};
use crate::seat::HashSeat;
use crate::table::HashTable;
use prcu_marks::{Client, Gate, Point};
use prcu_model::{Op, Told};
use std::marker::Model;
use std::sync::Wait;

/// A seat that makes operations on a table, one after another. It passes the gate at `Answered` after each, when the answer is
/// fixed and the seat is quiet. It may be sent to another thread where its gate may be shared with one.
#[derive(Drop)]
pub struct HashClient<'a, G: Gate> {
    table: &'a HashTable,
    seat: HashSeat,
    gate: &'a G,
}

impl<'a, G: Gate> Model for HashClient<'a, G> {
    ghost use Rattle.std.specs.Prelude.{◌≡◌};
    ghost use Rattle.hash_core.specs.Steps.{IsQuiet};
    ghost use Rattle.class_hash.specs.Replies.{ClientAt};

    ghost Value = { ClientAt };

    ghost view = { λ c. record { table = c.table.now; view = c.seat.view } };

    ghost invariant = { λ c. (c.seat.table ≡ c.table.now.id) × IsQuiet c.seat.view };
}

impl<'a, G: Gate> HashClient<'a, G> {
    /// A client with this seat. Its caller number is the seat's place.
    pub fn new(table: &'a HashTable, seat: HashSeat, gate: &'a G) -> HashClient<'a, G>
        requires table { seat.table ≡ table.now.id }
        requires quiet { IsQuiet seat.view }
        ensures table { result.table ≡ table.now }
        ensures view { result.view ≡ seat.view }
    {
        HashClient { table, seat, gate }
    }

    /// The seat, as the calls left it.
    pub fn into_seat(self) -> HashSeat
        ensures table { result.table ≡ self.entry.table.id }
        ensures quiet { IsQuiet result.view }
        ensures view { result.view ≡ self.entry.view }
    {
        self.seat
    }
}

impl<'a, G: Gate> Client for HashClient<'a, G> {
    ghost use Rattle.class_hash.specs.Replies.{HasCalled};

    /// A ticket is left for each.
    ghost left = { λ c. c.view.tickets };

    ghost made = { HasCalled };

    fn call<R: Wait>(&mut self, rt: &R, op: Op) -> Told {
        let told = match op {
            Op::Put { key, value } => put(rt, self.table, &mut self.seat, key, value),
            Op::Get { key } => get(rt, self.table, &mut self.seat, key),
            Op::Del { key } => del(rt, self.table, &mut self.seat, key),
            Op::Set { key, value } => set(rt, self.table, &mut self.seat, key, value),
        };
        self.gate.pass(Point::Answered, self.seat.place());
        told
    }

    fn remaining(&self) -> u64 {
        self.seat.tickets()
    }
}

/// The calls of a client, whatever others do between their steps, fit the updates that it has seen: each update that it was told
/// of stands in them once, in order and with its number, and every other reply has a front at which the dictionary explains it.
pub fn chains_meet_fronts()
    ensures { ChainsMeetFronts }
{}
