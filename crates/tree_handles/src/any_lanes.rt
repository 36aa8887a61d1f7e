//! Lanes, whatever their waiter.
ghost use Rattle.std.specs.Prelude.{◌≡◌, ◌≤◌, length};
ghost use Rattle.tree_handles.specs.Lanes.{GetsMany, HaveLookedUp, MayLookUp};

use crate::answers::{Answer, write_answers};
use crate::lane_seats::LaneSeats;
use crate::status::Status;
use std::alloc::Global;
use std::marker::Model;
use waiters::{Deer, Domain, Eer};

/// Lanes, by their waiter.
#[derive(Drop)]
pub(crate) enum LanesByWaiter {
    Eer(LaneSeats<Eer>),
    Domain(LaneSeats<Domain>),
    Deer(LaneSeats<Deer>),
}

/// Lanes with one of the three waiters.
#[derive(Drop)]
pub struct AnyLanes {
    pub(crate) lanes: LanesByWaiter,
}

impl Model for AnyLanes {
    ghost use Rattle.tree_handles.specs.Lanes.{LanesAt};
    ghost use Rattle.tree_handles.specs.LaneWaiters.{lanes_of};

    ghost Value = { LanesAt };

    ghost view = { λ l. lanes_of l.lanes };
}

impl AnyLanes {
    // Looks up each of the keys, and notes its value, or `None`, at its index.
    fn look_up(&mut self, keys: &[u64], found: &mut [Option<u64>])
        requires room { length found.old ≡ length keys.now }
        ensures looked_up { HaveLookedUp self.old keys.now found.new self.new }
    {
        match &mut self.lanes {
            LanesByWaiter::Eer(lanes) => lanes.get_many(keys, found),
            LanesByWaiter::Domain(lanes) => lanes.get_many(keys, found),
            LanesByWaiter::Deer(lanes) => lanes.get_many(keys, found),
        }
    }

    // Looks up each of the keys, and writes the answers. What was found is noted before.
    fn answer(&mut self, keys: &[u64], found: &mut [Option<u64>], answers: &mut [Answer]) -> Status
        requires noted { length found.old ≡ length keys.now }
        requires room { length keys.now ≤ length answers.old }
        ensures { GetsMany self.old keys.now answers.old result answers.new self.new }
    {
        self.look_up(keys, found);
        write_answers(found, answers);
        Status::Done
    }

    /// Tells the values of the keys, at the same indices.
    pub(crate) fn get_many(&mut self, alloc: Global, keys: &[u64], answers: &mut [Answer]) -> Status
        ensures { GetsMany self.old keys.now answers.old result answers.new self.new }
    {
        if answers.len() < keys.len() {
            return Status::BadArgument;
        }
        let Ok(mut found) = Vec::from_elem(alloc, None, keys.len()) else {
            return Status::NoMemory;
        };
        self.answer(keys, found.as_mut_slice(), answers)
    }
}
