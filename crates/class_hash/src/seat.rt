//! The seats on the table, and how they are split and joined.
ghost use Rattle.std.specs.Prelude.{◌≡◌, ℕ, ◌+◌, ◌%◌, ◌<◌, ◌≤◌, Some};
ghost use mathlib.Core.List.{IsPrefix};
ghost use Rattle.hash_core.specs.declared.view.Section.{Section};
ghost use Rattle.hash_core.specs.declared.view.Hold.{Hold};
ghost use Rattle.hash_core.specs.declared.words.Field.TheVariants.{Front, Retired};
ghost use Rattle.hash_core.specs.declared.words.Kind.TheVariants.{H2};
ghost use Rattle.hash_core.specs.Steps.{known_in, IsQuiet, first_of, second_of, both_of, stepped, section_of, hold_of};
ghost use Rattle.class_hash.specs.Answers.{IsInformed};

use crate::access::touch;
use crate::rule::Nothing;
use crate::table::HashTable;
use crate::told::{Cut, Glue};
use atomic_table::Seat;
use hash_core::{Act, Field, View, index_of};
use prcu_marks::{Access, Share};
use std::marker::{Brand, Model};

/// What a seat remembers of the bucket whose lock it holds.
#[derive(Drop)]
pub(crate) struct Bucket {
    pub(crate) class: u32,
    pub(crate) free: Option<u64>,
    pub(crate) retired: Option<u64>,
}

/// A list of a class, beside its chain.
#[derive(Clone, Copy, Drop)]
pub(crate) enum Stock {
    Free,
    Retired,
}

/// What one caller steps with. A clause sees the table that it is of, and what it knows.
#[derive(Drop)]
pub struct HashSeat {
    pub(crate) seat: Seat<Nothing, View>,
    pub(crate) place: u32,
    pub(crate) places: u32,
    pub(crate) tickets: u64,
    pub(crate) key: Option<u64>,
    pub(crate) bucket: Option<Bucket>,
}

impl Model for HashSeat {
    ghost use Rattle.std.specs.Prelude.{◌≡◌, []};
    ghost use Rattle.class_hash.specs.Seats.{SeatAt};
    ghost use Rattle.class_hash.specs.Room.{IsSeat};

    ghost Value = { SeatAt };

    ghost view = { λ s. record { table = s.seat.table_id; view = s.seat.me.0 } };

    ghost invariant = { λ s. (s.seat.me.1 ≡ []) × IsSeat
        (record { place = s.place; places = s.places; tickets = s.tickets; key = s.key; bucket = s.bucket }) s.seat.me.0 };
}

impl HashSeat {
    /// The place at which the seat works.
    pub fn place(&self) -> u32
        ensures { result ≡ self.now.view.place }
    {
        self.place
    }

    /// How many more places it has, which it can give away.
    pub fn unused(&self) -> u32
        ensures { result + 1 ≡ self.now.view.places }
    {
        self.places - 1
    }

    /// How many updates it may still make.
    pub fn tickets(&self) -> u64
        ensures { result ≡ self.now.view.tickets }
    {
        self.tickets
    }

    /// The class whose section is open.
    pub(crate) fn class_read(&self) -> u32
        requires { (section : Section) × (self.now.view.section ≡ Some section) }
        ensures { result ≡ (section_of self.now.view).key % 64 }
    {
        match self.key {
            Some(key) => (key % 64) as u32,
            None => unreachable!(),
        }
    }

    /// The class whose lock is held.
    pub(crate) fn class_held(&self) -> u32
        requires { (hold : Hold) × (self.now.view.hold ≡ Some hold) }
        ensures class { result ≡ (hold_of self.now.view).class }
        ensures small { result < 64 }
    {
        match &self.bucket {
            Some(bucket) => bucket.class,
            None => unreachable!(),
        }
    }

    /// The first slot of the retired list, which is known.
    pub(crate) fn first_retired(&self) -> u64
        requires { (hold : Hold) × (first : ℕ) × (self.now.view.hold ≡ Some hold)
            × (known_in hold.known (Retired hold.class) ≡ Some first) }
        ensures { (hold : Hold) → self.now.view.hold ≡ Some hold → known_in hold.known (Retired hold.class) ≡ Some result }
    {
        match &self.bucket {
            Some(
                Bucket {
                    retired: Some(first),
                    ..
                },
            ) => *first,
            _ => unreachable!(),
        }
    }

    /// The second seat gets the last `places` unused places and `tickets` tickets. It has seen what this one has. Where this one is
    /// informed, as `new` and each call leave it, so are both.
    pub fn split(self, table: &HashTable, places: u32, tickets: u64) -> (HashSeat, HashSeat)
        requires table { self.table ≡ table.now.id }
        requires quiet { IsQuiet self.view }
        requires places { (1 ≤ places) × (places < self.view.places) }
        requires tickets { tickets ≤ self.view.tickets }
        ensures table { (result.0.table ≡ self.table) × (result.1.table ≡ self.table) }
        ensures views { (result.0.view ≡ first_of places tickets self.view) × (result.1.view ≡ second_of places tickets self.view) }
        ensures informed { IsInformed table.now.capacities table.now.places self.view
            → IsInformed table.now.capacities table.now.places result.0.view
            × IsInformed table.now.capacities table.now.places result.1.view }
    {
        cut::<Brand>(self, table, places, tickets)
    }

    /// This seat gets the other's tickets, and has seen what either has. The other's places are spent: this seat answers for
    /// them now, and has seen all marks of each place for which it answers.
    pub fn join(self, table: &HashTable, other: HashSeat) -> HashSeat
        requires table { (self.table ≡ table.now.id) × (other.table ≡ table.now.id) }
        requires quiet { IsQuiet self.view × IsQuiet other.view }
        ensures table { result.table ≡ self.table }
        ensures view { (front : ℕ) × (result.view ≡ stepped (both_of self.view other.view) H2 Front front) }
        ensures seen { IsPrefix self.view.seen result.view.seen × IsPrefix other.view.seen result.view.seen }
        ensures informed { IsInformed table.now.capacities table.now.places result.view }
    {
        let HashSeat {
            mut seat,
            place,
            places,
            tickets,
            key,
            bucket,
        } = self;
        let HashSeat {
            seat: theirs,
            place: _,
            places: _,
            tickets: more,
            key: _,
            bucket: _,
        } = other;
        table.table.shared.join_seat::<Glue>(&mut seat, theirs);
        let front = index_of(Field::Front);
        touch(table, &mut seat, Act::LoadFront, front, Access::Load);
        HashSeat {
            seat,
            place,
            places,
            tickets: tickets + more,
            key,
            bucket,
        }
    }
}

fn cut<A: Share>(seat: HashSeat, table: &HashTable, away: u32, tickets: u64) -> (HashSeat, HashSeat)
    requires picked { (A.places ≡ away) × (A.tickets ≡ tickets) }
    requires table { seat.table ≡ table.now.id }
    requires quiet { IsQuiet seat.view }
    requires places { (1 ≤ away) × (away < seat.view.places) }
    requires tickets { tickets ≤ seat.view.tickets }
    ensures table { (result.0.table ≡ seat.table) × (result.1.table ≡ seat.table) }
    ensures views { (result.0.view ≡ first_of away tickets seat.view) × (result.1.view ≡ second_of away tickets seat.view) }
{
    let HashSeat {
        seat: mut first,
        place,
        places,
        tickets: all,
        key,
        bucket,
    } = seat;
    let second = table.table.shared.split_seat::<Cut<A>>(&mut first);
    (
        HashSeat {
            seat: first,
            place,
            places: places - away,
            tickets: all - tickets,
            key,
            bucket,
        },
        HashSeat {
            seat: second,
            place: place + (places - away),
            places: away,
            tickets,
            key: None,
            bucket: None,
        },
    )
}

unsafe impl Send for HashSeat {}
