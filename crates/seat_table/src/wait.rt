//! Waits, whatever the waiter.
ghost use Rattle.std.specs.Prelude.{◌≡◌, ◌≤◌, [], Some, None, IfErr, IfOk};
ghost use Rattle.core_state.specs.declared.view.Section.{Section};
ghost use Rattle.seat_table.specs.Seats.{IsQuietSeat, shape_of, way_of};
ghost use Rattle.seat_table.specs.Sections.{HasEntered, EntersBy, HasLeft, HasBegun, IsQuietButSection, HasMade};
ghost use Rattle.seat_table.specs.Looks.{LooksAt, IsOnward, IsWithin, LooksOnce};
ghost use Rattle.seat_table.specs.Waits.{IsLatestOf, Polled, HasWaited, reached, start};

use crate::seat::Seat;
use crate::table::CitrusTable;
use crate::waiter::WaitWords;
use key_interval::Keys;
use patience::{Patience, Steadfast};
use prcu_marks::{Gate, OpenGate, Point, Why};
use std::marker::PhantomData;
use std::sync::Wait;

/// A wait that is under way: its keys, its clock, and where the next poll goes on.
#[derive(Drop)]
pub struct Grace<W> {
    pub keys: Keys,
    pub clock: u64,
    pub place: u32,
    pub class: u32,
    pub gate: u64,
    pub turned: bool,
    pub waiter: PhantomData<W>,
}

impl<W> Grace<W> {
    /// A wait that was just begun: its next poll begins at the first place and the first class, whose gate isn't loaded yet.
    pub fn new(keys: Keys, clock: u64) -> Grace<W>
        ensures keys { result.keys ≡ keys }
        ensures clock { result.clock ≡ clock }
        ensures start { reached result ≡ start }
    {
        Grace {
            keys,
            clock,
            place: 0,
            class: 0,
            gate: u64::MAX,
            turned: false,
            waiter: PhantomData,
        }
    }
}

/// What a poll answers.
#[derive(Clone, Copy, Debug, PartialEq, Eq)]
pub enum Poll {
    /// Each reader that the wait is for has left.
    Over,
    /// This poll found a reader that the wait is for, or a count or a stamp that may be one's.
    NotYet { why: Why },
}

/// How readers show that they read, and how a wait looks for them.
pub trait WaitPart: WaitWords {
    /// Enters a section with this key, by just the steps of its waiter. The last of them shows that the seat reads. A seat that was quiet
    /// is so again when the section is left.
    fn enter(table: &CitrusTable<Self>, seat: &mut Seat<Self>, key: u64)
        requires table { seat.old.table ≡ table.now }
        requires outside { seat.old.view.section ≡ None }
        requires unlocked { seat.old.view.locks ≡ [] }
        ensures seat { (seat.new.table ≡ seat.old.table) × (seat.new.listed ≡ seat.old.listed) }
        ensures entered { HasEntered seat.old.view key seat.new.view }
        ensures steps { EntersBy (way_of Self.WAY) seat.old.view key seat.new.view }
        ensures quiet { IsQuietSeat seat.old → IsQuietButSection seat.new };

    /// Leaves the open section.
    fn leave(table: &CitrusTable<Self>, seat: &mut Seat<Self>)
        requires table { seat.old.table ≡ table.now }
        requires inside { (section : Section) × (seat.old.view.section ≡ Some section) }
        ensures seat { (seat.new.table ≡ seat.old.table) × (seat.new.listed ≡ seat.old.listed) }
        ensures left { HasLeft seat.old.view seat.new.view }
        ensures quiet { IsQuietButSection seat.old → IsQuietSeat seat.new };

    /// Begins a wait for the readers with one of these keys. An earlier grace of the seat isn't its latest any more.
    fn begin(table: &CitrusTable<Self>, seat: &mut Seat<Self>, keys: Keys) -> Grace<Self>
        requires table { seat.old.table ≡ table.now }
        requires outside { seat.old.view.section ≡ None }
        requires ticket { 1 ≤ seat.old.view.allowance.tickets }
        ensures seat { (seat.new.table ≡ seat.old.table) × (seat.new.listed ≡ seat.old.listed) }
        ensures begun { HasBegun seat.old.view keys.low keys.high seat.new.view }
        ensures keys { result.keys ≡ keys }
        ensures latest { IsLatestOf (shape_of Self.WAY table.now) result seat.new.view }
        ensures quiet { IsQuietSeat seat.old → IsQuietSeat seat.new };

    /// Looks for readers that the wait is for, from where the last poll stopped: at no place or class before. `Over` comes where there is
    /// none any more; `NotYet` comes where this poll loaded what it names: it stops at the first look that finds a reader in its way, and
    /// looks no further. A grace beyond the last class of its keys, which no poll leaves, goes back to it.
    fn poll(table: &CitrusTable<Self>, seat: &mut Seat<Self>, grace: &mut Grace<Self>) -> Poll
        requires table { seat.old.table ≡ table.now }
        requires latest { IsLatestOf (shape_of Self.WAY table.now) grace.old seat.old.view }
        ensures seat { (seat.new.table ≡ seat.old.table) × (seat.new.listed ≡ seat.old.listed) }
        ensures grace { (grace.new.keys ≡ grace.old.keys) × (grace.new.clock ≡ grace.old.clock) }
        ensures polled { Polled (shape_of Self.WAY table.now) seat.old.view result grace.new seat.new.view }
        ensures onward { IsWithin grace.old.keys grace.old.class → LooksAt (IsOnward (reached grace.old)) seat.old.view seat.new.view }
        ensures once { LooksOnce grace.old.keys grace.old.clock seat.old.view result seat.new.view }
        ensures quiet { IsQuietSeat seat.old → IsQuietSeat seat.new };
}

/// Waits until each reader with one of these keys has left that is reading now, and passes the gate once the wait has begun.
pub fn wait_in_grace<P: Patience, W: WaitPart, G: Gate>(
    patience: &P,
    table: &CitrusTable<W>,
    seat: &mut Seat<W>,
    gate: &G,
    keys: Keys,
) -> Result<(), P::Tired>
    requires table { seat.old.table ≡ table.now }
    requires outside { seat.old.view.section ≡ None }
    requires ticket { 1 ≤ seat.old.view.allowance.tickets }
    ensures seat { (seat.new.table ≡ seat.old.table) × (seat.new.listed ≡ seat.old.listed) }
    ensures waited { IfOk result (λ _. HasWaited (shape_of W.WAY table.now) seat.old.view keys.low keys.high seat.new.view) }
    ensures tired { IfErr result (λ _. HasMade (P.least patience.now) seat.new.view) }
    ensures quiet { IsQuietSeat seat.old → IsQuietSeat seat.new }
{
    let mut grace = W::begin(table, seat, keys);
    gate.pass(Point::InGrace, seat.place());
    let mut pauses = patience.pauses();
    for round in 0..u64::MAX {
        match W::poll(table, seat, &mut grace) {
            Poll::Over => return Ok(()),
            Poll::NotYet { why: _ } => patience.pause(&mut pauses)?,
        }
    }
    Err(patience.tired())
}

/// The same for a caller that never gives up, with no gate.
pub fn wait_for_readers<R: Wait, W: WaitPart>(
    rt: &R,
    table: &CitrusTable<W>,
    seat: &mut Seat<W>,
    keys: Keys,
)
    requires table { seat.old.table ≡ table.now }
    requires outside { seat.old.view.section ≡ None }
    requires ticket { 1 ≤ seat.old.view.allowance.tickets }
    ensures seat { (seat.new.table ≡ seat.old.table) × (seat.new.listed ≡ seat.old.listed) }
    ensures waited { HasWaited (shape_of W.WAY table.now) seat.old.view keys.low keys.high seat.new.view }
    ensures quiet { IsQuietSeat seat.old → IsQuietSeat seat.new }
{
    match wait_in_grace(&Steadfast::new(rt), table, seat, &OpenGate, keys) {
        Ok(()) => (),
        Err(never) => match never {},
    }
}
