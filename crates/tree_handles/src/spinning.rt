//! How a call waits for other threads in a program that isn't Rattle.
//!
//! A static library may neither sleep nor yield the processor: the gate lets no crate here call the C library for that. So it spins, and
//! the system's turns bring a thread on that is waited for. Where a call holds nothing it spins for a while, and then has its program call
//! again, which yields the processor first.
//!
//! At a word that all callers exchange it waits as in a crowd: for a drawn number of turns, so that those who wait don't come back together.
//! The bound of that number doubles at each pause, and a caller keeps it from call to call, so that many callers needn't find out each time
//! for how long to stay away. The idea is that of Ethernet (Metcalfe and Boggs 1976). At the front it lines up first (`front_queue.rt`); it
//! gives its number up after a while, since a caller ahead may have been put aside, and then it waits as in a crowd for many calls.

ghost use Rattle.tree_handles.specs.Calls.{patient_steps};

use crate::front_queue::FrontQueue;
use patience::Patience;
use std::cell::Cell;
use std::hint;

/// Elsewhere than in a crowd a pause is twice as long as the one before, up to about so many turns. Anywhere a call that holds nothing ends
/// behind a pause that could have as many.
const LONG: u32 = 64;

/// The least bound in a crowd.
const SHORTEST_IN_CROWD: u32 = 1;

/// The largest bound in a crowd: so many turns for each handle of the index, but no fewer than `LONG`, and no more than
/// `LONGEST_IN_CROWD`.
const TURNS_A_HANDLE: u32 = 64;

const LONGEST_IN_CROWD: u32 = 8192;

/// An odd number whose bits are mixed, that of the golden ratio: so places that are near begin their draws far from each other.
const SPREAD: u32 = 0x9e37_79b9;

/// With so many handles, or fewer, nobody stands in the queue of the front: to line up and to let the next one try moves more lines of memory than
/// so few callers at the front do.
const FEW_HANDLES: u32 = 4;

/// How many turns a caller stands in the queue of the front: so many for each handle of the index, but no fewer than `SHORTEST_IN_LINE`, and
/// no more than `LONGEST_IN_LINE`.
const TURNS_IN_LINE_A_HANDLE: u32 = 96;

const SHORTEST_IN_LINE: u32 = 256;

const LONGEST_IN_LINE: u32 = 8192;

/// How many turns a caller makes whose turn has come while it stood in the queue: the one before it has the front still.
const BEFORE_TRYING: u32 = 2;

/// How many times a caller that gave its number up waits without the queue. The number doubles each time that this comes, and is halved when
/// its turn comes.
const FEWEST_WITHOUT: u32 = 256;

const MOST_WITHOUT: u32 = 65_536;

/// How a caller spins, which it keeps from call to call. A wait is longer and longer. It gives up after 2^64 - 1 rounds; a call that holds
/// nothing ends behind the first pause that could have 64 turns.
#[derive(Drop)]
pub struct Spinning {
    // The largest bound in a crowd.
    largest: u32,
    // The bound of the next pause in a crowd.
    bound: Cell<u32>,
    // Whether this call has paused in a crowd. Then the bound isn't the least one.
    paused: Cell<bool>,
    // The number that was drawn last, which is never 0.
    drawn: Cell<u32>,
    // Whether it stands in the queue at all.
    lines_up: bool,
    // How many turns it stands in the queue at most.
    patience_in_line: u32,
    // Whether it had to stand in the queue the last time. Then it lines up before it tries.
    crowded: Cell<bool>,
    // How many more times it waits without the queue.
    without: Cell<u32>,
    // How many times that is when it gives up again.
    next_without: Cell<u32>,
    // The number that it gave up last.
    given_up: Cell<Option<u64>>,
}

/// The same in one call.
#[derive(Clone, Copy)]
pub(crate) struct Spins<'a> {
    of: &'a Spinning,
    queue: &'a FrontQueue,
    // Whether the call is made again rather than wait for all readers.
    leaves_readers: bool,
}

/// What a loop counts its pauses with.
#[derive(Drop)]
pub enum Pauses {
    /// How many turns the next one has.
    Growing { turns: u32 },
    /// They are in a crowd, and their bound is the caller's.
    InCrowd,
    /// They are at the front, in the queue first and then in a crowd.
    AtFront { turn: Turn },
}

/// Where a loop stands in the queue of the front.
#[derive(Drop)]
pub enum Turn {
    /// It hasn't lined up.
    NotYet,
    /// The turn of its number has come. So many turns of spinning has its next pause.
    Come { number: u64, turns: u32 },
    /// It waits without the queue.
    Without,
}

/// What a call answers that has given up.
#[derive(Drop)]
pub struct GaveUp;

/// What a call answers that is to be made again.
#[derive(Drop)]
pub struct InTheWay;

// Turns so many times.
fn spin(turns: u32) {
    for _ in 0..turns {
        hint::spin_loop();
    }
}

impl Spinning {
    /// Of the caller at this place, in an index of so many handles.
    pub(crate) fn new(place: u32, handles: u32) -> Spinning {
        Spinning {
            largest: handles
                .saturating_mul(TURNS_A_HANDLE)
                .clamp(LONG, LONGEST_IN_CROWD),
            bound: Cell::new(SHORTEST_IN_CROWD),
            paused: Cell::new(false),
            drawn: Cell::new(place.wrapping_mul(SPREAD) | 1),
            lines_up: handles > FEW_HANDLES,
            patience_in_line: handles
                .saturating_mul(TURNS_IN_LINE_A_HANDLE)
                .clamp(SHORTEST_IN_LINE, LONGEST_IN_LINE),
            crowded: Cell::new(false),
            without: Cell::new(0),
            next_without: Cell::new(FEWEST_WITHOUT),
            given_up: Cell::new(None),
        }
    }

    /// The same, for one more call in an index with this queue. Where the one before had no pause in a crowd the bound is half of what it was.
    #[inline(always)]
    pub(crate) fn for_call<'a>(&'a self, queue: &'a FrontQueue) -> Spins<'a> {
        let bound = self.bound.get();
        if bound > SHORTEST_IN_CROWD && !self.paused.replace(false) {
            self.bound.set((bound / 2).max(SHORTEST_IN_CROWD));
        }
        Spins {
            of: self,
            queue,
            leaves_readers: false,
        }
    }

    // The next number of a xorshift of 32 bits (Marsaglia 2003).
    fn draw(&self) -> u32 {
        let mut number = self.drawn.get();
        number ^= number << 13;
        number ^= number >> 17;
        number ^= number << 5;
        self.drawn.set(number);
        number
    }

    // Pauses in a crowd, and answers the bound.
    fn spin_in_crowd(&self) -> u32 {
        let bound = self.bound.get().max(SHORTEST_IN_CROWD);
        spin(self.draw() % bound + 1);
        self.bound.set(bound.saturating_mul(2).min(self.largest));
        self.paused.set(true);
        bound
    }

    // Whether it may line up: there are many handles, it didn't give up lately, and the number that it gave up was passed over.
    fn may_line_up(&self, queue: &FrontQueue) -> bool {
        if !self.lines_up {
            return false;
        }
        let without = self.without.get();
        if without > 0 {
            self.without.set(without - 1);
            return false;
        }
        match self.given_up.get() {
            Some(number) => queue.was_passed_over(number),
            None => true,
        }
    }

    // Lines up, and stands there until its turn comes or it gives up.
    fn stand_in_line(&self, queue: &FrontQueue) -> Turn {
        let number = queue.line_up();
        for stood in 0..self.patience_in_line {
            if queue.has_come(number) {
                return self.comes(number, stood > 0);
            }
            hint::spin_loop();
        }
        if queue.give_up(number) {
            return self.comes(number, true);
        }
        self.crowded.set(false);
        self.given_up.set(Some(number));
        let without = self.next_without.get();
        self.without.set(without);
        self.next_without
            .set(without.saturating_mul(2).min(MOST_WITHOUT));
        Turn::Without
    }

    // The turn of this number has come, at once or not.
    fn comes(&self, number: u64, stood: bool) -> Turn {
        if stood {
            spin(BEFORE_TRYING);
        }
        self.crowded.set(stood);
        self.next_without
            .set((self.next_without.get() / 2).max(FEWEST_WITHOUT));
        Turn::Come { number, turns: 1 }
    }

    // Spins so many times, and answers how many times comes next.
    fn spin_longer(turns: u32) -> u32 {
        spin(turns);
        if turns < LONG {
            turns.saturating_mul(2)
        } else {
            turns
        }
    }
}

impl<'a> Spins<'a> {
    /// The same, for a call that is to be made again rather than wait for all readers, if so it is said.
    #[inline(always)]
    pub(crate) fn leaving_readers(self, leaves: bool) -> Spins<'a> {
        Spins {
            leaves_readers: leaves,
            ..self
        }
    }

    // Pauses at the front, and answers whether it could have been for long.
    fn pause_at_front(&self, turn: &mut Turn) -> bool {
        match turn {
            Turn::NotYet => {
                *turn = if self.of.may_line_up(self.queue) {
                    self.of.stand_in_line(self.queue)
                } else {
                    Turn::Without
                };
                match turn {
                    Turn::Without => self.of.spin_in_crowd() >= LONG,
                    _ => false,
                }
            }
            Turn::Come { number: _, turns } => {
                let now = *turns;
                *turns = Spinning::spin_longer(now);
                now >= LONG
            }
            Turn::Without => self.of.spin_in_crowd() >= LONG,
        }
    }

    // Pauses, and answers whether it could have been for long.
    fn spin_once(&self, pauses: &mut Pauses) -> bool {
        match pauses {
            Pauses::Growing { turns } => {
                let now = *turns;
                *turns = Spinning::spin_longer(now);
                now >= LONG
            }
            Pauses::InCrowd => self.of.spin_in_crowd() >= LONG,
            Pauses::AtFront { turn } => self.pause_at_front(turn),
        }
    }

    // Lets the next in the queue try, where the turn of this loop had come.
    fn pass_on(&self, pauses: &mut Pauses) {
        let Pauses::AtFront { turn } = pauses else {
            return;
        };
        let Turn::Come { number, turns: _ } = turn else {
            return;
        };
        self.queue.pass_on(*number);
        *turn = Turn::Without;
    }
}

impl<'a> Patience for Spins<'a> {
    type Tired = GaveUp;

    type Busy = InTheWay;

    type Pauses = Pauses;

    ghost least = { λ _. patient_steps };

    fn pauses(&self) -> Pauses {
        Pauses::Growing { turns: 1 }
    }

    fn crowd_pauses(&self) -> Pauses {
        Pauses::InCrowd
    }

    #[inline(always)]
    fn front_pauses(&self) -> Pauses {
        if !self.of.crowded.get() {
            return Pauses::AtFront { turn: Turn::NotYet };
        }
        let turn = self.of.stand_in_line(self.queue);
        Pauses::AtFront { turn }
    }

    #[inline(always)]
    fn won(&self, pauses: &mut Pauses) {
        self.pass_on(pauses);
    }

    fn pause(&self, pauses: &mut Pauses) -> Result<(), GaveUp> {
        self.spin_once(pauses);
        Ok(())
    }

    fn rest(&self, pauses: &mut Pauses) -> Result<(), InTheWay> {
        if !self.spin_once(pauses) {
            return Ok(());
        }
        self.pass_on(pauses);
        Err(InTheWay)
    }

    fn before_readers(&self) -> Result<(), InTheWay> {
        if self.leaves_readers {
            return Err(InTheWay);
        }
        Ok(())
    }

    fn tired(&self) -> GaveUp {
        GaveUp
    }
}
