//! The table, and how it is made.
ghost use Rattle.std.specs.Prelude.{◌≡◌, ℕ, ◌+◌, ◌*◌, ◌<◌, ◌≤◌, ◌++◌, IfOk, length, replicate};
ghost use Rattle.prcu_marks.specs.Marks.{most_tickets};
ghost use Rattle.core_state.specs.declared.shape.Shape.{Shape};
ghost use Rattle.core_state.specs.Memory.{most_slots, most_places};
ghost use Rattle.seat_table.specs.Seats.{fresh_seat, alone, key_stamps, waiter_part, first_words, IsQuietSeat};

use crate::listed::Listed;
use crate::notes::Notes;
use crate::rule::{Nothing, Ruled};
use crate::scan::region;
use crate::seat::Seat;
use crate::waiter::{WaitWords, waiter_of};
use arrayvec::ArrayVec;
use atomic_table::Table;
use core_state::shape::{ROOM, Waiter};
use core_state::{
    APART, CLASS_ROOM, CLASSES, Field, HALF, LEAD, PLACE_ROOM, ROW_ROOM, Rows, Shape, View,
    index_of, room_behind, row_length, rows_of,
};
use prcu_model::NoMemory;
use std::alloc::{AllocError, Global};
use std::marker::{Model, PhantomData};

/// The words of a search tree, for callers that each step with a seat of their own.
#[derive(Drop)]
pub struct CitrusTable<W: WaitWords> {
    pub(crate) table: Table<Nothing, View, Shape, Ruled, Global>,
    pub(crate) slots: u32,
    pub(crate) places: u32,
    // Where its rows begin: so no step works it out.
    pub(crate) rows: Rows,
    marker: PhantomData<W>,
}

impl<W: WaitWords> Model for CitrusTable<W> {
    ghost use Rattle.std.specs.Prelude.{◌≡◌, ◌≤◌};
    ghost use Rattle.core_state.specs.Invariant.{IsShape};
    ghost use Rattle.core_state.specs.Memory.{word_count};
    ghost use Rattle.core_state.specs.Acts.{AreRows, most_words};
    ghost use Rattle.seat_table.specs.Seats.{TableAt, way_of, with_way};

    ghost Value = { TableAt };

    ghost view = { λ t. record {
      id = t.table.shared.table_id;
      slots = t.table.shared.key.slots;
      places = t.table.shared.key.places;
      room = t.table.shared.key.room;
      tickets = t.table.shared.key.tickets;
    } };

    ghost invariant = { λ t. (t.table.shared.table_id.words ≡ word_count (with_way W.WAY t.table.shared.key))
        × IsShape (with_way W.WAY t.table.shared.key) × (t.table.shared.key.waiter ≡ way_of W.WAY) × (t.slots ≡ t.table.shared.key.slots)
        × (t.places ≡ t.table.shared.key.places) × AreRows (with_way W.WAY t.table.shared.key) t.rows × (t.rows.waiter ≤ most_words) };
}

fn add_many(words: &mut Vec<u64>, count: usize, word: u64) -> Result<(), AllocError>
    ensures { IfOk result (λ _. words.new.items ≡ words.old.items ++ replicate count word) }
{
    for i in 0..count {
        words.push(word)?;
    }
    Ok(())
}

// A word, and the room behind it.
fn add_alone(words: &mut Vec<u64>, word: u64) -> Result<(), AllocError>
    ensures { IfOk result (λ _. words.new.items ≡ words.old.items ++ alone word) }
{
    words.push(word)?;
    add_many(words, APART - 1, 0)
}

// The key and the stamp of a place, and the room behind them.
fn add_place(words: &mut Vec<u64>) -> Result<(), AllocError>
    ensures { IfOk result (λ _. words.new.items ≡ words.old.items ++ key_stamps 1) }
{
    words.push(0)?;
    words.push(u64::MAX)?;
    add_many(words, PLACE_ROOM - 2, 0)
}

fn add_places(words: &mut Vec<u64>, places: usize) -> Result<(), AllocError>
    ensures { IfOk result (λ _. words.new.items ≡ words.old.items ++ key_stamps places) }
{
    for i in 0..places {
        add_place(words)?;
    }
    Ok(())
}

fn add_waiter(words: &mut Vec<u64>, waiter: Waiter, places: usize) -> Result<(), AllocError>
    requires places { places < 4294967296 }
    ensures { IfOk result (λ _. words.new.items ≡ words.old.items ++ waiter_part waiter places) }
{
    match waiter {
        Waiter::Eer => add_places(words, places),
        Waiter::Domain => add_many(words, CLASS_ROOM * CLASSES, 0),
        Waiter::Deer => add_many(words, ROW_ROOM * places, u64::MAX),
    }
}

/// The words of a table as it is made for this shape.
pub fn words_of(alloc: Global, shape: &Shape) -> Result<Vec<u64>, AllocError>
    ensures { IfOk result (λ words. words.items ≡ first_words shape.now) }
{
    let slots = shape.slots as usize;
    let places = shape.places as usize;
    // With all of its room from the start: a list that grows asks for up to twice as much.
    let mut words = Vec::with_capacity(alloc, row_length(shape.waiter, shape.slots, shape.places))?;
    add_many(&mut words, LEAD + 2 * APART, 0)?;
    add_alone(&mut words, shape.slots as u64)?;
    add_many(&mut words, APART + 2 * HALF * (slots + places + 1), 0)?;
    add_many(&mut words, places + 1, 1)?;
    add_many(&mut words, slots, 0)?;
    add_many(&mut words, room_behind(slots + places + 1), 0)?;
    add_waiter(&mut words, shape.waiter, places)?;
    Ok(words)
}

impl<W: WaitWords> CitrusTable<W> {
    /// A table with so many slots beside the root and one spare for each place, and the one seat on it, which works at place 0
    /// and has all other places unused and all tickets. A place may hold back 16 retired slots. `NoMemory` may come where memory is short;
    /// then nothing is made.
    pub fn new(
        alloc: Global,
        slots: u32,
        places: u32,
        tickets: u64,
    ) -> Result<(CitrusTable<W>, Seat<W>), NoMemory>
        requires way { W.WAY ≤ 2 }
        requires slots { (1 ≤ slots) × (slots ≤ most_slots) }
        requires places { (1 ≤ places) × (places ≤ most_places) }
        requires tickets { tickets ≤ most_tickets }
        ensures table { IfOk result (λ made. (made.0.slots ≡ slots) × (made.0.places ≡ places) × (made.0.tickets ≡ tickets)) }
        ensures room { IfOk result (λ made. made.0.room ≡ 16) }
        ensures seat { IfOk result (λ made. (made.1 ≡ fresh_seat W.WAY made.0) × IsQuietSeat made.1) }
    {
        CitrusTable::with_room(alloc, slots, places, ROOM, tickets)
    }

    /// The same, where a place may hold back so many retired slots. With more of them it waits for readers less often, and keeps more
    /// memory from the others.
    pub fn with_room(
        alloc: Global,
        slots: u32,
        places: u32,
        room: u32,
        tickets: u64,
    ) -> Result<(CitrusTable<W>, Seat<W>), NoMemory>
        requires way { W.WAY ≤ 2 }
        requires slots { (1 ≤ slots) × (slots ≤ most_slots) }
        requires places { (1 ≤ places) × (places ≤ most_places) }
        requires room { (16 ≤ room) × (room ≤ most_slots) }
        requires tickets { tickets ≤ most_tickets }
        ensures table { IfOk result (λ made. (made.0.slots ≡ slots) × (made.0.places ≡ places) × (made.0.tickets ≡ tickets)) }
        ensures room { IfOk result (λ made. made.0.room ≡ room) }
        ensures seat { IfOk result (λ made. (made.1 ≡ fresh_seat W.WAY made.0) × IsQuietSeat made.1) }
    {
        let waiter = waiter_of::<W>();
        let shape = Shape {
            waiter,
            slots,
            places,
            room,
            tickets,
        };
        let words = words_of(alloc, &shape)?;
        let listed = Listed::new(alloc, room)?;
        let (table, seat) = Table::of_words(alloc, words.as_slice(), &shape)?;
        let looked = region(slots, places, 0);
        let seat = Seat {
            seat,
            slots,
            table_places: places,
            table_room: room,
            table_tickets: tickets,
            place: 0,
            places,
            tickets,
            key: None,
            stamp: 0,
            hand: None,
            spare: Some(1),
            waits: 0,
            turns: 0,
            free: slots as u64,
            front: 0,
            looked,
            listed,
            notes: Notes::new(looked),
            marker: PhantomData,
        };
        Ok((
            CitrusTable {
                table,
                slots,
                places,
                rows: rows_of(slots, places),
                marker: PhantomData,
            },
            seat,
        ))
    }

    /// Loads the key of the slot to which this link leads, where the table has such a slot, and throws it away: a search that comes by finds
    /// the slot near the processor. It changes nothing, and no seat learns of it.
    #[inline(always)]
    pub fn bring_near(&self, link: u32) {
        if (link as usize) < self.rows.count {
            let key = Field::Key { slot: link };
            self.table.shared.peek(index_of(&self.rows, key));
        }
    }

    /// Whether the state of this slot says that it is free, where the table has such a slot. No seat learns of it: it is taken by a step, which
    /// may find another state.
    pub(crate) fn seems_free(&self, slot: u32) -> bool {
        if slot == 0 || slot as usize >= self.rows.count {
            return false;
        }
        self.table
            .shared
            .peek(index_of(&self.rows, Field::State { slot }))
            == 0
    }

    /// How many slots it was made with.
    pub fn slots(&self) -> u32
        ensures slots { result ≡ self.now.slots }
        ensures few { (1 ≤ result) × (result ≤ most_slots) }
    {
        self.slots
    }

    /// How many places it was made with.
    pub fn places(&self) -> u32
        ensures places { result ≡ self.now.places }
        ensures few { (1 ≤ result) × (result ≤ most_places) }
    {
        self.places
    }
}
