//! Where a word stands in the row of a table's words.
//!
//! Callers on different processors wait for each other where they write words of one line of memory, which is 64 bytes, and lines are
//! fetched two at a time. So the clock, the front, the free count and the word of a move stand 128 bytes or more from all other words. So do
//! a place's key and stamp, a class's gate and counts, and a place's row of stamps (`words_stand_apart`): wherever the row begins they share
//! no line, and no pair of lines, with other words. A slot has two halves of a line. What a search loads on its way stands in one, so that it
//! waits for one line a node and as many nodes as can be are kept near the processor: the key, the value and the two links. What is loaded at
//! its end and by those who store stands in the other: the lock, the life and the two tags. The halves of one kind are a row, and so two
//! slots share a line. The states, at which only those look who take a slot, stand in a row of their own behind.
//!
//! The first of these rows begins at the same word in each table, and the words of places and classes stand behind all three: so the index
//! of a word that a search loads is its slot's number times four and a constant, which the processor adds as it loads.
//!
//! A line begins at a multiple of 64 bytes. glibc puts a row that it maps by itself 16 bytes behind such a multiple, and any other row
//! behind some multiple of 16. It maps rows of 128 KiB and more; once a mapped block was given back, only rows that are larger than that
//! block, up to 32 MiB. So 14 words of room stand before the first: with them each place and class of a mapped row begins a line, and no
//! half of a slot stands in two. In any other row it may, and so may a class's words.
//!
//! Two lines at a time: Intel's optimization manual on adjacent lines, and `CachePadded` of crossbeam.
ghost use Rattle.std.specs.Prelude.{◌≡◌, ◌+◌, ◌*◌, ◌≤◌};
ghost use Rattle.core_state.specs.declared.shape.Shape.{Shape};
ghost use Rattle.core_state.specs.Memory.{half, room_behind, waiter_room, word_count, word_of};
ghost use Rattle.core_state.specs.Acts.{in_slot, AreRows, most_words};

use crate::act::Part;
use crate::readers::side_field;
use crate::shape::Waiter;
use crate::words::Field;

// The words of a line of memory.
const LINE: usize = 8;

/// The words of half a slot.
pub const HALF: usize = 4;

/// How far from each other words stand that different callers write often.
pub const APART: usize = 2 * LINE;

/// The room before the first word.
pub const LEAD: usize = 14;

/// Gates of the second waiter, and stamps of each place for the third.
pub const CLASSES: usize = 64;

/// The room of a place's key and stamp. Readers that write two neighbouring pairs of lines hinder each other still, as was measured.
pub const PLACE_ROOM: usize = 4 * APART;

/// The room of a class's gate and counts: a line, and behind it what sets the next ones apart.
pub const CLASS_ROOM: usize = LINE + APART;

/// The room of a place's row of stamps.
pub const ROW_ROOM: usize = CLASSES + APART;

// Where the halves with the keys, values and links of the slots begin.
const NODES: usize = LEAD + 4 * APART;

/// Where the rows of a table's words begin that don't begin at the same word in each table.
#[derive(Clone, Copy)]
pub struct Rows {
    /// How many slots there are: the root, a spare for each place, and those that begin free.
    pub count: usize,
    /// The halves of the slots with the locks, lives and tags.
    pub locks: usize,
    /// The states.
    pub states: usize,
    /// The words of the waiter's places or classes.
    pub waiter: usize,
}

/// The room between the states of so many slots and the words of the waiter.
pub fn room_behind(count: usize) -> usize
    requires few { count ≤ most_words }
    ensures room { result ≡ room_behind count }
{
    let words = (2 * HALF + 1) * count;
    APART * (words / APART + 2) - words
}

/// The rows of a table with so many slots and places.
pub fn rows_of(slots: u32, places: u32) -> Rows
    ensures rows { (k : Shape) → k.slots ≡ slots → k.places ≡ places → AreRows k result }
    ensures few { (result.waiter ≤ most_words) × (result.count ≤ most_words) }
{
    let count = slots as usize + places as usize + 1;
    let halves = HALF * count;
    let states = NODES + halves + halves;
    Rows {
        count,
        locks: NODES + halves,
        states,
        waiter: states + count + room_behind(count),
    }
}

/// The index of a field's word, in a table with these rows.
#[inline(always)]
pub fn index_of(rows: &Rows, field: Field) -> usize
    requires few { (rows.now.locks ≤ rows.now.waiter) × (rows.now.states ≤ rows.now.waiter) × (rows.now.waiter ≤ most_words) }
    ensures index { (k : Shape) → AreRows k rows.now → result ≡ word_of k field }
{
    match field {
        Field::Clock => LEAD,
        Field::Front => LEAD + APART,
        Field::Free => LEAD + 2 * APART,
        Field::Moved => LEAD + 3 * APART,
        Field::Announced { place } => rows.waiter + PLACE_ROOM * place as usize,
        Field::Stamp { place } => rows.waiter + PLACE_ROOM * place as usize + 1,
        Field::Gate { class } => rows.waiter + CLASS_ROOM * class as usize,
        Field::Count { class, side } => rows.waiter
            + CLASS_ROOM * class as usize
            + 1
            + side as usize,
        Field::Row { place, class } => rows.waiter + ROW_ROOM * place as usize + class as usize,
        Field::State { slot } => rows.states + slot as usize,
        Field::Key { slot } => NODES + HALF * slot as usize,
        Field::Value { slot } => NODES + HALF * slot as usize + 1,
        Field::Link { slot, side } => NODES + HALF * slot as usize + side_field(side) as usize,
        Field::Lock { slot } => rows.locks + HALF * slot as usize,
        Field::Life { slot } => rows.locks + HALF * slot as usize + 1,
        Field::Tag { slot, side } => rows.locks + HALF * slot as usize + side_field(side) as usize,
    }
}

/// How many words the row of such a table has: those of the waiter are its last.
pub fn row_length(waiter: Waiter, slots: u32, places: u32) -> usize
    ensures length { (k : Shape) → k.waiter ≡ waiter → k.slots ≡ slots → k.places ≡ places → result ≡ word_count k }
{
    let room = match waiter {
        Waiter::Eer => PLACE_ROOM * places as usize,
        Waiter::Domain => CLASS_ROOM * CLASSES,
        Waiter::Deer => ROW_ROOM * places as usize,
    };
    rows_of(slots, places).waiter + room
}

/// The field of a part of a slot.
#[inline(always)]
pub fn in_slot(slot: u32, part: Part) -> Field
    ensures field { result ≡ in_slot slot part }
{
    match part {
        Part::Life => Field::Life { slot },
        Part::Key => Field::Key { slot },
        Part::Value => Field::Value { slot },
        Part::Link { side } => Field::Link { slot, side },
        Part::Tag { side } => Field::Tag { slot, side },
    }
}
