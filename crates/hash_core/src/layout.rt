//! Where a word stands in the row of a table's words.
//!
//! Callers on different processors wait for each other where they write words of one line of memory, which is 64 bytes, and lines are
//! fetched two at a time. So the front has 128 bytes to itself, and so have the words of each class: its readers, which each lookup
//! writes twice, its head, its lock, and the first slots of its free and its retired list. The four words of a slot stand side by side,
//! two slots to a line.
//!
//! A line begins at a multiple of 64 bytes. glibc puts a row that it maps by itself, as most of 128 KiB and more, 16 bytes behind such a
//! multiple, and any other row behind some multiple of 16. So 14 words of room stand before the first: with them a mapped row is laid out
//! as told here. In any other, as that of a table with less than some 3,800 slots, a slot may stand in two lines, and the words of two
//! classes still have 88 bytes between them.
//!
//! Two lines at a time: Intel's optimization manual on adjacent lines, and `CachePadded` of crossbeam.
ghost use Rattle.std.specs.Prelude.{◌≡◌};
ghost use Rattle.hash_core.specs.Memory.{word_of};

use crate::words::Field;

/// The words of a line of memory.
pub const LINE: usize = 8;

/// How far from each other words stand that different callers write often.
pub const APART: usize = 2 * LINE;

/// The room before the first word.
pub const LEAD: usize = 14;

/// The classes of keys: the class of a key is the key modulo this.
pub const CLASSES: usize = 64;

/// The words of a class.
pub const CLASS_WORDS: usize = 5;

/// The room behind the words of a class.
pub const CLASS_ROOM: usize = APART - CLASS_WORDS;

/// The words of a slot.
pub const SLOT_WORDS: usize = 4;

/// Where the words of the classes begin.
pub const CLASS_BASE: usize = LEAD + APART;

/// Where the words of a slot 0 would begin: slots are counted from 1, and the first one's words stand behind the room of the last class.
pub const SLOT_BASE: usize = CLASS_BASE + APART * CLASSES - SLOT_WORDS;

/// The index of a field's word.
#[inline(always)]
pub fn index_of(field: Field) -> usize
    ensures index { result ≡ word_of field }
{
    match field {
        Field::Front => LEAD,
        Field::Lock { class } => CLASS_BASE + APART * class as usize,
        Field::Readers { class } => CLASS_BASE + APART * class as usize + 1,
        Field::Head { class } => CLASS_BASE + APART * class as usize + 2,
        Field::Free { class } => CLASS_BASE + APART * class as usize + 3,
        Field::Retired { class } => CLASS_BASE + APART * class as usize + 4,
        Field::Key { slot } => SLOT_BASE + SLOT_WORDS * slot as usize,
        Field::Value { slot } => SLOT_BASE + SLOT_WORDS * slot as usize + 1,
        Field::Next { slot } => SLOT_BASE + SLOT_WORDS * slot as usize + 2,
        Field::Chain { slot } => SLOT_BASE + SLOT_WORDS * slot as usize + 3,
    }
}
