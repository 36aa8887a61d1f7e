//! The slots at which a seat looks first where it takes one.
//!
//! A search waits for memory once a line, and two slots share a line, those of the numbers 2k and 2k + 1 (`core_state/src/layout.rt`). So a
//! pair is put into the slot beside that above which it will hang, where that is free; and where it isn't, into the first of a line of which
//! the other stays for a child of its own. Then some two of five hops of a search go to a slot of the line that it has. What such places gain
//! in a tree of pairs put in any order is told in docs/BENCHMARKS.md#the-tree.
use crate::table::CitrusTable;
use crate::waiter::WaitWords;
use arrayvec::ArrayVec;

/// How many slots a seat notes.
pub const MOST_NOTED: usize = 64;

// At how many lines one note looks for a free one.
const LINES_LOOKED_AT: usize = 4;

/// Slots that were free when they were noted. The one to look at first is the last. Which they are no clause tells: a slot is taken by a look
/// that finds it free still.
#[derive(Drop)]
pub(crate) struct Notes {
    slots: ArrayVec<u32, MOST_NOTED>,
    // The first slot of the line to which the looks for a free line have come.
    line: u32,
}

// The first slot of the line after that of this one, in a round of the lines. That of the root is left out.
fn next_line(slot: u32, last: u32) -> u32 {
    if slot < last {
        (slot | 1).wrapping_add(1)
    } else {
        2
    }
}

impl Notes {
    /// None yet. Free lines are looked for from the slot behind this one on.
    pub(crate) fn new(looked: u32) -> Notes {
        Notes {
            slots: ArrayVec::new(),
            line: looked,
        }
    }

    /// Notes a slot, as the one to look at first. Where [`MOST_NOTED`] are noted already it isn't.
    pub(crate) fn push(&mut self, slot: u32) {
        if !self.slots.is_full() {
            self.slots.push(slot);
        }
    }

    /// The slot to look at first, which is noted no more.
    pub(crate) fn pop(&mut self) -> Option<u32> {
        self.slots.pop()
    }

    /// Notes a slot for a pair that will hang at this one.
    pub(crate) fn note_near<W: WaitWords>(&mut self, table: &CitrusTable<W>, near: u32) {
        let beside = near ^ 1;
        if table.seems_free(beside) {
            if self.slots.is_full() {
                self.slots.pop();
            }
            self.push(beside);
        } else if self.slots.is_empty() {
            self.note_line(table);
        }
    }

    // Notes the first slot of a line, where one of the next few lines has that free.
    fn note_line<W: WaitWords>(&mut self, table: &CitrusTable<W>) {
        let last = table.slots() + table.places();
        for _ in 0..LINES_LOOKED_AT {
            self.line = next_line(self.line, last);
            if table.seems_free(self.line) {
                return self.push(self.line);
            }
        }
    }
}
