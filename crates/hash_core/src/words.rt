//! The words of the table, and the kinds of step on them.

/// A word of the table. Classes are counted from 0, slots from 1.
#[derive(Clone, Copy)]
pub enum Field {
    /// Twice the number of updates, and one more while an update is being made.
    Front,
    /// 0, or the place of who holds the class's bucket, plus 1.
    Lock { class: u32 },
    /// How many sections of the class are open.
    Readers { class: u32 },
    /// The first slot of the class's chain, 0 where it is empty.
    Head { class: u32 },
    /// The first slot of the class's free list, 0 where it is empty.
    Free { class: u32 },
    /// The first slot of the class's retired list, 0 where it is empty.
    Retired { class: u32 },
    Key { slot: u32 },
    Value { slot: u32 },
    /// The next slot of the chain, 0 at its end.
    Next { slot: u32 },
    /// The next slot of the free or of the retired list, 0 at its end.
    Chain { slot: u32 },
}

/// A kind of atomic step.
pub enum Kind {
    /// A split loads the front.
    H1,
    /// A join loads the front.
    H2,
    /// The readers of a class are one more: a section is entered.
    H3,
    /// The readers of a class are one fewer: a section is left.
    H4,
    /// A load in a section.
    H5,
    /// A bucket's lock is exchanged from 0 to the place plus 1.
    H6,
    /// A bucket's lock is given up.
    H7,
    /// The readers of a class are loaded under its lock.
    H8,
    /// Another word of a class or of its slots is loaded under its lock.
    H9,
    /// The free word, the retired word or the chain of an unlinked slot is stored.
    H10,
    /// A field of the slot taken is stored.
    H11,
    /// The front is exchanged from an even number to the next.
    H12,
    /// The slot taken is linked at the head.
    H13,
    /// A slot is unlinked.
    H14,
    /// A value is replaced.
    H15,
    /// The front is made even again.
    H16,
}
