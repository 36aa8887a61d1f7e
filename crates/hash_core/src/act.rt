//! The steps.

use crate::words::Field;

/// A step, by what it does, with the numbers that it is made with. Nothing reads it when the program runs. Each name here has a call
/// of the same name in `class_hash`; H-numbers are those of the laws.
#[derive(Clone, Copy)]
pub enum Act {
    /// H2. The front is loaded, after a join.
    LoadFront,
    /// H3. The readers of the key's class are one more: a section is entered.
    Enter {
        key: u64,
    },
    /// H4. The readers of the section's class are one fewer: it is left.
    Leave,
    /// H5. The head of the section's class, or a field of the slot at which its search stands, is loaded.
    SearchLoad {
        field: Field,
    },
    /// H6. The lock of a class is exchanged from 0 to the place plus 1.
    Lock {
        class: u32,
    },
    /// H7. The lock that is held is given up.
    Unlock,
    /// H8. The readers of the class are loaded under its lock.
    LoadReaders,
    /// H9. Another word of the class is loaded under its lock, or one of a slot of it.
    LockedLoad {
        field: Field,
    },
    /// H10. The first free slot comes into the hand, and the next one becomes the first.
    TakeSlot {
        slot: u32,
        next: u64,
    },
    /// H10. The retired list, which begins with this slot, comes into the hand.
    TakeRetired {
        slot: u64,
    },
    /// H10. The list in hand, which begins with this slot, becomes the free list.
    FreeRetired {
        slot: u64,
    },
    /// H10. The chain of the slot unlinked is stored.
    StoreChain {
        slot: u32,
        number: u64,
    },
    /// H10. The slot unlinked becomes the first of the retired list.
    Retire {
        slot: u32,
    },
    /// H11. A field of the slot taken is stored.
    Fill {
        field: Field,
        number: u64,
    },
    /// H12. The front is exchanged from an even number to the next.
    OpenCommit {
        even: u64,
    },
    /// H13. The slot taken is linked at the head.
    LinkSlot {
        slot: u32,
        key: u64,
        value: u64,
    },
    /// H14. A slot is unlinked from the link to it.
    UnlinkSlot {
        link: Field,
        slot: u32,
        key: u64,
        next: u64,
    },
    /// H15. A value is replaced.
    ReplaceValue {
        slot: u32,
        key: u64,
        value: u64,
    },
    /// H16. The front is made even again.
    CloseCommit {
        front: u64,
    },
}
