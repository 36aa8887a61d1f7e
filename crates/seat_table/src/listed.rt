//! The retired slots that a seat lists.
ghost use Rattle.std.specs.Prelude.{◌≡◌, ◌<◌, ◌≤◌, [], ◌∷◌, ◌++◌, drop, length, vec_capacity, IfOk};
ghost use Rattle.list_laws.specs.Counts.{IsIn};
ghost use Rattle.seat_table.specs.Seats.{unlisted};

use std::alloc::{AllocError, Global};
use std::marker::Model;

/// Slots, each once, in the order in which they were listed, with room for so many. They leave one after another at the front, so a slot
/// that left stays where it is, and the others move up only where there is no room behind them. There is memory for twice as many: so more
/// slots have left since the last move than are moved, and nothing walks over the list for each slot. Memory is asked for at the start, and
/// is touched only as far as slots were listed.
#[derive(Drop)]
pub struct Listed {
    slots: Vec<u32, Global>,
    room: u32,
    // How many have left.
    gone: usize,
}

impl Model for Listed {
    ghost use Rattle.std.specs.Prelude.{◌*◌, ◌≤◌, drop, length};
    ghost use Rattle.std.specs.Vec.{vec_capacity};
    ghost use Rattle.seat_table.specs.Seats.{AreApart, ListedAt};

    ghost Value = { ListedAt };

    ghost view = { λ l. record { slots = drop l.gone l.slots.items; room = l.room } };

    ghost invariant = { λ l. (l.gone ≤ length l.slots.items) × AreApart (drop l.gone l.slots.items)
        × (2 * l.room ≤ vec_capacity l.slots) };
}

// Those behind the gone ones move to the front.
fn move_up(slots: &mut Vec<u32, Global>, gone: usize)
    requires within { gone ≤ length slots.old.items }
    ensures items { slots.new.items ≡ drop gone slots.old.items }
    ensures capacity { vec_capacity slots.new ≡ vec_capacity slots.old }
{
    let count = slots.len() - gone;
    slots.copy_within(gone.., 0);
    slots.truncate(count);
}

impl Listed {
    /// None yet, with room for so many.
    pub(crate) fn new(alloc: Global, room: u32) -> Result<Listed, AllocError>
        ensures empty { IfOk result (λ list. list.slots ≡ []) }
        ensures room { IfOk result (λ list. list.room ≡ room) }
    {
        let slots = Vec::with_capacity(alloc, 2 * room as usize)?;
        Ok(Listed {
            slots,
            room,
            gone: 0,
        })
    }

    pub(crate) fn as_slice(&self) -> &[u32]
        ensures { result.now ≡ self.now.slots }
    {
        &self.slots.as_slice()[self.gone..]
    }

    /// Adds a slot that isn't there, as the last one. It takes no memory.
    pub(crate) fn push(&mut self, slot: u32)
        requires absent { IsIn self.old.slots slot → ⊥ }
        requires few { length self.old.slots < self.old.room }
        ensures slots { self.new.slots ≡ self.old.slots ++ slot ∷ [] }
        ensures room { self.new.room ≡ self.old.room }
    {
        if self.slots.len() == self.slots.capacity() {
            move_up(&mut self.slots, self.gone);
            self.gone = 0;
            self.slots.push_reserved(slot);
            return;
        }
        self.slots.push_reserved(slot);
    }

    /// Takes a slot out, if it is there.
    pub(crate) fn take_off(&mut self, slot: u32)
        ensures slots { self.new.slots ≡ unlisted slot self.old.slots }
        ensures room { self.new.room ≡ self.old.room }
    {
        let count = self.slots.len();
        if self.gone < count {
            if self.slots.as_slice()[self.gone] == slot {
                self.gone += 1;
                return;
            }
        }
        move_up(&mut self.slots, self.gone);
        self.gone = 0;
        self.slots.retain(|x| *x != slot);
    }
}
