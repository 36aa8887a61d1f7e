//! Lists whose room is made in advance, so that adding to them takes no memory.
ghost use Rattle.std.specs.Prelude.{◌≡◌, ◌+◌, ◌≤◌, [], ◌∷◌, ◌++◌, IfOk};

use crate::memory::NoMemory;
use crate::operation::{Line, Told};
use std::alloc::Global;
use std::marker::Model;

/// A list with spare room.
#[derive(Drop)]
pub struct RoomyList<T> {
    items: Vec<T>,
}

/// What a script was told so far.
pub type ToldList = RoomyList<Told>;

/// The lines of a script's part of an account so far.
pub type LineList = RoomyList<Line>;

impl<T> Model for RoomyList<T> {
    ghost use Rattle.std.specs.Prelude.{◌-◌};
    ghost use Rattle.std.specs.Vec.{vec_len, vec_capacity};
    ghost use Rattle.prcu_model.specs.Scripts.{Roomy, coded_roomy};

    ghost Value = { Roomy T };

    ghost coded = { coded_roomy T.code };

    ghost view = { λ l. record { entries = l.items.items; spare = vec_capacity l.items - vec_len l.items } };
}

impl<T> RoomyList<T> {
    /// An empty list with room for `room` entries at least.
    pub fn new(alloc: Global, room: u32) -> Result<RoomyList<T>, NoMemory>
        ensures empty { IfOk result (λ list. list.entries ≡ []) }
        ensures room { IfOk result (λ list. room ≤ list.spare) }
    {
        Ok(RoomyList {
            items: Vec::with_capacity(alloc, room as usize)?,
        })
    }

    /// Adds an entry at the end. It takes no memory.
    pub fn push(&mut self, entry: T)
        requires { 1 ≤ self.old.spare }
        ensures appended { self.new.entries ≡ self.old.entries ++ entry ∷ [] }
        ensures spare { self.old.spare ≤ self.new.spare + 1 }
    {
        self.items.push(entry).unwrap();
    }

    /// The entries, in the order in which they were added.
    pub fn entries(&self) -> &[T]
        ensures { result.now ≡ self.now.entries }
    {
        self.items.as_slice()
    }
}
