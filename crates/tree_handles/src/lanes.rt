//! What a program that isn't Rattle holds to look up many keys at once: nothing, or the pointer to lanes on the heap.
ghost use Rattle.std.specs.Prelude.{◌≡◌, None, Some, is_some};
ghost use Rattle.std.specs.Option.{MatchOption};
ghost use Rattle.std.specs.declared.option.Option.{Option};
ghost use Rattle.tree_handles.specs.declared.lane_room.LaneRoom.{LaneRoom};
ghost use Rattle.tree_handles.specs.Ownership.{lanes_own, room_coded};
ghost use Rattle.tree_handles.specs.Lanes.{ManyGets, lanes_in};

use crate::answers::Answer;
use crate::lane_room::LaneRoom;
use crate::parts::Parts;
use crate::status::Status;
use std::alloc::Global;
use std::marker::Model;
use std::mem::replace;
use std::ptr::null_mut;

/// Null, or a place for lanes on the heap to which this alone leads.
#[repr(C)]
pub struct Lanes {
    at: *mut u8,
    alloc: Global,
    pub ghost held: { Option LaneRoom } by { room_coded },
}

impl Model for Lanes {
    ghost also_owns = { λ l. lanes_own l.alloc l.at l.held };
}

impl Lanes {
    fn closed(alloc: Global) -> Lanes
        ensures { result.held ≡ None }
    {
        Lanes {
            at: null_mut(),
            alloc,
        }
    }

    fn of_parts(parts: Parts<LaneRoom, Global>) -> Lanes
        ensures { result.held ≡ Some parts.value }
    {
        let Parts { ptr, alloc } = parts;
        Lanes {
            at: ptr.cast::<u8>(),
            alloc,
        }
    }

    fn into_parts(self) -> Option<Parts<LaneRoom, Global>>
        ensures { MatchOption result (self.held ≡ None) (λ parts. self.held ≡ Some parts.value) }
    {
        let Lanes { at, alloc } = self;
        if at.is_null() {
            None
        } else {
            Some(Parts {
                ptr: at.cast::<LaneRoom>(),
                alloc,
            })
        }
    }

    pub(crate) fn of(room: Box<LaneRoom>) -> Lanes
        ensures { result.held ≡ Some room.value }
    {
        Lanes::of_parts(Parts::of(room))
    }

    // Takes the room out, and leaves nothing.
    fn take(&mut self, alloc: Global) -> Option<Box<LaneRoom>>
        ensures left { self.new.held ≡ None }
        ensures taken { MatchOption result (self.old.held ≡ None) (λ room. self.old.held ≡ Some room.value) }
    {
        match replace(self, Lanes::closed(alloc)).into_parts() {
            None => None,
            Some(parts) => Some(parts.into_box()),
        }
    }

    /// Whether lanes are open. Nothing changes.
    pub(crate) fn is_open(&mut self, alloc: Global) -> bool
        ensures is { result ≡ is_some (lanes_in self.old.held) }
        ensures same { self.new.held ≡ self.old.held }
    {
        let Some(room) = self.take(alloc) else {
            return false;
        };
        let open = room.is_full();
        *self = Lanes::of(room);
        open
    }

    /// Closes the lanes: the handles that they had wait in the index for a reopen, unless the lanes are lost. The index is freed with the last
    /// of its handles and lanes. Closed lanes stay so.
    pub fn close(&mut self, alloc: Global)
        ensures closed { self.new.held ≡ None }
    {
        let _was = self.take(alloc);
    }

    /// Tells the values of the keys, each at the index of its key: as so many gets at once would, of which each may be made at another moment
    /// of the call. Each lane goes on with a lookup of its own, in turn, so that the words of all are fetched together. It takes no ticket, and
    /// memory for the time of the call, 16 bytes for each key.
    ///
    /// `Done`, and as many answers as keys; `Closed`; `Lost`; `BadArgument` where there is room for fewer; `NoMemory`. Only at `Done` answers
    /// are written.
    pub fn get_many(&mut self, alloc: Global, keys: &[u64], answers: &mut [Answer]) -> Status
        ensures { ManyGets (lanes_in self.old.held) keys.now answers.old result answers.new (lanes_in self.new.held) }
    {
        let Some(mut room) = self.take(alloc) else {
            return Status::Closed;
        };
        let status = room.get_many(alloc, keys, answers);
        *self = Lanes::of(room);
        status
    }
}

impl Drop for Lanes {
    fn drop(self) {
        match self.into_parts() {
            None => (),
            Some(parts) => drop(parts.into_box()),
        }
    }
}

unsafe impl Send for Lanes {}
