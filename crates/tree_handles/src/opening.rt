//! A handle is opened.
ghost use Rattle.std.specs.Prelude.{◌≡◌, ◌≤◌, Some, IfOk};
ghost use Rattle.core_state.specs.Memory.{most_places, most_slots};
ghost use Rattle.tree_handles.specs.Callers.{CallerAt, IsFresh, slots_for};
ghost use Rattle.tree_handles.specs.Opening.{Opens, OpensKeeping, keep_for, options_of, usual_keep};

use crate::any_caller::AnyCaller;
use crate::caller::IN_HAND;
use crate::handle::Handle;
use crate::status::Status;
use prcu_model::NoMemory;
use std::alloc::Global;

/// How many slots a table has at most.
const MOST_SLOTS: u32 = 1_073_741_824;

/// How many handles an index has at most.
const MOST_HANDLES: u32 = 1024;

/// The least retired slots that a place may usually hold back.
const LEAST_USUAL_ROOM: u32 = 64;

/// The most that one may usually hold back: more would be memory that lies idle.
const MOST_USUAL_ROOM: u32 = 65_536;

/// What an opener gives for the usual number.
const USUAL: u32 = 0;

/// The least that one may hold back.
const LEAST_ROOM: u32 = 16;

/// Into how many parts the pairs of a handle are divided, one of which it may usually keep back.
const PARTS: u32 = 8;

/// For how many pairs it is opened at most: so many fit with every number of handles.
const MOST_PAIRS: u32 = MOST_SLOTS - (LEAST_USUAL_ROOM + IN_HAND) * MOST_HANDLES;

/// The number of the last waiter.
const LAST_WAITER: u32 = 2;

/// How many bytes the options take. Who adds an option adds it at their end, takes this size as well as the new one, and reads of a shorter
/// record no more than it has.
const OPTIONS_SIZE: usize = size_of::<Options>();

/// The salt of an index that is opened without one. Who knows the salt of an index can choose keys whose mixes with it fall as the keys rise:
/// then no lift turns a node, the tree is a path, and a call makes as many steps as there are pairs. What the calls answer stays as it is.
const KNOWN_SALT: u64 = 0x9e37_79b9_7f4a_7c15;

/// What an index is opened for. The record begins with its size, so that a library which knows more options goes on with programs that know
/// only these.
#[repr(C)]
#[derive(Clone, Copy, Drop)]
pub struct Options {
    /// The size of this record in bytes, as the caller's program knows it: 32.
    pub size: usize,
    /// How many pairs always fit: 1 to 1,073,672,192. The index has a slot for each, and for each handle four, and as many as it may keep back.
    pub pairs: u32,
    /// How many handles there can be at once: 1 to 1,024.
    pub handles: u32,
    /// 0 looks at each reader, 1 counts readers by class, 2 looks at readers by class.
    pub waiter: u32,
    /// 0, since no flag is known.
    pub flags: u32,
    /// By which the nodes of the tree rise: any number, but best one that was drawn, and that nobody is told who chooses keys.
    pub salt: u64,
}

// How many retired slots a place may hold back, where the opener names none.
fn usual_room(pairs: u32, handles: u32) -> u32
    requires handles { (1 ≤ handles) × (handles ≤ most_places) }
    ensures usual { result ≡ usual_keep pairs handles }
    ensures few { result ≤ 65536 }
{
    let part = (pairs / (PARTS * handles))
        .max(LEAST_USUAL_ROOM)
        .min(MOST_USUAL_ROOM);
    let fitting = (MOST_SLOTS.saturating_sub(pairs) / handles).saturating_sub(IN_HAND);
    part.min(fitting)
}

// What the number stands for that an opener gives.
fn room_for(pairs: u32, handles: u32, keep: u32) -> u32
    requires handles { (1 ≤ handles) × (handles ≤ most_places) }
    ensures { result ≡ keep_for pairs handles keep }
{
    if keep == USUAL {
        return usual_room(pairs, handles);
    }
    keep
}

// How many slots the index has. The numbers may be any, so the sum is one of more bits.
fn slots_of(pairs: u32, handles: u32, room: u32) -> u64
    requires handles { handles ≤ most_places }
    ensures { result ≡ slots_for pairs handles room }
{
    u64::from(pairs) + (u64::from(room) + u64::from(IN_HAND)) * u64::from(handles)
}

impl Handle {
    // A handle on a new index, whose places may hold back so many retired slots.
    fn on_new(alloc: Global, options: &Options, room: u32) -> Result<Handle, NoMemory>
        requires pairs { 1 ≤ options.now.pairs }
        requires handles { (1 ≤ options.now.handles) × (options.now.handles ≤ most_places) }
        requires room { (16 ≤ room) × (room ≤ most_slots) }
        requires fits { slots_for options.now.pairs options.now.handles room ≤ most_slots }
        requires waiter { options.now.waiter ≤ 2 }
        ensures { IfOk result (λ handle. (c : CallerAt) × (handle.held ≡ Some c)
            × IsFresh options.now.waiter options.now.pairs options.now.handles room options.now.salt c) }
    {
        let caller = AnyCaller::new(
            alloc,
            options.pairs,
            options.handles,
            room,
            options.waiter,
            options.salt,
        )?;
        let handle = Handle::new(alloc, caller)?;
        Ok(handle)
    }

    /// Opens the handle as [`Handle::open_with`], on an index each of whose handles may keep back so many slots whose pairs were taken out: 16
    /// or more, or 0 for the usual number, an eighth of the pairs that there are for each handle, but 64 at least and 65,536 at most, and no more
    /// than 2^30 slots allow. An update waits for readers for the sake of slots, or is busy, only where its handle keeps back so many, or where
    /// no slot is free. The index has a slot for each pair, and for each handle so many and four more: with few to keep back there may be more
    /// pairs than [`Handle::open_with`] takes.
    ///
    /// `Done`; `BadArgument` where a number is out of range, or the slots are more than 2^30, and so where the size is any other than 32, or a
    /// flag is set; `NoMemory`. At each answer but `Done` the handle is as it was.
    pub fn open_keeping(&mut self, alloc: Global, options: &Options, keep: u32) -> Status
        ensures opened { OpensKeeping options.now keep self.old.held result self.new.held }
    {
        // Of a record of another size nothing else is read.
        if options.size != OPTIONS_SIZE
            || options.flags != 0
            || options.pairs == 0
            || options.handles == 0
            || options.handles > MOST_HANDLES
            || options.waiter > LAST_WAITER
        {
            return Status::BadArgument;
        }
        let room = room_for(options.pairs, options.handles, keep);
        let slots = slots_of(options.pairs, options.handles, room);
        if room < LEAST_ROOM || slots > u64::from(MOST_SLOTS) {
            return Status::BadArgument;
        }
        let Ok(opened) = Handle::on_new(alloc, options, room) else {
            return Status::NoMemory;
        };
        *self = opened;
        Status::Done
    }

    /// Opens the handle on a new index by these options, each of whose handles may keep back the usual number of slots, as
    /// [`Handle::open_keeping`] tells. The handle has all 2^57 tickets. What it was open on before is closed.
    ///
    /// `Done`; `BadArgument` where a number is out of range, and so where the size is any other than 32, or a flag is set; `NoMemory`. At each
    /// answer but `Done` the handle is as it was.
    pub fn open_with(&mut self, alloc: Global, options: &Options) -> Status
        ensures opened { Opens options.now self.old.held result self.new.held }
    {
        if options.size == OPTIONS_SIZE && options.pairs > MOST_PAIRS {
            return Status::BadArgument;
        }
        self.open_keeping(alloc, options, USUAL)
    }

    /// Opens the handle as [`Handle::open_with`], with a salt that is the same for all, and which who has the library knows.
    pub fn open(&mut self, alloc: Global, pairs: u32, handles: u32, waiter: u32) -> Status
        ensures opened { Opens (options_of pairs handles waiter) self.old.held result self.new.held }
    {
        let options = Options {
            size: OPTIONS_SIZE,
            pairs,
            handles,
            waiter,
            flags: 0,
            salt: KNOWN_SALT,
        };
        self.open_with(alloc, &options)
    }
}
