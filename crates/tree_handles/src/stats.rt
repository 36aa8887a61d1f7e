//! What a handle tells of itself and of its index, without a step on the tree.
ghost use Rattle.tree_handles.specs.Opening.{TellsStats};

use crate::any_caller::AnyCaller;
use crate::status::Status;

/// How many bytes what a handle tells takes. Who adds a number adds it at the end, takes this size as well as the new one, and writes of a
/// shorter record no more than it has.
const STATS_SIZE: usize = size_of::<Stats>();

/// What a handle tells of itself and of its index. The record begins with its size, so that a library which tells more goes on with programs
/// that know only these.
#[repr(C)]
#[derive(Clone, Copy, Drop)]
pub struct Stats {
    /// The size of this record in bytes, as the caller's program knows it: 64.
    pub size: usize,
    /// How many slots can be free: as many as are free while the index is empty and no handle keeps one back.
    pub slots: u64,
    /// How many slots were free when this handle last took a free one or gave one back; `slots` where it did neither yet.
    pub free: u64,
    /// How many waits for readers this handle and those that were joined to it began.
    pub waits: u64,
    /// How many tickets it has.
    pub tickets: u64,
    /// How many slots it keeps back, whose pairs were taken out, until the readers are gone that may stand there.
    pub kept: u64,
    /// How many it keeps back at most.
    pub room: u64,
    /// How many handles there can be at once.
    pub handles: u32,
    /// How many more of them can be shared from this one.
    pub unshared: u32,
}

/// Writes the numbers of the caller, where the record has the size that is known.
pub(crate) fn tell(caller: &AnyCaller, stats: &mut Stats) -> Status
    ensures { TellsStats caller.now stats.old result stats.new caller.now }
{
    if stats.size != STATS_SIZE {
        return Status::BadArgument;
    }
    *stats = caller.stats(stats.size);
    Status::Done
}
