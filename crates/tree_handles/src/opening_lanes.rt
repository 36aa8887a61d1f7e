//! A handle opens lanes.
ghost use Rattle.std.specs.Prelude.{◌≡◌};
ghost use Rattle.tree_handles.specs.Lanes.{OpensLanes, lanes_in};

use crate::any_caller::AnyCaller;
use crate::lane_room::LaneRoom;
use crate::lanes::Lanes;
use crate::status::Status;
use std::alloc::Global;

/// How many lanes there are together at most.
pub(crate) const MOST_LANES: u32 = 8;

/// `lanes`, which are closed, become so many lanes of the caller's index, each with one of its unused handles and no ticket.
pub(crate) fn open_lanes(
    alloc: Global,
    caller: &mut AnyCaller,
    count: u32,
    lanes: &mut Lanes,
) -> Status
    ensures { OpensLanes caller.old count (lanes_in lanes.old.held) result caller.new (lanes_in lanes.new.held) }
{
    if let Some(status) = caller.stopped() {
        return status;
    }
    if lanes.is_open(alloc) || count == 0 || count > MOST_LANES || count > caller.unused() {
        return Status::BadArgument;
    }
    let Ok(mut room) = Box::new(alloc, LaneRoom::empty()) else {
        return Status::NoMemory;
    };
    let Some(opened) = caller.lanes(alloc, count) else {
        return Status::NoMemory;
    };
    room.fill(opened);
    *lanes = Lanes::of(room);
    Status::Done
}
