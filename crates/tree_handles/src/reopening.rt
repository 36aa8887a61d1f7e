//! A closed handle takes the place of one that was closed before.
ghost use Rattle.tree_handles.specs.Opening.{Reopens};

use crate::any_caller::AnyCaller;
use crate::handle::Handle;
use crate::status::Status;
use std::alloc::Global;

/// `other`, where it is closed, becomes a handle of the caller's index, with a place and tickets that a handle left.
pub(crate) fn reopen(alloc: Global, caller: &AnyCaller, other: &mut Handle) -> Status
    ensures { Reopens caller.now other.old.held result caller.now other.new.held }
{
    if let Some(status) = caller.stopped() {
        return status;
    }
    if let Some(open) = other.take(alloc) {
        *other = Handle::of(open);
        return Status::BadArgument;
    }
    let reopened = match caller.reopen() {
        Ok(reopened) => reopened,
        Err(status) => return status,
    };
    // Where no memory is there for it, the caller is dropped, and so leaves its seat again.
    let Ok(handle) = Handle::new(alloc, reopened) else {
        return Status::NoMemory;
    };
    *other = handle;
    Status::Done
}
