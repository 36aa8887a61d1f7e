//! A handle becomes two.
ghost use Rattle.std.specs.Prelude.{◌≡◌, ◌≤◌, ◌<◌, false, IfNone, IfSome};
ghost use Rattle.tree_handles.specs.Callers.{IsShared, MayGoOn};
ghost use Rattle.tree_handles.specs.Opening.{Shares};

use crate::any_caller::AnyCaller;
use crate::handle::Handle;
use crate::status::Status;
use core::mem::replace_with;
use std::alloc::Global;

// How many handles and tickets go over to the second caller.
#[derive(Drop)]
struct Portion {
    alloc: Global,
    handles: u32,
    tickets: u64,
}

// The caller moves into new memory, and the second one takes its place. So where no memory is there, nothing has changed yet.
fn move_out(caller: AnyCaller, portion: Portion) -> (AnyCaller, Option<Box<AnyCaller>>)
    requires may { MayGoOn caller }
    requires handles { (1 ≤ portion.handles) × (portion.handles < caller.seat.view.allowance.places) }
    requires tickets { portion.tickets ≤ caller.seat.view.allowance.tickets }
    ensures none { IfNone result.1 (result.0 ≡ caller) }
    ensures shared { IfSome result.1 (λ first. IsShared caller portion.handles portion.tickets first.value result.0) }
{
    let mut first = match Box::new(portion.alloc, caller) {
        Ok(first) => first,
        Err(refused) => return (refused.value, None),
    };
    match first.share(portion.alloc, portion.handles, portion.tickets) {
        Some(second) => (second, Some(first)),
        None => (Box::into_inner(first), None),
    }
}

/// `other` becomes a second handle of the caller's index, with so many of its unused handles and tickets.
pub(crate) fn share(
    alloc: Global,
    mut caller: Box<AnyCaller>,
    handles: u32,
    tickets: u64,
    other: &mut Handle,
) -> (Box<AnyCaller>, Status)
    ensures { Shares caller.value handles tickets other.old.held result.1 result.0.value other.new.held }
{
    if let Some(status) = caller.stopped() {
        return (caller, status);
    }
    if handles == 0 || handles > caller.unused() || tickets > caller.tickets() {
        return (caller, Status::BadArgument);
    }
    let portion = Portion {
        alloc,
        handles,
        tickets,
    };
    match replace_with(&mut *caller, portion, move_out) {
        Some(first) => {
            *other = Handle::of(caller);
            (first, Status::Done)
        }
        None => (caller, Status::NoMemory),
    }
}
