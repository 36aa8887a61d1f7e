//! Where a step is blocked.
ghost use Rattle.std.specs.Prelude.{◌≡◌};
ghost use Rattle.core_machine.specs.Machines.{at_lock, blocked as blocked_at};
ghost use Rattle.core_machine.specs.Stored.{own_of};

use crate::caller::{Caller, or_root};
use crate::plan::target_lock;
use core_points::stage::Stage;
use prcu_marks::Why;

impl Caller {
    /// Where the step was blocked that found this number.
    pub(crate) fn blocked(&self, number: u64) -> Option<Why>
        ensures { result ≡ blocked_at (own_of self.now) number self.now.stage }
    {
        match self.stage {
            Stage::LeafLock { spot } => at_lock(spot.slot, number),
            Stage::SetLock { slot, .. } => at_lock(slot, number),
            Stage::TargetLock { target, at } => at_lock(target_lock(target, at), number),
            Stage::CopyLock { .. } => at_lock(or_root(self.spare), number),
            Stage::Commit { expected, .. } => {
                if number != expected && number % 2 == 1 {
                    Some(Why::Front { value: number })
                } else {
                    None
                }
            }
            Stage::LookStamp {
                clock,
                place,
                key,
                ..
            } => {
                if number == u64::MAX || clock < number {
                    None
                } else {
                    Some(Why::Reader {
                        place,
                        key,
                        stamp: number,
                    })
                }
            }
            _ => None,
        }
    }
}

fn at_lock(slot: u32, number: u64) -> Option<Why>
    ensures { result ≡ at_lock slot number }
{
    if number == 0 {
        None
    } else {
        Some(Why::Lock { slot })
    }
}
