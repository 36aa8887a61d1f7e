//! The callers whose scripts haven't ended.
ghost use Rattle.std.specs.Prelude.{◌≡◌, ◌≤◌, length, map};
ghost use Rattle.core_machine.specs.Runs.{unfinished_from};
ghost use Rattle.core_machine.specs.Stored.{own_of};

use crate::caller::Caller;
use arrayvec::ArrayVec;

/// The callers whose scripts haven't ended, ascending.
pub(crate) fn list_unfinished(callers: &[Caller]) -> ArrayVec<u32, 64>
    requires { length callers.now ≤ 64 }
    ensures { result.items ≡ unfinished_from 0 (map own_of callers.now) }
{
    let mut left = ArrayVec::new();
    for i in 0..callers.len() {
        if !callers[i].is_finished() {
            left.push(i as u32);
        }
    }
    left
}
