//! Buckets: their locks, their lists, and the wait for the readers of their class.
ghost use Rattle.std.specs.Prelude.{◌≡◌, ◌<◌, None};
ghost use Rattle.hash_core.specs.Steps.{IsQuiet};
ghost use Rattle.class_hash.specs.Answers.{IsInformed};
ghost use Rattle.class_hash.specs.Calls.{Tries, Unlocks, HasFinished, Lists, MayPoll, Polls};

use crate::seat::HashSeat;
use crate::steps;
use crate::table::HashTable;
use hash_core::Field;
use prcu_marks::Why;

/// What `try_bucket` answers.
#[derive(Clone, Copy, Debug, PartialEq, Eq)]
pub enum Lock {
    /// The lock was free, and is the seat's now.
    Held,
    /// The place of who holds it, plus 1.
    Busy { found: u64 },
}

/// What `poll_class` answers.
#[derive(Clone, Copy, Debug, PartialEq, Eq)]
pub enum Poll {
    /// No reader of the class was found.
    Over,
    NotYet { why: Why },
}

/// Tries once to lock the bucket of a class: `Held` comes exactly where its lock was free, `Busy` exactly where it was
/// held. Nothing is begun under a lock that was just taken.
pub fn try_bucket(table: &HashTable, seat: &mut HashSeat, class: u32) -> Lock
    requires table { seat.old.table ≡ table.now.id }
    requires quiet { IsQuiet seat.old.view }
    requires class { class < 64 }
    ensures table { seat.new.table ≡ seat.old.table }
    ensures view { Tries table.now seat.old.view class result seat.new.view }
    ensures commit { seat.old.view.commit ≡ None }
    ensures held { result ≡ Lock.Held → HasFinished seat.new.view }
{
    match steps::lock(table, seat, class) {
        0 => Lock::Held,
        found => Lock::Busy { found },
    }
}

/// Unlocks the bucket.
pub fn free_bucket(table: &HashTable, seat: &mut HashSeat)
    requires table { seat.old.table ≡ table.now.id }
    requires finished { HasFinished seat.old.view }
    ensures table { seat.new.table ≡ seat.old.table }
    ensures view { Unlocks seat.old.view seat.new.view }
    ensures informed { IsInformed table.now.capacities table.now.places seat.new.view }
{
    steps::unlock(table, seat);
}

/// Loads the first free and the first retired slot of the bucket's class, 0 where there is none.
pub fn lists(table: &HashTable, seat: &mut HashSeat) -> (u64, u64)
    requires table { seat.old.table ≡ table.now.id }
    requires finished { HasFinished seat.old.view }
    ensures table { seat.new.table ≡ seat.old.table }
    ensures view { Lists table.now.capacities seat.old.view result.0 result.1 seat.new.view }
{
    let class = seat.class_held();
    let free = steps::locked_load(table, seat, Field::Free { class });
    let retired = steps::locked_load(table, seat, Field::Retired { class });
    (free, retired)
}

/// Looks once for readers of the bucket's class. `Over` comes exactly where there is none: the retired list, whose slots
/// none can come to now, is then the free list. `NotYet` names how many there are, at least 1, and nothing changed.
///
/// What was begun under the lock is to be finished, as each call leaves it: the retired list is in the seat's hand between the two
/// stores that move it, and a hand holds one list at a time. So a lock that is held after it may be given up, as before it.
pub fn poll_class(table: &HashTable, seat: &mut HashSeat) -> Poll
    requires table { seat.old.table ≡ table.now.id }
    requires lists { MayPoll seat.old.view }
    ensures table { seat.new.table ≡ seat.old.table }
    ensures view { Polls seat.old.view result seat.new.view }
{
    let class = seat.class_held();
    let first = seat.first_retired();
    let count = steps::load_readers(table, seat);
    if count != 0 {
        return Poll::NotYet {
            why: Why::Counter {
                class,
                side: 0,
                count,
            },
        };
    }
    steps::take_retired(table, seat, first);
    steps::free_retired(table, seat, first);
    Poll::Over
}
