//! Waiting, for a bounded time, until other threads have made updates.
ghost use Rattle.std.specs.Prelude.{◌≡◌};
ghost use Rattle.seat_table.specs.Seats.{IsQuietSeat};
ghost use Rattle.tree_watch.specs.Snapshots.{OnlyLists};

use crossbeam_utils::Backoff;
use seat_table::{CitrusTable, Seat, WaitPart, steps};
use std::sync::atomic::{AtomicBool, Ordering};

/// How far snapshots stand apart.
#[derive(Drop)]
pub struct Pace<'a> {
    /// How many updates others make between two of them.
    pub updates: u32,
    /// Whether the others have ended. Nobody waits for them then.
    pub ended: &'a AtomicBool,
}

// In so many turns, where other threads have work, at least one of them makes an update; else they are taken to be done.
const TURNS: u32 = 1000;

// Looks at the front, in a section of its own with this key. An odd number says that an update is under way.
fn look_once<W: WaitPart>(table: &CitrusTable<W>, seat: &mut Seat<W>, key: u64) -> u64
    requires table { seat.old.table ≡ table.now }
    requires quiet { IsQuietSeat seat.old }
    ensures seat { seat.new.table ≡ seat.old.table }
    ensures quiet { IsQuietSeat seat.new }
    ensures only { OnlyLists seat.old.view seat.new.view }
{
    W::enter(table, seat, key);
    let front = steps::look_at_front(table, seat);
    W::leave(table, seat);
    front
}

// Gives other threads turns until the front is another than the seat found it last, and answers whether it is; it isn't where they have
// ended or had all turns.
fn is_moved<W: WaitPart>(
    table: &CitrusTable<W>,
    seat: &mut Seat<W>,
    key: u64,
    ended: &AtomicBool,
) -> bool
    requires table { seat.old.table ≡ table.now }
    requires quiet { IsQuietSeat seat.old }
    ensures seat { seat.new.table ≡ seat.old.table }
    ensures quiet { IsQuietSeat seat.new }
    ensures only { OnlyLists seat.old.view seat.new.view }
{
    let last = seat.front_seen();
    let backoff = Backoff::new();
    for _ in 0..TURNS {
        if look_once(table, seat, key) != last {
            return true;
        }
        if ended.load(Ordering::SeqCst) {
            return false;
        }
        backoff.snooze();
    }
    false
}

/// Gives other threads turns until they have made as many updates as the pace says since the seat last looked at the front, have made none
/// for a while, or have ended. It always returns: the front is another one each time that it goes on.
pub(crate) fn pause<W: WaitPart>(
    table: &CitrusTable<W>,
    seat: &mut Seat<W>,
    key: u64,
    pace: &Pace<'_>,
)
    requires table { seat.old.table ≡ table.now }
    requires quiet { IsQuietSeat seat.old }
    ensures seat { seat.new.table ≡ seat.old.table }
    ensures quiet { IsQuietSeat seat.new }
    ensures only { OnlyLists seat.old.view seat.new.view }
{
    let steps = 2 * u64::from(pace.updates);
    let goal = seat.front_seen().saturating_add(steps);
    for _ in 0..steps {
        if seat.front_seen() >= goal {
            return;
        }
        if !is_moved(table, seat, key, pace.ended) {
            return;
        }
    }
}
