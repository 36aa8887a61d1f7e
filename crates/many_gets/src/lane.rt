//! One of the lookups that are made beside each other.
ghost use Rattle.std.specs.Prelude.{◌≡◌, ◌≢◌, ℕ, ◌+◌, ◌<◌, ◌≤◌, false, true, List, None, length, slice_index_or};
ghost use Rattle.std.specs.declared.option.Option.{Option};
ghost use Rattle.seat_table.specs.Sections.{HasStepped};
ghost use Rattle.seat_table.specs.Seats.{SeatAt, IsQuietSeat, shape_of};
ghost use Rattle.many_gets.specs.Many.{HasCome, HasGot, IsAt, IsLane, Sought};

use citrus_tree::{Step, load_links, look_on};
use prcu_marks::Side;
use seat_table::{CitrusTable, Part, Seat, WaitPart, steps};

/// The key that a seat looks up, at which index it stands, and the link by which the search goes on. Or there is no search, and the seat is
/// outside a section.
// The slot and the side of that link aren't needed any more. So a turn begins with the one load that has to wait for memory.
#[derive(Clone, Copy)]
pub(crate) struct Lane {
    index: usize,
    key: u64,
    ahead: u32,
    searches: bool,
}

impl Lane {
    /// Of a seat that is outside a section.
    pub(crate) fn outside(index: usize) -> Lane
        ensures index { result.index ≡ index }
        ensures outside { result.searches ≡ false }
    {
        Lane {
            index,
            key: 0,
            ahead: 0,
            searches: false,
        }
    }
}

/// Enters a section with the key of that index, and loads the links of the root. Where there is no such key the seat stays outside.
pub(crate) fn enter<W: WaitPart>(
    table: &CitrusTable<W>,
    seat: &mut Seat<W>,
    keys: &[u64],
    index: usize,
) -> Lane
    requires table { seat.old.table ≡ table.now }
    requires quiet { IsQuietSeat seat.old }
    ensures seat { (seat.new.table ≡ seat.old.table) × (seat.new.listed ≡ seat.old.listed) }
    ensures index { result.index ≡ index }
    ensures at { IsAt W.WAY table.now keys.now index seat.old result seat.new }
    ensures stepped { result.searches ≡ true → HasStepped seat.old.view seat.new.view }
    ensures more { length seat.old.view.trail.steps ≤ length seat.new.view.trail.steps }
{
    if index >= keys.len() {
        return Lane::outside(index);
    }
    let key = keys[index];
    W::enter(table, seat, key);
    let links = load_links(table, seat, 0, Side::Right);
    Lane {
        index,
        key,
        ahead: links.ahead,
        searches: true,
    }
}

/// Loads the value of the slot that was found, if one was, leaves the section, and notes the answer at the key's index.
fn leave<W: WaitPart>(
    table: &CitrusTable<W>,
    seat: &mut Seat<W>,
    found: Option<u32>,
    answers: &mut [Option<u64>],
    index: usize,
)
    requires table { seat.old.table ≡ table.now }
    requires come { (keys : List ℕ) × (s : SeatAt) × (length answers.old ≡ length keys)
        × Sought keys index s (HasCome (shape_of W.WAY table.now) found) seat.old }
    ensures seat { (seat.new.table ≡ seat.old.table) × (seat.new.listed ≡ seat.old.listed) }
    ensures got { (keys : List ℕ) (s : SeatAt) → length answers.old ≡ length keys
        → Sought keys index s (HasCome (shape_of W.WAY table.now) found) seat.old → HasGot (shape_of W.WAY table.now) keys answers.new index s seat.new }
    ensures others { (i : ℕ) → i ≢ index → slice_index_or answers.new i None ≡ slice_index_or answers.old i None }
    ensures more { length seat.old.view.trail.steps ≤ length seat.new.view.trail.steps }
{
    match found {
        Some(slot) => {
            // Without a lock: a node that is unlinked by now keeps its value, and that was the key's at a front of this section.
            // docs/TREE.md#why-a-get-beside-a-delete-is-right
            let value = steps::search_load(table, seat, slot, Part::Value);
            W::leave(table, seat);
            answers[index] = Some(value);
        }
        None => {
            W::leave(table, seat);
            answers[index] = None;
        }
    }
}

/// Ends the lookup, which found the key in that slot or came to an empty side: leaves the section, notes the answer, and enters the next one
/// with the key that stands `count` further on, if there is one. It answers whether there is.
// Out of the way of the hops.
#[cold]
#[inline(never)]
fn take_next<W: WaitPart>(
    table: &CitrusTable<W>,
    seat: &mut Seat<W>,
    lane: &mut Lane,
    found: Option<u32>,
    keys: &[u64],
    answers: &mut [Option<u64>],
    count: usize,
) -> bool
    requires table { seat.old.table ≡ table.now }
    requires few { count ≤ 8 }
    requires come { (s : SeatAt) × IsQuietSeat s × (length answers.old ≡ length keys.now)
        × Sought keys.now lane.old.index s (HasCome (shape_of W.WAY table.now) found) seat.old }
    ensures seat { (seat.new.table ≡ seat.old.table) × (seat.new.listed ≡ seat.old.listed) }
    ensures searches { result ≡ lane.new.searches }
    ensures index { lane.new.index ≡ lane.old.index + count }
    ensures next { (s : SeatAt) → length answers.old ≡ length keys.now
        → Sought keys.now lane.old.index s (HasCome (shape_of W.WAY table.now) found) seat.old
        → (x : SeatAt) × HasGot (shape_of W.WAY table.now) keys.now answers.new lane.old.index s x
        × IsAt W.WAY table.now keys.now (lane.old.index + count) x lane.new seat.new }
    ensures others { (i : ℕ) → i ≢ lane.old.index → slice_index_or answers.new i None ≡ slice_index_or answers.old i None }
    ensures stepped { result ≡ true → HasStepped seat.old.view seat.new.view }
    ensures more { length seat.old.view.trail.steps ≤ length seat.new.view.trail.steps }
{
    let index = lane.index;
    leave(table, seat, found, answers, index);
    *lane = enter(table, seat, keys, index + count);
    lane.searches
}

/// A hop of the search that is under way; where it was the last one, the next lookup begins. It answers whether a search is under way then.
// A call would hand its answer through memory.
#[inline(always)]
pub(crate) fn take_turn<W: WaitPart>(
    table: &CitrusTable<W>,
    seat: &mut Seat<W>,
    lane: &mut Lane,
    keys: &[u64],
    answers: &mut [Option<u64>],
    count: usize,
) -> bool
    requires table { seat.old.table ≡ table.now }
    requires few { count ≤ 8 }
    requires is { (number : ℕ) × (s : SeatAt) × (number < count) × (length answers.old ≡ length keys.now)
        × IsLane W.WAY table.now keys.now answers.old count number s lane.old seat.old }
    ensures seat { (seat.new.table ≡ seat.old.table) × (seat.new.listed ≡ seat.old.listed) }
    ensures is { (number : ℕ) (s : SeatAt) → number < count → length answers.old ≡ length keys.now
        → IsLane W.WAY table.now keys.now answers.old count number s lane.old seat.old
        → IsLane W.WAY table.now keys.now answers.new count number s lane.new seat.new }
    ensures others { (i : ℕ) → i ≢ lane.old.index → slice_index_or answers.new i None ≡ slice_index_or answers.old i None }
    ensures over { result ≡ false → lane.new.searches ≡ false }
    ensures stepped { result ≡ true → HasStepped seat.old.view seat.new.view }
    ensures more { length seat.old.view.trail.steps ≤ length seat.new.view.trail.steps }
{
    if !lane.searches {
        return false;
    }
    match look_on(table, seat, lane.key, lane.ahead, None) {
        Step::Moved { slot, side } => {
            lane.ahead = load_links(table, seat, slot, side).ahead;
            true
        }
        Step::Found { slot } => take_next(table, seat, lane, Some(slot), keys, answers, count),
        Step::Ended => take_next(table, seat, lane, None, keys, answers, count),
    }
}
