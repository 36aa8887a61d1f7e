//! Lookups beside each other, and the turns that they take.
ghost use Rattle.std.specs.Prelude.{◌≡◌, ℕ, ◌<◌, ◌≤◌, false, true, List, length};
ghost use Rattle.std.specs.declared.option.Option.{Option};
ghost use Rattle.list_laws.specs.Counts.{Each};
ghost use Rattle.seat_table.specs.Seats.{SeatAt, IsQuietSeat, shape_of};
ghost use Rattle.many_gets.specs.Many.{AreLanes, AreOver, AreKept, LooksUpAll, steps_of};
ghost use Rattle.many_gets.specs.declared.lane.Lane.{Lane};

use crate::lane::{Lane, enter, take_turn};
use seat_table::{CitrusTable, Seat, WaitPart};

/// How many lookups are made beside each other at most.
pub const MOST_LANES: usize = 8;

/// Looks up each of the keys, and writes its value, or `None`, at its index: the dictionary gave it at some time of the call. Each seat
/// looks up one key after another, each in a section of its own: the first seat the first key, and each then the one that stands as many
/// further on as there are seats. They take turns, and a turn is one hop of a search: so a processor waits for the words of all of them
/// together. It takes no lock and waits for nobody's step. Others' updates can make a search longer, but it stands at no slot twice: each
/// lookup makes at most three steps for each slot of the table, and four. All seats begin and end outside a section.
pub fn get_many<W: WaitPart>(
    table: &CitrusTable<W>,
    seats: &mut [Seat<W>],
    keys: &[u64],
    answers: &mut [Option<u64>],
)
    requires seats { (1 ≤ length seats.old) × (length seats.old ≤ MOST_LANES) }
    requires table { Each seats.old (λ (s : SeatAt). s.table ≡ table.now) }
    requires quiet { Each seats.old IsQuietSeat }
    requires room { length answers.old ≡ length keys.now }
    ensures kept { AreKept seats.old seats.new }
    ensures looked_up { LooksUpAll (shape_of W.WAY table.now) keys.now answers.new seats.old seats.new }
    ensures quiet { Each seats.new IsQuietSeat }
{
    let mut lanes = [Lane::outside(0); MOST_LANES];
    enter_all(table, seats, &mut lanes, keys);
    while take_turns(table, seats, &mut lanes, keys, answers) {}
}

// Each seat enters a section with its first key, if it has one.
fn enter_all<W: WaitPart>(
    table: &CitrusTable<W>,
    seats: &mut [Seat<W>],
    lanes: &mut [Lane],
    keys: &[u64],
)
    requires lanes { length seats.old ≤ length lanes.old }
    requires outside { Each lanes.old (λ (lane : Lane). lane.searches ≡ false) }
    requires table { Each seats.old (λ (s : SeatAt). s.table ≡ table.now) }
    requires quiet { Each seats.old IsQuietSeat }
    ensures table { Each seats.new (λ (s : SeatAt). s.table ≡ table.now) }
    ensures kept { AreKept seats.old seats.new }
    ensures are { (answers : List (Option ℕ)) → length answers ≡ length keys.now
        → AreLanes W.WAY table.now keys.now answers seats.old lanes.new seats.new }
{
    for n in 0..seats.len() {
        lanes[n] = enter(table, &mut seats[n], keys, n);
    }
}

// A turn of each seat. It answers whether any search is under way then.
fn take_turns<W: WaitPart>(
    table: &CitrusTable<W>,
    seats: &mut [Seat<W>],
    lanes: &mut [Lane],
    keys: &[u64],
    answers: &mut [Option<u64>],
) -> bool
    requires lanes { length seats.old ≤ length lanes.old }
    requires few { length seats.old ≤ MOST_LANES }
    requires table { Each seats.old (λ (s : SeatAt). s.table ≡ table.now) }
    requires are { (before : List SeatAt) × AreLanes W.WAY table.now keys.now answers.old before lanes.old seats.old }
    ensures table { Each seats.new (λ (s : SeatAt). s.table ≡ table.now) }
    ensures kept { AreKept seats.old seats.new }
    ensures are { (before : List SeatAt) → AreLanes W.WAY table.now keys.now answers.old before lanes.old seats.old
        → AreLanes W.WAY table.now keys.now answers.new before lanes.new seats.new }
    ensures over { result ≡ false → AreOver (length seats.new) lanes.new }
    ensures stepped { result ≡ true → steps_of seats.old < steps_of seats.new }
{
    let count = seats.len();
    let mut busy = false;
    for n in 0..count {
        busy |= take_turn(table, &mut seats[n], &mut lanes[n], keys, answers, count);
    }
    busy
}
