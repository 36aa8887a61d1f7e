//! Sections and waits of the first waiter.
ghost use Rattle.std.specs.Prelude.{◌≡◌, ◌+◌, ◌<◌, true, IfNone, IfSome};
ghost use Rattle.core_state.specs.declared.words.Field.TheVariants.{Stamp};
ghost use Rattle.seat_table.specs.Seats.{shape_of};
ghost use Rattle.seat_table.specs.Waits.{IsLatestOf, StopsAt, reached};
ghost use Rattle.seat_table.specs.Looks.{HasPassed, HasMet, LooksAt, FindsNone, FindsOnce};

use key_interval::Keys;
use prcu_marks::Why;
use seat_table::{CitrusTable, Grace, Poll, Seat, WaitPart, WaitWords, steps};

/// The waiter that looks at the key and the stamp of each reader. A reader announces its key and then stores the clock that it
/// loaded as its stamp. A wait goes over all places.
pub struct Eer;

impl WaitWords for Eer {
    ghost WAY = { 0 };

    const WAY: u32 = 0;
}

// Looks at the place that the grace has come to, the last one or another, and answers what stands in the wait's way there.
fn look(
    table: &CitrusTable<Eer>,
    seat: &mut Seat<Eer>,
    grace: &Grace<Eer>,
    last: bool,
) -> Option<Why>
    requires table { seat.old.table ≡ table.now }
    requires latest { IsLatestOf (shape_of 0 table.now) grace.now seat.old.view }
    requires inside { grace.now.place < table.now.places }
    requires end { last ≡ true → grace.now.place + 1 ≡ table.now.places }
    ensures seat { (seat.new.table ≡ seat.old.table) × (seat.new.listed ≡ seat.old.listed) }
    ensures passed { IfNone result (HasPassed seat.old.view last (Stamp grace.now.place) seat.new.view) }
    ensures met { IfSome result (λ why. HasMet seat.old.view why seat.new.view) }
    ensures there { IfSome result (λ why. StopsAt (reached grace.now) why) }
    ensures spot { LooksAt (λ field. field ≡ Stamp grace.now.place) seat.old.view seat.new.view }
    ensures clear { IfNone result (FindsNone grace.now.keys grace.now.clock seat.old.view seat.new.view) }
    ensures once { IfSome result (λ why. FindsOnce grace.now.keys grace.now.clock seat.old.view why seat.new.view) }
{
    let place = grace.place;
    let key = steps::look_key(table, seat, place, last);
    if !grace.keys.holds(key) {
        return None;
    }
    let stamp = steps::look_stamp(table, seat, place, last);
    // A stamp above the wait's clock was loaded after the wait began, so its section came later. docs/TREE.md#the-tree
    if stamp == u64::MAX || grace.clock < stamp {
        return None;
    }
    Some(Why::Reader { place, key, stamp })
}

impl WaitPart for Eer {
    fn enter(table: &CitrusTable<Eer>, seat: &mut Seat<Eer>, key: u64) {
        // The clock is loaded before the section is entered: so the stamp isn't above the clock of a wait that begins later, and that wait
        // waits for it. docs/TREE_INVARIANT.md#the-invariant-of-the-tree
        let stamp = steps::load_clock(table, seat);
        // The key stands before the stamp: a wait that still loads the old key began before this section is entered, and isn't for it.
        steps::announce_key(table, seat, key);
        steps::enter_by_stamp(table, seat, key, stamp);
    }

    fn leave(table: &CitrusTable<Eer>, seat: &mut Seat<Eer>) {
        steps::leave_by_stamp(table, seat);
    }

    fn begin(table: &CitrusTable<Eer>, seat: &mut Seat<Eer>, keys: Keys) -> Grace<Eer> {
        let clock = steps::begin_wait(table, seat, keys);
        Grace::new(keys, clock)
    }

    fn poll(table: &CitrusTable<Eer>, seat: &mut Seat<Eer>, grace: &mut Grace<Eer>) -> Poll {
        let last = table.places() - 1;
        for place in grace.place..last {
            grace.place = place;
            if let Some(why) = look(table, seat, grace, false) {
                return Poll::NotYet { why };
            }
        }
        grace.place = last;
        if let Some(why) = look(table, seat, grace, true) {
            return Poll::NotYet { why };
        }
        Poll::Over
    }
}
