//! Sections and waits of the third waiter.
ghost use Rattle.std.specs.Prelude.{◌≡◌, ◌≢◌, ◌⊎◌, ◌+◌, ◌<◌, ◌≤◌, true, false, IfNone, IfSome};
ghost use Rattle.core_state.specs.declared.words.Field.TheVariants.{Row};
ghost use Rattle.key_interval.specs.Keys.{MeetsClass, IsLastClass};
ghost use Rattle.seat_table.specs.Seats.{shape_of};
ghost use Rattle.seat_table.specs.declared.wait.Poll.TheVariants.{NotYet};
ghost use Rattle.seat_table.specs.Waits.{IsLatestOf, IsGoingOn, Polled, StopsAt, reached};
ghost use Rattle.seat_table.specs.Looks.{HasPassed, HasMet, LooksAt, FindsNone, FindsOnce};
ghost use Rattle.waiters.specs.Classes.{IsImage, IsRowFrom, HasEach, HasSkipped, StaysAtPlace};

use crate::image::{Image, image_of};
use key_interval::{Keys, class_of};
use prcu_marks::Why;
use seat_table::{CitrusTable, Grace, Poll, Seat, WaitPart, WaitWords, steps};

/// The waiter that looks at the stamps of each reader by class. A reader stores the clock that it loaded as its stamp of its key's
/// class. A wait goes over all places, and at each over the classes of its keys.
pub struct Deer;

impl WaitWords for Deer {
    ghost WAY = { 2 };

    const WAY: u32 = 2;
}

// Looks at the place that the grace has come to, in the class that it has come to, the last one or another, and answers what
// stands in the wait's way there.
fn look(
    table: &CitrusTable<Deer>,
    seat: &mut Seat<Deer>,
    grace: &Grace<Deer>,
    last: bool,
) -> Option<Why>
    requires table { seat.old.table ≡ table.now }
    requires latest { IsLatestOf (shape_of 2 table.now) grace.now seat.old.view }
    requires inside { grace.now.place < table.now.places }
    requires met { MeetsClass grace.now.keys grace.now.class }
    requires end { last ≡ true → (grace.now.place + 1 ≡ table.now.places) × IsLastClass grace.now.keys grace.now.class }
    ensures seat { (seat.new.table ≡ seat.old.table) × (seat.new.listed ≡ seat.old.listed) }
    ensures passed { IfNone result (HasPassed seat.old.view last (Row grace.now.place grace.now.class) seat.new.view) }
    ensures met { IfSome result (λ why. HasMet seat.old.view why seat.new.view) }
    ensures there { IfSome result (λ why. StopsAt (reached grace.now) why) }
    ensures spot { LooksAt (λ field. field ≡ Row grace.now.place grace.now.class) seat.old.view seat.new.view }
    ensures clear { IfNone result (FindsNone grace.now.keys grace.now.clock seat.old.view seat.new.view) }
    ensures once { IfSome result (λ why. FindsOnce grace.now.keys grace.now.clock seat.old.view why seat.new.view) }
{
    let place = grace.place;
    let class = grace.class;
    let stamp = steps::look_row(table, seat, place, class, last);
    if !is_early(stamp, grace.clock) {
        return None;
    }
    Some(Why::Row {
        place,
        class,
        stamp,
    })
}

// Whether a stamp may be that of a section that was entered before the wait with this clock began. Idle is the greatest number, so that
// one comparison tells.
fn is_early(stamp: u64, clock: u64) -> bool
    ensures early { result ≡ true → (stamp ≢ 18446744073709551615) × (stamp ≤ clock) }
    ensures late { result ≡ false → (stamp ≡ 18446744073709551615) ⊎ (clock < stamp) }
{
    stamp < clock.saturating_add(1)
}

// Passes the classes at the grace's place that are below that one; or answers what stands in the wait's way there.
fn pass(
    table: &CitrusTable<Deer>,
    seat: &mut Seat<Deer>,
    grace: &mut Grace<Deer>,
    end: u32,
) -> Option<Why>
    requires table { seat.old.table ≡ table.now }
    requires latest { IsLatestOf (shape_of 2 table.now) grace.old seat.old.view }
    requires inside { grace.old.place < table.now.places }
    requires each { HasEach grace.old end }
    requires small { end < 64 }
    ensures seat { (seat.new.table ≡ seat.old.table) × (seat.new.listed ≡ seat.old.listed) }
    ensures grace { StaysAtPlace grace.old grace.new }
    ensures passed { IfNone result ((end ≤ grace.new.class) × IsGoingOn (shape_of 2 table.now) seat.old.view grace.new seat.new.view) }
    ensures met { IfSome result (λ why. Polled (shape_of 2 table.now) seat.old.view (NotYet why) grace.new seat.new.view) }
    ensures onward { LooksAt (IsRowFrom grace.old.place grace.old.class) seat.old.view seat.new.view }
    ensures later { grace.old.class ≤ grace.new.class }
    ensures clear { IfNone result (FindsNone grace.old.keys grace.old.clock seat.old.view seat.new.view) }
    ensures once { IfSome result (λ why. FindsOnce grace.old.keys grace.old.clock seat.old.view why seat.new.view) }
{
    for class in grace.class..end {
        if let Some(why) = look(table, seat, grace, false) {
            return Some(why);
        }
        grace.class = class + 1;
    }
    None
}

// The grace comes to that class, unless it has come to a later one.
fn skip_gap(grace: &mut Grace<Deer>, from: u32)
    ensures { HasSkipped from grace.old grace.new }
{
    if grace.class < from {
        grace.class = from;
    }
}

// Passes the classes at the grace's place before the last one, and comes to that; or answers what stands in the wait's way there.
fn come_to_last(
    table: &CitrusTable<Deer>,
    seat: &mut Seat<Deer>,
    grace: &mut Grace<Deer>,
    image: &Image,
) -> Option<Why>
    requires table { seat.old.table ≡ table.now }
    requires latest { IsLatestOf (shape_of 2 table.now) grace.old seat.old.view }
    requires inside { grace.old.place < table.now.places }
    requires image { IsImage grace.old.keys image.now }
    ensures seat { (seat.new.table ≡ seat.old.table) × (seat.new.listed ≡ seat.old.listed) }
    ensures grace { StaysAtPlace grace.old grace.new }
    ensures passed { IfNone result ((grace.new.class ≡ image.now.last)
        × IsGoingOn (shape_of 2 table.now) seat.old.view grace.new seat.new.view) }
    ensures met { IfSome result (λ why. Polled (shape_of 2 table.now) seat.old.view (NotYet why) grace.new seat.new.view) }
    ensures onward { LooksAt (IsRowFrom grace.old.place grace.old.class) seat.old.view seat.new.view }
    ensures clear { IfNone result (FindsNone grace.old.keys grace.old.clock seat.old.view seat.new.view) }
    ensures once { IfSome result (λ why. FindsOnce grace.old.keys grace.old.clock seat.old.view why seat.new.view) }
{
    if let Some(why) = pass(table, seat, grace, image.below) {
        return Some(why);
    }
    skip_gap(grace, image.from);
    if let Some(why) = pass(table, seat, grace, image.last) {
        return Some(why);
    }
    grace.class = image.last;
    None
}

// Passes the grace's place, which isn't the last one; or answers what stands in the wait's way there.
fn pass_place(
    table: &CitrusTable<Deer>,
    seat: &mut Seat<Deer>,
    grace: &mut Grace<Deer>,
    image: &Image,
) -> Option<Why>
    requires table { seat.old.table ≡ table.now }
    requires latest { IsLatestOf (shape_of 2 table.now) grace.old seat.old.view }
    requires inside { grace.old.place + 1 < table.now.places }
    requires image { IsImage grace.old.keys image.now }
    ensures seat { (seat.new.table ≡ seat.old.table) × (seat.new.listed ≡ seat.old.listed) }
    ensures grace { (grace.new.keys ≡ grace.old.keys) × (grace.new.clock ≡ grace.old.clock) }
    ensures passed { IfNone result ((grace.new.place ≡ grace.old.place + 1)
        × IsGoingOn (shape_of 2 table.now) seat.old.view grace.new seat.new.view) }
    ensures met { IfSome result (λ why. Polled (shape_of 2 table.now) seat.old.view (NotYet why) grace.new seat.new.view) }
    ensures onward { grace.old.class ≤ image.now.last → LooksAt (IsRowFrom grace.old.place grace.old.class) seat.old.view seat.new.view }
    ensures first { IfNone result (grace.new.class ≡ 0) }
    ensures clear { IfNone result (FindsNone grace.old.keys grace.old.clock seat.old.view seat.new.view) }
    ensures once { IfSome result (λ why. FindsOnce grace.old.keys grace.old.clock seat.old.view why seat.new.view) }
{
    if let Some(why) = come_to_last(table, seat, grace, image) {
        return Some(why);
    }
    if let Some(why) = look(table, seat, grace, false) {
        return Some(why);
    }
    // So few places are there that the next number fits.
    let _places = table.places();
    grace.place += 1;
    grace.class = 0;
    None
}

impl WaitPart for Deer {
    fn enter(table: &CitrusTable<Deer>, seat: &mut Seat<Deer>, key: u64) {
        let stamp = steps::load_clock(table, seat);
        steps::enter_by_row(table, seat, key, stamp);
    }

    fn leave(table: &CitrusTable<Deer>, seat: &mut Seat<Deer>) {
        let Some(key) = seat.section() else {
            unreachable!();
        };
        steps::leave_by_row(table, seat, class_of(key));
    }

    fn begin(table: &CitrusTable<Deer>, seat: &mut Seat<Deer>, keys: Keys) -> Grace<Deer> {
        let clock = steps::begin_wait(table, seat, keys);
        Grace::new(keys, clock)
    }

    fn poll(table: &CitrusTable<Deer>, seat: &mut Seat<Deer>, grace: &mut Grace<Deer>) -> Poll {
        let image = image_of(&grace.keys);
        let last = table.places() - 1;
        for _ in grace.place..last {
            if let Some(why) = pass_place(table, seat, grace, &image) {
                return Poll::NotYet { why };
            }
        }
        if let Some(why) = come_to_last(table, seat, grace, &image) {
            return Poll::NotYet { why };
        }
        if let Some(why) = look(table, seat, grace, true) {
            return Poll::NotYet { why };
        }
        Poll::Over
    }
}
