//! Cookies, and the calls that start them, ask about them, and give slots back by them.
ghost use Rattle.std.specs.Prelude.{◌≡◌, ◌≤◌, ◌-◌, ℕ, true, false, [], length, None, take, min};
ghost use Rattle.list_laws.specs.Counts.{times};
ghost use Rattle.seat_table.specs.Gains.{IsInformed};
ghost use Rattle.seat_table.specs.Looks.{LooksAt, IsOnward, IsWithin};
ghost use Rattle.seat_table.specs.Seats.{AreListed, IsQuietSeat, shape_of};
ghost use Rattle.seat_table.specs.Sections.{HasBegun};
ghost use Rattle.grace_cookie.specs.Cookies.{IsOf, HasKept, AreUnraised, everybody, IsSameCookie, Asked, LeavesAlone, GivesFirst, HasGivenBack};

use crate::answers::Ask;
use key_interval::Keys;
use seat_table::{CitrusTable, Grace, Poll, Seat, WaitPart};
use std::marker::Model;

/// A wait that was begun, and is asked about while its seat goes on with other calls.
#[derive(Drop)]
pub struct Cookie<W> {
    grace: Grace<W>,
    count: u64,
    slots: u32,
    over: bool,
}

impl<W> Model for Cookie<W> {
    ghost use Rattle.seat_table.specs.Waits.{reached};
    ghost use Rattle.grace_cookie.specs.Cookies.{CookieAt};

    ghost Value = { CookieAt };

    ghost view = { λ c. record {
      keys = c.grace.keys;
      count = c.count;
      slots = c.slots;
      over = c.over;
      clock = c.grace.clock;
      reached = reached c.grace;
    } };
}

impl<W> Cookie<W> {
    /// The number of its wait: how many its place had begun before.
    pub fn number(&self) -> u64
        ensures { result ≡ self.now.count }
    {
        self.count
    }

    /// How many of the slots that were retired when it was started haven't gone back by it.
    pub fn slots(&self) -> u32
        ensures { result ≡ self.now.slots }
    {
        self.slots
    }

    /// Whether its wait is over, as the last question about it found.
    pub fn is_over(&self) -> bool
        ensures { result ≡ self.now.over }
    {
        self.over
    }

    /// Counts one of its slots as used: a call has taken the first listed one again otherwise, and it won't go back by this cookie.
    pub fn count_used(&mut self)
        requires { 1 ≤ self.old.slots }
        ensures { self.new ≡ record self.old { slots = self.old.slots - 1 } }
    {
        self.slots -= 1;
    }
}

// How many slots are retired.
fn count_retired<W: WaitPart>(table: &CitrusTable<W>, seat: &Seat<W>) -> u32
    requires table { seat.now.table ≡ table.now }
    requires listed { AreListed seat.now }
    ensures many { result ≡ length seat.now.listed }
    ensures apart { (slot : ℕ) → times slot seat.now.listed ≤ 1 }
{
    let _slots = table.slots();
    let _places = table.places();
    seat.rule_tells();
    seat.retired().len() as u32
}

/// Begins a wait for the readers with one of these keys, and keeps how many slots are retired now. It is asked about by `ask`; when it is
/// over, and was for everybody, `give_back` gives these slots back. A cookie that was started before and isn't over is given up, and so is
/// this one where the place begins a later wait.
pub fn start<W: WaitPart>(table: &CitrusTable<W>, seat: &mut Seat<W>, keys: Keys) -> Cookie<W>
    requires table { seat.old.table ≡ table.now }
    requires outside { seat.old.view.section ≡ None }
    requires ticket { 1 ≤ seat.old.view.allowance.tickets }
    requires listed { AreListed seat.old }
    ensures seat { (seat.new.table ≡ seat.old.table) × (seat.new.listed ≡ seat.old.listed) }
    ensures begun { HasBegun seat.old.view keys.low keys.high seat.new.view }
    ensures keys { result.keys ≡ keys }
    ensures count { result.count ≡ seat.old.view.counts.waits }
    ensures slots { result.slots ≡ length seat.old.view.hands.retired }
    ensures going { result.over ≡ false }
    ensures of { IsOf (shape_of W.WAY table.now) result seat.new.view }
    ensures kept { HasKept result seat.new }
    ensures quiet { IsQuietSeat seat.old → IsQuietSeat seat.new }
{
    let count = seat.waits();
    // Before the wait begins: a slot that is retired later may have readers that it isn't for. docs/TREE_CALLS.md#cookies
    let slots = count_retired(table, seat);
    let grace = W::begin(table, seat, keys);
    Cookie {
        grace,
        count,
        slots,
        over: false,
    }
}

/// Whether the cookie's wait is over. `Over` stays so for good. `NotYet` comes where one poll of the wait found what it names. `GivenUp`
/// comes exactly where the cookie wasn't over and the place has begun a later wait. A question goes on from where the last one stopped: it
/// looks at no place or class before. It waits for nobody.
pub fn ask<W: WaitPart>(table: &CitrusTable<W>, seat: &mut Seat<W>, cookie: &mut Cookie<W>) -> Ask
    requires table { seat.old.table ≡ table.now }
    requires of { IsOf (shape_of W.WAY table.now) cookie.old seat.old.view }
    ensures seat { (seat.new.table ≡ seat.old.table) × (seat.new.listed ≡ seat.old.listed) }
    ensures cookie { IsSameCookie cookie.old cookie.new }
    ensures asked { Asked (shape_of W.WAY table.now) cookie.old seat.old.view result cookie.new seat.new.view }
    ensures given_up { LeavesAlone result seat.old seat.new }
    ensures onward { IsWithin cookie.old.keys cookie.old.reached.class → LooksAt (IsOnward cookie.old.reached) seat.old.view seat.new.view }
    ensures of { IsOf (shape_of W.WAY table.now) cookie.new seat.new.view }
    ensures kept { HasKept cookie.old seat.old → HasKept cookie.new seat.new }
    ensures quiet { IsQuietSeat seat.old → IsQuietSeat seat.new }
{
    if cookie.over {
        return Ask::Over;
    }
    let latest = seat.waits() - 1;
    if latest != cookie.count {
        return Ask::GivenUp { latest };
    }
    match W::poll(table, seat, &mut cookie.grace) {
        Poll::Over => {
            cookie.over = true;
            Ask::Over
        }
        Poll::NotYet { why } => Ask::NotYet { why },
    }
}

/// Gives back the first of the slots that were retired when the cookie was started, at most so many, each with the next generation, and
/// answers their number. The cookie stays good for the others. A wait for fewer keys lets none go: a reader with any key may stand in one.
/// Where the place has no spare the first of them becomes its spare. Where the answer isn't 0 the seat is informed of each slot that went
/// back: no slot is used again that an open reader may meet. It begins no wait and waits for nobody.
pub fn give_some<W: WaitPart>(
    table: &CitrusTable<W>,
    seat: &mut Seat<W>,
    cookie: &mut Cookie<W>,
    most: u32,
) -> u32
    requires table { seat.old.table ≡ table.now }
    requires of { IsOf (shape_of W.WAY table.now) cookie.old seat.old.view }
    requires everybody { cookie.old.keys ≡ everybody }
    requires over { cookie.old.over ≡ true }
    requires kept { HasKept cookie.old seat.old }
    requires unraised { AreUnraised seat.old.view (take (min cookie.old.slots most) seat.old.listed) }
    requires unlocked { seat.old.view.locks ≡ [] }
    requires settled { seat.old.view.moving ≡ None }
    requires paid { seat.old.view.hands.owes ≡ false }
    ensures table { seat.new.table ≡ seat.old.table }
    ensures many { result ≡ min cookie.old.slots most }
    ensures cookie { cookie.new ≡ record cookie.old { slots = cookie.old.slots - result } }
    ensures back { GivesFirst result seat.old seat.new }
    ensures of { IsOf (shape_of W.WAY table.now) cookie.new seat.new.view }
    ensures kept { HasKept cookie.new seat.new }
    ensures quiet { IsQuietSeat seat.old → IsQuietSeat seat.new }
    ensures informed { IsInformed seat.old.view → IsInformed seat.new.view }
    ensures reuse { 1 ≤ result → IsInformed seat.new.view }
{
    let count = cookie.slots.min(most);
    node_slots::give_back(table, seat, count as usize);
    cookie.slots -= count;
    count
}

/// Gives all slots back that were retired when the cookie was started, and that haven't gone back by it, as `give_some` does, and answers
/// their number. It is 0, and nothing is changed, exactly where there are none.
pub fn give_back<W: WaitPart>(table: &CitrusTable<W>, seat: &mut Seat<W>, cookie: Cookie<W>) -> u32
    requires table { seat.old.table ≡ table.now }
    requires of { IsOf (shape_of W.WAY table.now) cookie seat.old.view }
    requires everybody { cookie.keys ≡ everybody }
    requires over { cookie.over ≡ true }
    requires kept { HasKept cookie seat.old }
    requires unraised { AreUnraised seat.old.view (take cookie.slots seat.old.listed) }
    requires unlocked { seat.old.view.locks ≡ [] }
    requires settled { seat.old.view.moving ≡ None }
    requires paid { seat.old.view.hands.owes ≡ false }
    ensures table { seat.new.table ≡ seat.old.table }
    ensures back { HasGivenBack cookie seat.old result seat.new }
    ensures quiet { IsQuietSeat seat.old → IsQuietSeat seat.new }
    ensures informed { IsInformed seat.old.view → IsInformed seat.new.view }
    ensures reuse { 1 ≤ result → IsInformed seat.new.view }
{
    if cookie.slots == 0 {
        return 0;
    }
    node_slots::give_back(table, seat, cookie.slots as usize);
    cookie.slots
}
