//! What a client does about its cookie after each answer, and before a del that has no room for further retired slots.
ghost use Rattle.std.specs.Prelude.{◌≡◌, ◌+◌, ◌≤◌};
ghost use Rattle.seat_table.specs.Seats.{IsQuietSeat, shape_of};
ghost use Rattle.tree_run.specs.Clients.{IsGood, Asks, Starts, Settles, AreSound, AsksUntilNone, MakesRoom};

use crossbeam_utils::Backoff;
use grace_cookie::{Ask, Cookie, ask, give_back, start};
use key_interval::Keys;
use prcu_model::Op;
use seat_table::{CitrusTable, Seat, WaitPart};
use std::sync::Wait;

/// Before a del whose place has room for one more retired slot at most, asks about the cookie until none is held; else it does nothing. It
/// answers the cookie that is held. The del would begin a wait of its own, which gives up one that may be nearly over.
pub(crate) fn make_room<R: Wait, W: WaitPart>(
    rt: &R,
    table: &CitrusTable<W>,
    seat: &mut Seat<W>,
    cookie: Option<Cookie<W>>,
    op: Op,
) -> Option<Cookie<W>>
    requires table { seat.old.table ≡ table.now }
    requires quiet { IsQuietSeat seat.old }
    requires good { IsGood (shape_of W.WAY table.now) seat.old cookie }
    ensures table { seat.new.table ≡ seat.old.table }
    ensures room { MakesRoom (shape_of W.WAY table.now) op cookie seat.old result seat.new }
    ensures allowance { seat.new.view.allowance ≡ seat.old.view.allowance }
    ensures good { IsGood (shape_of W.WAY table.now) seat.new result }
    ensures quiet { IsQuietSeat seat.new }
{
    let Op::Del { .. } = op else {
        return cookie;
    };
    if seat.retired().len() + 1 < seat.room() {
        return cookie;
    }
    ask_until_none(rt, table, seat, cookie);
    None
}

// Asks about the cookie until none is held. It waits for the readers that the cookie's wait is for.
fn ask_until_none<R: Wait, W: WaitPart>(
    rt: &R,
    table: &CitrusTable<W>,
    seat: &mut Seat<W>,
    cookie: Option<Cookie<W>>,
)
    requires table { seat.old.table ≡ table.now }
    requires quiet { IsQuietSeat seat.old }
    requires good { IsGood (shape_of W.WAY table.now) seat.old cookie }
    ensures table { seat.new.table ≡ seat.old.table }
    ensures asks { AsksUntilNone (shape_of W.WAY table.now) cookie seat.old seat.new }
    ensures quiet { IsQuietSeat seat.new }
{
    let mut held = cookie;
    let backoff = Backoff::new();
    for _ in rt.forever() {
        held = ask_once(table, seat, held);
        if held.is_none() {
            return;
        }
        backoff.snooze();
    }
    unreachable!()
}

/// Asks once about the cookie, where one is held, and starts one where none is held then and half of the room for retired slots is taken.
/// It answers the one that is held.
pub(crate) fn settle<W: WaitPart>(
    table: &CitrusTable<W>,
    seat: &mut Seat<W>,
    cookie: Option<Cookie<W>>,
) -> Option<Cookie<W>>
    requires table { seat.old.table ≡ table.now }
    requires quiet { IsQuietSeat seat.old }
    requires good { IsGood (shape_of W.WAY table.now) seat.old cookie }
    requires ticket { 1 ≤ seat.old.view.allowance.tickets }
    ensures table { seat.new.table ≡ seat.old.table }
    ensures settles { Settles (shape_of W.WAY table.now) cookie seat.old result seat.new }
    ensures good { IsGood (shape_of W.WAY table.now) seat.new result }
    ensures quiet { IsQuietSeat seat.new }
    ensures sound { AreSound seat.old.view.seen → AreSound seat.new.view.seen }
{
    let left = ask_once(table, seat, cookie);
    start_if_many(table, seat, left)
}

// Asks once, where a cookie is held. When it is over its slots go back; where it was given up it is dropped.
fn ask_once<W: WaitPart>(
    table: &CitrusTable<W>,
    seat: &mut Seat<W>,
    cookie: Option<Cookie<W>>,
) -> Option<Cookie<W>>
    requires table { seat.old.table ≡ table.now }
    requires quiet { IsQuietSeat seat.old }
    requires good { IsGood (shape_of W.WAY table.now) seat.old cookie }
    ensures table { seat.new.table ≡ seat.old.table }
    ensures asks { Asks (shape_of W.WAY table.now) cookie seat.old result seat.new }
    ensures good { IsGood (shape_of W.WAY table.now) seat.new result }
    ensures quiet { IsQuietSeat seat.new }
    ensures sound { AreSound seat.old.view.seen → AreSound seat.new.view.seen }
{
    let mut held = cookie?;
    match ask(table, seat, &mut held) {
        Ask::Over => {
            give_back(table, seat, held);
            None
        }
        Ask::NotYet { why: _ } => Some(held),
        Ask::GivenUp { latest: _ } => None,
    }
}

// Starts a cookie, where none is held and half of the room for retired slots is taken.
fn start_if_many<W: WaitPart>(
    table: &CitrusTable<W>,
    seat: &mut Seat<W>,
    held: Option<Cookie<W>>,
) -> Option<Cookie<W>>
    requires table { seat.old.table ≡ table.now }
    requires quiet { IsQuietSeat seat.old }
    requires good { IsGood (shape_of W.WAY table.now) seat.old held }
    requires ticket { 1 ≤ seat.old.view.allowance.tickets }
    ensures table { seat.new.table ≡ seat.old.table }
    ensures starts { Starts held seat.old result seat.new }
    ensures good { IsGood (shape_of W.WAY table.now) seat.new result }
    ensures quiet { IsQuietSeat seat.new }
    ensures sound { AreSound seat.old.view.seen → AreSound seat.new.view.seen }
{
    if held.is_some() {
        return held;
    }
    if seat.retired().len() < seat.room() / 2 {
        return None;
    }
    Some(start(table, seat, Keys::all()))
}
