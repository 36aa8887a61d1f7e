//! The keeper: the cookie by which a caller gives its retired slots back, and never stands still for readers meanwhile.
ghost use Rattle.std.specs.Prelude.{◌≡◌, ◌+◌, ◌<◌, ◌≤◌, true, false, length, IfSome, Option, Some, None};
ghost use Rattle.core_state.specs.declared.shape.Shape.{Shape};
ghost use Rattle.grace_cookie.specs.Cookies.{CookieAt, less_one};
ghost use Rattle.seat_table.specs.Seats.{IsQuietSeat, shape_of};
ghost use Rattle.grace_cookie.specs.declared.answers.Ask.TheVariants.{Over};
ghost use Rattle.citrus_tree.specs.declared.insert.Reuse.TheVariants as reuse;
ghost use Rattle.tree_handles.specs.Callers.{if_over};
ghost use Rattle.tree_handles.specs.Keepers.{AreEnough, BeginsKeeper, CanBegin, GivesBy, GoBackNow, HasCookies, HasKeeper, HasLatest, IsUnderWay, LacksSlots, LeavesEnd, MakesWay, MayStay, StaysBehind, StaysFor, TendsTo, slot_for};

use citrus_tree::Reuse;
use grace_cookie::{Ask, Cookie, ask, give_some, start};
use key_interval::Keys;
use seat_table::{CitrusTable, Seat, WaitPart};

/// How many slots go back at a time, at most. So an update stays short, and gives back more than it retires.
const MOST_GIVEN: u32 = 256;

/// With so many slots kept back, or three quarters of the room where that is less, none stays for inserts: a remove is to find room, and a later
/// keeper to begin.
const MANY_TO_STAY: usize = 48;

/// The slots of a keeper stay for inserts only where so many were free when its handle last asked: else others may need them.
const FEW_FREE: u64 = 48;

/// How many slots are kept before a keeper is begun, or half of the room where that is less. With fewer each keeper would be worth little, unless
/// no slot is free.
const MANY_KEPT: usize = 32;

/// A remove that gave all retired slots back has retired so many at most since.
const MOST_BEHIND_ALL: usize = 2;

/// The tickets of a wait, and of the update behind it.
const PAID: u64 = 5;

// Asks about the keeper once, where there is one. When it is over its slots stay for inserts, or the first of them go back, and it is kept for
// the others.
fn tend<W: WaitPart>(
    table: &CitrusTable<W>,
    seat: &mut Seat<W>,
    keeper: Option<Cookie<W>>,
) -> Option<Cookie<W>>
    requires table { seat.old.table ≡ table.now }
    requires quiet { IsQuietSeat seat.old }
    requires keeper { HasKeeper (shape_of W.WAY table.now) keeper seat.old }
    ensures table { seat.new.table ≡ seat.old.table }
    ensures tends { TendsTo (shape_of W.WAY table.now) keeper seat.old result seat.new }
    ensures leaves { LeavesEnd keeper seat.old.view seat.new.view }
    ensures quiet { IsQuietSeat seat.new }
    ensures cookies { (cookie : Option CookieAt) → HasCookies (shape_of W.WAY table.now) cookie keeper seat.old
        → HasCookies (shape_of W.WAY table.now) cookie result seat.new }
{
    let mut held = keeper?;
    match ask(table, seat, &mut held) {
        Ask::Over => give(table, seat, held),
        Ask::NotYet { why: _ } => Some(held),
        Ask::GivenUp { latest: _ } => None,
    }
}

/// Asks about the keeper once, where there is one, and leaves it where it is, if it is kept. When it is over its slots stay for inserts, or the
/// first of them go back, and it is kept for the others.
// Most updates have none, or one at rest: they shouldn't make room for a cookie.
#[inline(never)]
pub(crate) fn tend_in_place<W: WaitPart>(
    table: &CitrusTable<W>,
    seat: &mut Seat<W>,
    keeper: &mut Option<Cookie<W>>,
)
    requires table { seat.old.table ≡ table.now }
    requires quiet { IsQuietSeat seat.old }
    requires keeper { HasKeeper (shape_of W.WAY table.now) keeper.old seat.old }
    ensures table { seat.new.table ≡ seat.old.table }
    ensures tends { TendsTo (shape_of W.WAY table.now) keeper.old seat.old keeper.new seat.new }
    ensures leaves { LeavesEnd keeper.old seat.old.view seat.new.view }
    ensures quiet { IsQuietSeat seat.new }
    ensures cookies { (cookie : Option CookieAt) → HasCookies (shape_of W.WAY table.now) cookie keeper.old seat.old
        → HasCookies (shape_of W.WAY table.now) cookie keeper.new seat.new }
{
    let held = keeper.take();
    *keeper = tend(table, seat, held);
}

/// The slot that an insert is to take, where there is nothing to be done about the keeper before an update: it is over, its slots stay for inserts,
/// and no later one may take its place. Most updates find it so, and ask no more than this.
#[inline(always)]
pub(crate) fn slot_at_rest<W: WaitPart>(seat: &Seat<W>, keeper: &Option<Cookie<W>>) -> Option<u32>
    ensures rests { IfSome result (λ slot. (k : Shape) → HasKeeper k keeper.now seat.now → TendsTo k keeper.now seat.now keeper.now seat.now) }
    ensures stays { IfSome result (λ slot. MakesWay keeper.now seat.now → ⊥) }
    ensures first { IfSome result (λ slot. slot_for keeper.now seat.now.listed ≡ reuse.Retired slot) }
{
    let Some(keeper) = keeper else {
        return None;
    };
    if !keeper.is_over() || keeper.slots() == 0 || most_to_give(seat) > 0 {
        return None;
    }
    match seat.retired().first() {
        Some(slot) => Some(*slot),
        None => None,
    }
}

// Whether the slots of a keeper that is over may stay for inserts. A remove that finds no room would stand still, or be busy, and a place with many
// slots is to begin a keeper for the later ones.
#[inline(always)]
fn may_stay<W: WaitPart>(seat: &Seat<W>) -> bool
    ensures holds { result ≡ true → MayStay seat.now }
    ensures fails { result ≡ false → MayStay seat.now → ⊥ }
    ensures room { result ≡ true → length seat.now.listed + 1 < seat.now.table.room }
{
    let room = seat.room();
    seat.retired().len() < MANY_TO_STAY.min(room - room / 4) && seat.free_seen() >= FEW_FREE
}

// How many slots of a keeper that is over go back now, at most. Those that stay serve inserts without the free count, a word that all updates
// exchange.
#[inline(always)]
fn most_to_give<W: WaitPart>(seat: &Seat<W>) -> u32
    ensures most { GoBackNow seat.now result }
    ensures room { result ≡ 0 → length seat.now.listed + 1 < seat.now.table.room }
{
    if !may_stay(seat) {
        return MOST_GIVEN;
    }
    match seat.spare() {
        Some(_spare) => 0,
        None => 1,
    }
}

// Gives the first slots of a keeper back that is over, as many as are to go back now. It is kept as long as there are others.
fn give<W: WaitPart>(
    table: &CitrusTable<W>,
    seat: &mut Seat<W>,
    keeper: Cookie<W>,
) -> Option<Cookie<W>>
    requires table { seat.old.table ≡ table.now }
    requires quiet { IsQuietSeat seat.old }
    requires keeper { HasKeeper (shape_of W.WAY table.now) (Some keeper) seat.old }
    requires over { keeper.over ≡ true }
    ensures table { seat.new.table ≡ seat.old.table }
    ensures gives { GivesBy Over keeper seat.old result seat.new }
    ensures quiet { IsQuietSeat seat.new }
    ensures cookies { (cookie : Option CookieAt) → HasCookies (shape_of W.WAY table.now) cookie (Some keeper) seat.old
        → HasCookies (shape_of W.WAY table.now) cookie result seat.new }
{
    let most = most_to_give(seat);
    let mut left = keeper;
    give_some(table, seat, &mut left, most);
    if left.slots() == 0 {
        return None;
    }
    Some(left)
}

// Whether the wait of this cookie is the latest of the place.
fn is_latest<W: WaitPart>(seat: &Seat<W>, cookie: &Option<Cookie<W>>) -> bool
    requires begun { (c : CookieAt) → cookie.now ≡ Some c → c.count < seat.now.view.counts.waits }
    ensures holds { result ≡ true → HasLatest cookie.now seat.now.view }
    ensures fails { result ≡ false → HasLatest cookie.now seat.now.view → ⊥ }
{
    let Some(cookie) = cookie else {
        return false;
    };
    seat.waits() - cookie.number() == 1
}

// Whether a new keeper may take the place of this one: there is none, or it came too early. Where the room is full, and most of what fills it
// was retired behind the keeper's start, its end would make room for little, and the wait for the rest would begin then only.
fn makes_way<W: WaitPart>(seat: &Seat<W>, keeper: &Option<Cookie<W>>) -> bool
    ensures holds { result ≡ true → MakesWay keeper.now seat.now }
    ensures fails { result ≡ false → MakesWay keeper.now seat.now → ⊥ }
{
    let Some(keeper) = keeper else {
        return true;
    };
    let kept = seat.retired().len();
    if seat.room() > kept + 1 {
        return false;
    }
    keeper.slots() as usize * 2 <= kept
}

// Whether enough slots are kept back for a keeper. Where none was free when the place last asked, each one counts.
fn are_enough<W: WaitPart>(seat: &Seat<W>) -> bool
    ensures holds { result ≡ true → AreEnough seat.now }
    ensures fails { result ≡ false → AreEnough seat.now → ⊥ }
{
    let kept = seat.retired().len();
    if kept >= MANY_KEPT.min(seat.room() / 2) {
        return true;
    }
    kept >= 1 && seat.free_seen() == 0
}

// Whether a keeper may be begun: enough slots are kept back, the one that there is makes way, an update's tickets are left behind it, and the
// wait that the user may ask about is none, or isn't the place's latest, since a later one would give it up.
fn can_begin<W: WaitPart>(
    seat: &Seat<W>,
    keeper: &Option<Cookie<W>>,
    cookie: &Option<Cookie<W>>,
) -> bool
    requires begun { (c : CookieAt) → cookie.now ≡ Some c → c.count < seat.now.view.counts.waits }
    ensures holds { result ≡ true → CanBegin keeper.now cookie.now seat.now }
    ensures fails { result ≡ false → CanBegin keeper.now cookie.now seat.now → ⊥ }
{
    // First what is false as a rule.
    if !makes_way(seat, keeper) {
        return false;
    }
    if !are_enough(seat) {
        return false;
    }
    if seat.tickets() < PAID {
        return false;
    }
    !is_latest(seat, cookie)
}

// Begins a keeper, by one ticket.
// Few updates do: the others shouldn't make room for a cookie.
#[inline(never)]
fn begin<W: WaitPart>(
    table: &CitrusTable<W>,
    seat: &mut Seat<W>,
    keeper: &mut Option<Cookie<W>>,
    cookie: &Option<Cookie<W>>,
)
    requires table { seat.old.table ≡ table.now }
    requires quiet { IsQuietSeat seat.old }
    requires cookies { HasCookies (shape_of W.WAY table.now) cookie.now keeper.old seat.old }
    requires may { CanBegin keeper.old cookie.now seat.old }
    ensures table { seat.new.table ≡ seat.old.table }
    ensures begins { BeginsKeeper keeper.old cookie.now seat.old keeper.new seat.new }
    ensures quiet { IsQuietSeat seat.new }
    ensures cookies { HasCookies (shape_of W.WAY table.now) cookie.now keeper.new seat.new }
{
    *keeper = Some(start(table, seat, Keys::all()));
}

/// Begins a keeper where it may be begun, by one ticket.
pub(crate) fn begin_if_needed<W: WaitPart>(
    table: &CitrusTable<W>,
    seat: &mut Seat<W>,
    keeper: &mut Option<Cookie<W>>,
    cookie: &Option<Cookie<W>>,
)
    requires table { seat.old.table ≡ table.now }
    requires quiet { IsQuietSeat seat.old }
    requires cookies { HasCookies (shape_of W.WAY table.now) cookie.now keeper.old seat.old }
    ensures table { seat.new.table ≡ seat.old.table }
    ensures begins { BeginsKeeper keeper.old cookie.now seat.old keeper.new seat.new }
    ensures quiet { IsQuietSeat seat.new }
    ensures cookies { HasCookies (shape_of W.WAY table.now) cookie.now keeper.new seat.new }
{
    if can_begin(seat, keeper, cookie) {
        begin(table, seat, keeper, cookie);
    }
}

/// Whether a call that finds no slot free is better made again than left to wait for readers: there is a keeper, or the next call may begin one,
/// and gives slots of the place back when it is over.
#[inline(always)]
pub(crate) fn serves_next<W: WaitPart>(
    seat: &Seat<W>,
    keeper: &Option<Cookie<W>>,
    cookie: &Option<Cookie<W>>,
) -> bool
    requires begun { (c : CookieAt) → cookie.now ≡ Some c → c.count < seat.now.view.counts.waits }
{
    if keeper.is_some() {
        return true;
    }
    seat.tickets() >= PAID && !is_latest(seat, cookie)
}

/// Whether the keeper is under way: its wait isn't over.
pub(crate) fn is_under_way<W: WaitPart>(keeper: &Option<Cookie<W>>) -> bool
    ensures holds { result ≡ true → IsUnderWay keeper.now }
    ensures fails { result ≡ false → IsUnderWay keeper.now → ⊥ }
{
    let Some(keeper) = keeper else {
        return false;
    };
    !keeper.is_over()
}

/// Whether a remove would wait for readers before its search: the place has no room for what it retires, or no spare, and found none free.
#[inline(always)]
pub(crate) fn lacks_slots<W: WaitPart>(seat: &Seat<W>) -> bool
    ensures holds { result ≡ true → LacksSlots seat.now }
    ensures fails { result ≡ false → LacksSlots seat.now → ⊥ }
{
    if seat.retired().len() + 1 >= seat.room() {
        return true;
    }
    seat.spare().is_none() && seat.free_seen() == 0
}

/// What stays of the keeper beside a wait of the user: one that is over. A later wait gives up any other.
#[inline(always)]
pub(crate) fn give_up_unless_over<W: WaitPart>(keeper: &mut Option<Cookie<W>>)
    ensures { keeper.new ≡ if_over keeper.old }
{
    if is_under_way(keeper) {
        *keeper = None;
    }
}

/// What an insert is to take for its pair: the first slot of a keeper that is over.
#[inline(always)]
pub(crate) fn slot_for_insert<W: WaitPart>(seat: &Seat<W>, keeper: &Option<Cookie<W>>) -> Reuse
    ensures { result ≡ slot_for keeper.now seat.now.listed }
{
    let Some(keeper) = keeper else {
        return Reuse::Free;
    };
    let Some(slot) = seat.retired().first() else {
        return Reuse::Free;
    };
    if !keeper.is_over() || keeper.slots() == 0 {
        return Reuse::Free;
    }
    Reuse::Retired { slot: *slot }
}

/// Counts the slot of the keeper that an insert used again, where there is a keeper: with its last slot it is forgotten.
#[inline(always)]
pub(crate) fn count_reused<W: WaitPart>(used: bool, keeper: &mut Option<Cookie<W>>)
    ensures used { (c : CookieAt) → keeper.old ≡ Some c → used ≡ true → 1 ≤ c.slots → StaysFor (less_one c) keeper.new }
    ensures none { keeper.old ≡ None → keeper.new ≡ None }
    ensures kept { used ≡ false → keeper.new ≡ keeper.old }
{
    if !used {
        return;
    }
    let Some(held) = keeper else {
        return;
    };
    // In its place: to take the cookie out and put it back again would be more than all else that an insert does with a kept slot.
    if held.slots() > 1 {
        held.count_used();
        return;
    }
    *keeper = None;
}

/// The keeper is forgotten where the place has begun a wait, and its slots may have gone back by it. One that is over stays where more slots are
/// listed than a remove leaves that gave all back.
#[inline(always)]
pub(crate) fn forget_unless_kept<W: WaitPart>(
    seat: &Seat<W>,
    waits: u64,
    keeper: &mut Option<Cookie<W>>,
)
    ensures { StaysBehind waits keeper.old seat.now keeper.new }
{
    if seat.waits() == waits {
        return;
    }
    if !is_under_way(keeper) && seat.retired().len() > MOST_BEHIND_ALL {
        return;
    }
    *keeper = None;
}

/// The keeper is forgotten where its slots may have gone back otherwise.
#[inline(always)]
pub(crate) fn forget_if<W: WaitPart>(gone: bool, keeper: &mut Option<Cookie<W>>)
    ensures gone { gone ≡ true → keeper.new ≡ None }
    ensures kept { gone ≡ false → keeper.new ≡ keeper.old }
{
    if gone {
        *keeper = None;
    }
}
