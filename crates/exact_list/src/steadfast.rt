//! Lists, for callers that never give up.
ghost use Rattle.std.specs.Prelude.{◌≡◌, ◌≤◌, List};
ghost use Rattle.prcu_marks.specs.Marks.{updates_of};
ghost use Rattle.seat_table.specs.Seats.{IsQuietSeat};
ghost use Rattle.exact_list.specs.Loads.{HasListed, HoldsExactly, HoldsExactlyTo, IsOneWalk, IsOneWayDown, IsNearest};
ghost use Rattle.exact_list.specs.Tries.{Holds, IsBetweenFronts, IsRecent, EndAs, Try, HasTried};
ghost use Rattle.exact_list.specs.Pairs.{had_at};

use crate::alone::Exact;
use crate::listing::Listed;
use crate::nearest::Nearest;
use crate::page::Page;
use crate::patient;
use key_interval::Keys;
use patience::Steadfast;
use prcu_marks::Side;
use seat_table::{CitrusTable, Seat, WaitPart};
use std::sync::Wait;

/// Lists the pairs with these keys on the page, keys ascending, as the dictionary had them after some number of updates: the front.
/// A try reads in a section, without a lock, and looks at the front before and after. It counts where no update was under way or
/// made in between. `Whole` and `Part` come from the first try that counts, `Moved` where none of the `tries` does.
///
/// The front isn't before what the seat has seen. No memory is asked for, and no ticket is taken.
///
/// It walks the tree in order, and loads some four words for each pair, beside those on the first way down. Where it passed more than 64
/// slots to the left it goes down from the root again now and then, at most once for each 65 keys that it loads. The looks at the front are
/// as the sequence numbers of a seqlock.
pub fn list<R: Wait, W: WaitPart>(
    rt: &R,
    table: &CitrusTable<W>,
    seat: &mut Seat<W>,
    keys: Keys,
    page: &mut Page,
    tries: u32,
) -> Listed
    requires table { seat.old.table ≡ table.now }
    requires quiet { IsQuietSeat seat.old }
    requires tries { 1 ≤ tries }
    ensures seat { (seat.new.table ≡ seat.old.table) × (seat.new.listed ≡ seat.old.listed) }
    ensures quiet { IsQuietSeat seat.new }
    ensures tickets { seat.new.view.allowance.tickets ≡ seat.old.view.allowance.tickets }
    ensures capacity { page.new.capacity ≡ page.old.capacity }
    ensures tried { (made : List Try) × HasTried seat.old.view keys.low made seat.new.view × EndAs result tries made }
    ensures holds { Holds result keys seat.new.view.seen page.new }
    ensures recent { IsRecent result seat.old.view.seen seat.new.view.seen }
{
    match patient::list(&Steadfast::new(rt), table, seat, keys, page, tries) {
        Ok(listed) => listed,
        Err(never) => match never {},
    }
}

/// Lists the pairs with these keys on the page, keys ascending, as the dictionary had them after some number of updates: the front. It
/// always comes. First it makes so many tries, as [`list`]: without a lock, and each beside others' updates. Where updates were made in
/// all of them it takes the front, so that no update comes between, lists, and gives the front back.
///
/// Updates wait for it while it has the front: for one walk. That loads the value of each pair told once, the next one's too, and no other;
/// it goes down from the root once, and again at most once for each 65 keys that it loads. It waits for the updates that have the front
/// before it. Readers wait for nothing, and it waits for no reader. The front isn't before what the seat has seen. No memory is asked for,
/// and no ticket is taken.
pub fn list_always<R: Wait, W: WaitPart>(
    rt: &R,
    table: &CitrusTable<W>,
    seat: &mut Seat<W>,
    keys: Keys,
    page: &mut Page,
    tries: u32,
) -> Exact
    requires table { seat.old.table ≡ table.now }
    requires quiet { IsQuietSeat seat.old }
    requires tries { 1 ≤ tries }
    ensures seat { (seat.new.table ≡ seat.old.table) × (seat.new.listed ≡ seat.old.listed) }
    ensures quiet { IsQuietSeat seat.new }
    ensures tickets { seat.new.view.allowance.tickets ≡ seat.old.view.allowance.tickets }
    ensures capacity { page.new.capacity ≡ page.old.capacity }
    ensures came { HasListed seat.old.view keys.low result.front tries (IsOneWalk page.new.pairs result.next) seat.new.view }
    ensures holds { HoldsExactly result keys seat.new.view.seen page.new }
    ensures recent { IsBetweenFronts result.front seat.old.view.seen seat.new.view.seen }
{
    match patient::list_always(&Steadfast::new(rt), table, seat, keys, page, tries) {
        Ok(Ok(exact)) => exact,
        Ok(Err(never)) => match never {},
        Err(never) => match never {},
    }
}

/// Lists as [`list_always`] does, to this side: with `Side::Right` keys ascend, and with `Side::Left` they descend, from the greatest of these
/// keys on. Where there were more pairs than the page is for, it holds the first ones of those, and `next` is the key after them: to the left
/// the greatest key that isn't on the page.
pub fn list_always_to<R: Wait, W: WaitPart>(
    rt: &R,
    table: &CitrusTable<W>,
    seat: &mut Seat<W>,
    side: Side,
    keys: Keys,
    page: &mut Page,
    tries: u32,
) -> Exact
    requires table { seat.old.table ≡ table.now }
    requires quiet { IsQuietSeat seat.old }
    requires tries { 1 ≤ tries }
    ensures seat { (seat.new.table ≡ seat.old.table) × (seat.new.listed ≡ seat.old.listed) }
    ensures quiet { IsQuietSeat seat.new }
    ensures tickets { seat.new.view.allowance.tickets ≡ seat.old.view.allowance.tickets }
    ensures capacity { page.new.capacity ≡ page.old.capacity }
    ensures came { HasListed seat.old.view keys.low result.front tries (IsOneWalk page.new.pairs result.next) seat.new.view }
    ensures holds { HoldsExactlyTo side result keys seat.new.view.seen page.new }
    ensures recent { IsBetweenFronts result.front seat.old.view.seen seat.new.view.seen }
{
    match patient::list_always_to(&Steadfast::new(rt), table, seat, side, keys, page, tries) {
        Ok(Ok(exact)) => exact,
        Ok(Err(never)) => match never {},
        Err(never) => match never {},
    }
}

/// Finds the pair that is nearest to `from` on this side of it, `from` itself among them: with `Side::Right` the first one at or above it,
/// with `Side::Left` the last one at or below it. `None` where there is no pair there. So the dictionary had it after some number of
/// updates: the front.
///
/// It always comes. First it makes so many tries, without a lock, and each beside others' updates. Where updates were made in all of them,
/// or there are to be none, it takes the front, so that no update comes between, looks once more, and gives the front back.
///
/// It goes down from the root once, and loads of each slot on the way its key and one link, and a pair's value. Updates wait for it while
/// it has the front: for one such way down. It waits for the updates that have the front before it. Readers wait for nothing, and it waits
/// for no reader. The front isn't before what the seat has seen. No memory is asked for, and no ticket is taken.
pub fn nearest_always<R: Wait, W: WaitPart>(
    rt: &R,
    table: &CitrusTable<W>,
    seat: &mut Seat<W>,
    side: Side,
    from: u64,
    tries: u32,
) -> Nearest
    requires table { seat.old.table ≡ table.now }
    requires quiet { IsQuietSeat seat.old }
    ensures seat { (seat.new.table ≡ seat.old.table) × (seat.new.listed ≡ seat.old.listed) }
    ensures quiet { IsQuietSeat seat.new }
    ensures tickets { seat.new.view.allowance.tickets ≡ seat.old.view.allowance.tickets }
    ensures came { HasListed seat.old.view from result.front tries (IsOneWayDown result.pair) seat.new.view }
    ensures holds { IsNearest (had_at (updates_of seat.new.view.seen) result.front) side from result.pair }
    ensures recent { IsBetweenFronts result.front seat.old.view.seen seat.new.view.seen }
{
    match patient::nearest_always(&Steadfast::new(rt), table, seat, side, from, tries) {
        Ok(Ok(nearest)) => nearest,
        Ok(Err(never)) => match never {},
        Err(never) => match never {},
    }
}
