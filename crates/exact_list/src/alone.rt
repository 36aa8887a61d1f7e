//! Lists that always come: where others update in each try, the list goes on alone, under a front that it holds.
ghost use Rattle.std.specs.Prelude.{◌≡◌, ◌≤◌, [], IfOk, IfErr};
ghost use Rattle.seat_table.specs.Sections.{HasMade};
ghost use Rattle.seat_table.specs.Seats.{IsQuietSeat};
ghost use Rattle.exact_list.specs.Loads.{HasListed, HasListedAlone, HoldsExactly, HoldsExactlyTo, IsOneWalk};
ghost use Rattle.exact_list.specs.Tries.{HasGivenWay, IsBetweenFronts, LosesFront};

use crate::direction::{Ascending, Descending, Direction};
use crate::front::take_front;
use crate::listing::{Listed, list_in};
use crate::page::Page;
use crate::walks::gather;
use core_state::front_of;
use key_interval::Keys;
use patience::Patience;
use prcu_marks::Side;
use seat_table::{CitrusTable, Seat, WaitPart, steps};

/// A list that came: the page holds the pairs that the dictionary had in the range after so many updates.
#[derive(Clone, Copy, Debug, PartialEq, Eq)]
pub struct Exact {
    /// How many updates.
    pub front: u64,
    /// The key after those on the page, where there were more pairs than it is for.
    pub next: Option<u64>,
}

// A list that no update comes between: the front is held for one walk. Others' updates wait meanwhile, and it waits for those that
// have the front before it. Where the patience ends, or it is busy, the front isn't held.
fn list_alone<D: Direction, P: Patience, W: WaitPart>(
    patience: &P,
    table: &CitrusTable<W>,
    seat: &mut Seat<W>,
    keys: &Keys,
    page: &mut Page,
) -> Result<Result<Exact, P::Busy>, P::Tired>
    requires table { seat.old.table ≡ table.now }
    requires quiet { IsQuietSeat seat.old }
    ensures seat { (seat.new.table ≡ seat.old.table) × (seat.new.listed ≡ seat.old.listed) }
    ensures quiet { IsQuietSeat seat.new }
    ensures tickets { seat.new.view.allowance.tickets ≡ seat.old.view.allowance.tickets }
    ensures capacity { IfOk result (λ _. page.new.capacity ≡ page.old.capacity) }
    ensures alone { IfOk result (λ answer. IfOk answer (λ exact. HasListedAlone seat.old.view keys.now.low exact.front
        (IsOneWalk page.new.pairs exact.next) seat.new.view)) }
    ensures holds { IfOk result (λ answer. IfOk answer (λ exact. HoldsExactlyTo D.SIDE exact keys.now seat.new.view.seen page.new)) }
    ensures recent { IfOk result (λ answer. IfOk answer
        (λ exact. IsBetweenFronts exact.front seat.old.view.seen seat.new.view.seen)) }
    ensures busy { IfOk result (λ answer. IfErr answer (λ _. LosesFront seat.old.view seat.new.view)) }
    ensures unlisted { IfOk result (λ answer. IfErr answer (λ _. page.new.pairs ≡ [])) }
    ensures tired { IfErr result (λ _. HasMade (P.least patience.now) seat.new.view) }
{
    page.clear();
    let front = match take_front(patience, table, seat)? {
        Ok(front) => front,
        Err(busy) => return Ok(Err(busy)),
    };
    // Not before: whoever waits for readers would wait as long as this one for the front.
    W::enter(table, seat, keys.low());
    steps::look_at_front(table, seat);
    let gathered = gather::<D, P, W>(patience, table, seat, keys, page);
    // Both looks find the front as this seat made it. The second shows that what was found is so.
    steps::look_at_front(table, seat);
    W::leave(table, seat);
    steps::give_front_back(table, seat, front);
    let next = gathered?;
    Ok(Ok(Exact {
        front: front_of(front),
        next,
    }))
}

// Lists as [`list_always`] does, in this direction.
fn list_always_in<D: Direction, P: Patience, W: WaitPart>(
    patience: &P,
    table: &CitrusTable<W>,
    seat: &mut Seat<W>,
    keys: Keys,
    page: &mut Page,
    tries: u32,
) -> Result<Result<Exact, P::Busy>, P::Tired>
    requires table { seat.old.table ≡ table.now }
    requires quiet { IsQuietSeat seat.old }
    requires tries { 1 ≤ tries }
    ensures seat { (seat.new.table ≡ seat.old.table) × (seat.new.listed ≡ seat.old.listed) }
    ensures quiet { IsQuietSeat seat.new }
    ensures tickets { seat.new.view.allowance.tickets ≡ seat.old.view.allowance.tickets }
    ensures capacity { IfOk result (λ _. page.new.capacity ≡ page.old.capacity) }
    ensures came { IfOk result (λ answer. IfOk answer (λ exact. HasListed seat.old.view keys.low exact.front tries
        (IsOneWalk page.new.pairs exact.next) seat.new.view)) }
    ensures holds { IfOk result (λ answer. IfOk answer (λ exact. HoldsExactlyTo D.SIDE exact keys seat.new.view.seen page.new)) }
    ensures recent { IfOk result (λ answer. IfOk answer
        (λ exact. IsBetweenFronts exact.front seat.old.view.seen seat.new.view.seen)) }
    ensures busy { IfOk result (λ answer. IfErr answer (λ _. HasGivenWay seat.old.view keys.low tries seat.new.view)) }
    ensures unlisted { IfOk result (λ answer. IfErr answer (λ _. page.new.pairs ≡ [])) }
    ensures tired { IfErr result (λ _. HasMade (P.least patience.now) seat.new.view) }
{
    let listed = list_in::<D, P, W>(patience, table, seat, keys, page, tries)?;
    match listed {
        Listed::Whole { front } => Ok(Ok(Exact { front, next: None })),
        Listed::Part { front, next } => Ok(Ok(Exact {
            front,
            next: Some(next),
        })),
        Listed::Moved { .. } => list_alone::<D, P, W>(patience, table, seat, &keys, page),
    }
}

/// Lists the pairs with these keys on the page, keys ascending, as the dictionary had them after some number of updates: the front. It
/// always comes. First it makes so many tries, as [`list`](crate::list): without a lock, and each beside others' updates. Where updates
/// were made in all of them it takes the front, so that no update comes between, lists, and gives the front back.
///
/// Updates wait for it while it has the front: for one walk. That loads the value of each pair told once, the next one's too, and no other;
/// it goes down from the root once, and again at most once for each 65 keys that it loads. It waits for the updates that have the front
/// before it, or answers busy where its patience would rather be called again: then it never had the front, and the page is empty. Readers
/// wait for nothing, and it waits for no reader. The front isn't before what the seat has seen. No memory is asked for, and no ticket is
/// taken.
pub fn list_always<P: Patience, W: WaitPart>(
    patience: &P,
    table: &CitrusTable<W>,
    seat: &mut Seat<W>,
    keys: Keys,
    page: &mut Page,
    tries: u32,
) -> Result<Result<Exact, P::Busy>, P::Tired>
    requires table { seat.old.table ≡ table.now }
    requires quiet { IsQuietSeat seat.old }
    requires tries { 1 ≤ tries }
    ensures seat { (seat.new.table ≡ seat.old.table) × (seat.new.listed ≡ seat.old.listed) }
    ensures quiet { IsQuietSeat seat.new }
    ensures tickets { seat.new.view.allowance.tickets ≡ seat.old.view.allowance.tickets }
    ensures capacity { IfOk result (λ _. page.new.capacity ≡ page.old.capacity) }
    ensures came { IfOk result (λ answer. IfOk answer (λ exact. HasListed seat.old.view keys.low exact.front tries
        (IsOneWalk page.new.pairs exact.next) seat.new.view)) }
    ensures holds { IfOk result (λ answer. IfOk answer (λ exact. HoldsExactly exact keys seat.new.view.seen page.new)) }
    ensures recent { IfOk result (λ answer. IfOk answer
        (λ exact. IsBetweenFronts exact.front seat.old.view.seen seat.new.view.seen)) }
    ensures busy { IfOk result (λ answer. IfErr answer (λ _. HasGivenWay seat.old.view keys.low tries seat.new.view)) }
    ensures unlisted { IfOk result (λ answer. IfErr answer (λ _. page.new.pairs ≡ [])) }
    ensures tired { IfErr result (λ _. HasMade (P.least patience.now) seat.new.view) }
{
    list_always_in::<Ascending, P, W>(patience, table, seat, keys, page, tries)
}

/// Lists as [`list_always`] does, to this side: with `Side::Right` keys ascend, and with `Side::Left` they descend, from the greatest of these
/// keys on. Where there were more pairs than the page is for, it holds the first ones of those, and `next` is the key after them: to the left
/// the greatest key that isn't on the page.
pub fn list_always_to<P: Patience, W: WaitPart>(
    patience: &P,
    table: &CitrusTable<W>,
    seat: &mut Seat<W>,
    side: Side,
    keys: Keys,
    page: &mut Page,
    tries: u32,
) -> Result<Result<Exact, P::Busy>, P::Tired>
    requires table { seat.old.table ≡ table.now }
    requires quiet { IsQuietSeat seat.old }
    requires tries { 1 ≤ tries }
    ensures seat { (seat.new.table ≡ seat.old.table) × (seat.new.listed ≡ seat.old.listed) }
    ensures quiet { IsQuietSeat seat.new }
    ensures tickets { seat.new.view.allowance.tickets ≡ seat.old.view.allowance.tickets }
    ensures capacity { IfOk result (λ _. page.new.capacity ≡ page.old.capacity) }
    ensures came { IfOk result (λ answer. IfOk answer (λ exact. HasListed seat.old.view keys.low exact.front tries
        (IsOneWalk page.new.pairs exact.next) seat.new.view)) }
    ensures holds { IfOk result (λ answer. IfOk answer (λ exact. HoldsExactlyTo side exact keys seat.new.view.seen page.new)) }
    ensures recent { IfOk result (λ answer. IfOk answer
        (λ exact. IsBetweenFronts exact.front seat.old.view.seen seat.new.view.seen)) }
    ensures busy { IfOk result (λ answer. IfErr answer (λ _. HasGivenWay seat.old.view keys.low tries seat.new.view)) }
    ensures unlisted { IfOk result (λ answer. IfErr answer (λ _. page.new.pairs ≡ [])) }
    ensures tired { IfErr result (λ _. HasMade (P.least patience.now) seat.new.view) }
{
    match side {
        Side::Left => list_always_in::<Descending, P, W>(patience, table, seat, keys, page, tries),
        Side::Right => list_always_in::<Ascending, P, W>(patience, table, seat, keys, page, tries),
    }
}
