//! The pair that is nearest to a key.
ghost use Rattle.std.specs.Prelude.{◌≡◌, [], ◌∷◌, None, IfOk, IfErr};
ghost use Rattle.prcu_marks.specs.Marks.{updates_of};
ghost use Rattle.seat_table.specs.Sections.{HasMade};
ghost use Rattle.seat_table.specs.Seats.{IsQuietSeat};
ghost use Rattle.exact_list.specs.Loads.{HasListed, HasListedAlone, IsOneWayDown, IsNearest, ComesBy, IsTold};
ghost use Rattle.exact_list.specs.Tries.{HasGivenWay, IsBetweenFronts, LosesFront, Try, HasTried};
ghost use Rattle.exact_list.specs.Pairs.{had_at};

use crate::descent::seek_pair;
use crate::front::take_front;
use core_state::{front_of, linking};
use patience::Patience;
use prcu_marks::Side;
use seat_table::{CitrusTable, Seat, WaitPart, steps};

/// A pair that was found.
#[derive(Clone, Copy, Debug, PartialEq, Eq)]
pub struct Found {
    pub key: u64,
    pub value: u64,
}

/// The pair that is nearest to a key, as the dictionary had it after so many updates.
#[derive(Clone, Copy, Debug, PartialEq, Eq)]
pub struct Nearest {
    /// How many updates.
    pub front: u64,
    /// The pair, or `None` where there was none on that side.
    pub pair: Option<Found>,
}

// One try, in a section of its own. `None` where an update was under way or made.
fn look_for<P: Patience, W: WaitPart>(
    patience: &P,
    table: &CitrusTable<W>,
    seat: &mut Seat<W>,
    side: Side,
    from: u64,
) -> Result<Option<Nearest>, P::Tired>
    requires table { seat.old.table ≡ table.now }
    requires outside { seat.old.view.section ≡ None }
    requires unlocked { seat.old.view.locks ≡ [] }
    ensures seat { (seat.new.table ≡ seat.old.table) × (seat.new.listed ≡ seat.old.listed) }
    ensures tried { IfOk result (λ answer. (t : Try) × HasTried seat.old.view from (t ∷ []) seat.new.view × ComesBy answer t) }
    ensures left_off { IfErr result (λ _. (t : Try) × HasTried seat.old.view from (t ∷ []) seat.new.view) }
    ensures told { IfOk result (λ answer. IsTold answer side from seat.old.view.seen seat.new.view.seen) }
    ensures tired { IfErr result (λ _. HasMade (P.least patience.now) seat.new.view) }
{
    W::enter(table, seat, from);
    let first = steps::look_at_front(table, seat);
    if linking(first) {
        W::leave(table, seat);
        return Ok(None);
    }
    let sought = seek_pair(patience, table, seat, side, from);
    // The same number again: no update came between, so what was found is so at that front. docs/TREE_CALLS.md#lists-of-a-key-range
    let last = steps::look_at_front(table, seat);
    W::leave(table, seat);
    let pair = sought?;
    if last != first {
        return Ok(None);
    }
    Ok(Some(Nearest {
        front: front_of(first),
        pair,
    }))
}

// No update comes between: the front is held for one way down, as by a list that goes on alone. Where the patience ends, or it is
// busy, it isn't held.
fn look_alone<P: Patience, W: WaitPart>(
    patience: &P,
    table: &CitrusTable<W>,
    seat: &mut Seat<W>,
    side: Side,
    from: u64,
) -> Result<Result<Nearest, P::Busy>, P::Tired>
    requires table { seat.old.table ≡ table.now }
    requires quiet { IsQuietSeat seat.old }
    ensures seat { (seat.new.table ≡ seat.old.table) × (seat.new.listed ≡ seat.old.listed) }
    ensures quiet { IsQuietSeat seat.new }
    ensures tickets { seat.new.view.allowance.tickets ≡ seat.old.view.allowance.tickets }
    ensures alone { IfOk result (λ answer. IfOk answer
        (λ nearest. HasListedAlone seat.old.view from nearest.front (IsOneWayDown nearest.pair) seat.new.view)) }
    ensures holds { IfOk result (λ answer. IfOk answer
        (λ nearest. IsNearest (had_at (updates_of seat.new.view.seen) nearest.front) side from nearest.pair)) }
    ensures recent { IfOk result (λ answer. IfOk answer
        (λ nearest. IsBetweenFronts nearest.front seat.old.view.seen seat.new.view.seen)) }
    ensures busy { IfOk result (λ answer. IfErr answer (λ _. LosesFront seat.old.view seat.new.view)) }
    ensures tired { IfErr result (λ _. HasMade (P.least patience.now) seat.new.view) }
{
    let front = match take_front(patience, table, seat)? {
        Ok(front) => front,
        Err(busy) => return Ok(Err(busy)),
    };
    // Not before: whoever waits for readers would wait as long as this one for the front.
    W::enter(table, seat, from);
    steps::look_at_front(table, seat);
    let sought = seek_pair(patience, table, seat, side, from);
    // Both looks find the front as this seat made it. The second shows that what was found is so.
    steps::look_at_front(table, seat);
    W::leave(table, seat);
    steps::give_front_back(table, seat, front);
    let pair = sought?;
    Ok(Ok(Nearest {
        front: front_of(front),
        pair,
    }))
}

/// Finds the pair that is nearest to `from` on this side of it, `from` itself among them: with `Side::Right` the first one at or above it,
/// with `Side::Left` the last one at or below it. `None` where there is no pair there. So the dictionary had it after some number of
/// updates: the front.
///
/// It always comes. First it makes so many tries, without a lock, and each beside others' updates. Where updates were made in all of them,
/// or there are to be none, it takes the front, so that no update comes between, looks once more, and gives the front back.
///
/// It goes down from the root once, and loads of each slot on the way its key and one link, and a pair's value. Updates wait for it while
/// it has the front: for one such way down. It waits for the updates that have the front before it, or answers busy where its patience would
/// rather be called again: then it never had the front. Readers wait for nothing, and it waits for no reader. The front isn't before what the
/// seat has seen. No memory is asked for, and no ticket is taken.
pub fn nearest_always<P: Patience, W: WaitPart>(
    patience: &P,
    table: &CitrusTable<W>,
    seat: &mut Seat<W>,
    side: Side,
    from: u64,
    tries: u32,
) -> Result<Result<Nearest, P::Busy>, P::Tired>
    requires table { seat.old.table ≡ table.now }
    requires quiet { IsQuietSeat seat.old }
    ensures seat { (seat.new.table ≡ seat.old.table) × (seat.new.listed ≡ seat.old.listed) }
    ensures quiet { IsQuietSeat seat.new }
    ensures tickets { seat.new.view.allowance.tickets ≡ seat.old.view.allowance.tickets }
    ensures came { IfOk result (λ answer. IfOk answer
        (λ nearest. HasListed seat.old.view from nearest.front tries (IsOneWayDown nearest.pair) seat.new.view)) }
    ensures holds { IfOk result (λ answer. IfOk answer
        (λ nearest. IsNearest (had_at (updates_of seat.new.view.seen) nearest.front) side from nearest.pair)) }
    ensures recent { IfOk result (λ answer. IfOk answer
        (λ nearest. IsBetweenFronts nearest.front seat.old.view.seen seat.new.view.seen)) }
    ensures busy { IfOk result (λ answer. IfErr answer (λ _. HasGivenWay seat.old.view from tries seat.new.view)) }
    ensures tired { IfErr result (λ _. HasMade (P.least patience.now) seat.new.view) }
{
    for tried in 0..tries {
        if let Some(nearest) = look_for(patience, table, seat, side, from)? {
            return Ok(Ok(nearest));
        }
    }
    look_alone(patience, table, seat, side, from)
}
