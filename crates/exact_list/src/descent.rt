//! The way down to the pair that is nearest to a key.
ghost use Rattle.std.specs.Prelude.{◌≡◌, IfOk, IfErr};
ghost use Rattle.seat_table.specs.Sections.{HasMade};
ghost use Rattle.seat_table.specs.Seats.{shape_of};
ghost use Rattle.exact_list.specs.Loads.{HasWalked, IsWayDown, IsOneWayDown, HasReached, FindsNearest};
ghost use Rattle.exact_list.specs.Tries.{IsListing, HasLoaded};

use crate::direction::{across, is_on};
use crate::nearest::Found;
use crate::way::Passed;
use core_state::{Part, child_of};
use patience::Patience;
use prcu_marks::Side;
use seat_table::{CitrusTable, Seat, WaitWords, steps};

// Goes down from the root to an end: away from the side past keys that are on it, and to the side past others. Of the first each is nearer
// than the one before, so that the last one is the nearest.
fn seek<P: Patience, W: WaitWords>(
    patience: &P,
    table: &CitrusTable<W>,
    seat: &mut Seat<W>,
    side: Side,
    from: u64,
) -> Result<Option<Passed>, P::Tired>
    requires table { seat.old.table ≡ table.now }
    requires listing { IsListing seat.old.view }
    ensures seat { (seat.new.table ≡ seat.old.table) × (seat.new.listed ≡ seat.old.listed) }
    ensures reached { IfOk result (λ answer. (loaded : HasLoaded seat.old.view seat.new.view)
        × HasReached (shape_of W.WAY table.now) loaded.after side from 0 answer) }
    ensures down { IfOk result (λ _. HasWalked seat.old.view (IsWayDown 0) seat.new.view) }
    ensures left_off { IfErr result (λ _. HasLoaded seat.old.view seat.new.view) }
    ensures tired { IfErr result (λ _. HasMade (P.least patience.now) seat.new.view) }
{
    let away = Part::Link { side: across(side) };
    let mut best: Option<Passed> = None;
    let mut link = steps::list_load(table, seat, 0, Part::Link { side: Side::Right });
    for round in 0..u64::MAX {
        let Some(slot) = child_of(link) else {
            return Ok(best);
        };
        let key = steps::list_load(table, seat, slot, Part::Key);
        if is_on(side, from, key) {
            best = Some(Passed { slot, key });
            link = steps::list_load(table, seat, slot, away);
            continue;
        }
        link = steps::list_load(table, seat, slot, Part::Link { side });
    }
    Err(patience.tired())
}

// Finds the pair with the nearest key on this side of `from`, which counts itself, if there is one.
pub(crate) fn seek_pair<P: Patience, W: WaitWords>(
    patience: &P,
    table: &CitrusTable<W>,
    seat: &mut Seat<W>,
    side: Side,
    from: u64,
) -> Result<Option<Found>, P::Tired>
    requires table { seat.old.table ≡ table.now }
    requires listing { IsListing seat.old.view }
    ensures seat { (seat.new.table ≡ seat.old.table) × (seat.new.listed ≡ seat.old.listed) }
    ensures found { IfOk result (λ answer. (loaded : HasLoaded seat.old.view seat.new.view)
        × FindsNearest loaded.after side from answer) }
    ensures walked { IfOk result (λ answer. HasWalked seat.old.view (IsOneWayDown answer) seat.new.view) }
    ensures left_off { IfErr result (λ _. HasLoaded seat.old.view seat.new.view) }
    ensures tired { IfErr result (λ _. HasMade (P.least patience.now) seat.new.view) }
{
    let best = seek(patience, table, seat, side, from)?;
    let Some(passed) = best else {
        return Ok(None);
    };
    let value = steps::list_load(table, seat, passed.slot, Part::Value);
    Ok(Some(Found {
        key: passed.key,
        value,
    }))
}
