//! The walk of a listing: in order, in one of two directions, on the way by which it came.
ghost use Rattle.std.specs.Prelude.{◌≡◌, ◌<◌, ◌≤◌, [], length, IfOk, IfErr};
ghost use Rattle.seat_table.specs.Sections.{HasMade};
ghost use Rattle.seat_table.specs.Seats.{shape_of};
ghost use Rattle.exact_list.specs.Loads.{HasWalked, GoesDown, IsOneWalk, HasCome};
ghost use Rattle.exact_list.specs.Tries.{IsListing, HasLoaded, Gathers};

use crate::direction::{Direction, across, end_of, is_before, next_to, side_of, start_of};
use crate::page::Page;
use crate::way::{Next, Way};
use core_state::{Part, child_of};
use key_interval::Keys;
use patience::Patience;
use prcu_marks::Side;
use seat_table::{CitrusTable, Seat, WaitWords, steps};

// the root's link to all keys
const ROOT: Part = Part::Link { side: Side::Right };

// Goes down from a link to an end: past keys that come before `from` to the side, past others away from it. These it keeps.
fn descend<D: Direction, P: Patience, W: WaitWords>(
    patience: &P,
    table: &CitrusTable<W>,
    seat: &mut Seat<W>,
    from: u64,
    mut link: u64,
    way: &mut Way,
) -> Result<(), P::Tired>
    requires table { seat.old.table ≡ table.now }
    requires come { (x : IsListing seat.old.view) × HasCome (shape_of W.WAY table.now) D.SIDE x.listing from link way.old }
    ensures seat { (seat.new.table ≡ seat.old.table) × (seat.new.listed ≡ seat.old.listed) }
    ensures ended { IfOk result (λ _. (loaded : HasLoaded seat.old.view seat.new.view)
        × HasCome (shape_of W.WAY table.now) D.SIDE loaded.after from 0 way.new) }
    ensures down { IfOk result (λ _. HasWalked seat.old.view (GoesDown way.old way.new) seat.new.view) }
    ensures left_off { IfErr result (λ _. HasLoaded seat.old.view seat.new.view) }
    ensures tired { IfErr result (λ _. HasMade (P.least patience.now) seat.new.view) }
{
    let side = side_of::<D>();
    let onwards = Part::Link { side };
    let back = Part::Link { side: across(side) };
    for round in 0..u64::MAX {
        let Some(slot) = child_of(link) else {
            return Ok(());
        };
        let key = steps::list_load(table, seat, slot, Part::Key);
        if is_before(side, key, from) {
            link = steps::list_load(table, seat, slot, onwards);
            continue;
        }
        way.pass(slot, key);
        link = steps::list_load(table, seat, slot, back);
    }
    Err(patience.tired())
}

// Gathers the pairs with these keys on the page, one after another to the side, and answers the key for which it has no room, if there is
// one. From a slot whose pair it took the walk goes on to the side, and from an end to the latest slot past which it went away from it: what
// it found there still holds as long as nothing was updated. It loads each value once. docs/TREE_CALLS.md#lists-of-a-key-range
pub(crate) fn gather<D: Direction, P: Patience, W: WaitWords>(
    patience: &P,
    table: &CitrusTable<W>,
    seat: &mut Seat<W>,
    keys: &Keys,
    page: &mut Page,
) -> Result<Option<u64>, P::Tired>
    requires table { seat.old.table ≡ table.now }
    requires listing { IsListing seat.old.view }
    requires empty { page.old.pairs ≡ [] }
    ensures seat { (seat.new.table ≡ seat.old.table) × (seat.new.listed ≡ seat.old.listed) }
    ensures page { IfOk result (λ _. (page.new.capacity ≡ page.old.capacity) × (length page.new.pairs ≤ page.new.capacity)) }
    ensures gathered { IfOk result (λ answer. (loaded : HasLoaded seat.old.view seat.new.view)
        × Gathers D.SIDE loaded.after keys.now page.new answer) }
    ensures walked { IfOk result (λ answer. HasWalked seat.old.view (IsOneWalk page.new.pairs answer) seat.new.view) }
    ensures left_off { IfErr result (λ _. HasLoaded seat.old.view seat.new.view) }
    ensures tired { IfErr result (λ _. HasMade (P.least patience.now) seat.new.view) }
{
    let side = side_of::<D>();
    let onwards = Part::Link { side };
    let mut from = start_of(side, keys);
    let end = end_of(side, keys);
    let mut way = Way::new();
    let mut link = steps::list_load(table, seat, 0, ROOT);
    for round in 0..u64::MAX {
        descend::<D, P, W>(patience, table, seat, from, link, &mut way)?;
        let passed = match way.next() {
            Next::Done => return Ok(None),
            Next::Lost => {
                link = steps::list_load(table, seat, 0, ROOT);
                continue;
            }
            Next::At(passed) => passed,
        };
        let key = passed.key;
        // Only where an update came between. All pairs up to there are on the page.
        if is_before(side, key, from) {
            link = steps::list_load(table, seat, passed.slot, onwards);
            continue;
        }
        if is_before(side, end, key) {
            return Ok(None);
        }
        let value = steps::list_load(table, seat, passed.slot, Part::Value);
        if page.is_full() {
            return Ok(Some(key));
        }
        page.add(key, value);
        if key == end {
            return Ok(None);
        }
        from = next_to(side, key);
        link = steps::list_load(table, seat, passed.slot, onwards);
    }
    Err(patience.tired())
}
