//! A search, hop by hop, in one section.
ghost use Rattle.std.specs.Prelude.{◌≡◌, ◌≢◌, ℕ, [], None};
ghost use Rattle.core_state.specs.declared.view.SearchState.TheVariants.{Missed};
ghost use Rattle.core_state.specs.declared.view.View.{View};
ghost use Rattle.seat_table.specs.Gains.{IsSlot};
ghost use Rattle.seat_table.specs.Sections.{HasStepped};
ghost use Rattle.seat_table.specs.Seats.{shape_of};
ghost use Rattle.citrus_tree.specs.declared.search.Hop.TheVariants.{Moved};
ghost use Rattle.citrus_tree.specs.Hops.{search_at, seat_left, IsSearch, HasHopped, Records, Finishes};
ghost use Rattle.citrus_tree.specs.Lookups.{IsSearching, Looked};

use crate::descent::{Step, go_down};
use core_points::stage::Spot;
use core_state::generation_of;
use prcu_marks::Side;
use seat_table::{CitrusTable, Part, Seat, WaitPart, steps};

/// What a hop came to.
#[derive(Clone, Copy)]
pub enum Hop {
    /// At a slot with another key.
    Moved,
    /// At the slot with the sought key.
    Found { slot: u32 },
    /// At a side that is empty.
    Ended { slot: u32, side: Side },
}

/// What a search came to.
#[derive(Clone, Copy)]
pub enum End {
    /// The key has this value.
    Hit { value: u64 },
    /// The key belongs at this empty side.
    Missing { spot: Spot },
}

/// A search in an open section: where it stands, and what its last hop came to.
pub struct Search<'a, W: WaitPart> {
    table: &'a CitrusTable<W>,
    seat: &'a mut Seat<W>,
    key: u64,
    slot: u32,
    side: Side,
    last: Hop,
}

impl<'a, W: WaitPart> Search<'a, W> {
    /// Enters a section with the key. The search stands at the root.
    pub fn start(table: &'a CitrusTable<W>, seat: &'a mut Seat<W>, key: u64) -> Search<'a, W>
        requires table { seat.old.table ≡ table.now }
        requires outside { seat.old.view.section ≡ None }
        requires unlocked { seat.old.view.locks ≡ [] }
        ensures same_reference { (search_at result).lender ≡ seat.entry.ghost_name }
        ensures seat { ((search_at result).seat.table ≡ seat.old.table) × ((search_at result).seat.listed ≡ seat.old.listed) }
        ensures asked { ((search_at result).table ≡ table.now) × ((search_at result).key ≡ key) × ((search_at result).last ≡ Moved) }
        ensures stands { IsSearch W.WAY seat.old.view (search_at result) }
    {
        W::enter(table, seat, key);
        Search {
            table,
            seat,
            key,
            slot: 0,
            side: Side::Right,
            last: Hop::Moved,
        }
    }

    /// Loads both links of the slot and, where that of the side leads to a slot, that slot's key. The last hop, if there was one, has to have
    /// moved.
    pub fn hop(&mut self) -> Hop
        requires table { (search_at self.old).seat.table ≡ (search_at self.old).table }
        requires moved { (search_at self.old).last ≡ Moved }
        requires stands { (v : View) × IsSearch W.WAY v (search_at self.old) }
        ensures same_reference { (search_at self.new).lender ≡ (search_at self.old).lender }
        ensures seat { ((search_at self.new).seat.table ≡ (search_at self.old).seat.table)
            × ((search_at self.new).seat.listed ≡ (search_at self.old).seat.listed) }
        ensures asked { ((search_at self.new).table ≡ (search_at self.old).table) × ((search_at self.new).key ≡ (search_at self.old).key)
            × ((search_at self.new).last ≡ result) }
        ensures hops { HasHopped W.WAY (search_at self.old) result (search_at self.new) }
        ensures stands { (v : View) → IsSearch W.WAY v (search_at self.old) → IsSearch W.WAY v (search_at self.new) }
    {
        match go_down(self.table, self.seat, self.key, self.slot, self.side) {
            Step::Moved { slot, side } => {
                self.slot = slot;
                self.side = side;
                Hop::Moved
            }
            Step::Found { slot } => {
                self.slot = slot;
                self.last = Hop::Found { slot };
                Hop::Found { slot }
            }
            Step::Ended => {
                self.last = Hop::Ended {
                    slot: self.slot,
                    side: self.side,
                };
                Hop::Ended {
                    slot: self.slot,
                    side: self.side,
                }
            }
        }
    }

    /// Loads the value that was found, or what marks the empty side, and leaves the section. The last hop has to have found or ended.
    pub fn finish(self) -> End
        requires table { (search_at self).seat.table ≡ (search_at self).table }
        requires over { (search_at self).last ≢ Moved }
        requires stands { (v : View) × IsSearch W.WAY v (search_at self) }
        ensures seat { ((seat_left self.exit).table ≡ (search_at self.entry).seat.table)
            × ((seat_left self.exit).listed ≡ (search_at self.entry).seat.listed) }
        ensures finished { (v : View) → IsSearch W.WAY v (search_at self.entry)
            → Finishes v (search_at self.entry).key result (seat_left self.exit).view }
    {
        let Search {
            table,
            seat,
            key: _,
            slot: _,
            side: _,
            last,
        } = self;
        match last {
            Hop::Found { slot } => {
                let value = steps::search_load(table, seat, slot, Part::Value);
                W::leave(table, seat);
                End::Hit { value }
            }
            Hop::Ended { slot, side } => {
                End::Missing {
                    spot: leave_with_spot(table, seat, slot, side),
                }
            }
            Hop::Moved => unreachable!(),
        }
    }
}

/// Loads what marks the empty side at which a search ended, and leaves the section.
pub(crate) fn leave_with_spot<W: WaitPart>(
    table: &CitrusTable<W>,
    seat: &mut Seat<W>,
    slot: u32,
    side: Side,
) -> Spot
    requires table { seat.old.table ≡ table.now }
    requires slot { IsSlot (shape_of W.WAY table.now) slot }
    requires searching { (v : View) × (key : ℕ) × IsSearching v key (Missed slot side) seat.old.view }
    ensures seat { (seat.new.table ≡ seat.old.table) × (seat.new.listed ≡ seat.old.listed) }
    ensures slot { result.slot ≡ slot }
    ensures looked { (v : View) (key : ℕ) → IsSearching v key (Missed slot side) seat.old.view
        → (looked : Looked v key None seat.new.view) × Records looked.reading result }
    ensures stepped { HasStepped seat.old.view seat.new.view }
{
    // Inside the section: until it is left no slot at which it stood is used again, and no move ends that takes the key away from this
    // side. docs/TREE.md#what-could-go-wrong
    let tag = steps::search_load(table, seat, slot, Part::Tag { side });
    let life = steps::search_load(table, seat, slot, Part::Life);
    W::leave(table, seat);
    Spot {
        slot,
        side,
        generation: generation_of(life),
        tag,
    }
}
