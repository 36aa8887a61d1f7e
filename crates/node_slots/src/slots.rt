//! The calls that reserve a free slot, seize one for the reservation, and put it back; and the list of retired slots.
ghost use Rattle.std.specs.Prelude.{◌≡◌, ℕ, ◌+◌, ◌≤◌, ◌<◌, true, false, [], ◌∷◌, ◌++◌, length, Some, None};
ghost use Rattle.list_laws.specs.Counts.{IsIn};
ghost use Rattle.core_state.specs.declared.view.Held.{Held};
ghost use Rattle.core_state.specs.declared.view.Retired.{Retired};
ghost use Rattle.core_state.specs.Views.{HasLock};
ghost use Rattle.core_state.specs.Links.{IsInHand, IsRetiredAt};
ghost use Rattle.seat_table.specs.Seats.{after_look, shape_of};
ghost use Rattle.seat_table.specs.Gains.{IsInformed, StaysIn};
ghost use Rattle.node_slots.specs.Slots.{Reserves, Seizes, PutsBack};

use crate::answers::{Reserve, Seize};
use seat_table::{CitrusTable, Seat, WaitWords, steps};

/// Tries once to reserve a free slot, by one exchange of the free count for one less. `Lost` and `Empty` come where it found another
/// number than the one expected.
pub fn reserve<W: WaitWords>(table: &CitrusTable<W>, seat: &mut Seat<W>, expected: u64) -> Reserve
    requires table { seat.old.table ≡ table.now }
    requires some { 1 ≤ expected }
    requires unreserved { seat.old.view.hands.reserved ≡ false }
    requires empty { seat.old.view.hands.hand ≡ None }
    requires ticket { 1 ≤ seat.old.view.allowance.tickets }
    ensures seat { (seat.new.table ≡ seat.old.table) × (seat.new.listed ≡ seat.old.listed) × (seat.new.looked ≡ seat.old.looked) }
    ensures view { Reserves (shape_of W.WAY table.now) seat.old.view expected result seat.new.view }
    ensures informed { IsInformed seat.new.view }
    ensures stays { StaysIn (shape_of W.WAY table.now) seat.new.view }
    ensures within { seat.new.view.allowance.place < table.now.places }
{
    let found = steps::reserve(table, seat, expected);
    if found == expected {
        return Reserve::Held;
    }
    if found == 0 {
        return Reserve::Empty;
    }
    Reserve::Lost { found }
}

/// Tries once to seize this slot for the reservation, by one exchange of its state, and loads its life where it was free.
pub fn seize<W: WaitWords>(table: &CitrusTable<W>, seat: &mut Seat<W>, slot: u32) -> Seize
    requires table { seat.old.table ≡ table.now }
    requires reserved { seat.old.view.hands.reserved ≡ true }
    requires slot { (1 ≤ slot) × (slot ≤ table.now.slots + table.now.places) }
    ensures seat { (seat.new.table ≡ seat.old.table) × (seat.new.listed ≡ seat.old.listed) }
    ensures looked { seat.new.looked ≡ after_look (table.now.slots + table.now.places) seat.old.looked slot }
    ensures view { Seizes seat.old.view slot result seat.new.view }
    ensures informed { IsInformed seat.new.view }
    ensures stays { StaysIn (shape_of W.WAY table.now) seat.new.view }
{
    let found = steps::seize(table, seat, slot);
    if found != 0 {
        return Seize::NotFree { found };
    }
    let life = steps::load_own_life(table, seat, slot);
    Seize::Got {
        generation: life / 2,
    }
}

/// Puts the slot in hand back: its life is loaded and stored with the next generation, then it is free, and the free count is one more.
pub fn put_back<W: WaitWords>(table: &CitrusTable<W>, seat: &mut Seat<W>)
    requires table { seat.old.table ≡ table.now }
    requires paid { seat.old.view.hands.owes ≡ false }
    requires hand { (held : Held) × (seat.old.view.hands.hand ≡ Some held) × (held.raised ≡ false) }
    ensures seat { (seat.new.table ≡ seat.old.table) × (seat.new.listed ≡ seat.old.listed) × (seat.new.looked ≡ seat.old.looked) }
    ensures view { (held : Held) → seat.old.view.hands.hand ≡ Some held → PutsBack seat.old.view held.slot seat.new.view }
    ensures informed { IsInformed seat.new.view }
    ensures stays { StaysIn (shape_of W.WAY table.now) seat.new.view }
{
    let Some(slot) = seat.in_hand() else {
        unreachable!();
    };
    let life = steps::load_own_life(table, seat, slot);
    // The generation rises before the slot is free: no record of it may hold once it is another caller's. docs/TREE.md#what-could-go-wrong
    steps::raise_in_hand(table, seat, slot, 2 * (life / 2 + 1));
    steps::free_in_hand(table, seat, slot);
    // Counted last: a reservation stands for a slot that is free already. docs/TREE_CALLS.md#the-trees-slots-and-locks
    steps::count_free(table, seat);
    seat.note_freed(slot);
}

/// Lists a slot that this place unlinked, as the last one. A later `reclaim` or `give_back` gives it back.
pub fn retire<W: WaitWords>(seat: &mut Seat<W>, slot: u32)
    requires unlinked { (i : ℕ) × (r : Retired) × IsRetiredAt seat.old.view i r slot }
    requires unlocked { HasLock seat.old.view slot → ⊥ }
    requires unlisted { IsIn seat.old.listed slot → ⊥ }
    requires few { length seat.old.listed < seat.old.table.room }
    ensures seat { (seat.new.table ≡ seat.old.table) × (seat.new.view ≡ seat.old.view) }
    ensures listed { seat.new.listed ≡ seat.old.listed ++ slot ∷ [] }
{
    seat.list_retired(slot);
}
