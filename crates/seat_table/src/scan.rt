//! Where a scan for a free slot looks next.
ghost use Rattle.std.specs.Prelude.{◌≡◌, ◌+◌, ◌<◌, ◌≤◌};
ghost use Rattle.core_state.specs.Memory.{most_slots, most_places};
ghost use Rattle.seat_table.specs.Seats as scans;

/// The slot after this one, in a round of the slots from 1 to the last. Slot 0 is the tree's root.
pub fn next_slot(slot: u32, last: u32) -> u32
    requires few { (1 ≤ last) × (last < 4294967295) }
    ensures next { result ≡ scans.next_slot last slot }
    ensures inside { (1 ≤ result) × (result ≤ last) }
{
    if slot < last { slot + 1 } else { 1 }
}

// Where the scans have come to after a look at this slot.
pub(crate) fn after_look(looked: u32, slot: u32, last: u32) -> u32
    requires few { (1 ≤ last) × (last < 4294967295) }
    ensures { result ≡ scans.after_look last looked slot }
{
    if slot == next_slot(looked, last) {
        slot
    } else {
        looked
    }
}

// Where the scans of a place begin: behind this slot, so that each place has a region of its own.
pub(crate) fn region(slots: u32, places: u32, place: u32) -> u32
    requires slots { (1 ≤ slots) × (slots ≤ most_slots) }
    requires places { (place < places) × (places ≤ most_places) }
    ensures { result ≡ scans.region slots places place }
{
    let before = place as u64 * slots as u64 / places as u64;
    places + before as u32
}
