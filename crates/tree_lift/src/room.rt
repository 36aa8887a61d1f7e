//! What a turn needs of the place: room among the retired slots, a spare, and a slot in hand.
ghost use Rattle.std.specs.Prelude.{◌≡◌, ℕ, ◌≤◌, IfOk, IfErr};
ghost use Rattle.seat_table.specs.Gains.{IsInformed};
ghost use Rattle.seat_table.specs.Sections.{HasMade};
ghost use Rattle.seat_table.specs.Seats.{IsQuietSeat, shape_of};
ghost use Rattle.citrus_tree.specs.Going.{KeepsSeat};
ghost use Rattle.tree_lift.specs.Lifts.{LeavesNoUpdate, GivesAllBack, MakesRoom, SeesToSpare, TakesSlots};

use node_slots::Taken;
use node_slots::patient::{reclaim, take};
use patience::Patience;
use seat_table::{CitrusTable, Seat, WaitPart, steps};

/// Whether two more slots may be retired. Where they may not, and the caller would rather stand still than leave the way as it is, waits for
/// everybody first and gives all retired slots back.
pub(crate) fn make_room<P: Patience, W: WaitPart>(
    patience: &P,
    table: &CitrusTable<W>,
    seat: &mut Seat<W>,
    hard: bool,
) -> Result<bool, P::Tired>
    requires table { seat.old.table ≡ table.now }
    requires quiet { IsQuietSeat seat.old }
    requires ticket { 1 ≤ seat.old.view.allowance.tickets }
    ensures table { seat.new.table ≡ seat.old.table }
    ensures room { IfOk result (λ some. MakesRoom (shape_of W.WAY table.now) hard seat.old some seat.new) }
    ensures informed { IfOk result (λ _. IsInformed seat.old.view → IsInformed seat.new.view) }
    ensures tired { IfErr result (λ _. HasMade (P.least patience.now) seat.new.view) }
{
    // A turn retires two slots, and a place holds back no more than its room.
    if seat.retired().len() + 1 < seat.room() {
        return Ok(true);
    }
    if !hard {
        return Ok(false);
    }
    reclaim(patience, table, seat)?;
    Ok(true)
}

/// Gives all retired slots back, where the place has any, after a wait for all open sections: for a lift that ended since no slot was free.
/// `false`, and nothing was done, where it has none. It spends a ticket.
pub fn give_all_back<P: Patience, W: WaitPart>(
    patience: &P,
    table: &CitrusTable<W>,
    seat: &mut Seat<W>,
) -> Result<bool, P::Tired>
    requires table { seat.old.table ≡ table.now }
    requires quiet { IsQuietSeat seat.old }
    requires ticket { 1 ≤ seat.old.view.allowance.tickets }
    ensures table { seat.new.table ≡ seat.old.table }
    ensures back { IfOk result (λ some. GivesAllBack (shape_of W.WAY table.now) seat.old some seat.new) }
    ensures updates { IfOk result (λ _. (key : ℕ) → LeavesNoUpdate seat.old.view key seat.new.view) }
    ensures keeps { IfOk result (λ _. KeepsSeat 1 seat.old seat.new) }
    ensures informed { IfOk result (λ _. IsInformed seat.old.view → IsInformed seat.new.view) }
    ensures tired { IfErr result (λ _. HasMade (P.least patience.now) seat.new.view) }
{
    if seat.retired().is_empty() {
        return Ok(false);
    }
    reclaim(patience, table, seat)?;
    Ok(true)
}

/// Sees to it that the place has a spare, and takes a slot in hand. `false`, and nothing is in hand, where no slot is free.
pub(crate) fn take_slots<P: Patience, W: WaitPart>(
    patience: &P,
    table: &CitrusTable<W>,
    seat: &mut Seat<W>,
) -> Result<bool, P::Tired>
    requires table { seat.old.table ≡ table.now }
    requires quiet { IsQuietSeat seat.old }
    requires tickets { 2 ≤ seat.old.view.allowance.tickets }
    ensures seat { (seat.new.table ≡ seat.old.table) × (seat.new.listed ≡ seat.old.listed) }
    ensures takes { IfOk result (λ some. TakesSlots (shape_of W.WAY table.now) seat.old some seat.new) }
    ensures tired { IfErr result (λ _. HasMade (P.least patience.now) seat.new.view) }
{
    if !have_spare(patience, table, seat)? {
        return Ok(false);
    }
    match take(patience, table, seat)? {
        Taken::Slot { .. } => Ok(true),
        Taken::Empty => Ok(false),
    }
}

// Sees to it that the place has a spare. `false` where no slot is free.
fn have_spare<P: Patience, W: WaitPart>(
    patience: &P,
    table: &CitrusTable<W>,
    seat: &mut Seat<W>,
) -> Result<bool, P::Tired>
    requires table { seat.old.table ≡ table.now }
    requires quiet { IsQuietSeat seat.old }
    requires ticket { 1 ≤ seat.old.view.allowance.tickets }
    ensures seat { (seat.new.table ≡ seat.old.table) × (seat.new.listed ≡ seat.old.listed) }
    ensures sees_to { IfOk result (λ some. SeesToSpare (shape_of W.WAY table.now) seat.old some seat.new) }
    ensures tired { IfErr result (λ _. HasMade (P.least patience.now) seat.new.view) }
{
    if seat.spare().is_some() {
        return Ok(true);
    }
    match take(patience, table, seat)? {
        Taken::Slot { slot, .. } => {
            steps::keep_as_spare(table, seat, slot);
            Ok(true)
        }
        Taken::Empty => Ok(false),
    }
}
