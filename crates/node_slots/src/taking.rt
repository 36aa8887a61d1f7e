//! The call that takes a free slot.
ghost use Rattle.std.specs.Prelude.{◌≡◌, ℕ, ◌+◌, ◌≤◌, true, false, None, IfSome, IfNone, IfOk, IfErr};
ghost use Rattle.seat_table.specs.Sections.{HasMade};
ghost use Rattle.seat_table.specs.Seats.{shape_of};
ghost use Rattle.seat_table.specs.Gains.{IsInformed, StaysIn};
ghost use Rattle.node_slots.specs.declared.answers.Taken.TheVariants.{Slot};
ghost use Rattle.node_slots.specs.Taking.{HasReserved, FoundNone, HasScanned, HasGot, Takes, ReservesAtLast, TriesInVain, MissesNoted, FindsNoted, FindsInRound, TriesBy};

use crate::answers::{Reserve, Seize, Taken};
use crate::slots::{reserve, seize};
use patience::{LostExchanges, Patience};
use seat_table::{CitrusTable, MOST_NOTED, Seat, WaitWords, next_slot};

/// A slot that was seized.
#[derive(Drop)]
struct Seized {
    slot: u32,
    generation: u64,
}

// Reserves a free slot, where there is one.
fn reserve_some<P: Patience, W: WaitWords>(
    patience: &P,
    table: &CitrusTable<W>,
    seat: &mut Seat<W>,
) -> Result<bool, P::Tired>
    requires table { seat.old.table ≡ table.now }
    requires unreserved { seat.old.view.hands.reserved ≡ false }
    requires empty { seat.old.view.hands.hand ≡ None }
    requires ticket { 1 ≤ seat.old.view.allowance.tickets }
    ensures seat { (seat.new.table ≡ seat.old.table) × (seat.new.listed ≡ seat.old.listed) × (seat.new.looked ≡ seat.old.looked) }
    ensures reserved { IfOk result (λ answer. answer ≡ true → HasReserved seat.old.view seat.new.view) }
    ensures at_last { IfOk result (λ answer. answer ≡ true → ReservesAtLast (shape_of W.WAY table.now) seat.old.view seat.new.view) }
    ensures none { IfOk result (λ answer. answer ≡ false → FoundNone (shape_of W.WAY table.now) seat.old.view seat.new.view) }
    ensures in_vain { IfOk result (λ answer. answer ≡ false
        → TriesInVain (shape_of W.WAY table.now) seat.old.view seat.old.looked seat.new.view seat.new.looked) }
    ensures informed { IfOk result (λ _. IsInformed seat.new.view) }
    ensures stays { IfOk result (λ _. StaysIn (shape_of W.WAY table.now) seat.new.view) }
    ensures tired { IfErr result (λ _. HasMade (P.least patience.now) seat.new.view) }
{
    let mut pauses = patience.crowd_pauses();
    let mut lost = LostExchanges::none();
    let mut expected = seat.free_seen().max(1);
    for round in 0..u64::MAX {
        match reserve(table, seat, expected) {
            Reserve::Held => return Ok(true),
            Reserve::Empty => return Ok(false),
            Reserve::Lost { found } => expected = found,
        }
        // Nobody holds the count.
        if lost.pauses_after(false) {
            patience.pause(&mut pauses)?;
        }
    }
    Err(patience.tired())
}

// Looks at the slots that the seat noted, the last one first, and seizes the first that is free still.
fn seize_noted<W: WaitWords>(table: &CitrusTable<W>, seat: &mut Seat<W>) -> Option<Seized>
    requires table { seat.old.table ≡ table.now }
    requires reserved { seat.old.view.hands.reserved ≡ true }
    ensures seat { (seat.new.table ≡ seat.old.table) × (seat.new.listed ≡ seat.old.listed) }
    ensures got { IfSome result (λ s. HasGot seat.old.view s.slot s.generation seat.new.view) }
    ensures finds { IfSome result (λ s. FindsNoted
        (table.now.slots + table.now.places) seat.old.view seat.old.looked s.slot seat.new.view seat.new.looked) }
    ensures inside { IfSome result (λ s. (1 ≤ s.slot) × (s.slot ≤ table.now.slots + table.now.places)) }
    ensures informed { IfSome result (λ _. IsInformed seat.new.view) }
    ensures stays { IfSome result (λ _. StaysIn (shape_of W.WAY table.now) seat.new.view) }
    ensures none { IfNone result (HasScanned seat.old.view seat.new.view) }
    ensures misses { IfNone result (MissesNoted (table.now.slots
        + table.now.places) seat.old.view seat.old.looked MOST_NOTED seat.new.view seat.new.looked) }
{
    for i in 0..MOST_NOTED {
        let Some(slot) = seat.take_noted() else {
            return None;
        };
        if let Seize::Got { generation } = seize(table, seat, slot) {
            return Some(Seized { slot, generation });
        }
    }
    None
}

// Looks at one slot after another, from where the seat's scans have come to, and seizes the first free one. There is one sooner or later,
// since the reservation counts one.
fn scan<P: Patience, W: WaitWords>(
    patience: &P,
    table: &CitrusTable<W>,
    seat: &mut Seat<W>,
) -> Result<Seized, P::Tired>
    requires table { seat.old.table ≡ table.now }
    requires reserved { seat.old.view.hands.reserved ≡ true }
    ensures seat { (seat.new.table ≡ seat.old.table) × (seat.new.listed ≡ seat.old.listed) }
    ensures got { IfOk result (λ answer. HasGot seat.old.view answer.slot answer.generation seat.new.view) }
    ensures finds { IfOk result (λ answer. FindsInRound
        (table.now.slots + table.now.places) seat.old.view seat.old.looked answer.slot seat.new.view seat.new.looked) }
    ensures inside { IfOk result (λ answer. (1 ≤ answer.slot) × (answer.slot ≤ table.now.slots + table.now.places)) }
    ensures informed { IfOk result (λ _. IsInformed seat.new.view) }
    ensures stays { IfOk result (λ _. StaysIn (shape_of W.WAY table.now) seat.new.view) }
    ensures tired { IfErr result (λ _. HasMade (P.least patience.now) seat.new.view) }
{
    let last = table.slots() + table.places();
    for round in 0..u64::MAX {
        let slot = next_slot(seat.last_looked(), last);
        if let Seize::Got { generation } = seize(table, seat, slot) {
            return Ok(Seized { slot, generation });
        }
    }
    Err(patience.tired())
}

/// Takes a free slot, where there is one. `Empty` comes exactly where the last exchange of the free count found 0; all before it found
/// other numbers.
pub fn take<P: Patience, W: WaitWords>(
    patience: &P,
    table: &CitrusTable<W>,
    seat: &mut Seat<W>,
) -> Result<Taken, P::Tired>
    requires table { seat.old.table ≡ table.now }
    requires unreserved { seat.old.view.hands.reserved ≡ false }
    requires empty { seat.old.view.hands.hand ≡ None }
    requires ticket { 1 ≤ seat.old.view.allowance.tickets }
    ensures seat { (seat.new.table ≡ seat.old.table) × (seat.new.listed ≡ seat.old.listed) }
    ensures view { IfOk result (λ answer. Takes (shape_of W.WAY table.now) seat.old.view answer seat.new.view) }
    ensures tries { IfOk result (λ answer. TriesBy
        (shape_of W.WAY table.now) seat.old.view seat.old.looked answer seat.new.view seat.new.looked) }
    ensures inside { IfOk result (λ answer. (slot generation : ℕ) → answer ≡ Slot slot generation
        → (1 ≤ slot) × (slot ≤ table.now.slots + table.now.places)) }
    ensures informed { IfOk result (λ _. IsInformed seat.new.view) }
    ensures stays { IfOk result (λ _. StaysIn (shape_of W.WAY table.now) seat.new.view) }
    ensures tired { IfErr result (λ _. HasMade (P.least patience.now) seat.new.view) }
{
    if !reserve_some(patience, table, seat)? {
        return Ok(Taken::Empty);
    }
    if let Some(Seized { slot, generation }) = seize_noted(table, seat) {
        return Ok(Taken::Slot { slot, generation });
    }
    let found = scan(patience, table, seat)?;
    Ok(Taken::Slot {
        slot: found.slot,
        generation: found.generation,
    })
}
