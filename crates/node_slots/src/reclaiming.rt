//! The calls that give retired slots back, after a wait for everybody.
ghost use Rattle.std.specs.Prelude.{◌≡◌, ℕ, ◌+◌, ◌≤◌, ◌<◌, false, List, [], ◌∷◌, length, Some, None, IfOk, IfErr};
ghost use Rattle.list_laws.specs.Counts.{Each};
ghost use Rattle.core_state.specs.declared.view.Held.{Held};
ghost use Rattle.core_state.specs.declared.view.Retired.{Retired};
ghost use Rattle.seat_table.specs.Sections.{HasMade};
ghost use Rattle.seat_table.specs.Seats.{AreListed, shape_of, unlisted};
ghost use Rattle.seat_table.specs.Gains.{IsInformed};
ghost use Rattle.node_slots.specs.Reclaiming.{IsReady, AreReady, BecomesSpare, BecomesFree, Returns, GivesBack, HasReclaimed, first_of, first_slots, without_slots};

use key_interval::Keys;
use patience::Patience;
use prcu_marks::OpenGate;
use seat_table::{CitrusTable, Seat, WaitPart, WaitWords, steps, wait_in_grace};

// Makes a retired slot the spare.
fn keep_spare<W: WaitWords>(table: &CitrusTable<W>, seat: &mut Seat<W>, slot: u32)
    requires table { seat.old.table ≡ table.now }
    requires ready { IsReady seat.old.view slot }
    requires unlocked { seat.old.view.locks ≡ [] }
    requires settled { seat.old.view.moving ≡ None }
    requires none { seat.old.view.hands.spare ≡ None }
    ensures table { seat.new.table ≡ seat.old.table }
    ensures listed { seat.new.listed ≡ unlisted slot seat.old.listed }
    ensures view { BecomesSpare seat.old.view slot seat.new.view }
    ensures informed { IsInformed seat.new.view }
{
    let life = steps::load_retired_life(table, seat, slot);
    steps::raise_to_spare(table, seat, slot, 2 * (life / 2 + 1));
}

// Frees a retired slot.
fn free_retired<W: WaitWords>(table: &CitrusTable<W>, seat: &mut Seat<W>, slot: u32)
    requires table { seat.old.table ≡ table.now }
    requires ready { IsReady seat.old.view slot }
    requires unlocked { seat.old.view.locks ≡ [] }
    requires settled { seat.old.view.moving ≡ None }
    requires some { (held : Held) × (seat.old.view.hands.spare ≡ Some held) }
    requires paid { seat.old.view.hands.owes ≡ false }
    ensures table { seat.new.table ≡ seat.old.table }
    ensures listed { seat.new.listed ≡ unlisted slot seat.old.listed }
    ensures view { BecomesFree seat.old.view slot seat.new.view }
    ensures informed { IsInformed seat.new.view }
{
    let life = steps::load_retired_life(table, seat, slot);
    // Before the slot is free, so that every record of it is out of date. docs/TREE.md#what-could-go-wrong
    steps::raise_retired(table, seat, slot, 2 * (life / 2 + 1));
    steps::free_retired(table, seat, slot);
    steps::count_free(table, seat);
    seat.note_freed(slot);
}

// Gives a retired slot back, which becomes the spare where the place has none.
fn return_slot<W: WaitWords>(table: &CitrusTable<W>, seat: &mut Seat<W>, slot: u32)
    requires table { seat.old.table ≡ table.now }
    requires ready { IsReady seat.old.view slot }
    requires unlocked { seat.old.view.locks ≡ [] }
    requires settled { seat.old.view.moving ≡ None }
    requires paid { seat.old.view.hands.owes ≡ false }
    ensures table { seat.new.table ≡ seat.old.table }
    ensures listed { seat.new.listed ≡ unlisted slot seat.old.listed }
    ensures view { Returns seat.old.view slot seat.new.view }
    ensures informed { IsInformed seat.new.view }
{
    match seat.spare() {
        None => keep_spare(table, seat, slot),
        Some(_spare) => free_retired(table, seat, slot),
    }
}

// The first slot that is listed.
fn first_listed<W: WaitWords>(seat: &Seat<W>) -> Option<u32>
    ensures { result ≡ first_of seat.now.listed }
{
    seat.retired().first().copied()
}

/// Gives the first `count` of the listed slots back, each with the next generation, after a wait for everybody that was begun since they
/// were unlinked and that is over. Where the place has no spare the first of them becomes its spare, and only the others are free. Where a
/// slot goes back, the seat is informed of it afterwards: no slot is used again that an open reader may meet.
pub fn give_back<W: WaitWords>(table: &CitrusTable<W>, seat: &mut Seat<W>, count: usize)
    requires table { seat.old.table ≡ table.now }
    requires ready { AreReady seat.old.view (first_slots count seat.old.listed) }
    requires unlocked { seat.old.view.locks ≡ [] }
    requires settled { seat.old.view.moving ≡ None }
    requires paid { seat.old.view.hands.owes ≡ false }
    ensures table { seat.new.table ≡ seat.old.table }
    ensures listed { seat.new.listed ≡ without_slots (first_slots count seat.old.listed) seat.old.listed }
    ensures view { GivesBack seat.old.view (first_slots count seat.old.listed) seat.new.view }
    ensures informed { IsInformed seat.old.view → IsInformed seat.new.view }
    ensures reuse { 1 ≤ length (first_slots count seat.old.listed) → IsInformed seat.new.view }
{
    for i in 0..count {
        let Some(slot) = first_listed(seat) else {
            return;
        };
        return_slot(table, seat, slot);
    }
}

/// Waits until each reader has left that reads now, and gives all retired slots back then. Where the place has no spare the first of them
/// becomes its spare.
pub fn reclaim<P: Patience, W: WaitPart>(
    patience: &P,
    table: &CitrusTable<W>,
    seat: &mut Seat<W>,
) -> Result<(), P::Tired>
    requires table { seat.old.table ≡ table.now }
    requires outside { seat.old.view.section ≡ None }
    requires unlocked { seat.old.view.locks ≡ [] }
    requires settled { seat.old.view.moving ≡ None }
    requires paid { seat.old.view.hands.owes ≡ false }
    requires ticket { 1 ≤ seat.old.view.allowance.tickets }
    requires listed { AreListed seat.old }
    requires unraised { Each seat.old.view.hands.retired (λ (r : Retired). r.raised ≡ false) }
    ensures table { seat.new.table ≡ seat.old.table }
    ensures listed { IfOk result (λ _. seat.new.listed ≡ []) }
    ensures view { IfOk result (λ _. HasReclaimed (shape_of W.WAY table.now) seat.old.view seat.old.listed seat.new.view) }
    ensures informed { IfOk result (λ _. IsInformed seat.new.view) }
    ensures tired { IfErr result (λ _. HasMade (P.least patience.now) seat.new.view) }
{
    // For all keys: a reader may stand at a retired slot whatever its key. docs/TREE.md#the-tree
    wait_in_grace(patience, table, seat, &OpenGate, Keys::all())?;
    let count = seat.retired().len();
    give_back(table, seat, count);
    Ok(())
}
