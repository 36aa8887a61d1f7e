//! A value is replaced.
ghost use Rattle.std.specs.Prelude.{◌≡◌, ℕ, ◌≤◌, ◌↔◌, [], Some, None, IsTrue, IfOk, IfErr};
ghost use Rattle.core_points.specs.declared.stage.Stage.TheVariants as at;
ghost use Rattle.prcu_model.specs.declared.operation.Op.TheVariants.{Set};
ghost use Rattle.seat_table.specs.Gains.{IsInformed};
ghost use Rattle.seat_table.specs.Sections.{HasMade, HasStepped};
ghost use Rattle.seat_table.specs.Seats.{IsQuietSeat, shape_of};
ghost use Rattle.tree_points.specs.Points.{IsAt};
ghost use Rattle.citrus_tree.specs.declared.replace.Replaced.{Replaced};
ghost use Rattle.citrus_tree.specs.Deletes.{BeginsByLookup};
ghost use Rattle.citrus_tree.specs.Going.{Goes, IsOther, Sought, Stores, set_stage, KeepsSeat};
ghost use Rattle.citrus_tree.specs.Replies.{GaveWay, Sets};

use crate::answer::answered;
use crate::commit::{WhenCrowded, close_commit, open_commit_so};
use crate::descent::{Descent, descend};
use crate::lives::is_life;
use core_state::generation_of;
use patience::Patience;
use prcu_marks::{Gate, Point};
use prcu_model::{Reply, Told};
use seat_table::{CitrusTable, Part, Seat, WaitPart, steps};

/// A slot that had the key, with its generation then.
#[derive(Clone, Copy)]
pub(crate) struct Holder {
    pub(crate) slot: u32,
    pub(crate) generation: u64,
}

/// The value that was replaced, and the update's number.
#[derive(Clone, Copy)]
pub(crate) struct Replaced {
    pub(crate) old: u64,
    pub(crate) number: u64,
}

/// Gives the key another value, where it is present: `Was` with the old value and the update's position. `Absent` as at `get`. It waits
/// for the holder of the node's lock and for other updates, and for no reader. It answers busy where the lock is taken, the node was
/// deleted since the search, or others have the front for long, and its patience would rather be called again: then it made no update.
pub fn set<P: Patience, W: WaitPart, G: Gate>(
    patience: &P,
    table: &CitrusTable<W>,
    seat: &mut Seat<W>,
    gate: &G,
    key: u64,
    value: u64,
) -> Result<Result<Told, P::Busy>, P::Tired>
    requires table { seat.old.table ≡ table.now }
    requires quiet { IsQuietSeat seat.old }
    requires tickets { 4 ≤ seat.old.view.allowance.tickets }
    ensures table { seat.new.table ≡ seat.old.table }
    ensures sets { IfOk result (λ answer. IfOk answer (λ told. Sets seat.old.view key value told seat.new.view)) }
    ensures busy { IfOk result (λ answer. IfErr answer
        (λ _. GaveWay (shape_of W.WAY table.now) seat.old.view (Set key value) seat.new.view)) }
    ensures begins { IfOk result (λ _. BeginsByLookup seat.old.view key seat.new.view) }
    ensures keeps { IfOk result (λ _. KeepsSeat 4 seat.old seat.new) }
    ensures informed { IfOk result (λ answer. IfOk answer (λ _. IsInformed seat.new.view)) }
    ensures tired { IfErr result (λ _. HasMade (P.least patience.now) seat.new.view) }
{
    let mut pauses = patience.pauses();
    for round in 0..u64::MAX {
        let Some(holder) = find_holder(table, seat, gate, key) else {
            return Ok(Ok(answered(gate, seat, Reply::Absent, 0)));
        };
        gate.pass(Point::BeforeLock, seat.place());
        let stored = match store_value(patience, table, seat, holder, key, None, value)? {
            Ok(stored) => stored,
            Err(busy) => return Ok(Err(busy)),
        };
        if let Some(done) = stored {
            return Ok(Ok(answered(gate, seat, Reply::Was { value: done.old }, done.number)));
        }
        if let Err(busy) = patience.rest(&mut pauses) {
            return Ok(Err(busy));
        }
    }
    Err(patience.tired())
}

// The slot that has the key, or none where the key is absent.
fn find_holder<W: WaitPart, G: Gate>(
    table: &CitrusTable<W>,
    seat: &mut Seat<W>,
    gate: &G,
    key: u64,
) -> Option<Holder>
    requires table { seat.old.table ≡ table.now }
    requires outside { seat.old.view.section ≡ None }
    requires unlocked { seat.old.view.locks ≡ [] }
    ensures seat { (seat.new.table ≡ seat.old.table) × (seat.new.listed ≡ seat.old.listed) }
    ensures place { 1 ≤ table.now.places }
    ensures sought { Sought (shape_of W.WAY table.now) seat.old.view key result seat.new.view }
    ensures stepped { HasStepped seat.old.view seat.new.view }
{
    match descend(table, seat, gate, key) {
        Descent::Found { slot, .. } => {
            let life = steps::search_load(table, seat, slot, Part::Life);
            W::leave(table, seat);
            Some(Holder {
                slot,
                generation: generation_of(life),
            })
        }
        Descent::Ended { .. } => {
            W::leave(table, seat);
            None
        }
    }
}

// Whether a value is another one than the one that is asked for, if one is.
pub(crate) fn is_other(expected: Option<u64>, value: u64) -> bool
    ensures { IsTrue result ↔ IsOther expected value }
{
    match expected {
        Some(wanted) => value != wanted,
        None => false,
    }
}

// Stores the value in the recorded slot; or nothing, where the lock is taken, the slot's life isn't as recorded any more, or its value is
// another one than the one that is asked for, if one is. It answers busy where others have the front for long. Then too it holds no lock.
pub(crate) fn store_value<P: Patience, W: WaitPart>(
    patience: &P,
    table: &CitrusTable<W>,
    seat: &mut Seat<W>,
    holder: Holder,
    key: u64,
    expected: Option<u64>,
    value: u64,
) -> Result<Result<Option<Replaced>, P::Busy>, P::Tired>
    requires table { seat.old.table ≡ table.now }
    requires at { (kept : ℕ) × IsAt (shape_of W.WAY table.now) (Set key value) kept
        (at.SetLock holder.slot holder.generation) seat.old.view }
    ensures seat { (seat.new.table ≡ seat.old.table) × (seat.new.listed ≡ seat.old.listed) }
    ensures again { IfOk result (λ answer. IfOk answer (λ stored. stored ≡ None → Goes seat.old.view seat.new.view [])) }
    ensures stored { IfOk result (λ answer. IfOk answer (λ stored. (kept : ℕ) (done : Replaced)
        → IsAt (shape_of W.WAY table.now) (Set key value) kept (at.SetLock holder.slot holder.generation) seat.old.view → stored ≡ Some done
        → Stores seat.old.view key value done seat.new.view)) }
    ensures expected { IfOk result (λ answer. IfOk answer
        (λ stored. (done : Replaced) → stored ≡ Some done → IsOther expected done.old → ⊥)) }
    ensures at { IfOk result (λ answer. IfOk answer (λ stored. (kept : ℕ)
        → IsAt (shape_of W.WAY table.now) (Set key value) kept (at.SetLock holder.slot holder.generation) seat.old.view
        → IsAt (shape_of W.WAY table.now) (Set key value) kept (set_stage stored) seat.new.view)) }
    ensures busy { IfOk result (λ answer. IfErr answer (λ _. Goes seat.old.view seat.new.view [])) }
    ensures back { IfOk result (λ answer. IfErr answer (λ _. (kept : ℕ)
        → IsAt (shape_of W.WAY table.now) (Set key value) kept (at.SetLock holder.slot holder.generation) seat.old.view
        → IsAt (shape_of W.WAY table.now) (Set key value) kept at.EnterClock seat.new.view)) }
    ensures informed { IfOk result (λ _. IsInformed seat.new.view) }
    ensures tired { IfErr result (λ _. HasMade (P.least patience.now) seat.new.view) }
{
    if steps::lock(table, seat, holder.slot) != 0 {
        return Ok(Ok(None));
    }
    // A delete may have marked the node since, and the slot may have another key by now. docs/TREE.md#what-could-go-wrong
    let life = steps::locked_load(table, seat, holder.slot, Part::Life);
    let holds = is_life(life, holder.generation);
    if !holds {
        steps::unlock(table, seat, holder.slot);
        return Ok(Ok(None));
    }
    // Only the lock's holder stores here, so this is the value that the update replaces.
    let old = steps::locked_load(table, seat, holder.slot, Part::Value);
    if is_other(expected, old) {
        steps::unlock(table, seat, holder.slot);
        return Ok(Ok(None));
    }
    let front = match open_commit_so(patience, table, seat, WhenCrowded::GiveWay)? {
        Ok(front) => front,
        Err(busy) => {
            steps::unlock(table, seat, holder.slot);
            return Ok(Err(busy));
        }
    };
    steps::replace_value(table, seat, holder.slot, key, value);
    let number = close_commit(table, seat, front);
    steps::unlock(table, seat, holder.slot);
    Ok(Ok(Some(Replaced { old, number })))
}
