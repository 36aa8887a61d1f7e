//! A node with two children is taken out: its successor moves to its place.
ghost use Rattle.std.specs.Prelude.{◌≡◌, ◌≢◌, ◌⊎◌, ◌+◌, ◌*◌, ◌^◌, ◌<◌, ◌≤◌, ◌==◌, ℕ, List, [], ◌∷◌, ◌++◌, length, Some, None, IfSome, IfNone, IfOk, IfErr};
ghost use Rattle.list_laws.specs.Counts.{times};
ghost use Rattle.prcu_marks.specs.declared.mark.Mark.TheVariants.{Began, Ended};
ghost use Rattle.prcu_model.specs.declared.operation.Op.TheVariants.{Del};
ghost use Rattle.core_points.specs.declared.stage.Last.TheVariants as last;
ghost use Rattle.core_points.specs.declared.stage.Stage.TheVariants as at;
ghost use Rattle.core_points.specs.declared.stage.Waits.TheVariants as waits;
ghost use Rattle.core_points.specs.DeleteFacts.{all_locks};
ghost use Rattle.core_points.specs.Programs.{move_locks};
ghost use Rattle.seat_table.specs.Gains.{IsInformed};
ghost use Rattle.seat_table.specs.Sections.{HasMade};
ghost use Rattle.seat_table.specs.Seats.{AreListed, IsSlotOf, shape_of};
ghost use Rattle.seat_table.specs.Waits.{HasWaited};
ghost use Rattle.tree_points.specs.Points.{HasLocks, IsAt, IsDone, HasAdvanced};
ghost use Rattle.citrus_tree.specs.Deletes.{StandsAt, Comes, KeepsAll, KeepsRest, KeepsWaits, HasDeleted, HasCopied, AreLivesSmall, KeepsValue, RetiresIf, TakesValue, locked_slots, retired_slots};
ghost use Rattle.citrus_tree.specs.Going.{GivesNoneBack, KeepsSlots, KeepsWait, RetiresBehind};
ghost use Rattle.citrus_tree.specs.Replies.{IsUnlinkedSince};

use crate::commit::{close_commit, open_commit};
use crate::delete::bypass::{settle_side, slot_of};
use crate::delete::locks::unlock_target;
use core_points::stage::{Moving, Node, Successor, Target};
use key_interval::Keys;
use patience::Patience;
use prcu_marks::{Gate, Side};
use seat_table::{CitrusTable, Part, Seat, WaitPart, steps, wait_in_grace};

/// Links a copy of the successor in the node's place, waits for the readers that may be on their way to the old one, unlinks that, gives
/// up all locks, and answers the update's number; or nothing, where the copy's lock is taken.
pub(crate) fn shift<P: Patience, W: WaitPart, G: Gate>(
    patience: &P,
    table: &CitrusTable<W>,
    seat: &mut Seat<W>,
    gate: &G,
    key: u64,
    node: Node,
    successor: Successor,
) -> Result<Option<u64>, P::Tired>
    requires table { seat.old.table ≡ table.now }
    requires at { (kept : ℕ) × IsAt (shape_of W.WAY table.now) (Del key) kept (at.SuccessorKey node successor) seat.old.view }
    requires small { AreLivesSmall node (Some successor) }
    requires listed { AreListed seat.old }
    ensures table { seat.new.table ≡ seat.old.table }
    ensures done { IfOk result (λ answer. IfSome answer
        (λ number. (kept : ℕ) → IsAt (shape_of W.WAY table.now) (Del key) kept (at.SuccessorKey node successor) seat.old.view
        → IsDone (shape_of W.WAY table.now) (Del key) kept seat.new.view)) }
    ensures deleted { IfOk result (λ answer. IfSome answer (λ number. HasDeleted seat.old.view key number seat.new.view)) }
    ensures took { IfOk result (λ answer. IfSome answer (λ number. TakesValue seat.old.view node.node key number seat.new.view)) }
    ensures retires { IfOk result (λ answer. RetiresIf seat.old key answer seat.new) }
    ensures again { IfOk result (λ answer. IfNone answer
        (Comes (shape_of W.WAY table.now) (at.SuccessorKey node successor) seat.old.view at.EnterClock seat.new.view)) }
    ensures same { IfOk result (λ answer. IfNone answer (KeepsRest seat.old.view seat.new.view)) }
    ensures waits { IfOk result (λ answer. IfSome answer (λ _. KeepsWait seat.old.view seat.new.view)) }
    ensures slots { IfOk result (λ _. KeepsSlots seat.old seat.new) }
    ensures stays { IfOk result (λ _. GivesNoneBack seat.old seat.new) }
    ensures listed { IfOk result (λ _. AreListed seat.new) }
    ensures informed { IfOk result (λ answer. IfSome answer (λ number. IsInformed seat.new.view)) }
    ensures tired { IfErr result (λ _. HasMade (P.least patience.now) seat.new.view) }
{
    let Some(copy) = seat.spare() else {
        unreachable!()
    };
    let next_key = fill_copy(table, seat, node, successor, copy);
    // Locked, so that nobody parts the copy from the old successor. A caller with an old record of the slot may hold it.
    // docs/TREE.md#what-could-go-wrong
    if steps::lock(table, seat, copy) != 0 {
        let target = Target {
            node,
            successor: Some(successor),
        };
        unlock_target(table, seat, &target);
        return Ok(None);
    }
    let number = link_copy(patience, table, seat, node, successor, copy, key, next_key)?;
    let moving = Moving {
        node,
        successor,
        copy,
        next_key,
        number,
    };
    finish(patience, table, seat, gate, key, moving)?;
    Ok(Some(number))
}

// Fills the spare with the successor's pair and the node's links, and answers the successor's key.
fn fill_copy<W: WaitPart>(
    table: &CitrusTable<W>,
    seat: &mut Seat<W>,
    node: Node,
    successor: Successor,
    copy: u32,
) -> u64
    requires table { seat.old.table ≡ table.now }
    requires at { StandsAt (shape_of W.WAY table.now) (at.SuccessorKey node successor) seat.old.view }
    requires spare { IsSlotOf (Some copy) seat.old.view.hands.spare }
    ensures seat { (seat.new.table ≡ seat.old.table) × (seat.new.listed ≡ seat.old.listed) }
    ensures at { Comes (shape_of W.WAY table.now) (at.SuccessorKey node successor) seat.old.view
        (at.CopyLock node successor result) seat.new.view }
    ensures spare { IsSlotOf (Some copy) seat.new.view.hands.spare }
    ensures value { KeepsValue node.node seat.old.view seat.new.view }
    ensures same { KeepsAll seat.old.view seat.new.view }
{
    let next_key = steps::locked_load(table, seat, successor.slot, Part::Key);
    let value = steps::locked_load(table, seat, successor.slot, Part::Value);
    steps::fill(table, seat, copy, Part::Key, next_key);
    steps::fill(table, seat, copy, Part::Value, value);
    steps::fill(
        table,
        seat,
        copy,
        Part::Link { side: Side::Left },
        node.left,
    );
    steps::fill(
        table,
        seat,
        copy,
        Part::Link { side: Side::Right },
        node.right,
    );
    steps::load_own_life(table, seat, copy);
    next_key
}

// Marks the node, links the copy in its place, and answers the update's number.
fn link_copy<P: Patience, W: WaitPart>(
    patience: &P,
    table: &CitrusTable<W>,
    seat: &mut Seat<W>,
    node: Node,
    successor: Successor,
    copy: u32,
    key: u64,
    next_key: u64,
) -> Result<u64, P::Tired>
    requires table { seat.old.table ≡ table.now }
    requires at { (kept : ℕ) × IsAt (shape_of W.WAY table.now) (Del key) kept (at.CopyMark node successor next_key) seat.old.view }
    requires spare { IsSlotOf (Some copy) seat.old.view.hands.spare }
    requires small { AreLivesSmall node (Some successor) }
    ensures seat { (seat.new.table ≡ seat.old.table) × (seat.new.listed ≡ seat.old.listed) }
    ensures at { IfOk result (λ answer. (kept : ℕ)
        → IsAt (shape_of W.WAY table.now) (Del key) kept (at.CopyMark node successor next_key) seat.old.view
        → IsAt (shape_of W.WAY table.now) (Del key) kept
        (at.Begin (waits.Move (record {
          node = node;
          successor = successor;
          copy = copy;
          next_key = next_key;
          number = answer;
        }))) seat.new.view) }
    ensures done { IfOk result (λ answer. (kept : ℕ)
        → IsAt (shape_of W.WAY table.now) (Del key) kept (at.CopyMark node successor next_key) seat.old.view
        → HasCopied seat.old.view key next_key node.node answer seat.new.view) }
    ensures took { IfOk result (λ answer. TakesValue seat.old.view node.node key answer seat.new.view) }
    ensures locked { IfOk result (λ _. locked_slots seat.new.view ≡ locked_slots seat.old.view) }
    ensures retired { IfOk result (λ _. retired_slots seat.new.view ≡ retired_slots seat.old.view ++ node.node ∷ []) }
    ensures stay { IfOk result (λ _. RetiresBehind seat.old.view seat.new.view) }
    ensures waits { IfOk result (λ _. KeepsWaits seat.old.view seat.new.view) }
    ensures tired { IfErr result (λ _. HasMade (P.least patience.now) seat.new.view) }
{
    steps::mark(table, seat, node.node, 2 * node.generation);
    let front = open_commit(patience, table, seat)?;
    steps::link_copy(
        table,
        seat,
        node.parent,
        node.side,
        node.node,
        copy,
        successor.slot,
        successor.parent,
        key,
        next_key,
    );
    Ok(close_commit(table, seat, front))
}

// Ends a move that is pending.
fn finish<P: Patience, W: WaitPart, G: Gate>(
    patience: &P,
    table: &CitrusTable<W>,
    seat: &mut Seat<W>,
    gate: &G,
    key: u64,
    moving: Moving,
) -> Result<(), P::Tired>
    requires table { seat.old.table ≡ table.now }
    requires at { (kept : ℕ) × IsAt (shape_of W.WAY table.now) (Del key) kept (at.Begin (waits.Move moving)) seat.old.view }
    requires small { 2 * moving.successor.generation < 2 ^ 64 }
    requires listed { (slot : ℕ) → times slot seat.old.listed + times slot (moving.node.node ∷ [])
        ≡ times slot (retired_slots seat.old.view) }
    requires few { length seat.old.listed + 1 < table.now.room }
    requires above { key < moving.next_key }
    ensures table { seat.new.table ≡ seat.old.table }
    ensures done { IfOk result (λ _. (kept : ℕ) → IsAt (shape_of W.WAY table.now) (Del key) kept
        (at.Begin (waits.Move moving)) seat.old.view → IsDone (shape_of W.WAY table.now) (Del key) kept seat.new.view) }
    ensures waited { IfOk result (λ _. HasAdvanced seat.old.view seat.new.view
        (Began seat.old.view.allowance.place seat.old.view.counts.waits (key + 1) moving.next_key
        ∷ (Ended seat.old.view.allowance.place seat.old.view.counts.waits ∷ []))) }
    ensures waits { IfOk result (λ _. KeepsWait seat.old.view seat.new.view) }
    ensures later { IfOk result (λ _. seat.old.view.counts.waits < seat.new.view.counts.waits) }
    ensures unlinked { IfOk result (λ _. IsUnlinkedSince seat.old.view.seen moving.successor.slot seat.new.view.seen) }
    ensures listing { IfOk result (λ _. seat.new.listed ≡ seat.old.listed ++ moving.node.node ∷ (moving.successor.slot ∷ [])) }
    ensures stays { IfOk result (λ _. GivesNoneBack seat.old seat.new) }
    ensures listed { IfOk result (λ _. AreListed seat.new) }
    ensures informed { IfOk result (λ _. IsInformed seat.new.view) }
    ensures tired { IfErr result (λ _. HasMade (P.least patience.now) seat.new.view) }
{
    // Between the copy's link and the unlinking: earlier readers may be on their way to the old successor. docs/TREE.md#the-tree
    wait_in_grace(
        patience,
        table,
        seat,
        gate,
        Keys::between(key, moving.next_key),
    )?;
    unlink_old(table, seat, moving);
    unlock_all(table, seat, moving);
    seat.list_retired(moving.node.node);
    seat.list_retired(moving.successor.slot);
    Ok(())
}

// Marks the old successor and unlinks it: from the copy's right, where it was the node's right, else from its parent's left.
fn unlink_old<W: WaitPart>(table: &CitrusTable<W>, seat: &mut Seat<W>, moving: Moving)
    requires table { seat.old.table ≡ table.now }
    requires at { StandsAt (shape_of W.WAY table.now) (at.OldMark moving) seat.old.view }
    requires small { 2 * moving.successor.generation < 2 ^ 64 }
    ensures seat { (seat.new.table ≡ seat.old.table) × (seat.new.listed ≡ seat.old.listed) }
    ensures at { Comes (shape_of W.WAY table.now) (at.OldMark moving) seat.old.view (at.Unlock (last.Gone moving.number)) seat.new.view }
    ensures locked { HasLocks (move_locks moving) seat.new.view }
    ensures gone { HasAdvanced seat.old.view seat.new.view [] }
    ensures unlinked { IsUnlinkedSince seat.old.view.seen moving.successor.slot seat.new.view.seen }
    ensures retired { retired_slots seat.new.view ≡ retired_slots seat.old.view ++ moving.successor.slot ∷ [] }
    ensures stay { RetiresBehind seat.old.view seat.new.view }
    ensures waits { KeepsWaits seat.old.view seat.new.view }
{
    let node = moving.node;
    let successor = moving.successor;
    steps::mark(table, seat, successor.slot, 2 * successor.generation);
    let right = steps::locked_load(
        table,
        seat,
        successor.slot,
        Part::Link { side: Side::Right },
    );
    let child = slot_of(right);
    if successor.parent == node.node {
        steps::unlink_right(table, seat, moving.copy, successor.slot, child);
        settle_side(table, seat, moving.copy, Side::Right, child);
        return;
    }
    steps::unlink_left(table, seat, successor.parent, successor.slot, child);
    settle_side(table, seat, successor.parent, Side::Left, child);
}

// Gives up the locks of a move that is over.
fn unlock_all<W: WaitPart>(table: &CitrusTable<W>, seat: &mut Seat<W>, moving: Moving)
    requires table { seat.old.table ≡ table.now }
    requires at { StandsAt (shape_of W.WAY table.now) (at.Unlock (last.Gone moving.number)) seat.old.view }
    requires locked { HasLocks (move_locks moving) seat.old.view }
    ensures seat { (seat.new.table ≡ seat.old.table) × (seat.new.listed ≡ seat.old.listed) }
    ensures at { Comes (shape_of W.WAY table.now) (at.Unlock (last.Gone moving.number)) seat.old.view at.Finished seat.new.view }
    ensures same { KeepsRest seat.old.view seat.new.view }
    ensures informed { IsInformed seat.new.view }
{
    unlock_below(table, seat, moving);
    steps::unlock(table, seat, moving.copy);
    steps::unlock(table, seat, moving.node.node);
    steps::unlock(table, seat, moving.node.parent);
}

// Those of the old successor, and of the slot above it where this isn't the node.
fn unlock_below<W: WaitPart>(table: &CitrusTable<W>, seat: &mut Seat<W>, moving: Moving)
    requires table { seat.old.table ≡ table.now }
    requires at { StandsAt (shape_of W.WAY table.now) (at.Unlock (last.Gone moving.number)) seat.old.view }
    requires locked { HasLocks (move_locks moving) seat.old.view }
    ensures seat { (seat.new.table ≡ seat.old.table) × (seat.new.listed ≡ seat.old.listed) }
    ensures at { Comes (shape_of W.WAY table.now) (at.Unlock (last.Gone moving.number)) seat.old.view
        (at.Unlock (last.Gone moving.number)) seat.new.view }
    ensures locked { HasLocks (moving.copy ∷ moving.node.node ∷ moving.node.parent ∷ []) seat.new.view }
    ensures same { KeepsRest seat.old.view seat.new.view }
{
    let node = moving.node;
    let successor = moving.successor;
    steps::unlock(table, seat, successor.slot);
    if successor.parent == node.node {
        return;
    }
    steps::unlock(table, seat, successor.parent);
}
