//! A node with at most one child is taken out.
ghost use Rattle.std.specs.Prelude.{◌≡◌, ◌+◌, ◌*◌, ◌^◌, ◌<◌, ◌==◌, if◌then◌else◌, ℕ, [], ◌∷◌, ◌++◌, length, None, IfOk, IfErr};
ghost use Rattle.prcu_model.specs.declared.operation.Op.TheVariants.{Del};
ghost use Rattle.core_points.specs.declared.stage.Last.TheVariants as last;
ghost use Rattle.core_points.specs.declared.stage.Stage.TheVariants as at;
ghost use Rattle.core_points.specs.declared.stage.Update.TheVariants as update;
ghost use Rattle.core_points.specs.Programs.{deleting, past_even};
ghost use Rattle.seat_table.specs.Gains.{IsInformed};
ghost use Rattle.seat_table.specs.Sections.{HasMade};
ghost use Rattle.seat_table.specs.Seats.{AreListed, shape_of};
ghost use Rattle.tree_points.specs.Points.{HasLocks, IsAt, IsDone};
ghost use Rattle.citrus_tree.specs.Deletes.{StandsAt, Comes, KeepsAll, KeepsWaits, HasDone, AreLivesSmall, TakesValue, locked_slots, relinked_at, retired_slots};
ghost use Rattle.citrus_tree.specs.Going.{KeepsSlots, RetiresBehind};

use crate::commit::{close_commit, open_commit};
use core_points::stage::Node;
use patience::Patience;
use prcu_marks::Side;
use seat_table::{CitrusTable, Part, Seat, WaitPart, steps};

/// Marks the node, links its parent past it, gives up the locks of both, and answers the update's number.
pub(crate) fn bypass<P: Patience, W: WaitPart>(
    patience: &P,
    table: &CitrusTable<W>,
    seat: &mut Seat<W>,
    node: Node,
    key: u64,
) -> Result<u64, P::Tired>
    requires table { seat.old.table ≡ table.now }
    requires at { (kept : ℕ) × IsAt (shape_of W.WAY table.now) (Del key) kept (deleting node None) seat.old.view }
    requires small { AreLivesSmall node None }
    requires locked { HasLocks (node.node ∷ node.parent ∷ []) seat.old.view }
    requires listed { AreListed seat.old }
    ensures table { seat.new.table ≡ seat.old.table }
    ensures done { IfOk result (λ answer. (kept : ℕ) → IsAt (shape_of W.WAY table.now) (Del key) kept (deleting node None) seat.old.view
        → IsDone (shape_of W.WAY table.now) (Del key) kept seat.new.view
        × HasDone seat.old.view (Del key) node.node [] answer seat.new.view) }
    ensures took { IfOk result (λ answer. TakesValue seat.old.view node.node key answer seat.new.view) }
    ensures listing { IfOk result (λ _. seat.new.listed ≡ seat.old.listed ++ node.node ∷ []) }
    ensures waits { IfOk result (λ _. KeepsWaits seat.old.view seat.new.view) }
    ensures slots { IfOk result (λ _. KeepsSlots seat.old seat.new) }
    ensures listed { IfOk result (λ _. AreListed seat.new) }
    ensures informed { IfOk result (λ _. IsInformed seat.new.view) }
    ensures tired { IfErr result (λ _. HasMade (P.least patience.now) seat.new.view) }
{
    let number = link_past(patience, table, seat, node, key)?;
    steps::unlock(table, seat, node.node);
    steps::unlock(table, seat, node.parent);
    // It keeps its links: readers may stand there until a wait for everybody is over. docs/TREE.md#the-tree
    seat.list_retired(node.node);
    Ok(number)
}

// The slot to which a link leads, or 0. All slots fit 32 bits.
pub(crate) fn slot_of(link: u64) -> u32
    ensures { link < 4294967296 → result ≡ link }
{
    (link % 4294967296) as u32
}

// The same, under the locks.
fn link_past<P: Patience, W: WaitPart>(
    patience: &P,
    table: &CitrusTable<W>,
    seat: &mut Seat<W>,
    node: Node,
    key: u64,
) -> Result<u64, P::Tired>
    requires table { seat.old.table ≡ table.now }
    requires at { (kept : ℕ) × IsAt (shape_of W.WAY table.now) (Del key) kept (deleting node None) seat.old.view }
    requires small { AreLivesSmall node None }
    ensures seat { (seat.new.table ≡ seat.old.table) × (seat.new.listed ≡ seat.old.listed) }
    ensures at { IfOk result (λ answer. (kept : ℕ) → IsAt (shape_of W.WAY table.now) (Del key) kept (deleting node None) seat.old.view
        → IsAt (shape_of W.WAY table.now) (Del key) kept (at.Unlock (last.Gone answer)) seat.new.view) }
    ensures done { IfOk result (λ answer. (kept : ℕ) → IsAt (shape_of W.WAY table.now) (Del key) kept (deleting node None) seat.old.view
        → HasDone seat.old.view (Del key) node.node [] answer seat.new.view) }
    ensures took { IfOk result (λ answer. TakesValue seat.old.view node.node key answer seat.new.view) }
    ensures locked { IfOk result (λ _. locked_slots seat.new.view ≡ locked_slots seat.old.view) }
    ensures retired { IfOk result (λ _. retired_slots seat.new.view ≡ retired_slots seat.old.view ++ node.node ∷ []) }
    ensures stay { IfOk result (λ _. RetiresBehind seat.old.view seat.new.view) }
    ensures waits { IfOk result (λ _. KeepsWaits seat.old.view seat.new.view) }
    ensures tired { IfErr result (λ _. HasMade (P.least patience.now) seat.new.view) }
{
    let child = slot_of(only_child(node));
    // Marked before it is unlinked: a caller with a record of the node, which gets the lock afterwards, finds it changed.
    // docs/TREE.md#what-could-go-wrong
    steps::mark(table, seat, node.node, 2 * node.generation);
    let front = open_commit(patience, table, seat)?;
    steps::bypass(table, seat, node.parent, node.side, node.node, child, key);
    let number = close_commit(table, seat, front);
    // Before the lock is given up, so that nobody finds the side empty with its old tag. docs/TREE.md#the-tree
    settle_side(table, seat, node.parent, node.side, child);
    Ok(number)
}

// The child of a node that has at most one, and 0 where it has none.
fn only_child(node: Node) -> u64
    ensures { result ≡ (if node.left == 0 then node.right else node.left) }
{
    if node.left == 0 {
        node.right
    } else {
        node.left
    }
}

/// Raises the tag of a side to which a link was stored, where that emptied it.
pub(crate) fn settle_side<W: WaitPart>(
    table: &CitrusTable<W>,
    seat: &mut Seat<W>,
    slot: u32,
    side: Side,
    child: u32,
)
    requires table { seat.old.table ≡ table.now }
    requires at { (number : ℕ) × StandsAt (shape_of W.WAY table.now) (relinked_at number slot side child) seat.old.view }
    ensures seat { (seat.new.table ≡ seat.old.table) × (seat.new.listed ≡ seat.old.listed) }
    ensures at { (number : ℕ) → Comes (shape_of W.WAY table.now) (relinked_at number slot side child) seat.old.view
        (at.Unlock (last.Gone number)) seat.new.view }
    ensures same { KeepsAll seat.old.view seat.new.view }
{
    if child != 0 {
        return;
    }
    raise_tag(table, seat, slot, side);
}

// Raises the tag of a side that was emptied.
fn raise_tag<W: WaitPart>(table: &CitrusTable<W>, seat: &mut Seat<W>, slot: u32, side: Side)
    requires table { seat.old.table ≡ table.now }
    requires at { (number : ℕ) × StandsAt (shape_of W.WAY table.now) (at.EmptyTag number slot side) seat.old.view }
    ensures seat { (seat.new.table ≡ seat.old.table) × (seat.new.listed ≡ seat.old.listed) }
    ensures at { (number : ℕ) → Comes (shape_of W.WAY table.now) (at.EmptyTag number slot side) seat.old.view
        (at.Unlock (last.Gone number)) seat.new.view }
    ensures same { KeepsAll seat.old.view seat.new.view }
{
    let tag = steps::locked_load(table, seat, slot, Part::Tag { side });
    steps::raise_tag(table, seat, slot, side, tag);
}
