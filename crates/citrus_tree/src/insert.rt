//! A pair is added.
//!
//! The way of a put leads through these files, from its caller down to the steps:
//!
//! - `any_caller.rt` and `caller.rt` of `tree_handles`, or `client.rt` and `calling.rt` of `tree_lift`: the caller, and the lift behind it;
//! - `steadfast.rt` for callers that never give up, and `patient.rt` for all: which call an operation asks for;
//! - this one: a search, a slot, a lock and a link, and all over again where another caller was first;
//! - `descent.rt`: the section and the way down; `search.rt`: what is recorded of the empty side, and the section's end;
//! - `taking.rt` and `slots.rt` of `node_slots`: a free slot, or a slot put back; `reusing.rt`: a retired one, used again; `reclaiming.rt`: the
//!   retired ones, given back;
//! - `lives.rt`: a life compared under the lock; `commit.rt`: the front, odd for the link's store alone; `answer.rt`: the reply;
//! - `steps.rt` and `steps/waiters.rt` of `seat_table`, the latter called by `waiters`: each atomic step, made in `access.rt`.
ghost use Rattle.std.specs.Prelude.{◌≡◌, ℕ, ◌*◌, ◌≤◌, true, false, ◌∷◌, [], Some, None, IfOk, IfErr};
ghost use Rattle.core_points.specs.declared.stage.Aim.TheVariants.{Leaf};
ghost use Rattle.core_points.specs.declared.stage.Spot.{Spot};
ghost use Rattle.core_points.specs.declared.stage.Stage.TheVariants as at;
ghost use Rattle.prcu_model.specs.declared.operation.Op.TheVariants.{Put};
ghost use Rattle.prcu_model.specs.declared.operation.Reply.TheVariants.{New};
ghost use Rattle.seat_table.specs.Gains.{IsInformed};
ghost use Rattle.seat_table.specs.Sections.{HasMade, HasStepped};
ghost use Rattle.seat_table.specs.Seats.{AreListed, IsQuietSeat, IsSlotOf, shape_of};
ghost use Rattle.tree_points.specs.Points.{HasLocks, IsAt};
ghost use Rattle.citrus_tree.specs.Deletes.{StandsAt, Comes, BeginsByLookup};
ghost use Rattle.citrus_tree.specs.Going.{Goes, Searched, leaf_stage, KeepsSlots, old_stage, taken_stage, filled_stage, held_stage, linked_stage, MakesRoom, Links, KeepsSeat, KeepsSeatBy, LeafBy, MayUse, TakesBy, used_slot};
ghost use Rattle.citrus_tree.specs.Replies.{GaveWay, IsFullNow, Puts};

use crate::answer::{Called, answered};
use crate::commit::{WhenCrowded, close_commit, open_commit_so};
use crate::descent::{Descent, descend};
use crate::lives::is_life;
use crate::search::leave_with_spot;
use core_points::stage::Spot;
use node_slots::patient::{reclaim, take};
use node_slots::{Taken, put_back};
use patience::Patience;
use prcu_marks::{Gate, Point, Side};
use prcu_model::Reply;
use seat_table::{CitrusTable, Part, Seat, WaitPart, steps};

/// An empty side that a search reached, and over how many slots it came there from the root.
#[derive(Clone, Copy)]
pub(crate) struct Reached {
    spot: Spot,
    depth: u64,
}

/// Which slot a put takes for its pair.
#[derive(Clone, Copy)]
pub enum Reuse {
    /// A free one.
    Free,
    /// This retired one of its place, which was waited for; or a free one, where the place has no spare.
    Retired { slot: u32 },
}

/// Adds the pair, where the key is absent: `New` with the update's position. `Old` where the key is present, as at `get`, and `Full`
/// where it is absent, no slot is free, and the caller has none to give back. It waits for the holder of the lock of the node above, for
/// other updates, and, where no slot is free, for all open sections. The depth is that of its last search, and 0 where no pair was added.
/// It answers busy where the lock is taken, the side isn't as the search left it, others have the front for long, or no slot is free while the
/// place has some to give back, and its patience would rather be called again: then it made no update, and no slot is in hand.
pub fn put<P: Patience, W: WaitPart, G: Gate>(
    patience: &P,
    table: &CitrusTable<W>,
    seat: &mut Seat<W>,
    gate: &G,
    key: u64,
    value: u64,
) -> Result<Result<Called, P::Busy>, P::Tired>
    requires table { seat.old.table ≡ table.now }
    requires quiet { IsQuietSeat seat.old }
    requires tickets { 4 ≤ seat.old.view.allowance.tickets }
    ensures table { seat.new.table ≡ seat.old.table }
    ensures puts { IfOk result (λ answer. IfOk answer
        (λ called. Puts (shape_of W.WAY table.now) seat.old.view key value called.told seat.new.view)) }
    ensures busy { IfOk result (λ answer. IfErr answer
        (λ _. GaveWay (shape_of W.WAY table.now) seat.old.view (Put key value) seat.new.view)) }
    ensures begins { IfOk result (λ _. BeginsByLookup seat.old.view key seat.new.view) }
    ensures keeps { IfOk result (λ _. KeepsSeat 4 seat.old seat.new) }
    ensures informed { IfOk result (λ answer. IfOk answer (λ _. IsInformed seat.new.view)) }
    ensures tired { IfErr result (λ _. HasMade (P.least patience.now) seat.new.view) }
{
    put_reusing(patience, table, seat, gate, key, value, Reuse::Free)
}

/// Adds the pair as `put` does, and takes the slot for it that it is told. Where the place has a spare the retired one is used again: then no
/// free slot is sought, the free count isn't asked, and where the answer is `New` that slot is the pair's. Where the key is there, or others are
/// in its way, the slot goes back like any other that isn't needed, or stays retired.
pub fn put_reusing<P: Patience, W: WaitPart, G: Gate>(
    patience: &P,
    table: &CitrusTable<W>,
    seat: &mut Seat<W>,
    gate: &G,
    key: u64,
    value: u64,
    reuse: Reuse,
) -> Result<Result<Called, P::Busy>, P::Tired>
    requires table { seat.old.table ≡ table.now }
    requires quiet { IsQuietSeat seat.old }
    requires tickets { 4 ≤ seat.old.view.allowance.tickets }
    requires ready { MayUse reuse seat.old.view }
    ensures table { seat.new.table ≡ seat.old.table }
    ensures puts { IfOk result (λ answer. IfOk answer
        (λ called. Puts (shape_of W.WAY table.now) seat.old.view key value called.told seat.new.view)) }
    ensures busy { IfOk result (λ answer. IfErr answer
        (λ _. GaveWay (shape_of W.WAY table.now) seat.old.view (Put key value) seat.new.view)) }
    ensures begins { IfOk result (λ _. BeginsByLookup seat.old.view key seat.new.view) }
    ensures keeps { IfOk result (λ _. KeepsSeatBy 4 reuse seat.old seat.new) }
    ensures uses { IfOk result (λ answer. IfOk answer
        (λ called. called.told.reply ≡ New → TakesBy reuse seat.old.view.hands.spare seat.old seat.new)) }
    ensures informed { IfOk result (λ answer. IfOk answer (λ _. IsInformed seat.new.view)) }
    ensures tired { IfErr result (λ _. HasMade (P.least patience.now) seat.new.view) }
{
    // Without end, for all that a thread lives to see; the longer others are in the way, the longer the pauses.
    let mut pauses = patience.pauses();
    for round in 0..u64::MAX {
        let Some(Reached { spot, depth }) = find_spot(table, seat, gate, key) else {
            give_up_leaf(table, seat);
            return Ok(Ok(Called {
                told: answered(gate, seat, Reply::Old, 0),
                depth: 0,
            }));
        };
        let leaf = match leaf_in_hand(patience, table, seat, spot.slot, key, value, reuse)? {
            Ok(leaf) => leaf,
            Err(busy) => return Ok(Err(busy)),
        };
        let Some(leaf) = leaf else {
            return Ok(Ok(Called {
                told: answered(gate, seat, Reply::Full, 0),
                depth: 0,
            }));
        };
        // A gate is the caller's: a test holds a thread back here, and any other caller lets it through.
        gate.pass(Point::BeforeLock, seat.place());
        let linked = match link_leaf(patience, table, seat, spot, leaf, key, value)? {
            Ok(linked) => linked,
            Err(busy) => {
                give_up_leaf(table, seat);
                return Ok(Err(busy));
            }
        };
        if let Some(number) = linked {
            return Ok(Ok(Called {
                told: answered(gate, seat, Reply::New, number),
                depth,
            }));
        }
        // No lock is held here. A call that ends keeps no slot from the others either.
        if let Err(busy) = patience.rest(&mut pauses) {
            give_up_leaf(table, seat);
            return Ok(Err(busy));
        }
    }
    Err(patience.tired())
}

// The empty side at which the key belongs, with the way there, or none where the key is present.
fn find_spot<W: WaitPart, G: Gate>(
    table: &CitrusTable<W>,
    seat: &mut Seat<W>,
    gate: &G,
    key: u64,
) -> Option<Reached>
    requires table { seat.old.table ≡ table.now }
    requires outside { seat.old.view.section ≡ None }
    requires unlocked { seat.old.view.locks ≡ [] }
    ensures seat { (seat.new.table ≡ seat.old.table) × (seat.new.listed ≡ seat.old.listed) }
    ensures place { 1 ≤ table.now.places }
    ensures searched { Searched (shape_of W.WAY table.now) seat.old.view key result seat.new.view }
    ensures stepped { HasStepped seat.old.view seat.new.view }
{
    match descend(table, seat, gate, key) {
        Descent::Found { .. } => {
            W::leave(table, seat);
            None
        }
        Descent::Ended { slot, side, depth } => {
            Some(Reached {
                spot: leave_with_spot(table, seat, slot, side),
                depth,
            })
        }
    }
}

// Puts the slot in hand back, where there is one.
fn give_up_leaf<W: WaitPart>(table: &CitrusTable<W>, seat: &mut Seat<W>)
    requires table { seat.old.table ≡ table.now }
    requires at { StandsAt (shape_of W.WAY table.now) (old_stage seat.old.view.hands.hand) seat.old.view }
    requires informed { IsInformed seat.old.view }
    ensures seat { (seat.new.table ≡ seat.old.table) × (seat.new.listed ≡ seat.old.listed) }
    ensures goes { Goes seat.old.view seat.new.view [] }
    ensures at { Comes (shape_of W.WAY table.now) (old_stage seat.old.view.hands.hand) seat.old.view at.Finished seat.new.view }
    ensures informed { IsInformed seat.new.view }
{
    let Some(_slot) = seat.in_hand() else {
        return;
    };
    put_back(table, seat);
}

// The slot in hand, filled with the pair. It is filled once, after it was taken. There is none where no slot is free, and no retired one to
// give back; and it answers busy where it would have to wait for readers to give some back.
fn leaf_in_hand<P: Patience, W: WaitPart>(
    patience: &P,
    table: &CitrusTable<W>,
    seat: &mut Seat<W>,
    near: u32,
    key: u64,
    value: u64,
    reuse: Reuse,
) -> Result<Result<Option<u32>, P::Busy>, P::Tired>
    requires table { seat.old.table ≡ table.now }
    requires listed { AreListed seat.old }
    requires ready { seat.old.view.hands.hand ≡ None → MayUse reuse seat.old.view }
    requires at { (kept : ℕ) × (spot : Spot) × IsAt (shape_of W.WAY table.now) (Put key value) kept
        (leaf_stage seat.old.view.hands.hand spot) seat.old.view }
    ensures table { seat.new.table ≡ seat.old.table }
    ensures listed { IfOk result (λ _. AreListed seat.new) }
    ensures slot { IfOk result (λ answer. IfOk answer
        (λ leaf. (slot : ℕ) → leaf ≡ Some slot → IsSlotOf (Some slot) seat.new.view.hands.hand)) }
    ensures room { IfOk result (λ _. MakesRoom (shape_of W.WAY table.now) seat.old.view seat.new.view) }
    ensures slots { IfOk result (λ _. LeafBy seat.old.view.hands.hand reuse seat.old seat.new) }
    ensures full { IfOk result (λ answer. IfOk answer (λ leaf. leaf ≡ None → IsFullNow (shape_of W.WAY table.now) seat.new.view)) }
    ensures at { IfOk result (λ answer. IfOk answer (λ leaf. (kept : ℕ) (spot : Spot)
        → IsAt (shape_of W.WAY table.now) (Put key value) kept (leaf_stage seat.old.view.hands.hand spot) seat.old.view
        → IsAt (shape_of W.WAY table.now) (Put key value) kept (filled_stage leaf spot) seat.new.view)) }
    ensures busy { IfOk result (λ answer. IfErr answer (λ _. (kept : ℕ) (spot : Spot)
        → IsAt (shape_of W.WAY table.now) (Put key value) kept (leaf_stage seat.old.view.hands.hand spot) seat.old.view
        → IsAt (shape_of W.WAY table.now) (Put key value) kept at.Finished seat.new.view)) }
    ensures informed { IfOk result (λ answer. IfOk answer (λ leaf. leaf ≡ None → IsInformed seat.new.view)) }
    ensures tired { IfErr result (λ _. HasMade (P.least patience.now) seat.new.view) }
{
    if let Some(slot) = seat.in_hand() {
        return Ok(Ok(Some(slot)));
    }
    let taken = match take_slot(patience, table, seat, near, reuse)? {
        Ok(taken) => taken,
        Err(busy) => return Ok(Err(busy)),
    };
    let Some(slot) = taken else {
        return Ok(Ok(None));
    };
    fill_leaf(table, seat, slot, key, value);
    Ok(Ok(Some(slot)))
}

// Stores the pair in the slot in hand, and no children.
fn fill_leaf<W: WaitPart>(
    table: &CitrusTable<W>,
    seat: &mut Seat<W>,
    slot: u32,
    key: u64,
    value: u64,
)
    requires table { seat.old.table ≡ table.now }
    requires slot { IsSlotOf (Some slot) seat.old.view.hands.hand }
    requires at { (kept : ℕ) × (spot : Spot) × IsAt (shape_of W.WAY table.now) (Put key value) kept (at.LeafField spot 0) seat.old.view }
    ensures seat { (seat.new.table ≡ seat.old.table) × (seat.new.listed ≡ seat.old.listed) }
    ensures slot { IsSlotOf (Some slot) seat.new.view.hands.hand }
    ensures goes { Goes seat.old.view seat.new.view [] }
    ensures at { (kept : ℕ) (spot : Spot) → IsAt (shape_of W.WAY table.now) (Put key value) kept (at.LeafField spot 0) seat.old.view
        → IsAt (shape_of W.WAY table.now) (Put key value) kept (at.LeafLock spot) seat.new.view }
{
    steps::fill(table, seat, slot, Part::Key, key);
    steps::fill(table, seat, slot, Part::Value, value);
    steps::fill(table, seat, slot, Part::Link { side: Side::Left }, 0);
    steps::fill(table, seat, slot, Part::Link { side: Side::Right }, 0);
}

// The retired slot that is to be used again, where there is one; else a free one, near that at which it will hang where one there is free.
fn take_slot<P: Patience, W: WaitPart>(
    patience: &P,
    table: &CitrusTable<W>,
    seat: &mut Seat<W>,
    near: u32,
    reuse: Reuse,
) -> Result<Result<Option<u32>, P::Busy>, P::Tired>
    requires table { seat.old.table ≡ table.now }
    requires listed { AreListed seat.old }
    requires ready { MayUse reuse seat.old.view }
    requires at { (spot : Spot) × (expected : ℕ) × StandsAt (shape_of W.WAY table.now) (at.Reserve (Leaf spot) expected) seat.old.view }
    ensures table { seat.new.table ≡ seat.old.table }
    ensures listed { IfOk result (λ _. AreListed seat.new) }
    ensures slot { IfOk result (λ answer. IfOk answer
        (λ taken. (slot : ℕ) → taken ≡ Some slot → IsSlotOf (Some slot) seat.new.view.hands.hand)) }
    ensures room { IfOk result (λ _. MakesRoom (shape_of W.WAY table.now) seat.old.view seat.new.view) }
    ensures slots { IfOk result (λ _. TakesBy reuse seat.old.view.hands.spare seat.old seat.new) }
    ensures full { IfOk result (λ answer. IfOk answer (λ taken. taken ≡ None → IsFullNow (shape_of W.WAY table.now) seat.new.view)) }
    ensures at { IfOk result (λ answer. IfOk answer (λ taken. (spot : Spot) (expected : ℕ)
        → Comes (shape_of W.WAY table.now) (at.Reserve (Leaf spot) expected) seat.old.view (taken_stage taken spot) seat.new.view)) }
    ensures busy { IfOk result (λ answer. IfErr answer (λ _. (spot : Spot) (expected : ℕ)
        → Comes (shape_of W.WAY table.now) (at.Reserve (Leaf spot) expected) seat.old.view at.Finished seat.new.view)) }
    ensures informed { IfOk result (λ _. IsInformed seat.new.view) }
    ensures tired { IfErr result (λ _. HasMade (P.least patience.now) seat.new.view) }
{
    if let Some(slot) = slot_to_use(seat, reuse) {
        node_slots::reuse(table, seat, slot);
        return Ok(Ok(Some(slot)));
    }
    seat.note_near(table, near);
    take_free(patience, table, seat)
}

// The retired slot that is to be used again. Without a spare it is none: the next of the retired ones is to become that.
fn slot_to_use<W: WaitPart>(seat: &Seat<W>, reuse: Reuse) -> Option<u32>
    ensures { result ≡ used_slot reuse seat.now.view.hands.spare }
{
    let Reuse::Retired { slot } = reuse else {
        return None;
    };
    seat.spare()?;
    Some(slot)
}

// A free slot, for which the retired ones are given back where none is free. That takes a wait for all readers: there it may be busy.
fn take_free<P: Patience, W: WaitPart>(
    patience: &P,
    table: &CitrusTable<W>,
    seat: &mut Seat<W>,
) -> Result<Result<Option<u32>, P::Busy>, P::Tired>
    requires table { seat.old.table ≡ table.now }
    requires listed { AreListed seat.old }
    requires at { (spot : Spot) × (expected : ℕ) × StandsAt (shape_of W.WAY table.now) (at.Reserve (Leaf spot) expected) seat.old.view }
    ensures table { seat.new.table ≡ seat.old.table }
    ensures listed { IfOk result (λ _. AreListed seat.new) }
    ensures slot { IfOk result (λ answer. IfOk answer
        (λ taken. (slot : ℕ) → taken ≡ Some slot → IsSlotOf (Some slot) seat.new.view.hands.hand)) }
    ensures room { IfOk result (λ _. MakesRoom (shape_of W.WAY table.now) seat.old.view seat.new.view) }
    ensures slots { IfOk result (λ _. KeepsSlots seat.old seat.new) }
    ensures full { IfOk result (λ answer. IfOk answer (λ taken. taken ≡ None → IsFullNow (shape_of W.WAY table.now) seat.new.view)) }
    ensures at { IfOk result (λ answer. IfOk answer (λ taken. (spot : Spot) (expected : ℕ)
        → Comes (shape_of W.WAY table.now) (at.Reserve (Leaf spot) expected) seat.old.view (taken_stage taken spot) seat.new.view)) }
    ensures busy { IfOk result (λ answer. IfErr answer (λ _. (spot : Spot) (expected : ℕ)
        → Comes (shape_of W.WAY table.now) (at.Reserve (Leaf spot) expected) seat.old.view at.Finished seat.new.view)) }
    ensures informed { IfOk result (λ _. IsInformed seat.new.view) }
    ensures tired { IfErr result (λ _. HasMade (P.least patience.now) seat.new.view) }
{
    if let Taken::Slot { slot, .. } = take(patience, table, seat)? {
        return Ok(Ok(Some(slot)));
    }
    if seat.retired().is_empty() {
        return Ok(Ok(None));
    }
    if let Err(busy) = patience.before_readers() {
        return Ok(Err(busy));
    }
    reclaim(patience, table, seat)?;
    match take(patience, table, seat)? {
        Taken::Slot { slot, .. } => Ok(Ok(Some(slot))),
        Taken::Empty => Ok(Ok(None)),
    }
}

// Links the slot in hand at the recorded side, and answers the update's number; or nothing, where the lock is taken or the side isn't
// as recorded any more. It answers busy where others have the front for long. Then too it holds no lock, and the slot is in hand.
fn link_leaf<P: Patience, W: WaitPart>(
    patience: &P,
    table: &CitrusTable<W>,
    seat: &mut Seat<W>,
    spot: Spot,
    leaf: u32,
    key: u64,
    value: u64,
) -> Result<Result<Option<u64>, P::Busy>, P::Tired>
    requires table { seat.old.table ≡ table.now }
    requires slot { IsSlotOf (Some leaf) seat.old.view.hands.hand }
    requires at { (kept : ℕ) × IsAt (shape_of W.WAY table.now) (Put key value) kept (at.LeafLock spot) seat.old.view }
    ensures seat { (seat.new.table ≡ seat.old.table) × (seat.new.listed ≡ seat.old.listed) }
    ensures again { IfOk result (λ answer. IfOk answer (λ linked. linked ≡ None → Goes seat.old.view seat.new.view [])) }
    ensures still { IfOk result (λ answer. IfOk answer (λ linked. linked ≡ None → IsSlotOf (Some leaf) seat.new.view.hands.hand)) }
    ensures linked { IfOk result (λ answer. IfOk answer (λ linked. (kept number : ℕ)
        → IsAt (shape_of W.WAY table.now) (Put key value) kept (at.LeafLock spot) seat.old.view → linked ≡ Some number
        → Links seat.old.view key value number seat.new.view)) }
    ensures at { IfOk result (λ answer. IfOk answer (λ linked. (kept : ℕ)
        → IsAt (shape_of W.WAY table.now) (Put key value) kept (at.LeafLock spot) seat.old.view
        → IsAt (shape_of W.WAY table.now) (Put key value) kept (linked_stage linked) seat.new.view)) }
    ensures busy { IfOk result (λ answer. IfErr answer (λ _. Goes seat.old.view seat.new.view [])) }
    ensures back { IfOk result (λ answer. IfErr answer (λ _. (kept : ℕ)
        → IsAt (shape_of W.WAY table.now) (Put key value) kept (at.LeafLock spot) seat.old.view
        → IsAt (shape_of W.WAY table.now) (Put key value) kept at.EnterClock seat.new.view)) }
    ensures informed { IfOk result (λ _. IsInformed seat.new.view) }
    ensures tired { IfErr result (λ _. HasMade (P.least patience.now) seat.new.view) }
{
    if steps::lock(table, seat, spot.slot) != 0 {
        return Ok(Ok(None));
    }
    // Since the search others may have used the slot again, filled the side, or filled and emptied it. docs/TREE.md#the-tree
    if !still_holds(table, seat, spot) {
        steps::unlock(table, seat, spot.slot);
        return Ok(Ok(None));
    }
    // Odd for the one store alone: updates take turns for these three steps, and get their numbers by them. docs/TREE.md#the-tree
    // Who gives up here keeps the lock: the seat is lost with it. docs/EMBEDDING.md#a-lost-handle
    let front = match open_commit_so(patience, table, seat, WhenCrowded::GiveWay)? {
        Ok(front) => front,
        Err(busy) => {
            steps::unlock(table, seat, spot.slot);
            return Ok(Err(busy));
        }
    };
    steps::link_leaf(table, seat, spot.slot, spot.side, leaf, key, value);
    let number = close_commit(table, seat, front);
    steps::unlock(table, seat, spot.slot);
    Ok(Ok(Some(number)))
}

// Whether the side under the lock is as recorded.
fn still_holds<W: WaitPart>(table: &CitrusTable<W>, seat: &mut Seat<W>, spot: Spot) -> bool
    requires table { seat.old.table ≡ table.now }
    requires at { StandsAt (shape_of W.WAY table.now) (at.LeafLife spot) seat.old.view }
    ensures seat { (seat.new.table ≡ seat.old.table) × (seat.new.listed ≡ seat.old.listed) }
    ensures slot { (leaf : ℕ) → IsSlotOf (Some leaf) seat.old.view.hands.hand → IsSlotOf (Some leaf) seat.new.view.hands.hand }
    ensures locked { HasLocks (spot.slot ∷ []) seat.new.view }
    ensures goes { Goes seat.old.view seat.new.view [] }
    ensures at { Comes (shape_of W.WAY table.now) (at.LeafLife spot) seat.old.view (held_stage result spot) seat.new.view }
{
    let life = steps::locked_load(table, seat, spot.slot, Part::Life);
    let link = steps::locked_load(table, seat, spot.slot, Part::Link { side: spot.side });
    // An empty side isn't enough: after a move above other keys belong there. docs/TREE.md#the-tree
    let tag = steps::locked_load(table, seat, spot.slot, Part::Tag { side: spot.side });
    is_as_recorded(spot, life, link, tag)
}

// Whether these are the numbers that were recorded of an empty side, and of its slot's life.
fn is_as_recorded(spot: Spot, life: u64, link: u64, tag: u64) -> bool
    ensures holds { result ≡ true → (life ≡ 2 * spot.generation) × (link ≡ 0) × (tag ≡ spot.tag) }
    ensures fails { result ≡ false → life ≡ 2 * spot.generation → link ≡ 0 → tag ≡ spot.tag → ⊥ }
{
    is_life(life, spot.generation) && link == 0 && tag == spot.tag
}
