//! A pair is taken out.

ghost use Rattle.std.specs.Prelude.{◌≡◌, ◌≢◌, ◌⊎◌, ◌+◌, ◌<◌, ◌≤◌, ℕ, [], length, Option, None, IfSome, IfNone, IfOk, true, false, is_some, Some, IfErr};
ghost use Rattle.prcu_model.specs.declared.operation.Op.TheVariants.{Del};
ghost use Rattle.core_points.specs.declared.stage.Stage.TheVariants as at;
ghost use Rattle.core_points.specs.Programs.{deleting};
ghost use Rattle.core_state.specs.declared.words.Field.TheVariants.{Value};
ghost use Rattle.core_state.specs.Views.{known_in, known_under};
ghost use Rattle.seat_table.specs.Gains.{IsInformed};
ghost use Rattle.seat_table.specs.Sections.{HasMade};
ghost use Rattle.seat_table.specs.Seats.{AreListed, IsQuietSeat, shape_of};
ghost use Rattle.tree_points.specs.Points.{IsAt, IsDone};
ghost use Rattle.citrus_tree.specs.Deletes.{BeginsByLookup, KeepsRest, HasDeleted, HasMadeRoom, IsReadyToDelete, DelsAtOnce, DelGaveWay, FoundExpected, FoundOther, GaveWayAtOnce, RetiresBy, StandsAt, Comes, IfDiffers, IfTold, IfTwo, KeepsAll, Removes, TellsTaken, DelTells, KeepsWaits, HasTwo, FoundTwoChildren, WaitsOnceAtMost, removed_of};
ghost use Rattle.citrus_tree.specs.Going.{GivesNoneBack, IsExpected, IsOther, MayBegin, KeepsSeat, KeepsSlots, KeepsWait};
ghost use Rattle.citrus_tree.specs.Lookups.{Looked, told_of};
ghost use Rattle.citrus_tree.specs.Replies.{RetiresInOrder, TellsValue};

mod bypass;
mod locks;
mod shift;
mod target;

use crate::answer::answered;
use crate::lookup::look_up;
use crate::replace::is_other;
use bypass::bypass;
use core_points::stage::{Node, Successor, Target};
use locks::{lock_target, unlock_target, validate};
use node_slots::Taken;
use node_slots::patient::{reclaim, take};
use patience::Patience;
use prcu_marks::{Gate, Point};
use prcu_model::{Reply, Told};
use seat_table::{CitrusTable, Part, Seat, WaitPart, steps};
use shift::shift;
use target::find_target;

/// What a `remove` came to.
#[derive(Clone, Copy, Debug, PartialEq, Eq)]
pub enum Removed {
    /// The pair was taken out by the update of this number. Until then the key had this value.
    Gone { number: u64, value: u64 },
    /// The key had another value than the expected one, this one.
    Differs { found: u64 },
    /// The key was absent.
    Absent,
}

/// What a delete came to.
#[derive(Clone, Copy)]
enum Outcome {
    /// It is told this, and the value of the pair that it took out, where that was loaded.
    Told { told: Told, value: Option<u64> },
    /// The node has two children, and is left as it is.
    TwoChildren,
    /// The key had another value than the expected one, this one.
    Differs { found: u64 },
}

/// The number of an update that took a pair out, and the pair's value where it was loaded.
#[derive(Clone, Copy)]
struct Deleted {
    number: u64,
    value: Option<u64>,
}

/// How a delete is made.
#[derive(Clone, Copy)]
struct Manner {
    /// Whether it tells the value of the pair.
    tells_value: bool,
    /// The one value with which the pair is taken out, if there is one.
    expected: Option<u64>,
    /// Whether a node with two children is left as it is.
    leaves_two: bool,
}

/// Takes the key's pair out, where the key is present: `Gone` with the update's position. The slot that it took out is listed as retired,
/// and behind it the old successor, where the node had two children. `Absent` as at `get`. It waits for the holders of the locks of the
/// nodes that it touches, and for other updates. Where the node has two children it waits too, after its update, for the open sections
/// whose keys lie above the key and up to the next one. Before its first search it may wait for all open sections, but only where its place
/// has room for one more retired slot at most at the call, or has no spare then and no slot is free for one. It answers busy where a lock is
/// taken, or a node isn't as the search left it, or where it would wait for all open sections, and its patience would rather be called again:
/// then it made no update.
pub fn del<P: Patience, W: WaitPart, G: Gate>(
    patience: &P,
    table: &CitrusTable<W>,
    seat: &mut Seat<W>,
    gate: &G,
    key: u64,
) -> Result<Result<Told, P::Busy>, P::Tired>
    requires table { seat.old.table ≡ table.now }
    requires quiet { IsQuietSeat seat.old }
    requires tickets { 4 ≤ seat.old.view.allowance.tickets }
    ensures table { seat.new.table ≡ seat.old.table }
    ensures tells { IfOk result (λ answer. IfOk answer (λ told. DelTells (shape_of W.WAY table.now) seat.old key told seat.new)) }
    ensures busy { IfOk result (λ answer. IfErr answer (λ _. DelGaveWay (shape_of W.WAY table.now) seat.old key seat.new)) }
    ensures tired { IfErr result (λ _. HasMade (P.least patience.now) seat.new.view) }
{
    let manner = Manner {
        tells_value: false,
        expected: None,
        leaves_two: false,
    };
    match delete_so(patience, table, seat, gate, key, manner)? {
        Ok(Outcome::Told { told, .. }) => Ok(Ok(told)),
        Ok(Outcome::TwoChildren) => unreachable!(),
        Ok(Outcome::Differs { .. }) => unreachable!(),
        Err(busy) => Ok(Err(busy)),
    }
}

/// Takes the key's pair out as `del` does, where its value is the expected one if there is one: `Gone` with the value too, and the update's
/// position. `Differs` with the value that the key had at some time of the call, where that is another one: then it took no lock, but where
/// the value was replaced between its search and its lock. `Absent` as at `get`.
///
/// It makes a load more than a `del` under the node's lock, just before the update's first step, and with an expected value one more in its
/// section. A value that is replaced and put back between the two isn't told from one that stayed.
pub fn remove<P: Patience, W: WaitPart, G: Gate>(
    patience: &P,
    table: &CitrusTable<W>,
    seat: &mut Seat<W>,
    gate: &G,
    key: u64,
    expected: Option<u64>,
) -> Result<Result<Removed, P::Busy>, P::Tired>
    requires table { seat.old.table ≡ table.now }
    requires quiet { IsQuietSeat seat.old }
    requires tickets { 4 ≤ seat.old.view.allowance.tickets }
    ensures table { seat.new.table ≡ seat.old.table }
    ensures removes { IfOk result (λ answer. IfOk answer
        (λ removed. Removes (shape_of W.WAY table.now) seat.old key expected removed seat.new)) }
    ensures keeps { IfOk result (λ _. KeepsSeat 4 seat.old seat.new) }
    ensures busy { IfOk result (λ answer. IfErr answer (λ _. DelGaveWay (shape_of W.WAY table.now) seat.old key seat.new)) }
    ensures tired { IfErr result (λ _. HasMade (P.least patience.now) seat.new.view) }
{
    match remove_so(patience, table, seat, gate, key, expected, false)? {
        Ok(Some(removed)) => Ok(Ok(removed)),
        Ok(None) => unreachable!(),
        Err(busy) => Ok(Err(busy)),
    }
}

/// Takes the key's pair out as `remove` does, where its node has one child at most: then it waits for no reader once it has a spare, and room
/// for two more retired slots. `None` where its search found two children at the node, and no other value than the expected one: it made no
/// update then and holds nothing, and the node is to be turned down first.
pub fn remove_by_bypass<P: Patience, W: WaitPart, G: Gate>(
    patience: &P,
    table: &CitrusTable<W>,
    seat: &mut Seat<W>,
    gate: &G,
    key: u64,
    expected: Option<u64>,
) -> Result<Result<Option<Removed>, P::Busy>, P::Tired>
    requires table { seat.old.table ≡ table.now }
    requires quiet { IsQuietSeat seat.old }
    requires tickets { 4 ≤ seat.old.view.allowance.tickets }
    ensures table { seat.new.table ≡ seat.old.table }
    ensures removes { IfOk result (λ answer. IfOk answer (λ outcome. IfSome outcome
        (λ removed. Removes (shape_of W.WAY table.now) seat.old key expected removed seat.new))) }
    ensures keeps { IfOk result (λ _. KeepsSeat 4 seat.old seat.new) }
    ensures two { IfOk result (λ answer. IfOk answer (λ outcome. IfNone outcome (FoundTwoChildren key seat.new.view))) }
    ensures seen { IfOk result (λ answer. IfOk answer (λ outcome. IfNone outcome (FoundExpected key expected seat.new.view))) }
    ensures left { IfOk result (λ answer. IfOk answer (λ outcome. IfNone outcome
        (DelGaveWay (shape_of W.WAY table.now) seat.old key seat.new))) }
    ensures busy { IfOk result (λ answer. IfErr answer (λ _. DelGaveWay (shape_of W.WAY table.now) seat.old key seat.new)) }
    ensures unwaited { IfOk result (λ _. WaitsOnceAtMost (shape_of W.WAY table.now) seat.old.view seat.new.view) }
    ensures tired { IfErr result (λ _. HasMade (P.least patience.now) seat.new.view) }
{
    remove_so(patience, table, seat, gate, key, expected, true)
}

// A remove. `None` where it leaves a node with two children as it is.
fn remove_so<P: Patience, W: WaitPart, G: Gate>(
    patience: &P,
    table: &CitrusTable<W>,
    seat: &mut Seat<W>,
    gate: &G,
    key: u64,
    expected: Option<u64>,
    leaves_two: bool,
) -> Result<Result<Option<Removed>, P::Busy>, P::Tired>
    requires table { seat.old.table ≡ table.now }
    requires quiet { IsQuietSeat seat.old }
    requires tickets { 4 ≤ seat.old.view.allowance.tickets }
    ensures table { seat.new.table ≡ seat.old.table }
    ensures removes { IfOk result (λ answer. IfOk answer (λ outcome. IfSome outcome
        (λ removed. Removes (shape_of W.WAY table.now) seat.old key expected removed seat.new))) }
    ensures keeps { IfOk result (λ _. KeepsSeat 4 seat.old seat.new) }
    ensures asked { IfOk result (λ answer. IfOk answer (λ outcome. IfNone outcome (leaves_two ≡ true))) }
    ensures two { IfOk result (λ answer. IfOk answer (λ outcome. IfNone outcome (FoundTwoChildren key seat.new.view))) }
    ensures seen { IfOk result (λ answer. IfOk answer (λ outcome. IfNone outcome (FoundExpected key expected seat.new.view))) }
    ensures left { IfOk result (λ answer. IfOk answer (λ outcome. IfNone outcome
        (DelGaveWay (shape_of W.WAY table.now) seat.old key seat.new))) }
    ensures busy { IfOk result (λ answer. IfErr answer (λ _. DelGaveWay (shape_of W.WAY table.now) seat.old key seat.new)) }
    ensures unwaited { IfOk result (λ _. leaves_two ≡ true → WaitsOnceAtMost (shape_of W.WAY table.now) seat.old.view seat.new.view) }
    ensures tired { IfErr result (λ _. HasMade (P.least patience.now) seat.new.view) }
{
    let manner = Manner {
        tells_value: true,
        expected,
        leaves_two,
    };
    match delete_so(patience, table, seat, gate, key, manner)? {
        Ok(Outcome::Told { told, value }) => Ok(Ok(Some(removed_of(told, value)))),
        Ok(Outcome::Differs { found }) => Ok(Ok(Some(Removed::Differs { found }))),
        Ok(Outcome::TwoChildren) => Ok(Ok(None)),
        Err(busy) => Ok(Err(busy)),
    }
}

// What a remove is told whose delete is told this, with the value that it took out.
fn removed_of(told: Told, value: Option<u64>) -> Removed
    ensures { result ≡ removed_of told value }
{
    match value {
        Some(value) => Removed::Gone {
            number: told.number,
            value,
        },
        None => Removed::Absent,
    }
}

// A delete in this manner.
fn delete_so<P: Patience, W: WaitPart, G: Gate>(
    patience: &P,
    table: &CitrusTable<W>,
    seat: &mut Seat<W>,
    gate: &G,
    key: u64,
    manner: Manner,
) -> Result<Result<Outcome, P::Busy>, P::Tired>
    requires table { seat.old.table ≡ table.now }
    requires quiet { IsQuietSeat seat.old }
    requires tickets { 4 ≤ seat.old.view.allowance.tickets }
    ensures table { seat.new.table ≡ seat.old.table }
    ensures tells { IfOk result (λ answer. IfOk answer (λ outcome. IfTold outcome
        (λ told value. DelTells (shape_of W.WAY table.now) seat.old key told seat.new))) }
    ensures value { IfOk result (λ answer. IfOk answer (λ outcome. IfTold outcome
        (λ told value. manner.tells_value ≡ true → TellsValue seat.old.view key told value seat.new.view))) }
    ensures wanted { IfOk result (λ answer. IfOk answer (λ outcome. IfTold outcome
        (λ told value. IfSome value (λ taken. IsExpected manner.expected taken)))) }
    ensures differs { IfOk result (λ answer. IfOk answer (λ outcome. IfDiffers outcome
        (λ found. FoundOther seat.old.view key manner.expected found seat.new.view))) }
    ensures other { IfOk result (λ answer. IfOk answer (λ outcome. IfDiffers outcome
        (λ found. DelGaveWay (shape_of W.WAY table.now) seat.old key seat.new))) }
    ensures asked { IfOk result (λ answer. IfOk answer (λ outcome. IfTwo outcome (manner.leaves_two ≡ true))) }
    ensures two { IfOk result (λ answer. IfOk answer (λ outcome. IfTwo outcome (FoundTwoChildren key seat.new.view))) }
    ensures seen { IfOk result (λ answer. IfOk answer (λ outcome. IfTwo outcome (FoundExpected key manner.expected seat.new.view))) }
    ensures left { IfOk result (λ answer. IfOk answer (λ outcome. IfTwo outcome
        (DelGaveWay (shape_of W.WAY table.now) seat.old key seat.new))) }
    ensures busy { IfOk result (λ answer. IfErr answer (λ _. DelGaveWay (shape_of W.WAY table.now) seat.old key seat.new)) }
    ensures unwaited { IfOk result (λ _. manner.leaves_two ≡ true
        → WaitsOnceAtMost (shape_of W.WAY table.now) seat.old.view seat.new.view) }
    ensures tired { IfErr result (λ _. HasMade (P.least patience.now) seat.new.view) }
{
    // Before the first search: inside a section of its own a wait for everybody would wait for itself.
    if let Err(busy) = make_room(patience, table, seat)? {
        return Ok(look_instead(table, seat, gate, key, manner.expected, busy));
    }
    match delete(patience, table, seat, gate, key, manner)? {
        Ok(Outcome::Told { told, value }) => {
            gate.pass(Point::Answered, seat.place());
            Ok(Ok(Outcome::Told { told, value }))
        }
        Ok(Outcome::Differs { found }) => {
            gate.pass(Point::Answered, seat.place());
            Ok(Ok(Outcome::Differs { found }))
        }
        Ok(Outcome::TwoChildren) => Ok(Ok(Outcome::TwoChildren)),
        Err(busy) => Ok(Err(busy)),
    }
}

// What a delete comes to that isn't to wait for the slots that it lacks: who takes nothing out needs none. So a lookup tells where the key is
// absent, or has another value than the expected one; else the delete is busy.
// Few deletes come here.
#[inline(never)]
fn look_instead<W: WaitPart, G: Gate, B: Drop>(
    table: &CitrusTable<W>,
    seat: &mut Seat<W>,
    gate: &G,
    key: u64,
    expected: Option<u64>,
    busy: B,
) -> Result<Outcome, B>
    requires table { seat.old.table ≡ table.now }
    requires quiet { IsQuietSeat seat.old }
    ensures seat { (seat.new.table ≡ seat.old.table) × (seat.new.listed ≡ seat.old.listed) }
    ensures looked { (answer : Option ℕ) × Looked seat.old.view key answer seat.new.view }
    ensures absent { IfOk result (λ outcome. IfTold outcome
        (λ told value. (told ≡ told_of None) × (value ≡ None) × Looked seat.old.view key None seat.new.view)) }
    ensures differs { IfOk result (λ outcome. IfDiffers outcome
        (λ found. Looked seat.old.view key (Some found) seat.new.view × IsOther expected found)) }
    ensures takes { IfOk result (λ outcome. IfTwo outcome ⊥) }
    ensures present { IfErr result (λ _. (found : ℕ) × Looked seat.old.view key (Some found) seat.new.view × IsExpected expected found) }
    ensures keeps { KeepsSeat 0 seat.old seat.new }
{
    let Some(value) = look_up(table, seat, gate, key) else {
        return Ok(Outcome::Told {
            told: answered(gate, seat, Reply::Absent, 0),
            value: None,
        });
    };
    if is_other(expected, value) {
        gate.pass(Point::Answered, seat.place());
        return Ok(Outcome::Differs { found: value });
    }
    Err(busy)
}

// Sees to it that the place has a spare, for a copy, and that two more slots can be retired. Where all retired slots were given back, the
// place has a spare too. That takes a wait for all readers: there it may be busy.
fn make_room<P: Patience, W: WaitPart>(
    patience: &P,
    table: &CitrusTable<W>,
    seat: &mut Seat<W>,
) -> Result<Result<(), P::Busy>, P::Tired>
    requires table { seat.old.table ≡ table.now }
    requires quiet { IsQuietSeat seat.old }
    requires tickets { 4 ≤ seat.old.view.allowance.tickets }
    ensures table { seat.new.table ≡ seat.old.table }
    ensures at { IfOk result (λ answer. IfOk answer (λ _. IsReadyToDelete (shape_of W.WAY table.now) seat.old.view seat.new.view)) }
    ensures busy { IfOk result (λ answer. IfErr answer (λ _. KeepsSeat 0 seat.old seat.new)) }
    ensures room { IfOk result (λ _. HasMadeRoom (shape_of W.WAY table.now) seat.old.view seat.new.view) }
    ensures at_once { IfOk result (λ _. length seat.old.view.hands.retired + 1 < table.now.room → seat.old.view.hands.spare ≢ None
        → seat.new.view ≡ seat.old.view) }
    ensures slots { IfOk result (λ _. KeepsSlots seat.old seat.new) }
    ensures kept { IfOk result (λ _. (seat.new.listed ≡ seat.old.listed) ⊎ (seat.new.listed ≡ [])) }
    ensures stays { IfOk result (λ _. GivesNoneBack seat.old seat.new ⊎ (seat.new.listed ≡ [])) }
    ensures listed { IfOk result (λ _. AreListed seat.new) }
    ensures tired { IfErr result (λ _. HasMade (P.least patience.now) seat.new.view) }
{
    // A move retires two slots, and a place holds back no more than its room. docs/TREE_INVARIANT.md#the-invariant-of-the-tree
    if seat.retired().len() + 1 >= seat.room() {
        if let Err(busy) = patience.before_readers() {
            return Ok(Err(busy));
        }
        reclaim(patience, table, seat)?;
        return Ok(Ok(()));
    }
    if seat.spare().is_some() {
        return Ok(Ok(()));
    }
    take_spare(patience, table, seat)
}

// The same, where the place has no spare, and room for two more retired slots.
fn take_spare<P: Patience, W: WaitPart>(
    patience: &P,
    table: &CitrusTable<W>,
    seat: &mut Seat<W>,
) -> Result<Result<(), P::Busy>, P::Tired>
    requires table { seat.old.table ≡ table.now }
    requires quiet { IsQuietSeat seat.old }
    requires tickets { 4 ≤ seat.old.view.allowance.tickets }
    requires few { length seat.old.view.hands.retired + 1 < table.now.room }
    requires none { seat.old.view.hands.spare ≡ None }
    ensures table { seat.new.table ≡ seat.old.table }
    ensures at { IfOk result (λ answer. IfOk answer (λ _. IsReadyToDelete (shape_of W.WAY table.now) seat.old.view seat.new.view)) }
    ensures busy { IfOk result (λ answer. IfErr answer (λ _. KeepsSeat 0 seat.old seat.new)) }
    ensures room { IfOk result (λ _. HasMadeRoom (shape_of W.WAY table.now) seat.old.view seat.new.view) }
    ensures slots { IfOk result (λ _. KeepsSlots seat.old seat.new) }
    ensures kept { IfOk result (λ _. (seat.new.listed ≡ seat.old.listed) ⊎ (seat.new.listed ≡ [])) }
    ensures stays { IfOk result (λ _. GivesNoneBack seat.old seat.new ⊎ (seat.new.listed ≡ [])) }
    ensures listed { IfOk result (λ _. AreListed seat.new) }
    ensures tired { IfErr result (λ _. HasMade (P.least patience.now) seat.new.view) }
{
    match take(patience, table, seat)? {
        Taken::Slot { slot, .. } => {
            steps::keep_as_spare(table, seat, slot);
            Ok(Ok(()))
        }
        Taken::Empty => {
            if let Err(busy) = patience.before_readers() {
                return Ok(Err(busy));
            }
            reclaim(patience, table, seat)?;
            Ok(Ok(()))
        }
    }
}

// The delete, but for what comes before its first search and its gate at the end.
fn delete<P: Patience, W: WaitPart, G: Gate>(
    patience: &P,
    table: &CitrusTable<W>,
    seat: &mut Seat<W>,
    gate: &G,
    key: u64,
    manner: Manner,
) -> Result<Result<Outcome, P::Busy>, P::Tired>
    requires table { seat.old.table ≡ table.now }
    requires at { (kept : ℕ) × MayBegin (shape_of W.WAY table.now) (Del key) kept seat.old.view }
    requires listed { AreListed seat.old }
    ensures table { seat.new.table ≡ seat.old.table }
    ensures done { IfOk result (λ _. (kept : ℕ) → MayBegin (shape_of W.WAY table.now) (Del key) kept seat.old.view
        → IsDone (shape_of W.WAY table.now) (Del key) kept seat.new.view) }
    ensures dels { IfOk result (λ answer. IfOk answer (λ outcome. IfTold outcome
        (λ told value. DelsAtOnce seat.old.view key told seat.new.view))) }
    ensures value { IfOk result (λ answer. IfOk answer (λ outcome. IfTold outcome
        (λ told value. manner.tells_value ≡ true → TellsValue seat.old.view key told value seat.new.view))) }
    ensures wanted { IfOk result (λ answer. IfOk answer (λ outcome. IfTold outcome
        (λ told value. IfSome value (λ taken. IsExpected manner.expected taken)))) }
    ensures differs { IfOk result (λ answer. IfOk answer (λ outcome. IfDiffers outcome
        (λ found. FoundOther seat.old.view key manner.expected found seat.new.view))) }
    ensures other { IfOk result (λ answer. IfOk answer (λ outcome. IfDiffers outcome
        (λ found. GaveWayAtOnce seat.old.view key seat.new.view))) }
    ensures asked { IfOk result (λ answer. IfOk answer (λ outcome. IfTwo outcome (manner.leaves_two ≡ true))) }
    ensures two { IfOk result (λ answer. IfOk answer (λ outcome. IfTwo outcome (FoundTwoChildren key seat.new.view))) }
    ensures seen { IfOk result (λ answer. IfOk answer (λ outcome. IfTwo outcome (FoundExpected key manner.expected seat.new.view))) }
    ensures left { IfOk result (λ answer. IfOk answer (λ outcome. IfTwo outcome (GaveWayAtOnce seat.old.view key seat.new.view))) }
    ensures busy { IfOk result (λ answer. IfErr answer (λ _. GaveWayAtOnce seat.old.view key seat.new.view)) }
    ensures begins { IfOk result (λ _. BeginsByLookup seat.old.view key seat.new.view) }
    ensures retires { IfOk result (λ answer. IfOk answer (λ outcome. IfTold outcome
        (λ told value. RetiresBy seat.old key told.reply told.number seat.new))) }
    ensures wait { IfOk result (λ _. KeepsWait seat.old.view seat.new.view) }
    ensures unwaited { IfOk result (λ _. manner.leaves_two ≡ true → KeepsWaits seat.old.view seat.new.view) }
    ensures slots { IfOk result (λ _. KeepsSlots seat.old seat.new) }
    ensures stays { IfOk result (λ _. GivesNoneBack seat.old seat.new) }
    ensures few { IfOk result (λ _. length seat.new.listed ≤ length seat.old.listed + 2) }
    ensures listed { IfOk result (λ _. AreListed seat.new) }
    ensures informed { IfOk result (λ answer. IfOk answer (λ outcome. IfTold outcome (λ told value. IsInformed seat.new.view))) }
    ensures tired { IfErr result (λ _. HasMade (P.least patience.now) seat.new.view) }
{
    let mut pauses = patience.pauses();
    for round in 0..u64::MAX {
        let Some(sighted) = find_target(table, seat, gate, key, manner.expected.is_some()) else {
            return Ok(Ok(Outcome::Told {
                told: Told {
                    reply: Reply::Absent,
                    number: 0,
                },
                value: None,
            }));
        };
        // No lock is held here.
        if let Some(found) = other_value(manner.expected, sighted.value) {
            return Ok(Ok(Outcome::Differs { found }));
        }
        // One that lacks a child now and has two under its locks isn't as it was found, and is searched for again.
        if is_left(manner, &sighted.target) {
            return Ok(Ok(Outcome::TwoChildren));
        }
        gate.pass(Point::BeforeLock, seat.place());
        // Where the value is another one by now, the next search tells which.
        if let Some(taken) = delete_node(
            patience,
            table,
            seat,
            gate,
            key,
            &sighted.target,
            manner,
        )? {
            return Ok(Ok(Outcome::Told {
                told: Told {
                    reply: Reply::Gone,
                    number: taken.number,
                },
                value: taken.value,
            }));
        }
        if let Err(busy) = patience.rest(&mut pauses) {
            return Ok(Err(busy));
        }
    }
    Err(patience.tired())
}

// The value that was loaded, where it is another one than the expected one.
fn other_value(expected: Option<u64>, value: Option<u64>) -> Option<u64>
    ensures other { IfSome result (λ found. (value ≡ Some found) × IsOther expected found) }
    ensures wanted { IfNone result (IfSome value (λ found. IsExpected expected found)) }
{
    let Some(found) = value else {
        return None;
    };
    if is_other(expected, found) {
        return Some(found);
    }
    None
}

// Whether the target is left as it is, since it has two children.
fn is_left(manner: Manner, target: &Target) -> bool
    ensures left { result ≡ true → (manner.leaves_two ≡ true) × HasTwo target.now }
    ensures taken { result ≡ false → manner.leaves_two ≡ true → target.now.successor ≡ None }
{
    manner.leaves_two && target.successor.is_some()
}

// Locks the target, takes it out and answers the update's number, with the value where it is to be told; or nothing, where a lock is taken,
// the target isn't as it was found any more, or its value isn't the expected one.
fn delete_node<P: Patience, W: WaitPart, G: Gate>(
    patience: &P,
    table: &CitrusTable<W>,
    seat: &mut Seat<W>,
    gate: &G,
    key: u64,
    target: &Target,
    manner: Manner,
) -> Result<Option<Deleted>, P::Tired>
    requires table { seat.old.table ≡ table.now }
    requires at { (kept : ℕ) × IsAt (shape_of W.WAY table.now) (Del key) kept (at.TargetLock target.now 0) seat.old.view }
    requires listed { AreListed seat.old }
    requires seen { FoundExpected key manner.expected seat.old.view }
    ensures table { seat.new.table ≡ seat.old.table }
    ensures done { IfOk result (λ answer. IfSome answer
        (λ taken. (kept : ℕ) → IsAt (shape_of W.WAY table.now) (Del key) kept (at.TargetLock target.now 0) seat.old.view
        → IsDone (shape_of W.WAY table.now) (Del key) kept seat.new.view)) }
    ensures deleted { IfOk result (λ answer. IfSome answer (λ taken. HasDeleted seat.old.view key taken.number seat.new.view)) }
    ensures value { IfOk result (λ answer. IfSome answer
        (λ taken. manner.tells_value ≡ true → TellsTaken seat.old.view key taken.number taken.value seat.new.view)) }
    ensures wanted { IfOk result (λ answer. IfSome answer
        (λ taken. IfSome taken.value (λ value. IsExpected manner.expected value))) }
    ensures retires { IfOk result (λ answer. IfSome answer (λ taken. RetiresInOrder seat.old key taken.number seat.new)) }
    ensures waits { IfOk result (λ answer. IfSome answer (λ taken. KeepsWait seat.old.view seat.new.view)) }
    ensures unwaited { IfOk result (λ answer. IfSome answer
        (λ taken. target.now.successor ≡ None → KeepsWaits seat.old.view seat.new.view)) }
    ensures informed { IfOk result (λ answer. IfSome answer (λ taken. IsInformed seat.new.view)) }
    ensures again { IfOk result (λ answer. IfNone answer
        ((kept : ℕ) → IsAt (shape_of W.WAY table.now) (Del key) kept (at.TargetLock target.now 0) seat.old.view
        → IsAt (shape_of W.WAY table.now) (Del key) kept at.EnterClock seat.new.view)) }
    ensures same { IfOk result (λ answer. IfNone answer (KeepsRest seat.old.view seat.new.view)) }
    ensures kept { IfOk result (λ answer. IfNone answer (seat.new.listed ≡ seat.old.listed)) }
    ensures slots { IfOk result (λ _. KeepsSlots seat.old seat.new) }
    ensures stays { IfOk result (λ _. GivesNoneBack seat.old seat.new) }
    ensures listed { IfOk result (λ _. AreListed seat.new) }
    ensures tired { IfErr result (λ _. HasMade (P.least patience.now) seat.new.view) }
{
    if !lock_target(table, seat, target) {
        return Ok(None);
    }
    let Some(node) = validate(table, seat, target) else {
        unlock_target(table, seat, target);
        return Ok(None);
    };
    let value = value_where(table, seat, node, target.successor, manner.tells_value);
    if other_value(manner.expected, value).is_some() {
        unlock_target(table, seat, target);
        return Ok(None);
    }
    match target.successor {
        None => {
            let number = bypass(patience, table, seat, node, key)?;
            Ok(Some(Deleted { number, value }))
        }
        Some(successor) => {
            let Some(number) = shift(patience, table, seat, gate, key, node, successor)? else {
                return Ok(None);
            };
            Ok(Some(Deleted { number, value }))
        }
    }
}

// The value of a locked node, where it is asked for; else no step is made.
fn value_where<W: WaitPart>(
    table: &CitrusTable<W>,
    seat: &mut Seat<W>,
    node: Node,
    successor: Option<Successor>,
    tells_value: bool,
) -> Option<u64>
    requires table { seat.old.table ≡ table.now }
    requires at { StandsAt (shape_of W.WAY table.now) (deleting node successor) seat.old.view }
    ensures seat { (seat.new.table ≡ seat.old.table) × (seat.new.listed ≡ seat.old.listed) }
    ensures asked { is_some result ≡ tells_value }
    ensures value { IfSome result (λ value. known_in (known_under seat.new.view node.node) (Value node.node) ≡ Some value) }
    ensures at { Comes (shape_of W.WAY table.now) (deleting node successor) seat.old.view (deleting node successor) seat.new.view }
    ensures same { KeepsAll seat.old.view seat.new.view }
{
    if !tells_value {
        return None;
    }
    // Only the lock's holder stores here, so this is the value that the key has when the node is taken out.
    Some(steps::locked_load(table, seat, node.node, Part::Value))
}
