//! The calls, for callers that never give up.
ghost use Rattle.std.specs.Prelude.{◌≡◌, ◌≤◌};
ghost use Rattle.citrus_tree.specs.Deletes.{Begins, BeginsByLookup, DelTells, Removes};
ghost use Rattle.citrus_tree.specs.Replies.{IsTold, Compares, Puts, Sets};
ghost use Rattle.citrus_tree.specs.Going.{KeepsSeat};
ghost use Rattle.seat_table.specs.Gains.{IsInformed};
ghost use Rattle.seat_table.specs.Seats.{IsQuietSeat, shape_of};

use crate::answer::Called;
use crate::comparing::Compared;
use crate::delete::Removed;
use crate::patient;
use patience::Steadfast;
use prcu_marks::Gate;
use prcu_model::{Op, Told};
use seat_table::{CitrusTable, Seat, WaitPart};
use std::sync::Wait;

/// Adds the pair, where the key is absent: `New` with the update's position. `Old` where the key is present, as at `get`, and `Full`
/// where it is absent, no slot is free, and the caller has none to give back. It waits for the holder of the lock of the node above, for
/// other updates, and, where no slot is free, for all open sections.
pub fn put<R: Wait, W: WaitPart, G: Gate>(
    rt: &R,
    table: &CitrusTable<W>,
    seat: &mut Seat<W>,
    gate: &G,
    key: u64,
    value: u64,
) -> Told
    requires table { seat.old.table ≡ table.now }
    requires quiet { IsQuietSeat seat.old }
    requires tickets { 4 ≤ seat.old.view.allowance.tickets }
    ensures table { seat.new.table ≡ seat.old.table }
    ensures puts { Puts (shape_of W.WAY table.now) seat.old.view key value result seat.new.view }
    ensures begins { BeginsByLookup seat.old.view key seat.new.view }
    ensures keeps { KeepsSeat 4 seat.old seat.new }
    ensures informed { IsInformed seat.new.view }
{
    match patient::put(&Steadfast::new(rt), table, seat, gate, key, value) {
        Ok(Ok(called)) => called.told,
        Ok(Err(never)) => match never {},
        Err(never) => match never {},
    }
}

/// Gives the key another value, where it is present: `Was` with the old value and the update's position. `Absent` as at `get`. It waits
/// for the holder of the node's lock and for other updates, and for no reader.
pub fn set<R: Wait, W: WaitPart, G: Gate>(
    rt: &R,
    table: &CitrusTable<W>,
    seat: &mut Seat<W>,
    gate: &G,
    key: u64,
    value: u64,
) -> Told
    requires table { seat.old.table ≡ table.now }
    requires quiet { IsQuietSeat seat.old }
    requires tickets { 4 ≤ seat.old.view.allowance.tickets }
    ensures table { seat.new.table ≡ seat.old.table }
    ensures sets { Sets seat.old.view key value result seat.new.view }
    ensures begins { BeginsByLookup seat.old.view key seat.new.view }
    ensures keeps { KeepsSeat 4 seat.old seat.new }
    ensures informed { IsInformed seat.new.view }
{
    match patient::set(&Steadfast::new(rt), table, seat, gate, key, value) {
        Ok(Ok(told)) => told,
        Ok(Err(never)) => match never {},
        Err(never) => match never {},
    }
}

/// Gives the key another value, where its value is the expected one: `Replaced` with the update's position. Else it changes nothing:
/// `Differs` with the value that the key had at some time of the call, and `Absent` as at `get`. It waits as a set does, for the holder of
/// the node's lock and for other updates, and for no reader.
pub fn compare<R: Wait, W: WaitPart, G: Gate>(
    rt: &R,
    table: &CitrusTable<W>,
    seat: &mut Seat<W>,
    gate: &G,
    key: u64,
    expected: u64,
    value: u64,
) -> Compared
    requires table { seat.old.table ≡ table.now }
    requires quiet { IsQuietSeat seat.old }
    requires tickets { 4 ≤ seat.old.view.allowance.tickets }
    ensures table { seat.new.table ≡ seat.old.table }
    ensures compares { Compares seat.old.view key expected value result seat.new.view }
    ensures begins { BeginsByLookup seat.old.view key seat.new.view }
    ensures keeps { KeepsSeat 4 seat.old seat.new }
    ensures informed { IsInformed seat.new.view }
{
    match patient::compare(&Steadfast::new(rt), table, seat, gate, key, expected, value) {
        Ok(Ok(compared)) => compared,
        Ok(Err(never)) => match never {},
        Err(never) => match never {},
    }
}

/// Takes the key's pair out, where the key is present: `Gone` with the update's position. The slot that it took out is listed as retired,
/// and behind it the old successor, where the node had two children. `Absent` as at `get`. It waits for the holders of the locks of the
/// nodes that it touches, and for other updates. Where the node has two children it waits too, after its update, for the open sections
/// whose keys lie above the key and up to the next one. Before its first search it may wait for all open sections, but only where its place
/// has room for one more retired slot at most at the call, or has no spare then and no slot is free for one.
pub fn del<R: Wait, W: WaitPart, G: Gate>(
    rt: &R,
    table: &CitrusTable<W>,
    seat: &mut Seat<W>,
    gate: &G,
    key: u64,
) -> Told
    requires table { seat.old.table ≡ table.now }
    requires quiet { IsQuietSeat seat.old }
    requires tickets { 4 ≤ seat.old.view.allowance.tickets }
    ensures table { seat.new.table ≡ seat.old.table }
    ensures tells { DelTells (shape_of W.WAY table.now) seat.old key result seat.new }
{
    match patient::del(&Steadfast::new(rt), table, seat, gate, key) {
        Ok(Ok(told)) => told,
        Ok(Err(never)) => match never {},
        Err(never) => match never {},
    }
}

/// Takes the key's pair out as `del` does, where its value is the expected one if there is one: `Gone` with the value too, and the update's
/// position. `Differs` with the value that the key had at some time of the call, where that is another one, and `Absent` as at `get`.
pub fn remove<R: Wait, W: WaitPart, G: Gate>(
    rt: &R,
    table: &CitrusTable<W>,
    seat: &mut Seat<W>,
    gate: &G,
    key: u64,
    expected: Option<u64>,
) -> Removed
    requires table { seat.old.table ≡ table.now }
    requires quiet { IsQuietSeat seat.old }
    requires tickets { 4 ≤ seat.old.view.allowance.tickets }
    ensures table { seat.new.table ≡ seat.old.table }
    ensures removes { Removes (shape_of W.WAY table.now) seat.old key expected result seat.new }
    ensures keeps { KeepsSeat 4 seat.old seat.new }
{
    match patient::remove(&Steadfast::new(rt), table, seat, gate, key, expected) {
        Ok(Ok(removed)) => removed,
        Ok(Err(never)) => match never {},
        Err(never) => match never {},
    }
}

/// Makes the operation by its own call: `put`, `get`, `del` or `set`. There it is said what it waits for. The depth is `put`'s, and 0
/// of the others.
// A call would hand the operation and its answer through memory.
#[inline(always)]
pub fn call<R: Wait, W: WaitPart, G: Gate>(
    rt: &R,
    table: &CitrusTable<W>,
    seat: &mut Seat<W>,
    gate: &G,
    op: Op,
) -> Called
    requires table { seat.old.table ≡ table.now }
    requires quiet { IsQuietSeat seat.old }
    requires tickets { 4 ≤ seat.old.view.allowance.tickets }
    ensures table { seat.new.table ≡ seat.old.table }
    ensures told { IsTold (shape_of W.WAY table.now) seat.old.view op result.told seat.new.view }
    ensures begins { Begins (shape_of W.WAY table.now) seat.old.view op seat.new.view }
    ensures keeps { KeepsSeat 4 seat.old seat.new }
    ensures informed { IsInformed seat.new.view }
{
    match patient::call(&Steadfast::new(rt), table, seat, gate, op) {
        Ok(Ok(called)) => called,
        Ok(Err(never)) => match never {},
        Err(never) => match never {},
    }
}
