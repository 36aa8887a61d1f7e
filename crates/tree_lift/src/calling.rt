//! A call of the tree, and the lift behind it.
ghost use Rattle.std.specs.Prelude.{◌≡◌, ◌≤◌};
ghost use Rattle.seat_table.specs.Gains.{IsInformed};
ghost use Rattle.seat_table.specs.Seats.{IsQuietSeat, shape_of};
ghost use Rattle.citrus_tree.specs.Going.{KeepsSeat};
ghost use Rattle.tree_lift.specs.Lifts.{LeavesNoUpdate, IsToldThenLifts};

use crate::{Aim, is_deep, is_far_too_deep, lift};
use citrus_tree::call;
use patience::Steadfast;
use prcu_marks::Gate;
use prcu_model::{Op, Told};
use seat_table::{CitrusTable, Seat, WaitPart};
use std::sync::Wait;

/// How often a turn is tried after one put.
const ATTEMPTS: u32 = 4;

/// The salt by which a client's nodes rise. Scripts have no source of chance, so it is the same for all tables. Who knows it can choose keys
/// whose priorities fall as the keys rise: then no lift turns a node, and the tree is a path, on which a call takes as many steps as there
/// are keys. The answers stay right.
const SALT: u64 = 0x9e37_79b9_7f4a_7c15;

/// Makes the operation by its own call. After a put whose way was deep it lifts nodes on that way, by four attempts at most, and only then
/// returns what the put was told. A way is deep where it leads over more slots than `most_depth` allows for as many keys as the table has
/// slots: that bounds the pairs, and it is known without a step. Where three quarters of the way would be deep already, the lift may stand
/// still for all readers, since it needs room for two more retired slots. What the call itself waits for is said at `put`, `get`, `del` and `set`.
// A call would hand the operation and its answer through memory.
#[inline(always)]
pub fn call_and_lift<R: Wait, W: WaitPart, G: Gate>(
    rt: &R,
    table: &CitrusTable<W>,
    seat: &mut Seat<W>,
    gate: &G,
    op: Op,
) -> Told
    requires table { seat.old.table ≡ table.now }
    requires quiet { IsQuietSeat seat.old }
    requires tickets { 16 ≤ seat.old.view.allowance.tickets }
    ensures table { seat.new.table ≡ seat.old.table }
    ensures told { IsToldThenLifts (shape_of W.WAY table.now) seat.old.view op result seat.new.view }
    ensures keeps { KeepsSeat 16 seat.old seat.new }
    ensures informed { IsInformed seat.new.view }
{
    let called = call(rt, table, seat, gate, op);
    let Op::Put { key, value: _ } = op else {
        return called.told;
    };
    lift_if_deep(rt, table, seat, key, called.depth);
    called.told
}

// Lifts nodes on the way to the key, where the way was deep.
#[inline(always)]
fn lift_if_deep<R: Wait, W: WaitPart>(
    rt: &R,
    table: &CitrusTable<W>,
    seat: &mut Seat<W>,
    key: u64,
    depth: u64,
)
    requires table { seat.old.table ≡ table.now }
    requires quiet { IsQuietSeat seat.old }
    requires tickets { 12 ≤ seat.old.view.allowance.tickets }
    requires informed { IsInformed seat.old.view }
    ensures table { seat.new.table ≡ seat.old.table }
    ensures updates { LeavesNoUpdate seat.old.view key seat.new.view }
    ensures keeps { KeepsSeat 12 seat.old seat.new }
    ensures informed { IsInformed seat.new.view }
{
    let size = u64::from(table.slots());
    if !is_deep(depth, size) {
        return;
    }
    let aim = Aim {
        key,
        salt: SALT,
        attempts: ATTEMPTS,
        hard: is_far_too_deep(depth, size),
    };
    match lift(&Steadfast::new(rt), table, seat, aim) {
        Ok(_) => (),
        Err(never) => match never {},
    }
}
