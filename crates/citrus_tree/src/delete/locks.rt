//! The locks of a target, and what is loaded under them.
ghost use Rattle.std.specs.Prelude.{◌≡◌, ◌*◌, ◌^◌, ◌<◌, ◌≤◌, ◌==◌, true, false, IfSome, IfNone};
ghost use Rattle.core_points.specs.declared.stage.Last.TheVariants as last;
ghost use Rattle.core_points.specs.declared.stage.Stage.TheVariants as at;
ghost use Rattle.core_points.specs.DeleteFacts.{first_locks, two_children};
ghost use Rattle.core_points.specs.Programs.{target_lock, target_locks, target_holds, successor_holds, last_right, nothing_found, deleting, past_target_load, verdict};
ghost use Rattle.seat_table.specs.Seats.{shape_of};
ghost use Rattle.tree_points.specs.Points.{HasLocks};
ghost use Rattle.citrus_tree.specs.Deletes.{StandsAt, Comes, KeepsAll, KeepsRest, giving_up, AreLivesSmall, IsNodeOf};

use crate::lives::is_life;
use core_points::stage::{Found, Node, Successor, Target};
use prcu_marks::Side;
use seat_table::{CitrusTable, Part, Seat, WaitPart, steps};

// How many locks a target has.
fn lock_count(target: &Target) -> u32
    ensures count { result ≡ target_locks target.now }
    ensures few { result ≤ 4 }
{
    match target.successor {
        None => 2,
        Some(successor) => {
            if successor.parent == target.node.node {
                3
            } else {
                4
            }
        }
    }
}

// The slots to be locked, in their order: the parent, the node, the successor's parent where that isn't the node, the successor.
fn lock_at(target: &Target, at: u32) -> u32
    ensures { result ≡ target_lock target.now at }
{
    if at == 0 {
        return target.node.parent;
    }
    if at == 1 {
        return target.node.node;
    }
    match target.successor {
        None => target.node.parent,
        Some(successor) => {
            if successor.parent != target.node.node && at == 2 {
                successor.parent
            } else {
                successor.slot
            }
        }
    }
}

/// Locks the target's slots in order. Where one is found taken, those that it got are given up, and it answers `false`.
pub(crate) fn lock_target<W: WaitPart>(
    table: &CitrusTable<W>,
    seat: &mut Seat<W>,
    target: &Target,
) -> bool
    requires table { seat.old.table ≡ table.now }
    requires at { StandsAt (shape_of W.WAY table.now) (at.TargetLock target.now 0) seat.old.view }
    ensures seat { (seat.new.table ≡ seat.old.table) × (seat.new.listed ≡ seat.old.listed) }
    ensures got { result ≡ true → Comes (shape_of W.WAY table.now) (at.TargetLock target.now 0) seat.old.view
        (at.TargetLoad target.now 0 nothing_found) seat.new.view }
    ensures busy { result ≡ false → Comes (shape_of W.WAY table.now)
        (at.TargetLock target.now 0) seat.old.view at.EnterClock seat.new.view }
    ensures same { KeepsRest seat.old.view seat.new.view }
{
    for at in 0..lock_count(target) {
        // Tried, and not waited for: deletes lock in any order, and a walk that was overtaken may name a slot twice. docs/DECISIONS.md, 72
        if steps::lock(table, seat, lock_at(target, at)) != 0 {
            unlock_first(table, seat, target, at);
            return false;
        }
    }
    true
}

// Gives up the first so many locks of the target, the last first.
fn unlock_first<W: WaitPart>(
    table: &CitrusTable<W>,
    seat: &mut Seat<W>,
    target: &Target,
    count: u32,
)
    requires table { seat.old.table ≡ table.now }
    requires at { StandsAt (shape_of W.WAY table.now) (giving_up count) seat.old.view }
    requires count { count ≤ target_locks target.now }
    requires locked { HasLocks (first_locks target.now count) seat.old.view }
    ensures seat { (seat.new.table ≡ seat.old.table) × (seat.new.listed ≡ seat.old.listed) }
    ensures at { Comes (shape_of W.WAY table.now) (giving_up count) seat.old.view at.EnterClock seat.new.view }
    ensures same { KeepsRest seat.old.view seat.new.view }
{
    for done in 0..count {
        steps::unlock(table, seat, lock_at(target, count - 1 - done));
    }
}

/// Gives up all locks of the target, the last first.
pub(crate) fn unlock_target<W: WaitPart>(
    table: &CitrusTable<W>,
    seat: &mut Seat<W>,
    target: &Target,
)
    requires table { seat.old.table ≡ table.now }
    requires at { StandsAt (shape_of W.WAY table.now) (at.Unlock last.Again) seat.old.view }
    requires locked { HasLocks (first_locks target.now (target_locks target.now)) seat.old.view }
    ensures seat { (seat.new.table ≡ seat.old.table) × (seat.new.listed ≡ seat.old.listed) }
    ensures at { Comes (shape_of W.WAY table.now) (at.Unlock last.Again) seat.old.view at.EnterClock seat.new.view }
    ensures same { KeepsRest seat.old.view seat.new.view }
{
    unlock_first(table, seat, target, lock_count(target));
}

/// Loads the target's words under its locks, and answers the node with its links as they are now; or nothing, where they aren't as the
/// section found them. All words are loaded before they are judged.
pub(crate) fn validate<W: WaitPart>(
    table: &CitrusTable<W>,
    seat: &mut Seat<W>,
    target: &Target,
) -> Option<Node>
    requires table { seat.old.table ≡ table.now }
    requires at { StandsAt (shape_of W.WAY table.now) (at.TargetLoad target.now 0 nothing_found) seat.old.view }
    ensures seat { (seat.new.table ≡ seat.old.table) × (seat.new.listed ≡ seat.old.listed) }
    ensures holds { IfSome result (λ node. Comes (shape_of W.WAY table.now) (at.TargetLoad target.now 0 nothing_found) seat.old.view
        (deleting node target.now.successor) seat.new.view) }
    ensures node { IfSome result (λ node. IsNodeOf target.now node × AreLivesSmall node target.now.successor) }
    ensures fails { IfNone result (Comes (shape_of W.WAY table.now) (at.TargetLoad target.now 0 nothing_found) seat.old.view
        (at.Unlock last.Again) seat.new.view) }
    ensures locked { HasLocks (first_locks target.now (target_locks target.now)) seat.new.view }
    ensures same { KeepsAll seat.old.view seat.new.view }
{
    // What the section saw may have changed until the last lock was taken. docs/TREE.md#the-tree
    let found = load_found(table, seat, target);
    if !holds(target, &found) {
        return None;
    }
    Some(Node {
        left: found.left,
        right: last_right(target, &found),
        ..target.node
    })
}

// The target's words under its locks.
fn load_found<W: WaitPart>(table: &CitrusTable<W>, seat: &mut Seat<W>, target: &Target) -> Found
    requires table { seat.old.table ≡ table.now }
    requires at { StandsAt (shape_of W.WAY table.now) (at.TargetLoad target.now 0 nothing_found) seat.old.view }
    ensures seat { (seat.new.table ≡ seat.old.table) × (seat.new.listed ≡ seat.old.listed) }
    ensures at { Comes (shape_of W.WAY table.now) (at.TargetLoad target.now 0 nothing_found) seat.old.view
        (verdict target.now result) seat.new.view }
    ensures fits { (result.life < 2 ^ 64) × (result.successor_life < 2 ^ 64) }
    ensures same { KeepsAll seat.old.view seat.new.view }
{
    let found = load_node(table, seat, target);
    match target.successor {
        None => found,
        Some(successor) => load_successor(table, seat, target.node, successor, found),
    }
}

// Those of the node and its parent.
fn load_node<W: WaitPart>(table: &CitrusTable<W>, seat: &mut Seat<W>, target: &Target) -> Found
    requires table { seat.old.table ≡ table.now }
    requires at { StandsAt (shape_of W.WAY table.now) (at.TargetLoad target.now 0 nothing_found) seat.old.view }
    ensures seat { (seat.new.table ≡ seat.old.table) × (seat.new.listed ≡ seat.old.listed) }
    ensures at { Comes (shape_of W.WAY table.now) (at.TargetLoad target.now 0 nothing_found) seat.old.view
        (past_target_load target.now 4 result) seat.new.view }
    ensures fits { (result.life < 2 ^ 64) × (result.successor_life < 2 ^ 64) }
    ensures same { KeepsAll seat.old.view seat.new.view }
{
    let node = target.node;
    let parent_life = steps::locked_load(table, seat, node.parent, Part::Life);
    let link = steps::locked_load(table, seat, node.parent, Part::Link { side: node.side });
    let life = steps::locked_load(table, seat, node.node, Part::Life);
    let left = steps::locked_load(table, seat, node.node, Part::Link { side: Side::Left });
    let right = steps::locked_load(table, seat, node.node, Part::Link { side: Side::Right });
    Found {
        parent_life,
        link,
        life,
        left,
        right,
        successor_parent_life: 0,
        successor_link: 0,
        successor_life: 0,
        successor_left: 0,
    }
}

// Those of the successor, after those of the node.
fn load_successor<W: WaitPart>(
    table: &CitrusTable<W>,
    seat: &mut Seat<W>,
    node: Node,
    successor: Successor,
    found: Found,
) -> Found
    requires table { seat.old.table ≡ table.now }
    requires at { StandsAt (shape_of W.WAY table.now) (past_target_load (two_children node successor) 4 found) seat.old.view }
    ensures seat { (seat.new.table ≡ seat.old.table) × (seat.new.listed ≡ seat.old.listed) }
    ensures at { Comes (shape_of W.WAY table.now) (past_target_load (two_children node successor) 4 found) seat.old.view
        (verdict (two_children node successor) result) seat.new.view }
    ensures fits { (result.life ≡ found.life) × (result.successor_life < 2 ^ 64) }
    ensures same { KeepsAll seat.old.view seat.new.view }
{
    let found = load_link(table, seat, node, successor, found);
    let successor_life = steps::locked_load(table, seat, successor.slot, Part::Life);
    let successor_left = steps::locked_load(
        table,
        seat,
        successor.slot,
        Part::Link { side: Side::Left },
    );
    Found {
        successor_life,
        successor_left,
        ..found
    }
}

// The link to the successor, and the life of the slot that has it where this isn't the node.
fn load_link<W: WaitPart>(
    table: &CitrusTable<W>,
    seat: &mut Seat<W>,
    node: Node,
    successor: Successor,
    found: Found,
) -> Found
    requires table { seat.old.table ≡ table.now }
    requires at { StandsAt (shape_of W.WAY table.now) (past_target_load (two_children node successor) 4 found) seat.old.view }
    ensures seat { (seat.new.table ≡ seat.old.table) × (seat.new.listed ≡ seat.old.listed) }
    ensures at { Comes (shape_of W.WAY table.now) (past_target_load (two_children node successor) 4 found) seat.old.view
        (at.TargetLoad (two_children node successor) 7 result) seat.new.view }
    ensures life { result.life ≡ found.life }
    ensures same { KeepsAll seat.old.view seat.new.view }
{
    if successor.parent == node.node {
        let successor_link = steps::locked_load(
            table,
            seat,
            successor.parent,
            Part::Link { side: Side::Right },
        );
        return Found {
            successor_link,
            ..found
        };
    }
    let successor_parent_life = steps::locked_load(table, seat, successor.parent, Part::Life);
    let successor_link = steps::locked_load(
        table,
        seat,
        successor.parent,
        Part::Link { side: Side::Left },
    );
    Found {
        successor_parent_life,
        successor_link,
        ..found
    }
}

// Whether the words are as the section found them.
fn holds(target: &Target, found: &Found) -> bool
    ensures { result ≡ target_holds target.now found.now }
{
    let node = target.node;
    is_life(found.parent_life, node.parent_generation)
        && found.link == node.node as u64
        && is_life(found.life, node.generation)
        && successor_holds(target, found)
}

// Whether the node has as many children as the section found, and with two the successor is as it was.
fn successor_holds(target: &Target, found: &Found) -> bool
    ensures { result ≡ successor_holds target.now.node target.now.successor found.now }
{
    let few = found.left == 0 || found.right == 0;
    match target.successor {
        None => few,
        Some(successor) => {
            !few && (successor.parent == target.node.node
                || is_life(found.successor_parent_life, successor.parent_generation))
                && found.successor_link == successor.slot as u64
                && is_life(found.successor_life, successor.generation)
                && found.successor_left == 0
        }
    }
}

// The node's right, as it was loaded last: where the node is the successor's parent, that was the link to the successor.
fn last_right(target: &Target, found: &Found) -> u64
    ensures { result ≡ last_right target.now.node target.now.successor found.now }
{
    match target.successor {
        Some(successor) if successor.parent == target.node.node => found.successor_link,
        _ => found.right,
    }
}
