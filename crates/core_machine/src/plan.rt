//! The locks of a delete, the words that it loads under them, and its verdict.
ghost use Rattle.std.specs.Prelude.{◌≡◌, ◌+◌, ◌*◌, ◌<◌, ◌≤◌, ◌==◌, if◌then◌else◌};
ghost use Rattle.core_points.specs.Programs.{last_right, nothing_found, successor_holds as holds_successor, successor_lock as lock_of_successor, successor_part as part_of_successor, successor_slot as slot_of_successor, target_holds, target_lock, target_locks, target_part, target_slot, with_found, deleting, past_target_load, verdict};

use core_points::stage::{Found, Last, Node, Stage, Successor, Target};
use core_state::Part;
use prcu_marks::Side;

/// How many slots a delete locks.
pub(crate) fn target_locks(target: Target) -> u32
    ensures { result ≡ target_locks target }
{
    match target.successor {
        None => 2,
        Some(successor) => {
            if successor.parent == target.node.node {
                3
            } else {
                4
            }
        }
    }
}

/// The slot that it locks as number `at`.
pub(crate) fn target_lock(target: Target, at: u32) -> u32
    ensures { result ≡ target_lock target at }
{
    if at == 0 {
        target.node.parent
    } else if at == 1 {
        target.node.node
    } else {
        successor_lock(target.node, target.successor, at)
    }
}

fn successor_lock(node: Node, successor: Option<Successor>, at: u32) -> u32
    ensures { result ≡ lock_of_successor node successor at }
{
    match successor {
        None => node.parent,
        Some(successor) => {
            if successor.parent == node.node {
                successor.slot
            } else if at == 2 {
                successor.parent
            } else {
                successor.slot
            }
        }
    }
}

/// The slot of the word that it loads under its locks as number `at`.
pub(crate) fn target_slot(target: Target, at: u32) -> u32
    ensures { result ≡ target_slot target at }
{
    let node = target.node;
    if at < 2 {
        node.parent
    } else if at < 5 {
        node.node
    } else {
        successor_slot(node, target.successor, at)
    }
}

fn successor_slot(node: Node, successor: Option<Successor>, at: u32) -> u32
    ensures { result ≡ slot_of_successor node successor at }
{
    let Some(successor) = successor else {
        return node.node;
    };
    if at == 5 || at == 6 {
        successor.parent
    } else {
        successor.slot
    }
}

/// Which word of that slot it is.
pub(crate) fn target_part(target: Target, at: u32) -> Part
    ensures { result ≡ target_part target at }
{
    let node = target.node;
    if at == 0 || at == 2 {
        Part::Life
    } else if at == 1 {
        Part::Link { side: node.side }
    } else if at == 3 {
        Part::Link { side: Side::Left }
    } else if at == 4 {
        Part::Link { side: Side::Right }
    } else {
        successor_part(node, target.successor, at)
    }
}

fn successor_part(node: Node, successor: Option<Successor>, at: u32) -> Part
    ensures { result ≡ part_of_successor node successor at }
{
    let Some(successor) = successor else {
        return Part::Life;
    };
    if at == 5 || at == 7 {
        Part::Life
    } else if at == 6 && successor.parent == node.node {
        Part::Link { side: Side::Right }
    } else {
        Part::Link { side: Side::Left }
    }
}

/// The number at its place, and the old one elsewhere.
fn pick(at: u32, place: u32, number: u64, old: u64) -> u64
    ensures { result ≡ (if at == place then number else old) }
{
    if at == place { number } else { old }
}

/// What was loaded, with one word more.
pub(crate) fn with_found(found: Found, at: u32, number: u64) -> Found
    ensures { result ≡ with_found found at number }
{
    Found {
        parent_life: pick(at, 0, number, found.parent_life),
        link: pick(at, 1, number, found.link),
        life: pick(at, 2, number, found.life),
        left: pick(at, 3, number, found.left),
        right: pick(at, 4, number, found.right),
        successor_parent_life: pick(at, 5, number, found.successor_parent_life),
        successor_link: pick(at, 6, number, found.successor_link),
        successor_life: pick(at, 7, number, found.successor_life),
        successor_left: pick(at, 8, number, found.successor_left),
    }
}

pub(crate) fn nothing_found() -> Found
    ensures { result ≡ nothing_found }
{
    Found {
        parent_life: 0,
        link: 0,
        life: 0,
        left: 0,
        right: 0,
        successor_parent_life: 0,
        successor_link: 0,
        successor_life: 0,
        successor_left: 0,
    }
}

/// Whether a life is that of an unmarked node of the generation.
pub(crate) fn is_young(life: u64, generation: u64) -> bool
    ensures { result ≡ (life == 2 * generation) }
{
    u128::from(life) == 2 * u128::from(generation)
}

/// Whether all words are as the search recorded them.
fn target_holds(target: Target, found: Found) -> bool
    ensures { result ≡ target_holds target found }
{
    let node = target.node;
    let parent = is_young(found.parent_life, node.parent_generation);
    let link = found.link == u64::from(node.node);
    let young = is_young(found.life, node.generation);
    let successor = successor_holds(node, target.successor, found);
    parent && (link && (young && successor))
}

fn successor_holds(node: Node, successor: Option<Successor>, found: Found) -> bool
    ensures { result ≡ holds_successor node successor found }
{
    let few = found.left == 0 || found.right == 0;
    let Some(successor) = successor else {
        return few;
    };
    let beside = successor.parent == node.node
        || is_young(found.successor_parent_life, successor.parent_generation);
    let link = found.successor_link == u64::from(successor.slot);
    let young = is_young(found.successor_life, successor.generation);
    let last = found.successor_left == 0;
    !few && (beside && (link && (young && last)))
}

/// The node's right as it was loaded last.
fn last_right(node: Node, successor: Option<Successor>, found: Found) -> u64
    ensures { result ≡ last_right node successor found }
{
    match successor {
        None => found.right,
        Some(successor) => {
            if successor.parent == node.node {
                found.successor_link
            } else {
                found.right
            }
        }
    }
}

fn deleting(node: Node, successor: Option<Successor>) -> Stage
    ensures { result ≡ deleting node successor }
{
    match successor {
        None => Stage::Mark {
            node,
            child: if node.left == 0 {
                node.right
            } else {
                node.left
            },
        },
        Some(successor) => Stage::SuccessorKey { node, successor },
    }
}

/// The point after the last load: a record that doesn't hold lets the locks go.
fn verdict(target: Target, found: Found) -> Stage
    ensures { result ≡ verdict target found }
{
    if target_holds(target, found) {
        let node = Node {
            left: found.left,
            right: last_right(target.node, target.successor, found),
            ..target.node
        };
        deleting(node, target.successor)
    } else {
        Stage::Unlock { last: Last::Again }
    }
}

/// The point after a load under the locks.
pub(crate) fn past_target_load(target: Target, at: u32, found: Found) -> Stage
    requires { at ≤ 8 }
    ensures { result ≡ past_target_load target at found }
{
    match target.successor {
        None => {
            if at == 4 {
                verdict(target, found)
            } else {
                Stage::TargetLoad {
                    target,
                    at: at + 1,
                    found,
                }
            }
        }
        Some(successor) => {
            if at == 8 {
                verdict(target, found)
            } else if at == 4 && successor.parent == target.node.node {
                Stage::TargetLoad {
                    target,
                    at: 6,
                    found,
                }
            } else {
                Stage::TargetLoad {
                    target,
                    at: at + 1,
                    found,
                }
            }
        }
    }
}
