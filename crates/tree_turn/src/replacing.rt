//! A node and its child are replaced by two new nodes.
ghost use Rattle.std.specs.Prelude.{◌≡◌, None};
ghost use Rattle.core_state.specs.Views.{lock_of};
ghost use Rattle.seat_table.specs.Seats.{shape_of};
ghost use Rattle.tree_turn.specs.Turns.{HasRecorded, lower_content, upper_content, HasFilled, HasReplaced, IsHeldSlot, MayReplace};

use crate::loads::across;
use crate::turn::{Content, Turn, TurnWords};
use prcu_marks::Side;
use seat_table::{CitrusTable, Part, Seat, WaitWords, steps};

/// Fills the two new nodes, marks the two old ones, and replaces them by one store: the spare takes the node's place, and the slot in hand
/// is below it.
pub(crate) fn replace<W: WaitWords>(
    table: &CitrusTable<W>,
    seat: &mut Seat<W>,
    turn: Turn,
    words: TurnWords,
    bottom: u32,
    top: u32,
)
    requires table { seat.old.table ≡ table.now }
    requires recorded { HasRecorded (shape_of W.WAY table.now) seat.old.view turn }
    requires ready { MayReplace table.now.room seat.old.view turn words bottom top }
    ensures seat { (seat.new.table ≡ seat.old.table) × (seat.new.listed ≡ seat.old.listed) }
    ensures view { HasReplaced seat.old.view turn words bottom top seat.new.view }
{
    fill(table, seat, bottom, turn.turn, lower_content(words));
    fill(table, seat, top, turn.turn, upper_content(words, bottom));
    // Marked last: the lock of a marked node that is linked can't be given up. docs/TREE_CALLS.md#turns
    steps::mark(table, seat, turn.node, words.node.life);
    steps::mark(table, seat, turn.child, words.child.life);
    steps::rotate(
        table,
        seat,
        turn.parent,
        turn.side,
        turn.node,
        turn.child,
        top,
    );
}

// What the lower node gets: the node's pair, and on the side of the turn what was between the two.
fn lower_content(words: TurnWords) -> Content
    ensures { result ≡ lower_content words }
{
    let node = words.node.content;
    Content {
        turn_link: words.child.content.other_link,
        ..node
    }
}

// What the upper node gets: the child's pair, and the lower node.
fn upper_content(words: TurnWords, bottom: u32) -> Content
    ensures { result ≡ upper_content words bottom }
{
    let child = words.child.content;
    Content {
        other_link: bottom as u64,
        ..child
    }
}

// Fills a slot that is in hand or the spare.
fn fill<W: WaitWords>(
    table: &CitrusTable<W>,
    seat: &mut Seat<W>,
    slot: u32,
    turn: Side,
    content: Content,
)
    requires table { seat.old.table ≡ table.now }
    requires held { IsHeldSlot seat.old.view slot }
    requires unlocked { lock_of seat.old.view.locks slot ≡ None }
    requires settled { seat.old.view.moving ≡ None }
    ensures seat { (seat.new.table ≡ seat.old.table) × (seat.new.listed ≡ seat.old.listed) }
    ensures view { HasFilled seat.old.view slot turn content seat.new.view }
{
    steps::fill(table, seat, slot, Part::Key, content.key);
    steps::fill(table, seat, slot, Part::Value, content.value);
    steps::fill(
        table,
        seat,
        slot,
        Part::Link { side: turn },
        content.turn_link,
    );
    steps::fill(
        table,
        seat,
        slot,
        Part::Link { side: across(turn) },
        content.other_link,
    );
}
