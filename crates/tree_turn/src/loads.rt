//! What a turn loads under its locks, and whether it is as recorded.
ghost use Rattle.std.specs.Prelude.{◌≡◌, ◌*◌, ◌==◌, [], None};
ghost use Rattle.core_state.specs.Memory.{across};
ghost use Rattle.core_state.specs.Views.{HasLock};
ghost use Rattle.seat_table.specs.Seats.{shape_of};
ghost use Rattle.tree_turn.specs.Turns.{AreThree, node_loads, agrees, HasLoaded, HasLoadedAll, IsAside, ThreeAside, node_known, three_locks};

use crate::turn::{Content, NodeWords, Turn, TurnWords};
use core_state::{generation_of, marked};
use prcu_marks::Side;
use seat_table::{CitrusTable, Part, Seat, WaitWords, steps};

/// The other side.
pub(crate) fn across(side: Side) -> Side
    ensures { result ≡ across side }
{
    match side {
        Side::Left => Side::Right,
        Side::Right => Side::Left,
    }
}

/// The words of the three slots under their locks.
pub(crate) fn load_words<W: WaitWords>(
    table: &CitrusTable<W>,
    seat: &mut Seat<W>,
    turn: Turn,
) -> TurnWords
    requires table { seat.old.table ≡ table.now }
    requires three { AreThree (shape_of W.WAY table.now) turn }
    requires locked { seat.old.view.locks ≡ three_locks turn [] [] [] }
    requires aside { ThreeAside seat.old.view turn }
    requires settled { seat.old.view.moving ≡ None }
    ensures seat { (seat.new.table ≡ seat.old.table) × (seat.new.listed ≡ seat.old.listed) }
    ensures view { HasLoadedAll seat.old.view turn result seat.new.view }
{
    let parent_life = steps::locked_load(table, seat, turn.parent, Part::Life);
    let link = steps::locked_load(table, seat, turn.parent, Part::Link { side: turn.side });
    let node = load_node(table, seat, turn.node, turn.turn);
    let child = load_node(table, seat, turn.child, turn.turn);
    TurnWords {
        parent_life,
        link,
        node,
        child,
    }
}

// Those of a node.
fn load_node<W: WaitWords>(
    table: &CitrusTable<W>,
    seat: &mut Seat<W>,
    slot: u32,
    turn: Side,
) -> NodeWords
    requires table { seat.old.table ≡ table.now }
    requires held { HasLock seat.old.view slot }
    requires aside { IsAside seat.old.view slot }
    requires settled { seat.old.view.moving ≡ None }
    ensures seat { (seat.new.table ≡ seat.old.table) × (seat.new.listed ≡ seat.old.listed) }
    ensures view { HasLoaded seat.old.view slot (node_known slot turn result) (node_loads slot turn result) seat.new.view }
{
    let life = steps::locked_load(table, seat, slot, Part::Life);
    let key = steps::locked_load(table, seat, slot, Part::Key);
    let value = steps::locked_load(table, seat, slot, Part::Value);
    let turn_link = steps::locked_load(table, seat, slot, Part::Link { side: turn });
    let other_link = steps::locked_load(table, seat, slot, Part::Link { side: across(turn) });
    NodeWords {
        life,
        content: Content {
            key,
            value,
            turn_link,
            other_link,
        },
    }
}

// Whether a life is that of an unmarked node of this generation.
fn is_life(life: u64, generation: u64) -> bool
    ensures { result ≡ (life == 2 * generation) }
{
    !marked(life) && generation_of(life) == generation
}

/// Whether the three have the recorded generations and are unmarked, and the links still lead from one to the next.
pub(crate) fn is_as_recorded(turn: Turn, words: TurnWords) -> bool
    ensures { result ≡ agrees turn words }
{
    is_life(words.parent_life, turn.parent_generation)
        && is_life(words.node.life, turn.node_generation)
        && is_life(words.child.life, turn.child_generation)
        && words.link == turn.node as u64
        && words.node.content.turn_link == turn.child as u64
}
