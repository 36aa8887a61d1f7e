//! The direction of a walk.
ghost use Rattle.std.specs.Prelude.{◌≡◌, ◌≤◌, ◌↔◌, IsTrue};
ghost use Rattle.core_state.specs.Memory.{across};
ghost use Rattle.exact_list.specs.Loads.{HasNext, IsNextTo, IsOn, start_of};
ghost use Rattle.exact_list.specs.Pairs.{IsBefore};

use key_interval::Keys;
use prcu_marks::Side;

/// To which side a walk goes. It is a type, so that each direction is compiled by itself.
pub(crate) trait Direction {
    ghost use Rattle.prcu_marks.specs.declared.mark.Side.{Side};

    ghost SIDE: { Side };

    const SIDE: Side;
}

/// To greater keys.
pub(crate) struct Ascending;

impl Direction for Ascending {
    ghost use Rattle.prcu_marks.specs.declared.mark.Side.TheVariants.{Right};

    ghost SIDE = { Right };

    const SIDE: Side = Side::Right;
}

/// To lesser keys.
pub(crate) struct Descending;

impl Direction for Descending {
    ghost use Rattle.prcu_marks.specs.declared.mark.Side.TheVariants.{Left};

    ghost SIDE = { Left };

    const SIDE: Side = Side::Left;
}

// The side to which walks in this direction go.
#[inline(always)]
pub(crate) fn side_of<D: Direction>() -> Side
    ensures { result ≡ D.SIDE }
{
    D::SIDE
}

// The other side.
#[inline(always)]
pub(crate) fn across(side: Side) -> Side
    ensures { result ≡ across side }
{
    match side {
        Side::Left => Side::Right,
        Side::Right => Side::Left,
    }
}

// Whether the key is on this side of the other one, or is it.
pub(crate) fn is_on(side: Side, from: u64, key: u64) -> bool
    ensures { IsTrue result ↔ IsOn side from key }
{
    match side {
        Side::Left => key <= from,
        Side::Right => from <= key,
    }
}

// Whether who goes to this side comes past the first key before the second.
#[inline(always)]
pub(crate) fn is_before(side: Side, key: u64, end: u64) -> bool
    ensures { IsTrue result ↔ IsBefore side key end }
{
    match side {
        Side::Left => end < key,
        Side::Right => key < end,
    }
}

// The end of these keys from which a list goes to this side.
#[inline(always)]
pub(crate) fn start_of(side: Side, keys: &Keys) -> u64
    ensures start { result ≡ start_of side keys.now }
    ensures ordered { keys.now.low ≤ keys.now.high }
{
    match side {
        Side::Left => keys.high(),
        Side::Right => keys.low(),
    }
}

// The end of these keys to which a list to this side goes.
#[inline(always)]
pub(crate) fn end_of(side: Side, keys: &Keys) -> u64
    ensures { result ≡ start_of (across side) keys.now }
{
    start_of(across(side), keys)
}

// The first key past this one, for who goes to this side.
#[inline(always)]
pub(crate) fn next_to(side: Side, key: u64) -> u64
    requires { HasNext side key }
    ensures { IsNextTo side key result }
{
    match side {
        Side::Left => key - 1,
        Side::Right => key + 1,
    }
}
