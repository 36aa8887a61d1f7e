//! What a table tells whose pairs moved elsewhere: its front is nobody's any more, and each seat that looks is told, for each waiter.
ghost use Rattle.std.specs.Prelude.{◌≤◌};

use crate::same::assert_same;
use citrus_tree::get;
use exact_list::{Listed, Page, list};
use key_interval::Keys;
use prcu_marks::OpenGate;
use prcu_model::{Reply, Told};
use seat_table::{CitrusTable, WaitPart, steps};
use std::alloc::Global;
use std::test::Fail;
use waiters::{Deer, Domain, Eer};

// What one seat finds of a move before and after another's, the front that the other found for it, and the front that an update finds then.
fn told_of_a_move<W: WaitPart>(alloc: Global) -> Result<(u64, u64, u64, u64), Fail>
    requires way { W.WAY ≤ 2 }
{
    let (table, seat) = CitrusTable::<W>::new(alloc, 1, 3, 4)?;
    let empty = seat.empty_list(alloc)?;
    let (mut mover, rest) = seat.split(&table, 2, 0, empty);
    let empty = rest.empty_list(alloc)?;
    let (mut looker, mut updater) = rest.split(&table, 1, 0, empty);
    let before = steps::load_moved(&table, &mut looker);
    let front = steps::open_commit(&table, &mut mover, 0);
    if front == 0 {
        steps::store_moved(&table, &mut mover);
    }
    let after = steps::load_moved(&table, &mut looker);
    let found = steps::open_commit(&table, &mut updater, 0);
    Ok((before, after, front, found))
}

#[test]
fn the_front_is_nobodys_once_the_pairs_moved(rt: HostRuntime) -> Result<(), Fail> {
    let told = (0, 1, 0, 1);
    let found = [
        told_of_a_move::<Eer>(rt.alloc())?,
        told_of_a_move::<Domain>(rt.alloc())?,
        told_of_a_move::<Deer>(rt.alloc())?,
    ];
    assert_same(&rt, found, [told, told, told], "each waiter");
    Ok(())
}

#[test]
fn lookups_go_on_and_lists_are_given_up_once_the_pairs_moved(rt: HostRuntime) -> Result<(), Fail> {
    let (table, seat) = CitrusTable::<Eer>::new(rt.alloc(), 1, 2, 4)?;
    let empty = seat.empty_list(rt.alloc())?;
    let (mut mover, mut reader) = seat.split(&table, 1, 0, empty);
    let front = steps::open_commit(&table, &mut mover, 0);
    if front == 0 {
        steps::store_moved(&table, &mut mover);
    }
    let Told { reply, number: _ } = get(&table, &mut reader, &OpenGate, 5);
    let mut page = Page::new(rt.alloc(), 2)?;
    let listed = list(&rt, &table, &mut reader, Keys::all(), &mut page, 2);
    let moved = Listed::Moved { first: 1, last: 1 };
    assert_same(&rt, (reply, listed), (Reply::Absent, moved), "the reader");
    Ok(())
}
