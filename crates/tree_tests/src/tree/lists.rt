//! What no clause says: that a list is given up beside an update that stays under way.
use crate::same::assert_same;
use exact_list::{Listed, Page, list};
use key_interval::Keys;
use seat_table::{CitrusTable, steps};
use std::test::Fail;
use waiters::Eer;

#[test]
fn a_list_is_given_up_beside_an_update_that_stays_under_way(rt: HostRuntime) -> Result<(), Fail> {
    let (table, seat) = CitrusTable::<Eer>::new(rt.alloc(), 1, 2, 4)?;
    let empty = seat.empty_list(rt.alloc())?;
    let (mut updater, mut lister) = seat.split(&table, 1, 0, empty);
    let front = steps::open_commit(&table, &mut updater, 0);
    let mut page = Page::new(rt.alloc(), 2)?;
    let listed = list(&rt, &table, &mut lister, Keys::all(), &mut page, 2);
    let moved = Listed::Moved { first: 1, last: 1 };
    assert_same(
        &rt,
        (front, listed, page.count()),
        (0, moved, 0),
        "the list",
    );
    Ok(())
}
