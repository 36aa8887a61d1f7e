//! Searches by hand, hop by hop.
use super::*;
use citrus_tree::{End, Hop, Search};
use prcu_marks::Side;
use std::test::Fail;
use waiters::Eer;

#[test]
fn a_search_comes_to_a_key_below_another(rt: HostRuntime) -> Result<(), Fail> {
    let (table, seat) = CitrusTable::<Eer>::new(rt.alloc(), 4, 1, 256)?;
    let calls = [call!(put 5 50 new 1), call!(put 2 20 new 2)];
    let mut seat = run(&rt, &table, seat, "two keys", &calls);
    let mut search = Search::start(&table, &mut seat, 2);
    let Hop::Moved = search.hop() else {
        panic!(rt; "5 is at the root");
    };
    let Hop::Found { slot } = search.hop() else {
        panic!(rt; "2 is left of 5");
    };
    let End::Hit { value } = search.finish() else {
        panic!(rt; "2 was found");
    };
    assert_same(&rt, (slot, value), (3, 20), "the slot and the value");
    Ok(())
}

#[test]
fn a_search_comes_to_the_side_where_a_key_belongs(rt: HostRuntime) -> Result<(), Fail> {
    let (table, seat) = CitrusTable::<Eer>::new(rt.alloc(), 4, 1, 256)?;
    let calls = [
        call!(put 5 50 new 1),
        call!(put 2 20 new 2),
        call!(del 2 gone 3),
    ];
    let mut seat = run(&rt, &table, seat, "one of two keys", &calls);
    let mut search = Search::start(&table, &mut seat, 2);
    let Hop::Moved = search.hop() else {
        panic!(rt; "5 is at the root");
    };
    let Hop::Ended { slot, side } = search.hop() else {
        panic!(rt; "nothing is left of 5");
    };
    let End::Missing { spot } = search.finish() else {
        panic!(rt; "2 was not found");
    };
    let found = (slot, side, spot.slot, spot.side, spot.generation, spot.tag);
    let wanted = (2, Side::Left, 2, Side::Left, 0, 1);
    assert_same(&rt, found, wanted, "the end and the spot");
    Ok(())
}
