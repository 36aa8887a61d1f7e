//! A table and its seats: they may cross threads, seats are split and joined, and a section goes on from its entry to its exit.
ghost use Rattle.std.specs.Prelude.{◌≤◌};

use crate::same::assert_same;
use core_state::Part;
use prcu_marks::Side;
use seat_table::{CitrusTable, Seat, WaitPart, steps};
use std::alloc::Global;
use std::test::Fail;
use waiters::{Deer, Domain, Eer};

fn is_send<T: Send>() {}

fn is_sync<T: Sync>() {}

#[test]
fn a_table_and_its_seats_cross_threads() {
    is_send::<CitrusTable<Eer>>();
    is_sync::<CitrusTable<Eer>>();
    is_send::<Seat<Eer>>();
}

// A seat's place, its places that nobody uses, and its tickets.
fn allowance(seat: &Seat<Deer>) -> (u32, u32, u64) {
    (seat.place(), seat.unused(), seat.tickets())
}

#[test]
fn a_seat_is_split_and_joined(rt: HostRuntime) -> Result<(), Fail> {
    let (table, seat) = CitrusTable::<Deer>::new(rt.alloc(), 5, 4, 8)?;
    assert_same(&rt, (table.slots(), table.places()), (5, 4), "the table");
    let seen = (seat.free_seen(), seat.front_seen(), seat.waits());
    assert_same(&rt, seen, (5, 0, 0), "the first seat");
    let list = seat.empty_list(rt.alloc())?;
    let (a, b) = seat.split(&table, 3, 6, list);
    assert_same(&rt, allowance(&a), (0, 0, 2), "one half");
    assert_same(&rt, allowance(&b), (1, 2, 6), "the other half");
    let slots = (a.spare(), b.spare(), b.in_hand());
    assert_same(&rt, slots, (Some(1), Some(2), None), "the slots");
    let seat = a.join(&table, b);
    assert_same(&rt, allowance(&seat), (0, 0, 8), "the joined seat");
    assert_same(&rt, seat.retired().len(), 0, "its retired slots");
    Ok(())
}

// What a section is told: its key and the front, and the key once it was left.
fn told_inside<W: WaitPart>(alloc: Global) -> Result<(Option<u64>, u64, Option<u64>), Fail>
    requires way { W.WAY ≤ 2 }
{
    let (table, mut seat) = CitrusTable::<W>::new(alloc, 1, 1, 4)?;
    W::enter(&table, &mut seat, 70);
    let inside = seat.section();
    let front = steps::look_at_front(&table, &mut seat);
    W::leave(&table, &mut seat);
    Ok((inside, front, seat.section()))
}

#[test]
fn a_section_goes_on_from_its_entry_to_its_exit(rt: HostRuntime) -> Result<(), Fail> {
    let told = (Some(70), 0, None);
    let found = [
        told_inside::<Eer>(rt.alloc())?,
        told_inside::<Domain>(rt.alloc())?,
        told_inside::<Deer>(rt.alloc())?,
    ];
    assert_same(&rt, found, [told, told, told], "each waiter");
    Ok(())
}

#[test]
fn a_section_of_the_second_waiter_has_a_side(rt: HostRuntime) -> Result<(), Fail> {
    let (table, mut seat) = CitrusTable::<Domain>::new(rt.alloc(), 1, 1, 4)?;
    Domain::enter(&table, &mut seat, 70);
    let side = seat.side();
    let link = steps::search_load(&table, &mut seat, 0, Part::Link { side: Side::Right });
    assert_same(&rt, (side, link), (0, 0), "the side and the link");
    Domain::leave(&table, &mut seat);
    Ok(())
}
