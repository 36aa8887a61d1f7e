//! What no clause says: what two seats find out of each other's slots and locks. With one slot and two places slots 1 and 2 are the spares,
//! and slot 3 begins free.
use crate::same::assert_same;
use node_slots::{
    Lock, Reserve, Seize, Taken, put_back, reclaim, reserve, seize, take, try_lock, unlock,
};
use seat_table::CitrusTable;
use std::test::Fail;
use waiters::Eer;

#[test]
fn a_reservation_is_lost_and_then_held(rt: HostRuntime) -> Result<(), Fail> {
    let (table, seat) = CitrusTable::<Eer>::new(rt.alloc(), 1, 2, 8)?;
    let list = seat.empty_list(rt.alloc())?;
    let (mut first, mut second) = seat.split(&table, 1, 4, list);
    let Reserve::Lost { found: count } = reserve(&table, &mut first, 2) else {
        panic!(rt; "the count is 1");
    };
    let Reserve::Held = reserve(&table, &mut first, 1) else {
        panic!(rt; "one slot is free");
    };
    let Seize::NotFree { found: state } = seize(&table, &mut first, 1) else {
        panic!(rt; "slot 1 is a spare");
    };
    let Seize::Got { generation } = seize(&table, &mut first, 3) else {
        panic!(rt; "slot 3 is free");
    };
    let Reserve::Empty = reserve(&table, &mut second, 1) else {
        panic!(rt; "no slot is free");
    };
    let found = (count, state, generation, first.in_hand());
    assert_same(&rt, found, (1, 1, 0, Some(3)), "what the first seat finds");
    Ok(())
}

#[test]
fn a_slot_that_was_put_back_has_the_next_generation(rt: HostRuntime) -> Result<(), Fail> {
    let (table, seat) = CitrusTable::<Eer>::new(rt.alloc(), 1, 2, 8)?;
    let list = seat.empty_list(rt.alloc())?;
    let (mut first, mut second) = seat.split(&table, 1, 4, list);
    let Taken::Slot { slot, generation } = take(&rt, &table, &mut first) else {
        panic!(rt; "slot 3 is free");
    };
    assert_same(&rt, (slot, generation), (3, 0), "the slot");
    let Taken::Empty = take(&rt, &table, &mut second) else {
        panic!(rt; "no slot is free");
    };
    put_back(&table, &mut first);
    let left = (first.in_hand(), first.tickets(), first.free_seen());
    assert_same(&rt, left, (None, 3, 1), "the first seat");
    let Taken::Slot { slot, generation } = take(&rt, &table, &mut second) else {
        panic!(rt; "slot 3 is free again");
    };
    assert_same(&rt, (slot, generation), (3, 1), "the slot again");
    Ok(())
}

#[test]
fn a_slot_is_taken_near_another_or_else_on_a_line_of_its_own(rt: HostRuntime) -> Result<(), Fail> {
    let (table, seat) = CitrusTable::<Eer>::new(rt.alloc(), 8, 2, 8)?;
    let list = seat.empty_list(rt.alloc())?;
    let (mut first, mut second) = seat.split(&table, 1, 4, list);
    first.note_near(&table, 4);
    let Taken::Slot { slot: beside, .. } = take(&rt, &table, &mut first) else {
        panic!(rt; "slots 3 to 10 are free");
    };
    second.note_near(&table, 4);
    let Taken::Slot { slot: apart, .. } = take(&rt, &table, &mut second) else {
        panic!(rt; "slots 3 to 10 are free but for one");
    };
    assert_same(&rt, (beside, apart), (5, 8), "the slots");
    Ok(())
}

#[test]
fn a_lock_that_is_held_is_busy(rt: HostRuntime) -> Result<(), Fail> {
    let (table, seat) = CitrusTable::<Eer>::new(rt.alloc(), 1, 2, 8)?;
    let list = seat.empty_list(rt.alloc())?;
    let (mut first, mut second) = seat.split(&table, 1, 4, list);
    let Lock::Held = try_lock(&table, &mut first, 0) else {
        panic!(rt; "nobody holds it");
    };
    let Lock::Busy { found } = try_lock(&table, &mut second, 0) else {
        panic!(rt; "the first place holds it");
    };
    assert_same(&rt, found, 1, "the holder");
    unlock(&table, &mut first, 0);
    let Lock::Held = try_lock(&table, &mut second, 0) else {
        panic!(rt; "nobody holds it any more");
    };
    Ok(())
}

#[test]
fn a_reclaim_uses_a_ticket_for_its_wait(rt: HostRuntime) -> Result<(), Fail> {
    let (table, mut seat) = CitrusTable::<Eer>::new(rt.alloc(), 1, 2, 8)?;
    reclaim(&rt, &table, &mut seat);
    let left = (seat.tickets(), seat.waits(), seat.spare());
    assert_same(&rt, left, (7, 1, Some(1)), "the seat");
    Ok(())
}
