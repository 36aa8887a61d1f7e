//! What a caller gives away: seats for other callers and for lanes; and a caller by a seat that was left.
ghost use Rattle.std.specs.Prelude.{◌≡◌, ◌≤◌, ◌<◌, IfOk, IfErr, IfNone, IfSome};
ghost use Rattle.seat_table.specs.Seats.{IsEmptyFor, IsQuietSeat};
ghost use Rattle.core_state.specs.Steps.{first_of, second_of};
ghost use Rattle.tree_handles.specs.Callers.{IsSameCaller, MayGoOn, IsShared, IsReopened};
ghost use Rattle.tree_handles.specs.Opening.{FailsToReopen};
ghost use Rattle.tree_handles.specs.Lanes.{HasLanes, AreEmptyFor};

use super::Caller;
use crate::lane_seats::LaneSeats;
use crate::spinning::Spinning;
use crate::status::Status;
use core::mem::replace_with;
use seat_table::{CitrusTable, Listed, Seat, WaitPart};
use std::alloc::Global;
use std::sync::Arc;

/// What a lane gets of the handles and tickets of its caller.
const ONE_HANDLE: u32 = 1;

const NO_TICKET: u64 = 0;

/// What a seat gives away, and the table that it is of.
#[derive(Drop)]
struct Gift<'a, W: WaitPart> {
    table: &'a CitrusTable<W>,
    handles: u32,
    tickets: u64,
    list: Listed,
}

fn divide<W: WaitPart>(seat: Seat<W>, gift: Gift<W>) -> (Seat<W>, Seat<W>)
    requires table { seat.table ≡ gift.table.now }
    requires list { IsEmptyFor seat.table gift.list }
    requires quiet { IsQuietSeat seat }
    requires handles { (1 ≤ gift.handles) × (gift.handles < seat.view.allowance.places) }
    requires tickets { gift.tickets ≤ seat.view.allowance.tickets }
    ensures tables { (result.0.table ≡ seat.table) × (result.1.table ≡ seat.table) }
    ensures listed { result.0.listed ≡ seat.listed }
    ensures first { result.0.view ≡ first_of gift.entry.handles gift.entry.tickets seat.view }
    ensures second { result.1.view ≡ second_of gift.entry.handles gift.entry.tickets seat.view }
    ensures quiet { IsQuietSeat result.0 × IsQuietSeat result.1 }
{
    seat.split(gift.table, gift.handles, gift.tickets, gift.list)
}

impl<W: WaitPart> Caller<W> {
    /// A second caller on the same table, which gets so many of the unused handles and tickets; or none, where memory is short, or the table
    /// has as many owners as can be counted, and then nothing has changed.
    pub(crate) fn share(&mut self, alloc: Global, handles: u32, tickets: u64) -> Option<Caller<W>>
        requires may { MayGoOn self.old }
        requires handles { (1 ≤ handles) × (handles < self.old.seat.view.allowance.places) }
        requires tickets { tickets ≤ self.old.seat.view.allowance.tickets }
        ensures none { IfNone result (self.new ≡ self.old) }
        ensures shared { IfSome result (λ other. IsShared self.old handles tickets self.new other) }
    {
        let Ok(list) = self.seat.empty_list(alloc) else {
            return None;
        };
        let Ok(shared) = Arc::try_clone(&self.shared) else {
            return None;
        };
        let seat = self.split_off(handles, tickets, list);
        Some(Caller {
            spinning: Spinning::new(seat.place(), shared.table().places()),
            shared,
            seat,
            lost: false,
            salt: self.salt,
            cookie: None,
            keeper: None,
            too_deep: false,
        })
    }

    // Splits off a seat, which gets so many of the unused handles and tickets, and this list.
    fn split_off(&mut self, handles: u32, tickets: u64, list: Listed) -> Seat<W>
        requires may { MayGoOn self.old }
        requires list { IsEmptyFor self.old.table list }
        requires handles { (1 ≤ handles) × (handles < self.old.seat.view.allowance.places) }
        requires tickets { tickets ≤ self.old.seat.view.allowance.tickets }
        ensures index { IsSameCaller self.old self.new }
        ensures first { self.new.seat.view ≡ first_of handles tickets self.old.seat.view }
        ensures first_may { MayGoOn self.new }
        ensures second { result.view ≡ second_of handles tickets self.old.seat.view }
        ensures table { result.table ≡ self.old.table }
        ensures quiet { IsQuietSeat result }
    {
        let gift = Gift {
            table: self.shared.table(),
            handles,
            tickets,
            list,
        };
        replace_with(&mut self.seat, gift, divide)
    }

    // So many lists for seats that are to be split off, or none where memory is short.
    fn empty_lists(&self, alloc: Global, count: u32) -> Option<Vec<Listed>>
        ensures { IfSome result (λ lists. AreEmptyFor self.now.table count lists.items) }
    {
        let Ok(mut lists) = Vec::with_capacity(alloc, count as usize) else {
            return None;
        };
        for made in 0..count {
            let Ok(list) = self.seat.empty_list(alloc) else {
                return None;
            };
            lists.push_reserved(list);
        }
        Some(lists)
    }

    /// So many lanes, each with one of the unused handles and no ticket; or none, where memory is short, or the table has as many owners as can
    /// be counted, and then nothing has changed.
    pub(crate) fn lanes(&mut self, alloc: Global, count: u32) -> Option<LaneSeats<W>>
        requires may { MayGoOn self.old }
        requires count { (1 ≤ count) × (count ≤ 8) }
        requires handles { count < self.old.seat.view.allowance.places }
        ensures none { IfNone result (self.new ≡ self.old) }
        ensures opened { IfSome result (λ lanes. HasLanes self.old count self.new lanes) }
    {
        let Some(mut lists) = self.empty_lists(alloc, count) else {
            return None;
        };
        let Ok(shared) = Arc::try_clone(&self.shared) else {
            return None;
        };
        let Ok(mut seats) = Vec::with_capacity(alloc, count as usize) else {
            return None;
        };
        for given in 0..count {
            let Some(list) = lists.pop() else {
                unreachable!();
            };
            seats.push_reserved(self.split_off(ONE_HANDLE, NO_TICKET, list));
        }
        Some(LaneSeats::new(shared, seats))
    }

    /// Another caller on the same table, with a seat that a caller left.
    pub(crate) fn reopen(&self) -> Result<Caller<W>, Status>
        ensures reopened { IfOk result (λ other. IsReopened self.now other) }
        ensures cause { IfErr result FailsToReopen }
    {
        let Ok(shared) = Arc::try_clone(&self.shared) else {
            return Err(Status::NoMemory);
        };
        match shared.take() {
            Some(seat) => Ok(Caller {
                spinning: Spinning::new(seat.place(), shared.table().places()),
                shared,
                seat,
                lost: false,
                salt: self.salt,
                cookie: None,
                keeper: None,
                too_deep: false,
            }),
            None => Err(Status::Unchanged),
        }
    }
}
