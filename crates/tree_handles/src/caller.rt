//! What a handle leads to, by its waiter: a seat, and what it shares with the other callers of the index.
ghost use Rattle.std.specs.Prelude.{◌≡◌, ◌≤◌, ◌<◌, ◌+◌, false, true, MatchBool, IfOk, IfErr, IfNone, IfSome};
ghost use Rattle.prcu_model.specs.declared.operation.Op.TheVariants.{Get, Put, Set};
ghost use Rattle.seat_table.specs.Seats.{IsQuietSeat};
ghost use Rattle.seat_table.specs.Sections.{IsQuietButSection};
ghost use Rattle.seat_table.specs.Gains.{IsInformed};
ghost use Rattle.core_state.specs.Memory.{most_places, most_slots};
ghost use Rattle.tree_handles.specs.Holds.{HasStarted, Polls, EndsOutside, HasHeld, HasOutwaited, IsEntered, LeavesSection};
ghost use Rattle.tree_handles.specs.Callers.{KeepsCookie, KeepsKeeper, MayGoOn, IsFresh, slots_for};
ghost use Rattle.tree_handles.specs.Opening.{HasStats};
ghost use Rattle.tree_handles.specs.Calls.{ComesBehind, IsCalled, IsCalledTended, IsCompared, IsLost, IsWaitFree, CausedBy, CausedTended, IsHinderedBy, IsStoppedBy, LacksRoom};
ghost use Rattle.tree_handles.specs.Keepers.{SeesToKeeper, StartsKeeper, Tends, slot_for};
ghost use Rattle.tree_handles.specs.Lists.{IsPreventedBy, ListsTo, Seeks};
ghost use Rattle.tree_handles.specs.Tidying.{GivesBack, HasNoneBack, LiftsWay};

mod dividing;
mod removing;

use crate::keeper::{
    begin_if_needed, count_reused, forget_if, give_up_unless_over, is_under_way, lacks_slots,
    serves_next, slot_at_rest, slot_for_insert, tend_in_place,
};
use crate::shared::Shared;
use crate::spinning::{GaveUp, InTheWay, Spinning};
use crate::stats::Stats;
use crate::status::Status;
use crate::tidying::attempts_for;
use citrus_tree::patient::{compare, put_reusing, set};
use citrus_tree::{Called, Compared, Reuse, get, hold, release};
use exact_list::patient::{list_always_to, nearest_always};
use exact_list::{Exact, Nearest, Page};
use grace_cookie::{Ask, Cookie, ask, start};
use key_interval::Keys;
use prcu_marks::{OpenGate, Side};
use prcu_model::{NoMemory, Op, Reply, Told};
use seat_table::{CitrusTable, Seat, WaitPart, wait_in_grace};
use std::alloc::Global;
use std::marker::Model;
use std::sync::Arc;
use tree_lift::{Aim, Lifted, attempts_behind, give_all_back, is_far_too_deep, lift, most_keys};

/// How many tickets a call may use.
pub(crate) const TICKETS: u64 = 4;

/// How many tickets a wait uses.
const WAIT_TICKETS: u64 = 1;

/// The place of the first caller of an index.
const FIRST_PLACE: u32 = 0;

/// How many tickets the lift behind an insert may use: three for each of 24 attempts.
const LIFT_TICKETS: u64 = 72;

/// The tickets of a new index, all that a table can have.
const ALL_TICKETS: u64 = 144_115_188_075_855_872;

/// The slots that a place may keep from the others beside its retired ones.
pub(crate) const IN_HAND: u32 = 4;

/// How many times a list, a first or a last is tried beside updates, before it holds the front, and updates wait for it.
pub(crate) const TRIES: u32 = 4;

/// A seat, and its table, which it shares. It may be in a section. It is lost where a call gave up in its midst: then the seat may hold locks
/// too. It has the cookie of the wait that was begun last to be asked about, until it is told that it is over.
pub(crate) struct Caller<W: WaitPart> {
    shared: Arc<Shared<W>, Global>,
    seat: Seat<W>,
    lost: bool,
    // By which the nodes of the index rise. All callers of an index have the same.
    salt: u64,
    // By which it gives its own retired slots back.
    keeper: Option<Cookie<W>>,
    // Whether the way of the last pair that it added was far too deep.
    too_deep: bool,
    // How it waits for others.
    spinning: Spinning,
    // The last, since updates write none of it: what they write shares no line of memory with what another handle reads in each call.
    cookie: Option<Cookie<W>>,
}

impl<W: WaitPart> Model for Caller<W> {
    ghost use Rattle.std.specs.Prelude.{◌≡◌, false};
    ghost use Rattle.std.specs.Arc.{arc_value};
    ghost use Rattle.seat_table.specs.Seats.{shape_of};
    ghost use Rattle.seat_table.specs.Sections.{IsQuietButSection};
    ghost use Rattle.core_state.specs.Memory.{most_places};
    ghost use Rattle.tree_handles.specs.Keepers.{HasCookies};
    ghost use Rattle.tree_handles.specs.Callers.{CallerAt};

    ghost Value = { CallerAt };

    ghost view = { λ c. record {
      way = W.WAY;
      table = arc_value c.shared;
      salt = c.salt;
      seat = c.seat;
      lost = c.lost;
      cookie = c.cookie;
      keeper = c.keeper;
    } };

    ghost invariant = { λ c. (c.seat.table ≡ arc_value c.shared) × (c.lost ≡ false → IsQuietButSection c.seat)
        × (c.lost ≡ false → HasCookies (shape_of W.WAY (arc_value c.shared)) c.cookie c.keeper c.seat) };
}

impl<W: WaitPart> Drop for Caller<W> {
    /// An open section is left, and the seat is left to other callers, unless it may hold locks.
    fn drop(self) {
        let Self {
            shared,
            seat,
            lost,
            salt: _,
            cookie: _,
            keeper: _,
            too_deep: _,
            spinning: _,
        } = self;
        if lost {
            return;
        }
        let seat = outside(shared.table(), seat);
        shared.leave(seat);
    }
}

// All that a close does with its seat before others may have it: an open section is left, and no other step is made.
fn outside<W: WaitPart>(table: &CitrusTable<W>, mut seat: Seat<W>) -> Seat<W>
    requires table { seat.table ≡ table.now }
    requires quiet { IsQuietButSection seat }
    ensures table { result.table ≡ seat.table }
    ensures left { EndsOutside seat result }
    ensures quiet { IsQuietSeat result }
{
    if seat.section().is_none() {
        return seat;
    }
    release(table, &mut seat);
    seat
}

impl<W: WaitPart> Caller<W> {
    /// The first caller on a new table in which so many pairs always fit, and some more, for so many handles, with all tickets. A place may
    /// hold back so many retired slots: with many a handle that removes waits for readers rarely, with few less memory lies idle. Its nodes
    /// rise by this salt.
    pub(crate) fn new(
        alloc: Global,
        pairs: u32,
        handles: u32,
        keep: u32,
        salt: u64,
    ) -> Result<Caller<W>, NoMemory>
        requires way { W.WAY ≤ 2 }
        requires pairs { 1 ≤ pairs }
        requires handles { (1 ≤ handles) × (handles ≤ most_places) }
        requires keep { (16 ≤ keep) × (keep ≤ most_slots) }
        requires fits { slots_for pairs handles keep ≤ most_slots }
        ensures { IfOk result (λ caller. IsFresh W.WAY pairs handles keep salt caller) }
    {
        // For the first handle too: where so many pairs are there, a turn finds slots free, or gets those that its handle kept back. Without
        // them keys that come in order, each in the place of one that goes, would make the tree a path.
        let slots = pairs + (keep + IN_HAND) * handles;
        let (table, seat) = CitrusTable::<W>::with_room(alloc, slots, handles, keep, ALL_TICKETS)?;
        match Arc::new(alloc, Shared::new(alloc, table, handles)?) {
            Ok(shared) => Ok(Caller {
                spinning: Spinning::new(FIRST_PLACE, handles),
                shared,
                seat,
                lost: false,
                salt,
                cookie: None,
                keeper: None,
                too_deep: false,
            }),
            Err(_) => Err(NoMemory),
        }
    }

    /// How many more handles can be shared from it.
    pub(crate) fn unused(&self) -> u32
        ensures { result + 1 ≡ self.now.seat.view.allowance.places }
    {
        self.seat.unused()
    }

    /// How many tickets it has left.
    pub(crate) fn tickets(&self) -> u64
        ensures { result ≡ self.now.seat.view.allowance.tickets }
    {
        self.seat.tickets()
    }

    /// What it tells of itself and of its index, in a record of this size.
    pub(crate) fn stats(&self, size: usize) -> Stats
        ensures size { result.size ≡ size }
        ensures has { HasStats self.now result }
    {
        Stats {
            size,
            slots: self.shared.table().slots() as u64,
            free: self.seat.free_seen(),
            waits: self.seat.waits(),
            tickets: self.seat.tickets(),
            kept: self.seat.retired().len() as u64,
            room: self.seat.room() as u64,
            handles: self.shared.table().places(),
            unshared: self.seat.unused(),
        }
    }

    /// Why it can't make a call, where it can't: a call of it gave up, or it is in a section.
    pub(crate) fn stopped(&self) -> Option<Status>
        ensures none { IfNone result (MayGoOn self.now) }
        ensures some { IfSome result (λ status. IsStoppedBy status self.now self.now) }
    {
        if self.lost {
            return Some(Status::Lost);
        }
        if self.seat.section().is_some() {
            return Some(Status::Holds);
        }
        None
    }

    // Why the caller can't make a call that needs so many tickets, where it can't.
    fn hindrance(&self, needed: u64) -> Option<Status>
        ensures none { IfNone result (MayGoOn self.now × (needed ≤ self.now.seat.view.allowance.tickets)) }
        ensures some { IfSome result (λ status. IsHinderedBy needed status self.now self.now) }
    {
        if let Some(status) = self.stopped() {
            return Some(status);
        }
        if self.seat.tickets() < needed {
            return Some(Status::Spent);
        }
        None
    }

    /// Finds the key's value. It waits for nobody.
    // Each operation has a call of its own, down to the tree: one for all would hand the operation and its answer through memory.
    #[inline(always)]
    pub(crate) fn get(&mut self, key: u64) -> Result<Told, Status>
        ensures called { IfOk result (λ told. IsCalled self.old (Get key) told self.new) }
        ensures soon { IfOk result (λ _. IsWaitFree self.old self.new) }
        ensures cause { IfErr result (λ status. IsHinderedBy 4 status self.old self.new) }
        ensures same { IfErr result (λ _. self.new ≡ self.old) }
    {
        if let Some(status) = self.hindrance(TICKETS) {
            return Err(status);
        }
        Ok(get(self.shared.table(), &mut self.seat, &OpenGate, key))
    }

    // Asks about the keeper once, and gives slots back by it that don't stay for inserts.
    #[inline(always)]
    fn tend(&mut self)
        requires may { MayGoOn self.old }
        ensures { Tends self.old self.new }
    {
        if self.keeper.is_none() {
            return;
        }
        tend_in_place(self.shared.table(), &mut self.seat, &mut self.keeper);
    }

    // Begins a keeper where many slots are kept, or some while none was free, and none is under way.
    #[inline(always)]
    fn start_keeper(&mut self)
        requires may { MayGoOn self.old }
        ensures { StartsKeeper self.old self.new }
    {
        let table = self.shared.table();
        begin_if_needed(table, &mut self.seat, &mut self.keeper, &self.cookie);
    }

    // What comes before an update that retires slots, or takes one, and which slot an insert is to take then. Begun here, and not behind the
    // update, a keeper is asked about before the user begins a wait, which would give it up.
    #[inline(always)]
    fn see_to_keeper(&mut self) -> Reuse
        requires may { MayGoOn self.old }
        requires tickets { 4 ≤ self.old.seat.view.allowance.tickets }
        ensures sees { SeesToKeeper self.old self.new }
        ensures slot { result ≡ slot_for self.new.keeper self.new.seat.listed }
        ensures tickets { 4 ≤ self.new.seat.view.allowance.tickets }
    {
        if let Some(slot) = slot_at_rest(&self.seat, &self.keeper) {
            return Reuse::Retired { slot };
        }
        self.start_keeper();
        self.tend();
        slot_for_insert(&self.seat, &self.keeper)
    }

    // Whether an insert waits for its keeper: the last one left a way that is far too deep, and there is no room for the turns that it needs.
    fn owes_turns(&self) -> bool
        requires may { MayGoOn self.now }
        ensures holds { result ≡ true → LacksRoom self.now self.now }
    {
        if self.too_deep {
            return self.lacks_room();
        }
        false
    }

    /// Adds the pair, where the key is absent, and lifts nodes on its way where that was deep. Where others are in its way it spins, or is busy;
    /// and so it is where the last way was far too deep and its place has no room for turns, or where no slot is free and its place keeps some
    /// back, until the keeper is over.
    #[inline(always)]
    pub(crate) fn put(&mut self, key: u64, value: u64) -> Result<Told, Status>
        ensures called { IfOk result (λ told. IsCalledTended self.old (Put key value) told self.new) }
        ensures cause { IfErr result (λ status. CausedTended (Put key value) status self.old self.new) }
    {
        if let Some(status) = self.hindrance(TICKETS) {
            return Err(status);
        }
        let reuse = self.see_to_keeper();
        if self.owes_turns() {
            return Err(Status::Busy);
        }
        self.put_tended(key, value, reuse)
    }

    // The same, but for what is done about the keeper, with the slot that it is to take.
    #[inline(always)]
    fn put_tended(&mut self, key: u64, value: u64, reuse: Reuse) -> Result<Told, Status>
        requires may { MayGoOn self.old }
        requires slot { reuse ≡ slot_for self.old.keeper self.old.seat.listed }
        requires tickets { 4 ≤ self.old.seat.view.allowance.tickets }
        ensures called { IfOk result (λ told. IsCalled self.old (Put key value) told self.new) }
        ensures cause { IfErr result (λ status. CausedBy (Put key value) status self.old self.new) }
    {
        let table = self.shared.table();
        let waits = self.seat.waits();
        let kept = self.seat.retired().len();
        let again = serves_next(&self.seat, &self.keeper, &self.cookie);
        let patience = self
            .spinning
            .for_call(self.shared.queue())
            .leaving_readers(again);
        let answer = put_reusing(
            &patience,
            table,
            &mut self.seat,
            &OpenGate,
            key,
            value,
            reuse,
        );
        forget_if(self.seat.waits() != waits, &mut self.keeper);
        let reused = self.seat.retired().len() < kept;
        count_reused(reused, &mut self.keeper);
        match answer {
            Ok(Ok(called)) => {
                self.lift_behind(Op::Put { key, value }, called, reused);
                Ok(called.told)
            }
            Ok(Err(InTheWay)) => Err(Status::Busy),
            Err(GaveUp) => {
                self.lost = true;
                Err(Status::Lost)
            }
        }
    }

    /// Gives the key another value, where it is present. Where others are in its way it spins, or is busy.
    #[inline(always)]
    pub(crate) fn set(&mut self, key: u64, value: u64) -> Result<Told, Status>
        ensures called { IfOk result (λ told. IsCalled self.old (Set key value) told self.new) }
        ensures cause { IfErr result (λ status. CausedBy (Set key value) status self.old self.new) }
    {
        if let Some(status) = self.hindrance(TICKETS) {
            return Err(status);
        }
        let table = self.shared.table();
        let waits = self.seat.waits();
        let patience = self.spinning.for_call(self.shared.queue());
        let answer = set(&patience, table, &mut self.seat, &OpenGate, key, value);
        forget_if(self.seat.waits() != waits, &mut self.keeper);
        match answer {
            Ok(Ok(told)) => Ok(told),
            Ok(Err(InTheWay)) => Err(Status::Busy),
            Err(GaveUp) => {
                self.lost = true;
                Err(Status::Lost)
            }
        }
    }

    // Whether the place lacks the slots for a remove, and the keeper isn't over: then a remove would stand still for all readers.
    fn lacks_room(&self) -> bool
        requires may { MayGoOn self.now }
        ensures holds { result ≡ true → LacksRoom self.now self.now }
        ensures fails { result ≡ false → LacksRoom self.now self.now → ⊥ }
    {
        is_under_way(&self.keeper) && lacks_slots(&self.seat)
    }

    // How many pairs there are at most, by what is known without a step: the slots that weren't free when the seat reserved one for its pair; or
    // all, where it used a slot again, since what it last found free may be long ago.
    fn most_now(&self, reused: bool) -> u64 {
        let slots = u64::from(self.shared.table().slots());
        if reused {
            return slots;
        }
        most_keys(slots, self.seat.free_seen())
    }

    // Lifts nodes on the way to a key that was added, where the way was deep and there are tickets for it. Where the lift gives up the caller is
    // lost from now on.
    #[inline(always)]
    fn lift_behind(&mut self, op: Op, called: Called, reused: bool)
        requires may { MayGoOn self.old }
        requires informed { IsInformed self.old.seat.view }
        ensures index { KeepsCookie self.old self.new }
        ensures keeper { KeepsKeeper self.old self.new }
        ensures behind { ComesBehind op called.told self.old.seat self.new }
    {
        let Op::Put { key, value: _ } = op else {
            return;
        };
        let Reply::New = called.told.reply else {
            return;
        };
        let most = self.most_now(reused);
        self.too_deep = is_far_too_deep(called.depth, most);
        let attempts = attempts_behind(called.depth, most);
        if attempts == 0 || self.seat.tickets() < LIFT_TICKETS {
            return;
        }
        let aim = Aim {
            key,
            salt: self.salt,
            attempts,
            hard: self.too_deep && !serves_next(&self.seat, &self.keeper, &self.cookie),
        };
        let waits = self.seat.waits();
        let patience = self.spinning.for_call(self.shared.queue());
        let lifted = lift(&patience, self.shared.table(), &mut self.seat, aim);
        forget_if(self.seat.waits() != waits, &mut self.keeper);
        match lifted {
            Ok(_) => (),
            Err(GaveUp) => self.lost = true,
        }
    }

    /// Gives the key another value, where its value is the expected one. Where others are in its way it spins, or is busy.
    pub(crate) fn compare(
        &mut self,
        key: u64,
        expected: u64,
        value: u64,
    ) -> Result<Compared, Status>
        ensures compared { IfOk result (λ answer. IsCompared self.old key expected value answer self.new) }
        ensures cause { IfErr result (λ status. CausedBy (Set key value) status self.old self.new) }
    {
        if let Some(status) = self.hindrance(TICKETS) {
            return Err(status);
        }
        let table = self.shared.table();
        let waits = self.seat.waits();
        let patience = self.spinning.for_call(self.shared.queue());
        let answer = compare(
            &patience,
            table,
            &mut self.seat,
            &OpenGate,
            key,
            expected,
            value,
        );
        forget_if(self.seat.waits() != waits, &mut self.keeper);
        match answer {
            Ok(Ok(answer)) => Ok(answer),
            Ok(Err(InTheWay)) => Err(Status::Busy),
            Err(GaveUp) => {
                self.lost = true;
                Err(Status::Lost)
            }
        }
    }

    /// Lists the pairs with these keys on the page to this side, as they were at one moment of the call. It takes no ticket. Where others have
    /// the front that it takes it spins, or is busy.
    pub(crate) fn list(&mut self, side: Side, keys: Keys, page: &mut Page) -> Result<Exact, Status>
        ensures capacity { IfOk result (λ _. page.new.capacity ≡ page.old.capacity) }
        ensures listed { IfOk result (λ exact. ListsTo side self.old keys page.new exact self.new) }
        ensures cause { IfErr result (λ status. IsPreventedBy keys.low status self.old self.new) }
    {
        if let Some(status) = self.stopped() {
            return Err(status);
        }
        let table = self.shared.table();
        let patience = self.spinning.for_call(self.shared.queue());
        match list_always_to(&patience, table, &mut self.seat, side, keys, page, TRIES) {
            Ok(Ok(exact)) => Ok(exact),
            Ok(Err(InTheWay)) => Err(Status::Busy),
            Err(GaveUp) => {
                self.lost = true;
                Err(Status::Lost)
            }
        }
    }

    /// Finds the pair at this key, or the nearest one on that side of it, as it was at one moment of the call. It takes no ticket. Where others
    /// have the front that it takes it spins, or is busy.
    pub(crate) fn nearest(&mut self, side: Side, from: u64) -> Result<Nearest, Status>
        ensures found { IfOk result (λ nearest. Seeks self.old side from nearest self.new) }
        ensures cause { IfErr result (λ status. IsPreventedBy from status self.old self.new) }
    {
        if let Some(status) = self.stopped() {
            return Err(status);
        }
        let table = self.shared.table();
        let patience = self.spinning.for_call(self.shared.queue());
        match nearest_always(&patience, table, &mut self.seat, side, from, TRIES) {
            Ok(Ok(nearest)) => Ok(nearest),
            Ok(Err(InTheWay)) => Err(Status::Busy),
            Err(GaveUp) => {
                self.lost = true;
                Err(Status::Lost)
            }
        }
    }

    /// Finds the key's value in a section with the key, which stays open where the key is present. It takes no ticket.
    pub(crate) fn hold(&mut self, key: u64) -> Result<Option<u64>, Status>
        ensures held { IfOk result (λ value. HasHeld self.old key value self.new) }
        ensures cause { IfErr result (λ status. IsStoppedBy status self.old self.new) }
        ensures same { IfErr result (λ _. self.new ≡ self.old) }
    {
        if let Some(status) = self.stopped() {
            return Err(status);
        }
        Ok(hold(self.shared.table(), &mut self.seat, &OpenGate, key))
    }

    /// Enters a section with the key.
    pub(crate) fn enter(&mut self, key: u64) -> Result<(), Status>
        ensures entered { IfOk result (λ _. IsEntered self.old key self.new) }
        ensures cause { IfErr result (λ status. IsStoppedBy status self.old self.new) }
    {
        if let Some(status) = self.stopped() {
            return Err(status);
        }
        W::enter(self.shared.table(), &mut self.seat, key);
        Ok(())
    }

    /// Leaves the open section, if there is one.
    pub(crate) fn release(&mut self) -> Status
        ensures { LeavesSection self.old result self.new }
    {
        match self.stopped() {
            None => Status::Unchanged,
            Some(Status::Holds) => {
                release(self.shared.table(), &mut self.seat);
                Status::Done
            }
            Some(status) => status,
        }
    }

    /// Waits until the sections with one of these keys have been left that were entered before. It uses one ticket.
    pub(crate) fn wait(&mut self, keys: Keys) -> Result<(), Status>
        ensures waited { IfOk result (λ _. HasOutwaited self.old keys self.new) }
        ensures cause { IfErr result (λ status. IsHinderedBy 1 status self.old self.new) }
    {
        if let Some(status) = self.hindrance(WAIT_TICKETS) {
            return Err(status);
        }
        give_up_unless_over(&mut self.keeper);
        let table = self.shared.table();
        let patience = self.spinning.for_call(self.shared.queue());
        match wait_in_grace(&patience, table, &mut self.seat, &OpenGate, keys) {
            Ok(()) => Ok(()),
            Err(GaveUp) => {
                self.lost = true;
                Err(Status::Lost)
            }
        }
    }

    /// Begins a wait for the sections with one of these keys, and tells its number. It uses one ticket, and waits for nobody.
    pub(crate) fn begin(&mut self, keys: Keys) -> Result<u64, Status>
        ensures begun { IfOk result (λ number. HasStarted self.old keys number self.new) }
        ensures cause { IfErr result (λ status. IsHinderedBy 1 status self.old self.new) }
    {
        if let Some(status) = self.hindrance(WAIT_TICKETS) {
            return Err(status);
        }
        give_up_unless_over(&mut self.keeper);
        let cookie = start(self.shared.table(), &mut self.seat, keys);
        let number = cookie.number();
        self.cookie = Some(cookie);
        Ok(number)
    }

    /// Asks whether the begun wait with this number is over. It waits for nobody.
    pub(crate) fn poll(&mut self, number: u64) -> Status
        ensures { Polls self.old number result self.new }
    {
        if let Some(status) = self.stopped() {
            return status;
        }
        let Some(mut cookie) = self.cookie.take() else {
            return Status::Moved;
        };
        if cookie.number() != number {
            self.cookie = Some(cookie);
            return Status::Moved;
        }
        match ask(self.shared.table(), &mut self.seat, &mut cookie) {
            Ask::Over => Status::Done,
            Ask::NotYet { why: _ } => {
                self.cookie = Some(cookie);
                Status::Unchanged
            }
            Ask::GivenUp { latest: _ } => {
                self.cookie = Some(cookie);
                Status::Moved
            }
        }
    }

    /// Lets nodes on the way to the key change places, in so many attempts at most, and as there are tickets for. Where the place has no room
    /// for the slots that are retired it waits for readers.
    pub(crate) fn lift_way(&mut self, key: u64, most: u32) -> Result<Lifted, GaveUp>
        requires may { MayGoOn self.old }
        ensures lifted { IfOk result (λ lifted. LiftsWay self.old key most lifted self.new) }
        ensures lost { IfErr result (λ _. IsLost self.old self.new) }
    {
        let table = self.shared.table();
        let aim = Aim {
            key,
            salt: self.salt,
            attempts: attempts_for(most, self.seat.tickets()),
            hard: true,
        };
        let waits = self.seat.waits();
        let patience = self.spinning.for_call(self.shared.queue());
        let answer = lift(&patience, table, &mut self.seat, aim);
        forget_if(self.seat.waits() != waits, &mut self.keeper);
        match answer {
            Ok(lifted) => Ok(lifted),
            Err(GaveUp) => {
                self.lost = true;
                Err(GaveUp)
            }
        }
    }

    /// Gives the retired slots back, where there are any, after a wait for all open sections. `false`, and nothing was done, where there are
    /// none.
    pub(crate) fn give_all_back(&mut self) -> Result<bool, GaveUp>
        requires may { MayGoOn self.old }
        requires ticket { 1 ≤ self.old.seat.view.allowance.tickets }
        ensures back { IfOk result (λ some. MatchBool some (GivesBack self.old self.new) (HasNoneBack self.old self.new)) }
        ensures lost { IfErr result (λ _. IsLost self.old self.new) }
    {
        let table = self.shared.table();
        let patience = self.spinning.for_call(self.shared.queue());
        match give_all_back(&patience, table, &mut self.seat) {
            Ok(true) => {
                self.keeper = None;
                Ok(true)
            }
            Ok(false) => Ok(false),
            Err(GaveUp) => {
                self.lost = true;
                Err(GaveUp)
            }
        }
    }
}
