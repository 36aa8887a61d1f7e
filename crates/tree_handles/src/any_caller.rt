//! What a handle leads to, whatever its waiter.
ghost use Rattle.std.specs.Prelude.{◌≡◌, ◌≤◌, ◌<◌, ◌+◌, false, MatchBool, IfOk, IfErr, IfNone, IfSome};
ghost use Rattle.prcu_model.specs.declared.operation.Op.TheVariants.{Del, Get, Put, Set};
ghost use Rattle.core_state.specs.Memory.{most_places, most_slots};
ghost use Rattle.tree_handles.specs.Holds.{HasStarted, Polls, HasHeld, HasOutwaited, IsEntered, LeavesSection};
ghost use Rattle.tree_handles.specs.Callers.{MayGoOn, IsFresh, IsShared, IsReopened, slots_for};
ghost use Rattle.tree_handles.specs.Calls.{IsCalled, IsCalledTended, IsCompared, IsLost, IsRemovedTended, IsWaitFree, CausedBy, CausedTended, IsHinderedBy, IsStoppedBy};
ghost use Rattle.tree_handles.specs.Lanes.{HasLanes};
ghost use Rattle.tree_handles.specs.Lists.{IsPreventedBy, ListsTo, Seeks};
ghost use Rattle.tree_handles.specs.Opening.{FailsToReopen, HasStats};
ghost use Rattle.tree_handles.specs.Tidying.{GivesBack, HasNoneBack, LiftsWay};

use crate::any_lanes::{AnyLanes, LanesByWaiter};
use crate::caller::Caller;
use crate::spinning::GaveUp;
use crate::stats::Stats;
use crate::status::Status;
use citrus_tree::{Compared, Removed};
use exact_list::{Exact, Nearest, Page};
use key_interval::Keys;
use prcu_marks::Side;
use prcu_model::{NoMemory, Told};
use std::alloc::Global;
use std::marker::Model;
use tree_lift::Lifted;
use waiters::{Deer, Domain, Eer};

/// A caller, by its waiter.
#[derive(Drop)]
pub(crate) enum ByWaiter {
    Eer(Caller<Eer>),
    Domain(Caller<Domain>),
    Deer(Caller<Deer>),
}

/// A caller with one of the three waiters.
#[derive(Drop)]
pub struct AnyCaller {
    caller: ByWaiter,
}

impl Model for AnyCaller {
    ghost use Rattle.tree_handles.specs.Callers.{CallerAt};
    ghost use Rattle.tree_handles.specs.Waiters.{caller_of};

    ghost Value = { CallerAt };

    ghost view = { λ c. caller_of c.caller };
}

impl AnyCaller {
    /// The first caller on a new table in which so many pairs always fit, for so many handles, with all tickets. Its nodes rise by this salt.
    pub(crate) fn new(
        alloc: Global,
        pairs: u32,
        handles: u32,
        keep: u32,
        waiter: u32,
        salt: u64,
    ) -> Result<AnyCaller, NoMemory>
        requires pairs { 1 ≤ pairs }
        requires handles { (1 ≤ handles) × (handles ≤ most_places) }
        requires keep { (16 ≤ keep) × (keep ≤ most_slots) }
        requires fits { slots_for pairs handles keep ≤ most_slots }
        requires waiter { waiter ≤ 2 }
        ensures { IfOk result (λ caller. IsFresh waiter pairs handles keep salt caller) }
    {
        match waiter {
            0 => Ok(AnyCaller {
                caller: ByWaiter::Eer(Caller::new(alloc, pairs, handles, keep, salt)?),
            }),
            1 => Ok(AnyCaller {
                caller: ByWaiter::Domain(Caller::new(alloc, pairs, handles, keep, salt)?),
            }),
            _ => Ok(AnyCaller {
                caller: ByWaiter::Deer(Caller::new(alloc, pairs, handles, keep, salt)?),
            }),
        }
    }

    /// How many more handles can be shared from it.
    pub(crate) fn unused(&self) -> u32
        ensures { result + 1 ≡ self.now.seat.view.allowance.places }
    {
        match &self.caller {
            ByWaiter::Eer(caller) => caller.unused(),
            ByWaiter::Domain(caller) => caller.unused(),
            ByWaiter::Deer(caller) => caller.unused(),
        }
    }

    /// How many tickets it has left.
    pub(crate) fn tickets(&self) -> u64
        ensures { result ≡ self.now.seat.view.allowance.tickets }
    {
        match &self.caller {
            ByWaiter::Eer(caller) => caller.tickets(),
            ByWaiter::Domain(caller) => caller.tickets(),
            ByWaiter::Deer(caller) => caller.tickets(),
        }
    }

    /// What it tells of itself and of its index, in a record of this size.
    pub(crate) fn stats(&self, size: usize) -> Stats
        ensures size { result.size ≡ size }
        ensures has { HasStats self.now result }
    {
        match &self.caller {
            ByWaiter::Eer(caller) => caller.stats(size),
            ByWaiter::Domain(caller) => caller.stats(size),
            ByWaiter::Deer(caller) => caller.stats(size),
        }
    }

    /// Why it can't make a call, where it can't: a call of it gave up, or it is in a section.
    pub(crate) fn stopped(&self) -> Option<Status>
        ensures none { IfNone result (MayGoOn self.now) }
        ensures some { IfSome result (λ status. IsStoppedBy status self.now self.now) }
    {
        match &self.caller {
            ByWaiter::Eer(caller) => caller.stopped(),
            ByWaiter::Domain(caller) => caller.stopped(),
            ByWaiter::Deer(caller) => caller.stopped(),
        }
    }

    /// Finds the key's value. It waits for nobody.
    #[inline(always)]
    pub(crate) fn get(&mut self, key: u64) -> Result<Told, Status>
        ensures called { IfOk result (λ told. IsCalled self.old (Get key) told self.new) }
        ensures soon { IfOk result (λ _. IsWaitFree self.old self.new) }
        ensures cause { IfErr result (λ status. IsHinderedBy 4 status self.old self.new) }
        ensures same { IfErr result (λ _. self.new ≡ self.old) }
    {
        match &mut self.caller {
            ByWaiter::Eer(caller) => caller.get(key),
            ByWaiter::Domain(caller) => caller.get(key),
            ByWaiter::Deer(caller) => caller.get(key),
        }
    }

    /// Adds the pair, where the key is absent. Where others are in its way it spins, or is busy.
    #[inline(always)]
    pub(crate) fn put(&mut self, key: u64, value: u64) -> Result<Told, Status>
        ensures called { IfOk result (λ told. IsCalledTended self.old (Put key value) told self.new) }
        ensures cause { IfErr result (λ status. CausedTended (Put key value) status self.old self.new) }
    {
        match &mut self.caller {
            ByWaiter::Eer(caller) => caller.put(key, value),
            ByWaiter::Domain(caller) => caller.put(key, value),
            ByWaiter::Deer(caller) => caller.put(key, value),
        }
    }

    /// Gives the key another value, where it is present. Where others are in its way it spins, or is busy.
    #[inline(always)]
    pub(crate) fn set(&mut self, key: u64, value: u64) -> Result<Told, Status>
        ensures called { IfOk result (λ told. IsCalled self.old (Set key value) told self.new) }
        ensures cause { IfErr result (λ status. CausedBy (Set key value) status self.old self.new) }
    {
        match &mut self.caller {
            ByWaiter::Eer(caller) => caller.set(key, value),
            ByWaiter::Domain(caller) => caller.set(key, value),
            ByWaiter::Deer(caller) => caller.set(key, value),
        }
    }

    /// Takes the key's pair out, where it is present and its value is the expected one if there is one, and tells its value. Where others are in
    /// its way it spins, or is busy.
    pub(crate) fn remove(&mut self, key: u64, expected: Option<u64>) -> Result<Removed, Status>
        ensures taken { IfOk result (λ removed. IsRemovedTended self.old key expected removed self.new) }
        ensures cause { IfErr result (λ status. CausedTended (Del key) status self.old self.new) }
    {
        match &mut self.caller {
            ByWaiter::Eer(caller) => caller.remove(key, expected),
            ByWaiter::Domain(caller) => caller.remove(key, expected),
            ByWaiter::Deer(caller) => caller.remove(key, expected),
        }
    }

    /// Gives the key another value, where its value is the expected one. Where others are in its way it spins, or is busy.
    pub(crate) fn compare(
        &mut self,
        key: u64,
        expected: u64,
        value: u64,
    ) -> Result<Compared, Status>
        ensures compared { IfOk result (λ answer. IsCompared self.old key expected value answer self.new) }
        ensures cause { IfErr result (λ status. CausedBy (Set key value) status self.old self.new) }
    {
        match &mut self.caller {
            ByWaiter::Eer(caller) => caller.compare(key, expected, value),
            ByWaiter::Domain(caller) => caller.compare(key, expected, value),
            ByWaiter::Deer(caller) => caller.compare(key, expected, value),
        }
    }

    /// Lists the pairs with these keys on the page to this side, as they were at one moment of the call. It takes no ticket. Where others have
    /// the front that it takes it spins, or is busy.
    pub(crate) fn list(&mut self, side: Side, keys: Keys, page: &mut Page) -> Result<Exact, Status>
        ensures capacity { IfOk result (λ _. page.new.capacity ≡ page.old.capacity) }
        ensures listed { IfOk result (λ exact. ListsTo side self.old keys page.new exact self.new) }
        ensures cause { IfErr result (λ status. IsPreventedBy keys.low status self.old self.new) }
    {
        match &mut self.caller {
            ByWaiter::Eer(caller) => caller.list(side, keys, page),
            ByWaiter::Domain(caller) => caller.list(side, keys, page),
            ByWaiter::Deer(caller) => caller.list(side, keys, page),
        }
    }

    /// Finds the pair at this key, or the nearest one on that side of it, as it was at one moment of the call. It takes no ticket. Where others
    /// have the front that it takes it spins, or is busy.
    pub(crate) fn nearest(&mut self, side: Side, from: u64) -> Result<Nearest, Status>
        ensures found { IfOk result (λ nearest. Seeks self.old side from nearest self.new) }
        ensures cause { IfErr result (λ status. IsPreventedBy from status self.old self.new) }
    {
        match &mut self.caller {
            ByWaiter::Eer(caller) => caller.nearest(side, from),
            ByWaiter::Domain(caller) => caller.nearest(side, from),
            ByWaiter::Deer(caller) => caller.nearest(side, from),
        }
    }

    /// Finds the key's value in a section with the key, which stays open where the key is present. It takes no ticket.
    pub(crate) fn hold(&mut self, key: u64) -> Result<Option<u64>, Status>
        ensures held { IfOk result (λ value. HasHeld self.old key value self.new) }
        ensures cause { IfErr result (λ status. IsStoppedBy status self.old self.new) }
        ensures same { IfErr result (λ _. self.new ≡ self.old) }
    {
        match &mut self.caller {
            ByWaiter::Eer(caller) => caller.hold(key),
            ByWaiter::Domain(caller) => caller.hold(key),
            ByWaiter::Deer(caller) => caller.hold(key),
        }
    }

    /// Enters a section with the key.
    pub(crate) fn enter(&mut self, key: u64) -> Result<(), Status>
        ensures entered { IfOk result (λ _. IsEntered self.old key self.new) }
        ensures cause { IfErr result (λ status. IsStoppedBy status self.old self.new) }
    {
        match &mut self.caller {
            ByWaiter::Eer(caller) => caller.enter(key),
            ByWaiter::Domain(caller) => caller.enter(key),
            ByWaiter::Deer(caller) => caller.enter(key),
        }
    }

    /// Leaves the open section, if there is one.
    pub(crate) fn release(&mut self) -> Status
        ensures { LeavesSection self.old result self.new }
    {
        match &mut self.caller {
            ByWaiter::Eer(caller) => caller.release(),
            ByWaiter::Domain(caller) => caller.release(),
            ByWaiter::Deer(caller) => caller.release(),
        }
    }

    /// Waits until the sections with one of these keys have been left that were entered before. It uses one ticket.
    pub(crate) fn wait(&mut self, keys: Keys) -> Result<(), Status>
        ensures waited { IfOk result (λ _. HasOutwaited self.old keys self.new) }
        ensures cause { IfErr result (λ status. IsHinderedBy 1 status self.old self.new) }
    {
        match &mut self.caller {
            ByWaiter::Eer(caller) => caller.wait(keys),
            ByWaiter::Domain(caller) => caller.wait(keys),
            ByWaiter::Deer(caller) => caller.wait(keys),
        }
    }

    /// Begins a wait for the sections with one of these keys, and tells its number. It uses one ticket, and waits for nobody.
    pub(crate) fn begin(&mut self, keys: Keys) -> Result<u64, Status>
        ensures begun { IfOk result (λ number. HasStarted self.old keys number self.new) }
        ensures cause { IfErr result (λ status. IsHinderedBy 1 status self.old self.new) }
    {
        match &mut self.caller {
            ByWaiter::Eer(caller) => caller.begin(keys),
            ByWaiter::Domain(caller) => caller.begin(keys),
            ByWaiter::Deer(caller) => caller.begin(keys),
        }
    }

    /// Asks whether the begun wait with this number is over. It waits for nobody.
    pub(crate) fn poll(&mut self, number: u64) -> Status
        ensures { Polls self.old number result self.new }
    {
        match &mut self.caller {
            ByWaiter::Eer(caller) => caller.poll(number),
            ByWaiter::Domain(caller) => caller.poll(number),
            ByWaiter::Deer(caller) => caller.poll(number),
        }
    }

    /// Lets nodes on the way to the key change places, in so many attempts at most, and as there are tickets for.
    pub(crate) fn lift_way(&mut self, key: u64, most: u32) -> Result<Lifted, GaveUp>
        requires may { MayGoOn self.old }
        ensures lifted { IfOk result (λ lifted. LiftsWay self.old key most lifted self.new) }
        ensures lost { IfErr result (λ _. IsLost self.old self.new) }
    {
        match &mut self.caller {
            ByWaiter::Eer(caller) => caller.lift_way(key, most),
            ByWaiter::Domain(caller) => caller.lift_way(key, most),
            ByWaiter::Deer(caller) => caller.lift_way(key, most),
        }
    }

    /// Gives the retired slots back, where there are any, after a wait for all open sections. `false`, and nothing was done, where there are
    /// none.
    pub(crate) fn give_all_back(&mut self) -> Result<bool, GaveUp>
        requires may { MayGoOn self.old }
        requires ticket { 1 ≤ self.old.seat.view.allowance.tickets }
        ensures back { IfOk result (λ some. MatchBool some (GivesBack self.old self.new) (HasNoneBack self.old self.new)) }
        ensures lost { IfErr result (λ _. IsLost self.old self.new) }
    {
        match &mut self.caller {
            ByWaiter::Eer(caller) => caller.give_all_back(),
            ByWaiter::Domain(caller) => caller.give_all_back(),
            ByWaiter::Deer(caller) => caller.give_all_back(),
        }
    }

    /// A second caller on the same table, which gets so many of the unused handles and tickets; or none, where the table has as many owners
    /// as can be counted, and then nothing has changed.
    pub(crate) fn share(&mut self, alloc: Global, handles: u32, tickets: u64) -> Option<AnyCaller>
        requires may { MayGoOn self.old }
        requires handles { (1 ≤ handles) × (handles < self.old.seat.view.allowance.places) }
        requires tickets { tickets ≤ self.old.seat.view.allowance.tickets }
        ensures none { IfNone result (self.new ≡ self.old) }
        ensures shared { IfSome result (λ other. IsShared self.old handles tickets self.new other) }
    {
        match &mut self.caller {
            ByWaiter::Eer(caller) => Some(AnyCaller {
                caller: ByWaiter::Eer(caller.share(alloc, handles, tickets)?),
            }),
            ByWaiter::Domain(caller) => Some(AnyCaller {
                caller: ByWaiter::Domain(caller.share(alloc, handles, tickets)?),
            }),
            ByWaiter::Deer(caller) => Some(AnyCaller {
                caller: ByWaiter::Deer(caller.share(alloc, handles, tickets)?),
            }),
        }
    }

    /// So many lanes, each with one of the unused handles and no ticket; or none, where memory is short, or the table has as many owners as can
    /// be counted, and then nothing has changed.
    pub(crate) fn lanes(&mut self, alloc: Global, count: u32) -> Option<AnyLanes>
        requires may { MayGoOn self.old }
        requires count { (1 ≤ count) × (count ≤ 8) }
        requires handles { count < self.old.seat.view.allowance.places }
        ensures none { IfNone result (self.new ≡ self.old) }
        ensures opened { IfSome result (λ lanes. HasLanes self.old count self.new lanes) }
    {
        match &mut self.caller {
            ByWaiter::Eer(caller) => Some(AnyLanes {
                lanes: LanesByWaiter::Eer(caller.lanes(alloc, count)?),
            }),
            ByWaiter::Domain(caller) => Some(AnyLanes {
                lanes: LanesByWaiter::Domain(caller.lanes(alloc, count)?),
            }),
            ByWaiter::Deer(caller) => Some(AnyLanes {
                lanes: LanesByWaiter::Deer(caller.lanes(alloc, count)?),
            }),
        }
    }

    /// Another caller on the same table, with a seat that a caller left.
    pub(crate) fn reopen(&self) -> Result<AnyCaller, Status>
        ensures reopened { IfOk result (λ other. IsReopened self.now other) }
        ensures cause { IfErr result FailsToReopen }
    {
        match &self.caller {
            ByWaiter::Eer(caller) => Ok(AnyCaller {
                caller: ByWaiter::Eer(caller.reopen()?),
            }),
            ByWaiter::Domain(caller) => Ok(AnyCaller {
                caller: ByWaiter::Domain(caller.reopen()?),
            }),
            ByWaiter::Deer(caller) => Ok(AnyCaller {
                caller: ByWaiter::Deer(caller.reopen()?),
            }),
        }
    }
}
