//! The calls of a handle: each takes the caller out, makes its call, and puts it back.
ghost use Rattle.std.specs.Prelude.{◌≡◌, None};
ghost use Rattle.tree_handles.specs.declared.status.Status.TheVariants.{Done};
ghost use Rattle.tree_handles.specs.Holds.{Begins, Polls, HoldsValue, Enters, LeavesSection, Waits};
ghost use Rattle.tree_handles.specs.Calls.{ComparesOut, Gets, Inserts, Replaces, TakesOut, Upserts, Removes};
ghost use Rattle.tree_handles.specs.Callers.{Makes};
ghost use Rattle.tree_handles.specs.Lanes.{OpensLanes, lanes_in};
ghost use Rattle.tree_handles.specs.Lists.{ListsOut, ListsOutDown, Firsts, Lasts};
ghost use Rattle.tree_handles.specs.Opening.{Shares, Reopens, HasLeft, TellsStats};
ghost use Rattle.tree_handles.specs.Tidying.{Tidies};

use crate::handle::Handle;
use crate::lanes::Lanes;
use crate::lists::Pair;
use crate::stats::Stats;
use crate::status::Status;
use crate::{opening_lanes, reopening, sharing, stats};
use prcu_marks::Side;
use std::alloc::Global;

impl Handle {
    /// Closes the handle. A section that it is in is left. What it had, places and tickets, waits in the index for [`Handle::reopen`], unless
    /// the handle is lost. The index is freed with the last of its handles. A closed handle stays so.
    pub fn close(&mut self, alloc: Global)
        ensures closed { self.new.held ≡ None }
    {
        let _was = self.take(alloc);
    }

    /// Makes `other` a second handle of the index, with so many of this one's unused handles (itself among them) and tickets. What it was
    /// open on before is closed.
    ///
    /// `Done`; `Closed`; `Lost`; `Holds`; `BadArgument` where this one hasn't so many, or no handle is asked for; `NoMemory`. At each
    /// answer but `Done` both are as they were.
    pub fn share(&mut self, alloc: Global, handles: u32, tickets: u64, other: &mut Handle) -> Status
        ensures shared { Makes (λ c d. Shares c handles tickets other.old.held result d other.new.held) self.old.held result self.new.held }
        ensures closed { self.old.held ≡ None → other.new.held ≡ other.old.held }
    {
        let Some(caller) = self.take(alloc) else {
            return Status::Closed;
        };
        let (caller, status) = sharing::share(alloc, caller, handles, tickets, other);
        *self = Handle::of(caller);
        status
    }

    /// Makes `other`, which is closed, a handle of the index, with the places and tickets that a handle had which was closed. Whose they
    /// were isn't told.
    ///
    /// `Done`; `Unchanged` where none wait; `Closed`; `Lost`; `Holds`; `BadArgument` where `other` is open; `NoMemory`. At each answer
    /// but `Done` both are as they were.
    pub fn reopen(&mut self, alloc: Global, other: &mut Handle) -> Status
        ensures reopened { Makes (λ c d. Reopens c other.old.held result d other.new.held) self.old.held result self.new.held }
        ensures closed { self.old.held ≡ None → other.new.held ≡ other.old.held }
    {
        let Some(caller) = self.take(alloc) else {
            return Status::Closed;
        };
        let status = reopening::reopen(alloc, &caller, other);
        *self = Handle::of(caller);
        status
    }

    /// Makes `lanes`, which are closed, so many lanes of the index (1 to 8), each with one of this handle's unused handles and no ticket:
    /// [`Lanes::get_many`] looks up many keys by them.
    ///
    /// `Done`; `Closed`; `Lost`; `Holds`; `BadArgument` where lanes are open there, the number is out of range, or this handle hasn't so many;
    /// `NoMemory`. At each answer but `Done` both are as they were.
    pub fn lanes(&mut self, alloc: Global, count: u32, lanes: &mut Lanes) -> Status
        ensures opened { Makes (λ c d. OpensLanes c count (lanes_in lanes.old.held) result d (lanes_in lanes.new.held))
            self.old.held result self.new.held }
        ensures closed { self.old.held ≡ None → lanes.new.held ≡ lanes.old.held }
    {
        let Some(mut caller) = self.take(alloc) else {
            return Status::Closed;
        };
        let status = opening_lanes::open_lanes(alloc, &mut caller, count, lanes);
        *self = Handle::of(caller);
        status
    }

    /// Tells how many more handles can be shared from this one, and how many tickets it has.
    ///
    /// `Done`; `Closed`.
    pub fn left(&mut self, alloc: Global, handles: &mut u32, tickets: &mut u64) -> Status
        ensures left { Makes (λ c d. (result ≡ Done) × HasLeft c handles.new tickets.new d) self.old.held result self.new.held }
        ensures closed { self.old.held ≡ None → (handles.new ≡ handles.old) × (tickets.new ≡ tickets.old) }
    {
        let Some(caller) = self.take(alloc) else {
            return Status::Closed;
        };
        *handles = caller.unused();
        *tickets = caller.tickets();
        *self = Handle::of(caller);
        Status::Done
    }

    /// Tells what the handle knows of itself and of its index, without a step on the tree: also where it is lost, or in a section.
    ///
    /// `Done`; `Closed`; `BadArgument` where the record's size is another than 64. Only at `Done` the record is written.
    pub fn stats(&mut self, alloc: Global, told: &mut Stats) -> Status
        ensures told { Makes (λ c d. TellsStats c told.old result told.new d) self.old.held result self.new.held }
        ensures closed { self.old.held ≡ None → told.new ≡ told.old }
    {
        let Some(caller) = self.take(alloc) else {
            return Status::Closed;
        };
        let status = stats::tell(&caller, told);
        *self = Handle::of(caller);
        status
    }

    /// Tells the key's value.
    ///
    /// `Done`; `Unchanged` where the key is absent; `Closed`; `Lost`; `Holds`; `Spent`. Only at `Done` the value is written.
    pub fn get(&mut self, alloc: Global, key: u64, value: &mut u64) -> Status
        ensures got { Makes (λ c d. Gets c key value.old result value.new d) self.old.held result self.new.held }
        ensures closed { self.old.held ≡ None → value.new ≡ value.old }
    {
        let Some(mut caller) = self.take(alloc) else {
            return Status::Closed;
        };
        let status = caller.get_out(key, value);
        *self = Handle::of(caller);
        status
    }

    /// Adds the pair, where the key is absent.
    ///
    /// `Done`; `Unchanged` where the key is present; `Full` where no slot is free, and then at least as many pairs are there as were asked
    /// for at the open; `Busy` where others were in its way, or where the way of the last pair that the handle added was far too deep, and it has
    /// no room for the slots of turns until readers leave, and it is to be made again; `Closed`; `Lost`; `Holds`; `Spent`.
    pub fn insert(&mut self, alloc: Global, key: u64, value: u64) -> Status
        ensures inserted { Makes (λ c d. Inserts c key value result d) self.old.held result self.new.held }
    {
        let Some(mut caller) = self.take(alloc) else {
            return Status::Closed;
        };
        let status = caller.insert(key, value);
        *self = Handle::of(caller);
        status
    }

    /// Gives the key another value, where it is present, and tells the one before.
    ///
    /// `Done`; `Unchanged` where the key is absent; `Busy` where others were in its way, and it is to be made again; `Closed`; `Lost`; `Holds`;
    /// `Spent`. Only at `Done` the old value is written.
    pub fn replace(&mut self, alloc: Global, key: u64, value: u64, old: &mut u64) -> Status
        ensures replaced { Makes (λ c d. Replaces c key value old.old result old.new d) self.old.held result self.new.held }
        ensures closed { self.old.held ≡ None → old.new ≡ old.old }
    {
        let Some(mut caller) = self.take(alloc) else {
            return Status::Closed;
        };
        let status = caller.replace(key, value, old);
        *self = Handle::of(caller);
        status
    }

    /// Gives the key another value, where its value right before that is the expected one. It says nothing of the time before: the key may
    /// have had another value meanwhile, or have been absent.
    ///
    /// `Done`; `Different` where the key had another value at a moment of the call, which is told; `Unchanged` where the key is absent;
    /// `Busy` as of a replace; `Closed`; `Lost`; `Holds`; `Spent`. At each answer but `Done` no pair has changed. Only at `Different` the value
    /// found is written.
    pub fn compare(
        &mut self,
        alloc: Global,
        key: u64,
        expected: u64,
        value: u64,
        found: &mut u64,
    ) -> Status
        ensures compared { Makes (λ c d. ComparesOut c key expected value found.old result found.new d) self.old.held result self.new.held }
        ensures closed { self.old.held ≡ None → found.new ≡ found.old }
    {
        let Some(mut caller) = self.take(alloc) else {
            return Status::Closed;
        };
        let status = caller.compare_out(key, expected, value, found);
        *self = Handle::of(caller);
        status
    }

    /// Gives the key this value, whether or not it is present: a replace, else an insert, until one of the two makes an update.
    ///
    /// `Done` where a value was replaced, which is told; `New` where the pair was added; `Full` as of an insert; `Moved` where others put the
    /// key in and took it out in each of 1,000 rounds; `Busy` as of an insert; `Closed`; `Lost`; `Holds`; `Spent`. Only at `Done` the old value
    /// is written.
    pub fn upsert(&mut self, alloc: Global, key: u64, value: u64, old: &mut u64) -> Status
        ensures upserted { Makes (λ c d. Upserts c key value old.old result old.new d) self.old.held result self.new.held }
        ensures closed { self.old.held ≡ None → old.new ≡ old.old }
    {
        let Some(mut caller) = self.take(alloc) else {
            return Status::Closed;
        };
        let status = caller.upsert(key, value, old);
        *self = Handle::of(caller);
        status
    }

    /// Takes the pair out, where the key is present, and tells its value.
    ///
    /// `Done`; `Unchanged` where the key is absent; `Busy` where others were in its way, or where the handle has no room for the slots that it
    /// would retire until readers leave, and it is to be made again; `Closed`; `Lost`; `Holds`; `Spent`. Only at `Done` the old value is written.
    pub fn remove(&mut self, alloc: Global, key: u64, old: &mut u64) -> Status
        ensures removed { Makes (λ c d. Removes c key old.old result old.new d) self.old.held result self.new.held }
        ensures closed { self.old.held ≡ None → old.new ≡ old.old }
    {
        let Some(mut caller) = self.take(alloc) else {
            return Status::Closed;
        };
        let status = caller.remove_out(key, old);
        *self = Handle::of(caller);
        status
    }

    /// Takes the pair out, where its value is `expected`.
    ///
    /// `Done`; `Different` where the key had another value at some time of the call, which is told; `Unchanged` where it is absent; `Busy` as of a
    /// remove; `Closed`; `Lost`; `Holds`; `Spent`. At each answer but `Done` no pair has changed. Only at `Different` the value found is written.
    pub fn take_out(&mut self, alloc: Global, key: u64, expected: u64, found: &mut u64) -> Status
        ensures taken { Makes (λ c d. TakesOut c key expected found.old result found.new d) self.old.held result self.new.held }
        ensures closed { self.old.held ≡ None → found.new ≡ found.old }
    {
        let Some(mut caller) = self.take(alloc) else {
            return Status::Closed;
        };
        let status = caller.take_out(key, expected, found);
        *self = Handle::of(caller);
        status
    }

    /// Lists the pairs with keys from `low` to `high`, both among them, as they were at one moment of the call: keys ascending, as many as
    /// there is room for (1 to 1,048,576).
    ///
    /// Where others make updates in each of 4 tries, their updates wait while it lists once more.
    ///
    /// `Done`; `More` where there are more, and then `next` is the key after those listed; `Busy` where others' updates, or another list, were
    /// in its way after these tries, and it is to be made again; `Closed`; `Lost`; `Holds`; `BadArgument` where `low` is above `high` or the room
    /// is out of range; `NoMemory`. `count` is always written, and is 0 but at `Done` and `More`; the pairs only at these, `next` only at `More`.
    pub fn list(
        &mut self,
        alloc: Global,
        low: u64,
        high: u64,
        pairs: &mut [Pair],
        count: &mut usize,
        next: &mut u64,
    ) -> Status
        ensures listed { Makes (λ c d. ListsOut c (record { low = low; high = high })
            (record { pairs = pairs.old; count = count.old; next = next.old }) result
            (record { pairs = pairs.new; count = count.new; next = next.new }) d) self.old.held result self.new.held }
        ensures closed { self.old.held ≡ None → (count.new ≡ 0) × (pairs.new ≡ pairs.old) × (next.new ≡ next.old) }
    {
        let Some(mut caller) = self.take(alloc) else {
            *count = 0;
            return Status::Closed;
        };
        let status = caller.list_out(alloc, Side::Right, low, high, pairs, count, next);
        *self = Handle::of(caller);
        status
    }

    /// Lists the pairs with keys from `low` to `high`, both among them, as they were at one moment of the call, from the greatest key down: keys
    /// descending, as many as there is room for. It comes as [`Handle::list`] does, and its answers are the same; at `More` `next` is the
    /// greatest key that isn't listed, so that a call with `next` in the place of `high` goes on.
    pub fn list_down(
        &mut self,
        alloc: Global,
        low: u64,
        high: u64,
        pairs: &mut [Pair],
        count: &mut usize,
        next: &mut u64,
    ) -> Status
        ensures listed { Makes (λ c d. ListsOutDown c (record { low = low; high = high })
            (record { pairs = pairs.old; count = count.old; next = next.old }) result
            (record { pairs = pairs.new; count = count.new; next = next.new }) d) self.old.held result self.new.held }
        ensures closed { self.old.held ≡ None → (count.new ≡ 0) × (pairs.new ≡ pairs.old) × (next.new ≡ next.old) }
    {
        let Some(mut caller) = self.take(alloc) else {
            *count = 0;
            return Status::Closed;
        };
        let status = caller.list_out(alloc, Side::Left, low, high, pairs, count, next);
        *self = Handle::of(caller);
        status
    }

    /// Tells the pair with the least key at or above `low`, as it was at one moment of the call. It comes as [`Handle::list`] does.
    ///
    /// `Done`; `Unchanged` where there is none; `Busy` as of a list; `Closed`; `Lost`; `Holds`. Only at `Done` the pair is written.
    pub fn first(&mut self, alloc: Global, low: u64, key: &mut u64, value: &mut u64) -> Status
        ensures found { Makes (λ c d. Firsts c low (key.old, value.old) result (key.new, value.new) d)
            self.old.held result self.new.held }
        ensures closed { self.old.held ≡ None → (key.new ≡ key.old) × (value.new ≡ value.old) }
    {
        let Some(mut caller) = self.take(alloc) else {
            return Status::Closed;
        };
        let status = caller.nearest_out(Side::Right, low, u64::MAX, key, value);
        *self = Handle::of(caller);
        status
    }

    /// Tells the pair with the greatest key from `low` to `high`, both among them, as it was at one moment of the call. It comes as
    /// [`Handle::list`] does.
    ///
    /// `Done`; `Unchanged` where there is none, as where `low` is above `high`; `Busy` as of a list; `Closed`; `Lost`; `Holds`. Only at `Done`
    /// the pair is written.
    pub fn last(
        &mut self,
        alloc: Global,
        low: u64,
        high: u64,
        key: &mut u64,
        value: &mut u64,
    ) -> Status
        ensures found { Makes (λ c d. Lasts c (record { low = low; high = high }) (key.old, value.old) result (key.new, value.new) d)
            self.old.held result self.new.held }
        ensures closed { self.old.held ≡ None → (key.new ≡ key.old) × (value.new ≡ value.old) }
    {
        let Some(mut caller) = self.take(alloc) else {
            return Status::Closed;
        };
        let status = caller.nearest_out(Side::Left, low, high, key, value);
        *self = Handle::of(caller);
        status
    }

    /// Tells the key's value, and stays in a section with the key until [`Handle::release`]: a wait of another handle with this key among its
    /// keys, begun meanwhile, is over only after that. A handle that is in a section makes no call but [`Handle::release`],
    /// [`Handle::left`] and [`Handle::close`]; the others answer `Holds`. It uses no ticket.
    ///
    /// Nothing tests that the thread makes no update and no wait by another handle meanwhile. It may wait for itself then, since a remove near
    /// the key waits for its section.
    ///
    /// `Done`; `Unchanged` where the key is absent, and then no section is open; `Closed`; `Lost`; `Holds`. Only at `Done` the value is
    /// written.
    pub fn hold(&mut self, alloc: Global, key: u64, value: &mut u64) -> Status
        ensures held { Makes (λ c d. HoldsValue c key value.old result value.new d) self.old.held result self.new.held }
        ensures closed { self.old.held ≡ None → value.new ≡ value.old }
    {
        let Some(mut caller) = self.take(alloc) else {
            return Status::Closed;
        };
        let status = caller.hold_value(key, value);
        *self = Handle::of(caller);
        status
    }

    /// Enters a section with the key, and looks nothing up. Else it is as [`Handle::hold`] at `Done`.
    ///
    /// `Done`; `Closed`; `Lost`; `Holds`.
    pub fn enter(&mut self, alloc: Global, key: u64) -> Status
        ensures entered { Makes (λ c d. Enters c key result d) self.old.held result self.new.held }
    {
        let Some(mut caller) = self.take(alloc) else {
            return Status::Closed;
        };
        let status = caller.enter_with(key);
        *self = Handle::of(caller);
        status
    }

    /// Leaves the section of a hold or an enter.
    ///
    /// `Done`; `Unchanged` where it is in none; `Closed`; `Lost`.
    pub fn release(&mut self, alloc: Global) -> Status
        ensures released { Makes (λ c d. LeavesSection c result d) self.old.held result self.new.held }
    {
        let Some(mut caller) = self.take(alloc) else {
            return Status::Closed;
        };
        let status = caller.release();
        *self = Handle::of(caller);
        status
    }

    /// Waits until each section with a key from `low` to `high` has been left that was entered before. It uses one ticket.
    ///
    /// `Done`; `Closed`; `Lost`; `Holds`; `BadArgument` where `low` is above `high`; `Spent` where no ticket is left.
    pub fn wait(&mut self, alloc: Global, low: u64, high: u64) -> Status
        ensures waited { Makes (λ c d. Waits c (record { low = low; high = high }) result d) self.old.held result self.new.held }
    {
        let Some(mut caller) = self.take(alloc) else {
            return Status::Closed;
        };
        let status = caller.wait_for(low, high);
        *self = Handle::of(caller);
        status
    }

    /// Begins a wait for each section with a key from `low` to `high` that is open, tells its cookie, and comes back at once: [`Handle::poll`]
    /// asks whether it is over. It uses one ticket. A handle has the cookie of its latest begin alone.
    ///
    /// `Done`; `Closed`; `Lost`; `Holds`; `BadArgument` where `low` is above `high`; `Spent` where no ticket is left. Only at `Done` the cookie
    /// is written.
    pub fn begin(&mut self, alloc: Global, low: u64, high: u64, cookie: &mut u64) -> Status
        ensures begun { Makes (λ c d. Begins c (record { low = low; high = high }) cookie.old result cookie.new d)
            self.old.held result self.new.held }
        ensures closed { self.old.held ≡ None → cookie.new ≡ cookie.old }
    {
        let Some(mut caller) = self.take(alloc) else {
            return Status::Closed;
        };
        let status = caller.begin_for(low, high, cookie);
        *self = Handle::of(caller);
        status
    }

    /// Asks whether the wait of the cookie is over: each section with one of its keys that was open at the begin has been left. It asks where
    /// the last question found a reader, and waits for nobody.
    ///
    /// `Done`, once for each cookie; `Unchanged` where a reader is found; `Moved` where the handle has no such cookie, or has begun a later
    /// wait since, as its updates and their lifts may too; `Closed`; `Lost`; `Holds`. A cookie is good at the handle that began it alone.
    pub fn poll(&mut self, alloc: Global, cookie: u64) -> Status
        ensures polled { Makes (λ c d. Polls c cookie result d) self.old.held result self.new.held }
    {
        let Some(mut caller) = self.take(alloc) else {
            return Status::Closed;
        };
        let status = caller.poll(cookie);
        *self = Handle::of(caller);
        status
    }

    /// Makes the tree shallow on the ways to the keys from `low` to `high`: lists the first 256 of them, and lets nodes on the way to each
    /// change places with a child, in order, until so many turns were tried (1 or more), with those that came to nothing. No pair changes. A
    /// turn that others changed meanwhile, or that found a lock taken, comes to nothing. It uses at most three tickets for each turn that was
    /// tried and for each key. A turn retires two slots, and waits for all readers where the handle has no room for them: where it keeps back all
    /// but one of those that were chosen at the open.
    ///
    /// `Done` where no way to a key of the range needs a turn any more; `More` where turns or tickets are short, or there are more keys, and
    /// `Full` where no slot is free for a turn: then `next` is the key to go on with; `Busy` as of a list, and then no turn was tried; `Closed`;
    /// `Holds`; `BadArgument` where `low` is above `high` or `turns` is 0; `NoMemory`; `Spent`; `Lost`. `made` is always written, and is 0 but at
    /// `Done`, `More` and `Full`, where it is how many turns were made; `next` only at `More` and `Full`.
    pub fn tidy(
        &mut self,
        alloc: Global,
        low: u64,
        high: u64,
        turns: u32,
        made: &mut u32,
        next: &mut u64,
    ) -> Status
        ensures tidied { Makes (λ c d. Tidies c (record { low = low; high = high }) turns next.old result
            (record { made = made.new; next = next.new }) d) self.old.held result self.new.held }
        ensures closed { self.old.held ≡ None → (made.new ≡ 0) × (next.new ≡ next.old) }
    {
        let Some(mut caller) = self.take(alloc) else {
            *made = 0;
            return Status::Closed;
        };
        let status = caller.tidy_out(alloc, low, high, turns, made, next);
        *self = Handle::of(caller);
        status
    }
}
