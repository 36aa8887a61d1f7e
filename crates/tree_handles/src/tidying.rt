//! The ways to the keys of a range are lifted, so that a tree to which nobody puts becomes shallow too.
ghost use Rattle.std.specs.Prelude.{◌≡◌, ◌≤◌, ◌<◌, ◌-◌, IfOk, IfErr};
ghost use Rattle.tree_handles.specs.Callers.{MayGoOn};
ghost use Rattle.tree_handles.specs.Calls.{IsLost};
ghost use Rattle.tree_handles.specs.Tidying.{AreAttempts, EndsWithoutSlot, Finishes, Levels, Tidies};

use crate::any_caller::AnyCaller;
use crate::caller::TICKETS;
use crate::spinning::GaveUp;
use crate::status::Status;
use exact_list::Page;
use key_interval::Keys;
use prcu_marks::Side;
use std::alloc::Global;
use tree_lift::Stop;

/// How many keys a tidy lists at most.
const KEYS: u32 = 256;

/// How many tickets an attempt at a turn may use.
const ATTEMPT_TICKETS: u64 = 3;

/// How many turns were tried, and how many of them were made.
#[derive(Clone, Copy, Drop)]
pub(crate) struct Tally {
    pub(crate) tried: u32,
    pub(crate) made: u32,
}

/// How the lifts of ways to listed keys ended.
#[derive(Clone, Copy, Drop)]
pub(crate) enum Ending {
    /// No way needs a turn any more.
    Level,
    /// All turns were tried, tickets are short, or slots had to be given back, before the way to this key was found to need none.
    Short { key: u64 },
    /// No slot was free for a turn on the way to this key, and the caller has none to give back.
    NoSlot { key: u64 },
}

/// How often a turn may be tried: so often at most, and as there are tickets for.
pub(crate) fn attempts_for(most: u32, tickets: u64) -> u32
    ensures { AreAttempts most tickets result }
{
    let paid = tickets / ATTEMPT_TICKETS;
    if u64::from(most) <= paid {
        return most;
    }
    paid as u32
}

impl AnyCaller {
    // Where no slot was free for a turn on the way to the key: gives retired slots back, so that the next call may find one free.
    fn end_without_slot(&mut self, key: u64) -> Result<Ending, GaveUp>
        requires may { MayGoOn self.old }
        ensures ends { IfOk result (λ ending. EndsWithoutSlot self.old key ending self.new) }
        ensures lost { IfErr result (λ _. IsLost self.old self.new) }
    {
        if self.tickets() < TICKETS || self.give_all_back()? {
            return Ok(Ending::Short { key });
        }
        Ok(Ending::NoSlot { key })
    }

    // Lifts the ways to the page's keys, one after another, until so many turns were tried.
    fn level(&mut self, page: &Page, turns: u32, tally: &mut Tally) -> Result<Ending, GaveUp>
        requires may { MayGoOn self.old }
        requires none { tally.old ≡ record { tried = 0; made = 0 } }
        ensures levels { IfOk result (λ ending. Levels page.now.pairs turns self.old ending tally.new self.new) }
        ensures lost { IfErr result (λ _. IsLost self.old self.new) }
    {
        for i in 0..page.count() {
            let (key, _) = page.pair(i);
            if tally.tried == turns || self.tickets() < TICKETS {
                return Ok(Ending::Short { key });
            }
            let lifted = self.lift_way(key, turns - tally.tried)?;
            tally.tried += lifted.tried;
            tally.made += lifted.turns;
            match lifted.stop {
                Stop::Level => (),
                Stop::NoSlot => return self.end_without_slot(key),
                Stop::Spent | Stop::NoRoom => return Ok(Ending::Short { key }),
            }
        }
        Ok(Ending::Level)
    }

    // The same, and tells what came of it. Behind the page's keys this one comes in the range, or none.
    fn level_page(
        &mut self,
        page: &Page,
        after: Option<u64>,
        turns: u32,
        made: &mut u32,
        next: &mut u64,
    ) -> Status
        requires may { MayGoOn self.old }
        requires none { made.old ≡ 0 }
        ensures { Finishes page.now.pairs turns after self.old next.old result (record { made = made.new; next = next.new }) self.new }
    {
        let mut tally = Tally { tried: 0, made: 0 };
        let Ok(ending) = self.level(page, turns, &mut tally) else {
            return Status::Lost;
        };
        *made = tally.made;
        match ending {
            Ending::Level => {
                let Some(key) = after else {
                    return Status::Done;
                };
                *next = key;
                Status::More
            }
            Ending::Short { key } => {
                *next = key;
                Status::More
            }
            Ending::NoSlot { key } => {
                *next = key;
                Status::Full
            }
        }
    }

    /// Lifts the ways to the first keys from `low` to `high`, until so many turns were tried.
    pub(crate) fn tidy_out(
        &mut self,
        alloc: Global,
        low: u64,
        high: u64,
        turns: u32,
        made: &mut u32,
        next: &mut u64,
    ) -> Status
        ensures { Tidies self.old (record { low = low; high = high }) turns next.old result
            (record { made = made.new; next = next.new }) self.new }
    {
        *made = 0;
        if let Some(status) = self.stopped() {
            return status;
        }
        let Some(keys) = Keys::new(low, high) else {
            return Status::BadArgument;
        };
        if turns == 0 {
            return Status::BadArgument;
        }
        if self.tickets() < TICKETS {
            return Status::Spent;
        }
        let Ok(mut page) = Page::new(alloc, KEYS) else {
            return Status::NoMemory;
        };
        match self.list(Side::Right, keys, &mut page) {
            Ok(exact) => self.level_page(&page, exact.next, turns, made, next),
            Err(status) => status,
        }
    }
}
