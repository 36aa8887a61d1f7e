//! A concurrent ordered index from numbers to numbers for C, C++ and Rust programs: the CITRUS tree, with one of its three waiters.
//! `citrus.h` declares these functions, and says what each waits for and costs. Each is a call of a [`Handle`], and answers the number of
//! its status.
//!
//! None has a `requires`: each misuse that a handle or an argument shows is answered with a status. What nobody checks is that a handle
//! is closed or as the last call left it, that one call at a time is made with it, and that the pointers of a call are valid and distinct.
#![tactic(auto)]

ghost use Rattle.std.specs.Prelude.{◌≡◌, None};
ghost use Rattle.tree_handles.specs.declared.status.Status.TheVariants.{Done};
ghost use Rattle.tree_handles.specs.Holds.{Begins, Polls, HoldsValue, Enters, LeavesSection};
ghost use Rattle.tree_handles.specs.Calls.{ComparesOut, Gets, Inserts, Replaces, TakesOut, Upserts, Removes};
ghost use Rattle.tree_handles.specs.Callers.{Makes};
ghost use Rattle.tree_handles.specs.Lanes.{ManyGets, OpensLanes, lanes_in};
ghost use Rattle.tree_handles.specs.Lists.{ListsOut, ListsOutDown, Firsts, Lasts};
ghost use Rattle.tree_handles.specs.Opening.{Opens, OpensKeeping, Shares, Reopens, HasLeft, TellsStats, options_of};
ghost use Rattle.tree_handles.specs.Tidying.{Tidies};
ghost use Rattle.citrus_c.specs.Numbers.{Says};

use std::alloc::Global;
use tree_handles::{Answer, Handle, Lanes, Options, Pair, Stats};

/// [`Handle::open`].
#[unsafe(no_mangle)]
pub extern "C" fn citrus_open(
    alloc: Global,
    handle: &mut Handle,
    pairs: u32,
    handles: u32,
    waiter: u32,
) -> i32
    ensures opened { Says result (λ status. Opens (options_of pairs handles waiter) handle.old.held status handle.new.held) }
{
    handle.open(alloc, pairs, handles, waiter).code()
}

/// [`Handle::open_with`].
#[unsafe(no_mangle)]
pub extern "C" fn citrus_open_with(alloc: Global, handle: &mut Handle, options: &Options) -> i32
    ensures opened { Says result (λ status. Opens options.now handle.old.held status handle.new.held) }
{
    handle.open_with(alloc, options).code()
}

/// [`Handle::open_keeping`].
#[unsafe(no_mangle)]
pub extern "C" fn citrus_open_keeping(
    alloc: Global,
    handle: &mut Handle,
    options: &Options,
    keep: u32,
) -> i32
    ensures opened { Says result (λ status. OpensKeeping options.now keep handle.old.held status handle.new.held) }
{
    handle.open_keeping(alloc, options, keep).code()
}

/// [`Handle::close`].
#[unsafe(no_mangle)]
pub extern "C" fn citrus_close(alloc: Global, handle: &mut Handle)
    ensures closed { handle.new.held ≡ None }
{
    handle.close(alloc);
}

/// [`Handle::share`].
#[unsafe(no_mangle)]
pub extern "C" fn citrus_share(
    alloc: Global,
    handle: &mut Handle,
    handles: u32,
    tickets: u64,
    other: &mut Handle,
) -> i32
    ensures shared { Says result (λ status. Makes (λ c d. Shares c handles tickets other.old.held status d other.new.held)
        handle.old.held status handle.new.held) }
    ensures closed { handle.old.held ≡ None → other.new.held ≡ other.old.held }
{
    handle.share(alloc, handles, tickets, other).code()
}

/// [`Handle::reopen`].
#[unsafe(no_mangle)]
pub extern "C" fn citrus_reopen(alloc: Global, handle: &mut Handle, other: &mut Handle) -> i32
    ensures reopened { Says result (λ status. Makes (λ c d. Reopens c other.old.held status d other.new.held)
        handle.old.held status handle.new.held) }
    ensures closed { handle.old.held ≡ None → other.new.held ≡ other.old.held }
{
    handle.reopen(alloc, other).code()
}

/// [`Handle::left`].
#[unsafe(no_mangle)]
pub extern "C" fn citrus_left(
    alloc: Global,
    handle: &mut Handle,
    handles: &mut u32,
    tickets: &mut u64,
) -> i32
    ensures left { Says result (λ status. Makes (λ c d. (status ≡ Done) × HasLeft c handles.new tickets.new d)
        handle.old.held status handle.new.held) }
    ensures closed { handle.old.held ≡ None → (handles.new ≡ handles.old) × (tickets.new ≡ tickets.old) }
{
    handle.left(alloc, handles, tickets).code()
}

/// [`Handle::stats`].
#[unsafe(no_mangle)]
pub extern "C" fn citrus_stats(alloc: Global, handle: &mut Handle, stats: &mut Stats) -> i32
    ensures told { Says result (λ status. Makes (λ c d. TellsStats c stats.old status stats.new d)
        handle.old.held status handle.new.held) }
    ensures closed { handle.old.held ≡ None → stats.new ≡ stats.old }
{
    handle.stats(alloc, stats).code()
}

/// [`Handle::get`].
#[unsafe(no_mangle)]
pub extern "C" fn citrus_get(alloc: Global, handle: &mut Handle, key: u64, value: &mut u64) -> i32
    ensures got { Says result (λ status. Makes (λ c d. Gets c key value.old status value.new d)
        handle.old.held status handle.new.held) }
    ensures closed { handle.old.held ≡ None → value.new ≡ value.old }
{
    handle.get(alloc, key, value).code()
}

/// [`Handle::insert`].
#[unsafe(no_mangle)]
pub extern "C" fn citrus_insert_once(
    alloc: Global,
    handle: &mut Handle,
    key: u64,
    value: u64,
) -> i32
    ensures inserted { Says result (λ status. Makes (λ c d. Inserts c key value status d)
        handle.old.held status handle.new.held) }
{
    handle.insert(alloc, key, value).code()
}

/// [`Handle::replace`].
#[unsafe(no_mangle)]
pub extern "C" fn citrus_replace_once(
    alloc: Global,
    handle: &mut Handle,
    key: u64,
    value: u64,
    old: &mut u64,
) -> i32
    ensures replaced { Says result (λ status. Makes (λ c d. Replaces c key value old.old status old.new d)
        handle.old.held status handle.new.held) }
    ensures closed { handle.old.held ≡ None → old.new ≡ old.old }
{
    handle.replace(alloc, key, value, old).code()
}

/// [`Handle::compare`].
#[unsafe(no_mangle)]
pub extern "C" fn citrus_compare_once(
    alloc: Global,
    handle: &mut Handle,
    key: u64,
    expected: u64,
    value: u64,
    found: &mut u64,
) -> i32
    ensures compared { Says result (λ status. Makes (λ c d. ComparesOut c key expected value found.old status found.new d)
        handle.old.held status handle.new.held) }
    ensures closed { handle.old.held ≡ None → found.new ≡ found.old }
{
    handle.compare(alloc, key, expected, value, found).code()
}

/// [`Handle::upsert`].
#[unsafe(no_mangle)]
pub extern "C" fn citrus_upsert_once(
    alloc: Global,
    handle: &mut Handle,
    key: u64,
    value: u64,
    old: &mut u64,
) -> i32
    ensures upserted { Says result (λ status. Makes (λ c d. Upserts c key value old.old status old.new d)
        handle.old.held status handle.new.held) }
    ensures closed { handle.old.held ≡ None → old.new ≡ old.old }
{
    handle.upsert(alloc, key, value, old).code()
}

/// [`Handle::remove`].
#[unsafe(no_mangle)]
pub extern "C" fn citrus_remove_once(
    alloc: Global,
    handle: &mut Handle,
    key: u64,
    old: &mut u64,
) -> i32
    ensures removed { Says result (λ status. Makes (λ c d. Removes c key old.old status old.new d)
        handle.old.held status handle.new.held) }
    ensures closed { handle.old.held ≡ None → old.new ≡ old.old }
{
    handle.remove(alloc, key, old).code()
}

/// [`Handle::take_out`].
#[unsafe(no_mangle)]
pub extern "C" fn citrus_take_once(
    alloc: Global,
    handle: &mut Handle,
    key: u64,
    expected: u64,
    found: &mut u64,
) -> i32
    ensures taken { Says result (λ status. Makes (λ c d. TakesOut c key expected found.old status found.new d)
        handle.old.held status handle.new.held) }
    ensures closed { handle.old.held ≡ None → found.new ≡ found.old }
{
    handle.take_out(alloc, key, expected, found).code()
}

/// [`Handle::list`].
#[unsafe(no_mangle)]
pub extern "C" fn citrus_list_once(
    alloc: Global,
    handle: &mut Handle,
    low: u64,
    high: u64,
    pairs: &mut [Pair],
    count: &mut usize,
    next: &mut u64,
) -> i32
    ensures listed { Says result (λ status. Makes (λ c d. ListsOut c (record { low = low; high = high })
        (record { pairs = pairs.old; count = count.old; next = next.old }) status
        (record { pairs = pairs.new; count = count.new; next = next.new }) d) handle.old.held status handle.new.held) }
    ensures closed { handle.old.held ≡ None → (count.new ≡ 0) × (pairs.new ≡ pairs.old) × (next.new ≡ next.old) }
{
    handle.list(alloc, low, high, pairs, count, next).code()
}

/// [`Handle::list_down`].
#[unsafe(no_mangle)]
pub extern "C" fn citrus_list_down_once(
    alloc: Global,
    handle: &mut Handle,
    low: u64,
    high: u64,
    pairs: &mut [Pair],
    count: &mut usize,
    next: &mut u64,
) -> i32
    ensures listed { Says result (λ status. Makes (λ c d. ListsOutDown c (record { low = low; high = high })
        (record { pairs = pairs.old; count = count.old; next = next.old }) status
        (record { pairs = pairs.new; count = count.new; next = next.new }) d) handle.old.held status handle.new.held) }
    ensures closed { handle.old.held ≡ None → (count.new ≡ 0) × (pairs.new ≡ pairs.old) × (next.new ≡ next.old) }
{
    handle
        .list_down(alloc, low, high, pairs, count, next)
        .code()
}

/// [`Handle::first`].
#[unsafe(no_mangle)]
pub extern "C" fn citrus_first_once(
    alloc: Global,
    handle: &mut Handle,
    low: u64,
    key: &mut u64,
    value: &mut u64,
) -> i32
    ensures found { Says result (λ status. Makes (λ c d. Firsts c low (key.old, value.old) status (key.new, value.new) d)
        handle.old.held status handle.new.held) }
    ensures closed { handle.old.held ≡ None → (key.new ≡ key.old) × (value.new ≡ value.old) }
{
    handle.first(alloc, low, key, value).code()
}

/// [`Handle::last`].
#[unsafe(no_mangle)]
pub extern "C" fn citrus_last_once(
    alloc: Global,
    handle: &mut Handle,
    low: u64,
    high: u64,
    key: &mut u64,
    value: &mut u64,
) -> i32
    ensures found { Says result (λ status. Makes (λ c d. Lasts c (record { low = low; high = high }) (key.old, value.old) status
        (key.new, value.new) d) handle.old.held status handle.new.held) }
    ensures closed { handle.old.held ≡ None → (key.new ≡ key.old) × (value.new ≡ value.old) }
{
    handle.last(alloc, low, high, key, value).code()
}

/// [`Handle::hold`].
#[unsafe(no_mangle)]
pub extern "C" fn citrus_hold(alloc: Global, handle: &mut Handle, key: u64, value: &mut u64) -> i32
    ensures held { Says result (λ status. Makes (λ c d. HoldsValue c key value.old status value.new d)
        handle.old.held status handle.new.held) }
    ensures closed { handle.old.held ≡ None → value.new ≡ value.old }
{
    handle.hold(alloc, key, value).code()
}

/// [`Handle::enter`].
#[unsafe(no_mangle)]
pub extern "C" fn citrus_enter(alloc: Global, handle: &mut Handle, key: u64) -> i32
    ensures entered { Says result (λ status. Makes (λ c d. Enters c key status d) handle.old.held status handle.new.held) }
{
    handle.enter(alloc, key).code()
}

/// [`Handle::release`].
#[unsafe(no_mangle)]
pub extern "C" fn citrus_release(alloc: Global, handle: &mut Handle) -> i32
    ensures released { Says result (λ status. Makes (λ c d. LeavesSection c status d) handle.old.held status handle.new.held) }
{
    handle.release(alloc).code()
}

/// [`Handle::begin`].
#[unsafe(no_mangle)]
pub extern "C" fn citrus_begin(
    alloc: Global,
    handle: &mut Handle,
    low: u64,
    high: u64,
    cookie: &mut u64,
) -> i32
    ensures begun { Says result (λ status. Makes (λ c d. Begins c (record { low = low; high = high }) cookie.old status cookie.new d)
        handle.old.held status handle.new.held) }
    ensures closed { handle.old.held ≡ None → cookie.new ≡ cookie.old }
{
    handle.begin(alloc, low, high, cookie).code()
}

/// [`Handle::poll`].
#[unsafe(no_mangle)]
pub extern "C" fn citrus_poll(alloc: Global, handle: &mut Handle, cookie: u64) -> i32
    ensures polled { Says result (λ status. Makes (λ c d. Polls c cookie status d) handle.old.held status handle.new.held) }
{
    handle.poll(alloc, cookie).code()
}

/// [`Handle::tidy`].
#[unsafe(no_mangle)]
pub extern "C" fn citrus_tidy_once(
    alloc: Global,
    handle: &mut Handle,
    low: u64,
    high: u64,
    turns: u32,
    made: &mut u32,
    next: &mut u64,
) -> i32
    ensures tidied { Says result (λ status. Makes (λ c d. Tidies c (record { low = low; high = high }) turns next.old status
        (record { made = made.new; next = next.new }) d) handle.old.held status handle.new.held) }
    ensures closed { handle.old.held ≡ None → (made.new ≡ 0) × (next.new ≡ next.old) }
{
    handle.tidy(alloc, low, high, turns, made, next).code()
}

/// [`Handle::lanes`].
#[unsafe(no_mangle)]
pub extern "C" fn citrus_open_lanes(
    alloc: Global,
    handle: &mut Handle,
    lanes: &mut Lanes,
    count: u32,
) -> i32
    ensures opened { Says result (λ status. Makes (λ c d. OpensLanes c count (lanes_in lanes.old.held) status d
        (lanes_in lanes.new.held)) handle.old.held status handle.new.held) }
    ensures closed { handle.old.held ≡ None → lanes.new.held ≡ lanes.old.held }
{
    handle.lanes(alloc, count, lanes).code()
}

/// [`Lanes::get_many`].
#[unsafe(no_mangle)]
pub extern "C" fn citrus_get_many(
    alloc: Global,
    lanes: &mut Lanes,
    keys: &[u64],
    answers: &mut [Answer],
) -> i32
    ensures got { Says result (λ status. ManyGets (lanes_in lanes.old.held) keys.now answers.old status answers.new
        (lanes_in lanes.new.held)) }
{
    lanes.get_many(alloc, keys, answers).code()
}

/// [`Lanes::close`].
#[unsafe(no_mangle)]
pub extern "C" fn citrus_close_lanes(alloc: Global, lanes: &mut Lanes)
    ensures closed { lanes.new.held ≡ None }
{
    lanes.close(alloc);
}
