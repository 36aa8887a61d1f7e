//! Lists of a caller, and the first and the last pair of a range.
ghost use Rattle.std.specs.Prelude.{◌≡◌, ◌≤◌, ◌++◌, length, map, drop};
ghost use Rattle.tree_handles.specs.Lists.{Finds, ListsOutTo, end_of, pair_of};

use crate::any_caller::AnyCaller;
use crate::status::Status;
use exact_list::Page;
use key_interval::Keys;
use prcu_marks::Side;
use std::alloc::Global;

/// How many pairs a list has room for at most.
const MOST_ROOM: usize = 1_073_741_824;

/// A pair of the index.
#[repr(C)]
#[derive(Clone, Copy, Drop)]
pub struct Pair {
    pub key: u64,
    pub value: u64,
}

// Writes the pairs of the page at the beginning of the room, and tells how many.
fn write_out(page: &Page, pairs: &mut [Pair]) -> usize
    requires room { length page.now.pairs ≤ length pairs.old }
    ensures count { result ≡ length page.now.pairs }
    ensures pairs { pairs.new ≡ map pair_of page.now.pairs ++ drop (length page.now.pairs) pairs.old }
{
    for i in 0..page.count() {
        let (key, value) = page.pair(i);
        pairs[i as usize] = Pair { key, value };
    }
    page.count() as usize
}

// The end of the range from which a search goes to that side.
fn near_end(side: Side, low: u64, high: u64) -> u64
    ensures { result ≡ end_of side (record { low = low; high = high }) }
{
    match side {
        Side::Right => low,
        Side::Left => high,
    }
}

impl AnyCaller {
    /// Lists the pairs with keys from `low` to `high` to this side, as they were at one moment of the call: as many as there is room for.
    pub(crate) fn list_out(
        &mut self,
        alloc: Global,
        side: Side,
        low: u64,
        high: u64,
        pairs: &mut [Pair],
        count: &mut usize,
        next: &mut u64,
    ) -> Status
        ensures { ListsOutTo side self.old (record { low = low; high = high })
            (record { pairs = pairs.old; count = count.old; next = next.old }) result
            (record { pairs = pairs.new; count = count.new; next = next.new }) self.new }
    {
        *count = 0;
        if let Some(status) = self.stopped() {
            return status;
        }
        let Some(keys) = Keys::new(low, high) else {
            return Status::BadArgument;
        };
        if pairs.is_empty() || pairs.len() > MOST_ROOM {
            return Status::BadArgument;
        }
        let Ok(mut page) = Page::new(alloc, pairs.len() as u32) else {
            return Status::NoMemory;
        };
        match self.list(side, keys, &mut page) {
            Ok(exact) => {
                *count = write_out(&page, pairs);
                let Some(after) = exact.next else {
                    return Status::Done;
                };
                *next = after;
                Status::More
            }
            Err(status) => status,
        }
    }

    /// Finds a pair with a key from `low` to `high`, as it was at one moment of the call: the first one to the right, the last one to the left.
    pub(crate) fn nearest_out(
        &mut self,
        side: Side,
        low: u64,
        high: u64,
        key: &mut u64,
        value: &mut u64,
    ) -> Status
        ensures { Finds self.old side (record { low = low; high = high }) (key.old, value.old) result (key.new, value.new) self.new }
    {
        match self.nearest(side, near_end(side, low, high)) {
            Ok(nearest) => {
                let Some(found) = nearest.pair else {
                    return Status::Unchanged;
                };
                if found.key < low || high < found.key {
                    return Status::Unchanged;
                }
                *key = found.key;
                *value = found.value;
                Status::Done
            }
            Err(status) => status,
        }
    }
}
