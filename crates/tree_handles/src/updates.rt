//! Gets and updates of a caller, with what they tell.
ghost use Rattle.tree_handles.specs.Calls.{ComparesOut, Gets, Inserts, Replaces, Removes, TakesOut, Upserts};

use crate::any_caller::AnyCaller;
use crate::status::Status;
use citrus_tree::{Compared, Removed};
use prcu_model::Reply;

/// How many rounds an upsert makes.
const ROUNDS: u32 = 1_000;

impl AnyCaller {
    /// Finds the key's value.
    pub(crate) fn get_out(&mut self, key: u64, value: &mut u64) -> Status
        ensures { Gets self.old key value.old result value.new self.new }
    {
        match self.get(key) {
            Err(status) => status,
            Ok(told) => match told.reply {
                Reply::Val { value: found } => {
                    *value = found;
                    Status::Done
                }
                _ => Status::Unchanged,
            },
        }
    }

    /// Adds the pair, where the key is absent.
    #[inline(always)]
    pub(crate) fn insert(&mut self, key: u64, value: u64) -> Status
        ensures { Inserts self.old key value result self.new }
    {
        match self.put(key, value) {
            Err(status) => status,
            Ok(told) => match told.reply {
                Reply::New => Status::Done,
                Reply::Full => Status::Full,
                _ => Status::Unchanged,
            },
        }
    }

    /// Gives the key another value, where it is present, and tells the one before.
    pub(crate) fn replace(&mut self, key: u64, value: u64, old: &mut u64) -> Status
        ensures { Replaces self.old key value old.old result old.new self.new }
    {
        match self.set(key, value) {
            Err(status) => status,
            Ok(told) => match told.reply {
                Reply::Was { value: was } => {
                    *old = was;
                    Status::Done
                }
                _ => Status::Unchanged,
            },
        }
    }

    /// Gives the key another value, where its value is the expected one; else tells the value that it has.
    pub(crate) fn compare_out(
        &mut self,
        key: u64,
        expected: u64,
        value: u64,
        found: &mut u64,
    ) -> Status
        ensures { ComparesOut self.old key expected value found.old result found.new self.new }
    {
        match self.compare(key, expected, value) {
            Ok(Compared::Replaced { number: _ }) => Status::Done,
            Ok(Compared::Differs { found: other }) => {
                *found = other;
                Status::Different
            }
            Ok(Compared::Absent) => Status::Unchanged,
            Err(status) => status,
        }
    }

    /// Takes the pair out, where the key is present, and tells its value.
    pub(crate) fn remove_out(&mut self, key: u64, old: &mut u64) -> Status
        ensures { Removes self.old key old.old result old.new self.new }
    {
        match self.remove(key, None) {
            Ok(Removed::Gone { number: _, value }) => {
                *old = value;
                Status::Done
            }
            Ok(Removed::Differs { found: _ }) => unreachable!(),
            Ok(Removed::Absent) => Status::Unchanged,
            Err(status) => status,
        }
    }

    /// Takes the pair out, where its value is the expected one; else tells the value that the key has.
    pub(crate) fn take_out(&mut self, key: u64, expected: u64, found: &mut u64) -> Status
        ensures { TakesOut self.old key expected found.old result found.new self.new }
    {
        match self.remove(key, Some(expected)) {
            Ok(
                Removed::Gone {
                    number: _,
                    value: _,
                },
            ) => Status::Done,
            Ok(Removed::Differs { found: other }) => {
                *found = other;
                Status::Different
            }
            Ok(Removed::Absent) => Status::Unchanged,
            Err(status) => status,
        }
    }

    /// Replaces the key's value, or else adds the pair, until one of the two is told of an update: for at most a thousand rounds, since
    /// others may take the key out before each set, and put it in before each put.
    pub(crate) fn upsert(&mut self, key: u64, value: u64, old: &mut u64) -> Status
        ensures { Upserts self.old key value old.old result old.new self.new }
    {
        for round in 0..ROUNDS {
            match self.replace(key, value, old) {
                Status::Unchanged => (),
                status => return status,
            }
            match self.insert(key, value) {
                Status::Unchanged => (),
                Status::Done => return Status::New,
                status => return status,
            }
        }
        Status::Moved
    }
}
