//! Sections of a caller that stay open, and waits for the sections of others, with what they tell.
ghost use Rattle.tree_handles.specs.Holds.{HoldsValue, Enters, Waits};

use crate::any_caller::AnyCaller;
use crate::status::Status;
use key_interval::Keys;

impl AnyCaller {
    /// Finds the key's value, and stays in a section with the key where there is one.
    pub(crate) fn hold_value(&mut self, key: u64, value: &mut u64) -> Status
        ensures { HoldsValue self.old key value.old result value.new self.new }
    {
        match self.hold(key) {
            Ok(Some(found)) => {
                *value = found;
                Status::Done
            }
            Ok(None) => Status::Unchanged,
            Err(status) => status,
        }
    }

    /// Enters a section with the key.
    pub(crate) fn enter_with(&mut self, key: u64) -> Status
        ensures { Enters self.old key result self.new }
    {
        match self.enter(key) {
            Ok(()) => Status::Done,
            Err(status) => status,
        }
    }

    /// Waits until the sections with keys from `low` to `high` have been left that were entered before.
    pub(crate) fn wait_for(&mut self, low: u64, high: u64) -> Status
        ensures { Waits self.old (record { low = low; high = high }) result self.new }
    {
        if let Some(status) = self.stopped() {
            return status;
        }
        let Some(keys) = Keys::new(low, high) else {
            return Status::BadArgument;
        };
        match self.wait(keys) {
            Ok(()) => Status::Done,
            Err(status) => status,
        }
    }
}
