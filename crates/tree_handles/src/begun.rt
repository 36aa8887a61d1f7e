//! Waits that a caller begins, with what they tell.
ghost use Rattle.tree_handles.specs.Holds.{Begins};

use crate::any_caller::AnyCaller;
use crate::status::Status;
use key_interval::Keys;

impl AnyCaller {
    /// Begins a wait for the sections with keys from `low` to `high`.
    pub(crate) fn begin_for(&mut self, low: u64, high: u64, cookie: &mut u64) -> Status
        ensures { Begins self.old (record { low = low; high = high }) cookie.old result cookie.new self.new }
    {
        if let Some(status) = self.stopped() {
            return status;
        }
        let Some(keys) = Keys::new(low, high) else {
            return Status::BadArgument;
        };
        match self.begin(keys) {
            Ok(number) => {
                *cookie = number;
                Status::Done
            }
            Err(status) => status,
        }
    }
}
