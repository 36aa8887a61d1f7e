//! Where bytes come from and where they go. Either side may fail, and counts how often it did.
ghost use Rattle.std.specs.Prelude.{◌≡◌, ◌<◌, ◌≤◌, take, length, IfOk, OnOk, OnErr};
ghost use Rattle.io_edge.specs.Edge.{Rose, Takes, IsAtEnd, Appends};

use thiserror::Error;

/// The source or the sink couldn't do what a call asked. Its count of faults tells how often that was so.
#[derive(Clone, Copy, Debug, PartialEq, Eq, Error)]
#[error("input or output failed")]
pub struct Failed;

/// Where bytes come from.
pub trait Source {
    ghost use Rattle.std.specs.Prelude.{ℕ, List, Option};

    /// The bytes that are left, where the source tells them.
    ghost rest: { Self → Option (List ℕ) };

    /// How often it failed: only `Failed` raises it. It stays at 18446744073709551615 once it is there.
    ghost faults: { Self → ℕ };

    /// How a read into so much room that took so many bytes leads from the source before it to the source after it, as
    /// far as the source tells.
    ghost reads: { Self → ℕ → ℕ → Self → Type 0 } = { λ _ _ _ _. Unit {0} };

    /// Takes the next bytes to the front of `into`, and tells how many it took. At `Failed` it took none. No byte on a
    /// buffer that isn't empty is the end.
    fn read(&mut self, into: &mut [u8]) -> Result<usize, Failed>
        ensures failed { OnErr result (Rose (faults self.old) (faults self.new)) }
        ensures unfailed { OnOk result (faults self.new ≡ faults self.old) }
        ensures counted { faults self.old ≤ faults self.new }
        ensures within { IfOk result (λ n. n ≤ length into.new) }
        ensures taken { IfOk result (λ n. Takes (rest self.old) (rest self.new) (take n into.new)) }
        ensures end { IfOk result (λ n. n ≡ 0 → 0 < length into.old → IsAtEnd (rest self.old)) }
        ensures led { IfOk result (λ n. reads self.old (length into.old) n self.new) }
        ensures untaken { OnErr result (rest self.new ≡ rest self.old) };
}

/// Where bytes go.
pub trait Sink {
    ghost use Rattle.std.specs.Prelude.{ℕ, List, Option};

    /// The bytes written so far, where the sink tells them.
    ghost bytes: { Self → Option (List ℕ) };

    /// How often it failed: only `Failed` raises it. It stays at 18446744073709551615 once it is there.
    ghost faults: { Self → ℕ };

    /// Writes the first bytes of `piece`, and tells how many: at least one, unless the piece is empty. At `Failed` it
    /// wrote none.
    fn write(&mut self, piece: &[u8]) -> Result<usize, Failed>
        ensures failed { OnErr result (Rose (faults self.old) (faults self.new)) }
        ensures unfailed { OnOk result (faults self.new ≡ faults self.old) }
        ensures counted { faults self.old ≤ faults self.new }
        ensures within { IfOk result (λ n. n ≤ length piece.now) }
        ensures appended { IfOk result (λ n. Appends (bytes self.old) (bytes self.new) (take n piece.now)) }
        ensures progress { IfOk result (λ n. 0 < length piece.now → 1 ≤ n) }
        ensures unwritten { OnErr result (bytes self.new ≡ bytes self.old) };

    /// That nothing of what was written is held back, as far as the sink tells.
    ghost passed_on: { Self → Type 0 } = { λ _. Unit {0} };

    /// Passes on what the sink holds back. At `Failed` it isn't known how much of it was passed on.
    fn flush(&mut self) -> Result<(), Failed>
        ensures failed { OnErr result (Rose (faults self.old) (faults self.new)) }
        ensures unfailed { OnOk result (faults self.new ≡ faults self.old) }
        ensures counted { faults self.old ≤ faults self.new }
        ensures kept { bytes self.new ≡ bytes self.old }
        ensures passed { OnOk result (passed_on self.new) };
}
