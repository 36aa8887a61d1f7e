//! The keys that a wait, a list or a section speaks of.
ghost use Rattle.std.specs.Prelude.{◌≡◌, ◌+◌, ◌<◌, ◌≤◌, ◌↔◌, IsTrue, IsNone, IfSome};
ghost use Rattle.key_interval.specs.Keys.{Interval, Holds, Covers, MeetsClass, class_of, IsLastClass};

use std::marker::Model;

const CLASSES: u64 = 64;

/// The keys from `low` to `high`, both among them: at least one key.
#[derive(Clone, Copy, Debug, PartialEq, Eq)]
pub struct Keys {
    low: u64,
    high: u64,
}

impl Model for Keys {
    ghost use Rattle.std.specs.Prelude.{◌≤◌};
    ghost use Rattle.key_interval.specs.Keys.{Interval};

    ghost Value = { Interval };

    ghost view = { λ a. record { low = a.low; high = a.high } };

    ghost invariant = { λ a. a.low ≤ a.high };

    ghost inverse = { λ keys. record { low = keys.low; high = keys.high } };
}

impl Keys {
    /// The keys from `low` to `high`, and `None` where there are none.
    pub fn new(low: u64, high: u64) -> Option<Keys>
        ensures none { IsNone result ↔ (high < low) }
        ensures keys { IfSome result (λ keys. keys ≡ record { low = low; high = high }) }
    {
        if low > high {
            return None;
        }
        Some(Keys { low, high })
    }

    /// Every key.
    pub fn all() -> Keys
        ensures { result ≡ record { low = 0; high = 18446744073709551615 } }
    {
        Keys {
            low: 0,
            high: u64::MAX,
        }
    }

    /// The keys above `k`, up to `k2`.
    pub fn between(k: u64, k2: u64) -> Keys
        requires { k < k2 }
        ensures { result ≡ record { low = k + 1; high = k2 } }
    {
        Keys {
            low: k + 1,
            high: k2,
        }
    }

    /// The least key.
    pub fn low(&self) -> u64
        ensures low { result ≡ self.now.low }
        ensures ordered { self.now.low ≤ self.now.high }
    {
        self.low
    }

    /// The greatest key.
    pub fn high(&self) -> u64
        ensures high { result ≡ self.now.high }
        ensures ordered { self.now.low ≤ self.now.high }
    {
        self.high
    }

    /// Whether `x` is one of the keys.
    pub fn holds(&self, x: u64) -> bool
        ensures { IsTrue result ↔ Holds self.now x }
    {
        self.low <= x && x <= self.high
    }

    /// Whether each key of the other is one of these.
    pub fn covers(&self, other: &Keys) -> bool
        ensures { IsTrue result ↔ Covers self.now other.now }
    {
        self.low <= other.low && other.high <= self.high
    }

    /// Whether some key has this class.
    pub fn meets_class(&self, c: u32) -> bool
        requires { c < 64 }
        ensures { IsTrue result ↔ MeetsClass self.now c }
    {
        // How far the first key of this class lies above the least key.
        let steps = (u64::from(c) + CLASSES - self.low % CLASSES) % CLASSES;
        steps <= self.high - self.low
    }

    /// The greatest class that some key has.
    pub fn last_class(&self) -> u32
        ensures class { result < 64 }
        ensures last { IsLastClass self.now result }
    {
        if self.low / CLASSES < self.high / CLASSES {
            63
        } else {
            class_of(self.high)
        }
    }
}

/// The class of a key, below 64.
pub fn class_of(x: u64) -> u32
    ensures class { result ≡ class_of x }
    ensures limit { result < 64 }
{
    (x % CLASSES) as u32
}
