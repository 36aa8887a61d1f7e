//! The way back of a walk.
ghost use Rattle.std.specs.Prelude.{◌≡◌, [], false};
ghost use Rattle.exact_list.specs.Loads.{HasPassed, NextIs};

use arrayvec::ArrayVec;

/// How many slots of a way are kept.
const KEPT: usize = 64;

/// A slot to which a walk goes back. Its key comes next where none before it is left.
#[derive(Clone, Copy, Default)]
pub(crate) struct Passed {
    pub(crate) slot: u32,
    pub(crate) key: u64,
}

/// The slots to which a walk goes back, on the way on which it came, the latest last.
#[derive(Drop)]
pub(crate) struct Way {
    pub(crate) passed: ArrayVec<Passed, KEPT>,
    /// There were more than there is room for, and earlier ones were given up.
    pub(crate) cut: bool,
}

/// Where a walk goes on once it came to an end.
pub(crate) enum Next {
    /// At this slot.
    At(Passed),
    /// Nowhere: it is through.
    Done,
    /// At the root: the rest of the way was given up.
    Lost,
}

impl Way {
    // The way of a walk that begins at the root.
    pub(crate) fn new() -> Way
        ensures none { result.passed.items ≡ [] }
        ensures whole { result.cut ≡ false }
    {
        Way {
            passed: ArrayVec::new(),
            cut: false,
        }
    }

    // Adds a slot. Where there is no room, all earlier ones are given up.
    pub(crate) fn pass(&mut self, slot: u32, key: u64)
        ensures { HasPassed self.old (record { slot = slot; key = key }) self.new }
    {
        if !self.passed.is_full() {
            self.passed.push(Passed { slot, key });
            return;
        }
        self.passed.clear();
        self.cut = true;
        self.passed.push(Passed { slot, key });
    }

    // Takes off the latest slot.
    pub(crate) fn next(&mut self) -> Next
        ensures { NextIs self.old result self.new }
    {
        let Some(passed) = self.passed.pop() else {
            if !self.cut {
                return Next::Done;
            }
            self.cut = false;
            return Next::Lost;
        };
        Next::At(passed)
    }
}
