//! A place on the heap for lanes. It is taken before they are opened: then no memory can be short any more once a handle has given seats away.
ghost use Rattle.std.specs.Prelude.{◌≡◌, Some, None, is_some};
ghost use Rattle.tree_handles.specs.Lanes.{ManyGets};

use crate::answers::Answer;
use crate::any_lanes::AnyLanes;
use crate::status::Status;
use std::alloc::Global;
use std::marker::Model;

/// Lanes, or none yet.
#[derive(Drop)]
pub struct LaneRoom {
    lanes: Option<AnyLanes>,
}

impl Model for LaneRoom {
    ghost use Rattle.std.specs.declared.option.Option.{Option};
    ghost use Rattle.tree_handles.specs.Lanes.{LanesAt};

    ghost Value = { Option LanesAt };

    ghost view = { λ r. r.lanes };
}

impl LaneRoom {
    /// A place with no lanes.
    pub(crate) fn empty() -> LaneRoom
        ensures { result ≡ None }
    {
        LaneRoom { lanes: None }
    }

    /// Puts lanes there.
    pub(crate) fn fill(&mut self, lanes: AnyLanes)
        ensures { self.new ≡ Some lanes }
    {
        self.lanes = Some(lanes);
    }

    /// Whether lanes are there.
    pub(crate) fn is_full(&self) -> bool
        ensures { result ≡ is_some self.now }
    {
        self.lanes.is_some()
    }

    /// Tells the values of the keys, at the same indices. `Closed` where there are no lanes.
    pub(crate) fn get_many(&mut self, alloc: Global, keys: &[u64], answers: &mut [Answer]) -> Status
        ensures { ManyGets self.old keys.now answers.old result answers.new self.new }
    {
        match &mut self.lanes {
            None => Status::Closed,
            Some(lanes) => lanes.get_many(alloc, keys, answers),
        }
    }
}
