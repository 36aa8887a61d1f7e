//! What runs a script's operations, and where a test may hold it back.
ghost use Rattle.std.specs.Prelude.{◌≡◌, ◌+◌, ◌≤◌};

use prcu_model::{Op, Told};
use std::sync::Wait;

/// Answers operations one after another. It stores none of its calls: what they were and what they told is said by
/// `made`, a relation between the client before a call and after it.
pub trait Client {
    ghost use Rattle.std.specs.Prelude.{ℕ};
    ghost use Rattle.prcu_model.specs.declared.operation.Op.{Op};
    ghost use Rattle.prcu_model.specs.declared.operation.Told.{Told};

    /// For how many more calls this client has the means.
    ghost left: { Self → ℕ };

    /// From this client, the operation, what was told, and the client that the call leaves.
    ghost made: { Self → Op → Told → Self → Type 0 };

    /// Makes the operation, and tells its reply. It may wait for other clients.
    fn call<R: Wait>(&mut self, rt: &R, op: Op) -> Told
        requires { 1 ≤ left self.old }
        ensures made { made self.old op result self.new }
        ensures lowered { left self.old ≤ left self.new + 1 };

    /// For how many more calls this client has the means.
    fn remaining(&self) -> u64
        ensures { result ≡ left self.now };
}

/// Where a client passes its gate.
#[derive(Clone, Copy)]
pub enum Point {
    /// In a reader section, before the first load of a search.
    InSection,
    /// Before the first lock of an attempt.
    BeforeLock,
    /// After a wait for readers began, before its first poll.
    InGrace,
    /// When the answer is fixed.
    Answered,
}

/// A gate that a client passes at each `Point`. It promises nothing and changes nothing that a contract sees: a test
/// hands in a gate that holds a caller back.
pub trait Gate {
    fn pass(&self, point: Point, caller: u32);
}

/// The gate that holds nobody back.
#[derive(Clone, Copy)]
pub struct OpenGate;

impl Gate for OpenGate {
    fn pass(&self, _point: Point, _caller: u32) {}
}
