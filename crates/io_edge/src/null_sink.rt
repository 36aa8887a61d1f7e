//! A sink that lets everything go.
ghost use Rattle.std.specs.Prelude.{◌≡◌, ◌≤◌, ◌<◌, Ok, None, length, IsOk, IfOk};
ghost use Rattle.io_edge.specs.Edge.{Appends};

use crate::edge::{Failed, Sink};

/// A sink that takes every piece whole, keeps nothing, tells nothing and never fails.
#[derive(Clone, Copy, Drop)]
pub struct NullSink;

impl NullSink {
    /// The sink.
    pub fn new() -> NullSink {
        NullSink
    }
}

impl Sink for NullSink {
    ghost use Rattle.std.specs.Prelude.{None};

    ghost bytes = { λ _. None };

    ghost faults = { λ _. 0 };

    /// Takes the whole piece. It never fails.
    fn write(&mut self, piece: &[u8]) -> Result<usize, Failed>
        ensures { result ≡ Ok (length piece.now) }
    {
        Ok(piece.len())
    }

    /// Holds nothing back, and never fails.
    fn flush(&mut self) -> Result<(), Failed>
        ensures { IsOk result }
    {
        Ok(())
    }
}
