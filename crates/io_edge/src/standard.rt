//! std's readers and writers as sources and sinks. What the world gives or takes is never told.
ghost use Rattle.std.specs.Prelude.{◌≡◌, ◌<◌, ◌≤◌, None, length, IfOk, OnOk, OnErr};
ghost use Rattle.io_edge.specs.Edge.{raised};

use crate::edge::{Failed, Sink, Source};
use std::io::{Read, Write};
use std::marker::Model;

/// A reader as a source. It counts the reader's errors, and tells nothing of the bytes.
#[derive(Drop)]
pub struct StdSource<R> {
    inner: R,
    faults: u64,
}

impl<R> Model for StdSource<R> {
    ghost use Rattle.io_edge.specs.Edge.{Untold};

    ghost Value = { Untold };

    ghost view = { λ s. record { faults = s.faults } };
}

impl<R: Read> StdSource<R> {
    /// The reader as a source that hasn't failed yet.
    pub fn new(inner: R) -> StdSource<R>
        ensures { result ≡ record { faults = 0 } }
    {
        StdSource { inner, faults: 0 }
    }
}

impl<R: Read> Source for StdSource<R> {
    ghost rest = { λ _. None };

    ghost faults = { λ s. s.faults };

    /// Reads from the reader. Each of its errors is a fault.
    fn read(&mut self, into: &mut [u8]) -> Result<usize, Failed>
        ensures counted { self.old.faults ≤ self.new.faults }
        ensures within { IfOk result (λ n. n ≤ length into.new) }
        ensures unfailed { OnOk result (self.new ≡ self.old) }
        ensures failed { OnErr result (self.new ≡ record self.old { faults = raised self.old.faults }) }
    {
        match self.inner.read(into) {
            Ok(count) => Ok(count),
            Err(_) => {
                self.faults = self.faults.saturating_add(1);
                Err(Failed)
            }
        }
    }
}

/// A writer as a sink. It counts the writer's errors, and tells nothing of the bytes.
#[derive(Drop)]
pub struct StdSink<W> {
    inner: W,
    faults: u64,
}

impl<W> Model for StdSink<W> {
    ghost use Rattle.io_edge.specs.Edge.{Untold};

    ghost Value = { Untold };

    ghost view = { λ s. record { faults = s.faults } };
}

impl<W: Write> StdSink<W> {
    /// The writer as a sink that hasn't failed yet.
    pub fn new(inner: W) -> StdSink<W>
        ensures { result ≡ record { faults = 0 } }
    {
        StdSink { inner, faults: 0 }
    }

    // Counts a fault.
    fn fail(&mut self) -> Failed
        ensures counted { self.old.faults ≤ self.new.faults }
        ensures failed { self.new ≡ record self.old { faults = raised self.old.faults } }
    {
        self.faults = self.faults.saturating_add(1);
        Failed
    }
}

impl<W: Write> Sink for StdSink<W> {
    ghost bytes = { λ _. None };

    ghost faults = { λ s. s.faults };

    /// Writes to the writer. Each of its errors is a fault, and so is a write that takes no byte of a piece that isn't
    /// empty.
    fn write(&mut self, piece: &[u8]) -> Result<usize, Failed>
        ensures counted { self.old.faults ≤ self.new.faults }
        ensures within { IfOk result (λ n. n ≤ length piece.now) }
        ensures progress { IfOk result (λ n. 0 < length piece.now → 1 ≤ n) }
        ensures unfailed { OnOk result (self.new ≡ self.old) }
        ensures failed { OnErr result (self.new ≡ record self.old { faults = raised self.old.faults }) }
    {
        match self.inner.write(piece) {
            Ok(0) if !piece.is_empty() => Err(self.fail()),
            Ok(count) => Ok(count),
            Err(_) => Err(self.fail()),
        }
    }

    /// Has the writer pass on what it holds back. At `Failed` it isn't known how much of it was passed on.
    fn flush(&mut self) -> Result<(), Failed>
        ensures counted { self.old.faults ≤ self.new.faults }
        ensures unfailed { OnOk result (self.new ≡ self.old) }
        ensures failed { OnErr result (self.new ≡ record self.old { faults = raised self.old.faults }) }
    {
        match self.inner.flush() {
            Ok(()) => Ok(()),
            Err(_) => Err(self.fail()),
        }
    }
}
