//! A sink in memory with a fixed capacity, which fails where it is told to.
ghost use Rattle.std.specs.Prelude.{◌≡◌, ◌-◌, ◌<◌, ◌≤◌, ◌↔◌, ◌⊎◌, [], ◌++◌, Some, Ok, min, length, take, Contains, IsErr, IsOk, IfOk, OnOk, OnErr};
ghost use Rattle.io_edge.specs.Edge.{raised};

use crate::edge::{Failed, Sink};
use prcu_model::NoMemory;
use std::alloc::Global;
use std::marker::Model;

/// A sink that keeps what is written to it, in pieces and up to its capacity, and fails at chosen calls.
#[derive(Drop)]
pub struct MemorySink {
    held: Vec<u8>,
    capacity: usize,
    piece: usize,
    fails: Vec<u64>,
    calls: u64,
    faults: u64,
}

impl Model for MemorySink {
    ghost use Rattle.std.specs.Prelude.{◌-◌, ◌≤◌};
    ghost use Rattle.std.specs.Vec.{vec_len, vec_capacity};
    ghost use Rattle.io_edge.specs.Edge.{Store};

    ghost Value = { Store };

    ghost view = { λ s. record {
      bytes = s.held.items;
      free = s.capacity - vec_len s.held;
      piece = s.piece;
      fails = s.fails.items;
      calls = s.calls;
      faults = s.faults;
    } };

    ghost invariant = { λ s.
        (vec_len s.held ≤ s.capacity) × (s.capacity ≤ vec_capacity s.held) × (1 ≤ s.piece) };
}

impl MemorySink {
    /// An empty sink with room for `capacity` bytes, which takes at most `piece` of them a write. The calls with these
    /// numbers, counted from 0, fail.
    pub fn new(
        alloc: Global,
        capacity: usize,
        piece: usize,
        fails: Vec<u64>,
    ) -> Result<MemorySink, NoMemory>
        requires { 1 ≤ piece }
        ensures { IfOk result (λ sink.
            sink ≡ record { bytes = []; free = capacity; piece = piece; fails = fails.items; calls = 0; faults = 0 }) }
    {
        Ok(MemorySink {
            held: Vec::with_capacity(alloc, capacity)?,
            capacity,
            piece,
            fails,
            calls: 0,
            faults: 0,
        })
    }

    /// What was written so far.
    pub fn bytes(&self) -> &[u8]
        ensures { result.now ≡ self.now.bytes }
    {
        self.held.as_slice()
    }
}

impl Sink for MemorySink {
    ghost bytes = { λ s. Some s.bytes };

    ghost faults = { λ s. s.faults };

    /// Takes as many bytes as the piece has, as are free, and as one write takes at the most. A write of a piece that
    /// isn't empty fails where no byte is free and at the chosen calls, and at no other. It takes no memory.
    fn write(&mut self, piece: &[u8]) -> Result<usize, Failed>
        ensures counted { self.old.faults ≤ self.new.faults }
        ensures unfailed { OnOk result (self.new.faults ≡ self.old.faults) }
        ensures progress { IfOk result (λ n. 0 < length piece.now → 1 ≤ n) }
        ensures empty { length piece.now ≡ 0 → result ≡ Ok 0 }
        ensures chosen { 0 < length piece.now
            → (IsErr result ↔ ((self.old.free ≡ 0) ⊎ Contains self.old.fails self.old.calls)) }
        ensures count { IfOk result (λ n. n ≡ min (min (length piece.now) self.old.free) self.old.piece) }
        ensures given { IfOk result (λ n. self.new ≡ record self.old {
          bytes = self.old.bytes ++ take n piece.now;
          free = self.old.free - n;
          calls = raised self.old.calls;
        }) }
        ensures failed { OnErr result
            (self.new ≡ record self.old { calls = raised self.old.calls; faults = raised self.old.faults }) }
    {
        let call = self.calls;
        self.calls = call.saturating_add(1);
        if piece.is_empty() {
            return Ok(0);
        }
        let free = self.capacity - self.held.len();
        if free == 0 || self.fails.contains(&call) {
            self.faults = self.faults.saturating_add(1);
            return Err(Failed);
        }
        let count = piece.len().min(free).min(self.piece);
        self.held.extend_from_slice(&piece[..count]).unwrap();
        Ok(count)
    }

    /// Holds nothing back, and never fails.
    fn flush(&mut self) -> Result<(), Failed>
        ensures passed { IsOk result }
        ensures same { self.new ≡ self.old }
    {
        Ok(())
    }
}
