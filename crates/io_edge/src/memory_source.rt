//! A source over bytes in memory, which fails where it is told to.
ghost use Rattle.std.specs.Prelude.{◌≡◌, ◌<◌, ◌≤◌, ◌↔◌, Some, min, length, take, drop, Contains, IsErr, IfOk, OnOk, OnErr};
ghost use Rattle.io_edge.specs.Edge.{raised, Takes, IsAtEnd};

use crate::edge::{Failed, Source};
use crate::pieces::copy_piece;
use std::marker::Model;

/// A source that gives the bytes it was made of in pieces, and fails at chosen calls.
#[derive(Drop)]
pub struct MemorySource {
    bytes: Vec<u8>,
    at: usize,
    piece: usize,
    fails: Vec<u64>,
    calls: u64,
    faults: u64,
}

impl Model for MemorySource {
    ghost use Rattle.std.specs.Prelude.{◌≤◌, drop};
    ghost use Rattle.std.specs.Vec.{vec_len};
    ghost use Rattle.io_edge.specs.Edge.{Supply};

    ghost Value = { Supply };

    ghost view = { λ s. record {
      rest = drop s.at s.bytes.items;
      piece = s.piece;
      fails = s.fails.items;
      calls = s.calls;
      faults = s.faults;
    } };

    ghost invariant = { λ s. (s.at ≤ vec_len s.bytes) × (1 ≤ s.piece) };
}

impl MemorySource {
    /// A source of these bytes, which gives at most `piece` of them a read. The calls with these numbers, counted from
    /// 0, fail.
    pub fn new(bytes: Vec<u8>, piece: usize, fails: Vec<u64>) -> MemorySource
        requires { 1 ≤ piece }
        ensures { result ≡ record { rest = bytes.items; piece = piece; fails = fails.items; calls = 0; faults = 0 } }
    {
        MemorySource {
            bytes,
            at: 0,
            piece,
            fails,
            calls: 0,
            faults: 0,
        }
    }
}

impl Source for MemorySource {
    ghost rest = { λ s. Some s.rest };

    ghost faults = { λ s. s.faults };

    // Each read counts as one call.
    ghost reads = { λ before room taken after. after ≡ record before { rest = drop taken before.rest; calls = raised before.calls } };

    /// Takes as many bytes as are left, as `into` has room for, and as a piece has at the most. It fails at the chosen
    /// calls and at no other.
    fn read(&mut self, into: &mut [u8]) -> Result<usize, Failed>
        ensures counted { self.old.faults ≤ self.new.faults }
        ensures unfailed { OnOk result (self.new.faults ≡ self.old.faults) }
        ensures within { IfOk result (λ n. n ≤ length into.new) }
        ensures taken { IfOk result (λ n. Takes (Some self.old.rest) (Some self.new.rest) (take n into.new)) }
        ensures end { IfOk result (λ n. n ≡ 0 → 0 < length into.old → IsAtEnd (Some self.old.rest)) }
        ensures chosen { IsErr result ↔ Contains self.old.fails self.old.calls }
        ensures count { IfOk result (λ n. n ≡ min (min (length self.old.rest) (length into.old)) self.old.piece) }
        ensures given { IfOk result
            (λ n. self.new ≡ record self.old { rest = drop n self.old.rest; calls = raised self.old.calls }) }
        ensures failed { OnErr result
            (self.new ≡ record self.old { calls = raised self.old.calls; faults = raised self.old.faults }) }
    {
        let call = self.calls;
        self.calls = call.saturating_add(1);
        if self.fails.contains(&call) {
            self.faults = self.faults.saturating_add(1);
            return Err(Failed);
        }
        let count = copy_piece(&self.bytes, self.at, self.piece, into);
        self.at += count;
        Ok(count)
    }
}
