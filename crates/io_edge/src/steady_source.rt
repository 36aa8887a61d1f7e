//! A source over bytes in memory that never fails.
ghost use Rattle.std.specs.Prelude.{◌≡◌, ◌<◌, ◌≤◌, Some, min, length, take, drop, IsOk, IfOk};
ghost use Rattle.io_edge.specs.Edge.{Takes, IsAtEnd};

use crate::edge::{Failed, Source};
use crate::pieces::copy_piece;
use std::marker::Model;

/// A source that gives the bytes it was made of in pieces.
#[derive(Drop)]
pub struct SteadySource {
    bytes: Vec<u8>,
    at: usize,
    piece: usize,
}

impl Model for SteadySource {
    ghost use Rattle.std.specs.Prelude.{◌≤◌, drop};
    ghost use Rattle.std.specs.Vec.{vec_len};
    ghost use Rattle.io_edge.specs.Edge.{SteadySupply};

    ghost Value = { SteadySupply };

    ghost view = { λ s. record { rest = drop s.at s.bytes.items; piece = s.piece } };

    ghost invariant = { λ s. (s.at ≤ vec_len s.bytes) × (1 ≤ s.piece) };
}

impl SteadySource {
    /// A source of these bytes, which gives at most `piece` of them a read.
    pub fn new(bytes: Vec<u8>, piece: usize) -> SteadySource
        requires { 1 ≤ piece }
        ensures { result ≡ record { rest = bytes.items; piece = piece } }
    {
        SteadySource {
            bytes,
            at: 0,
            piece,
        }
    }
}

impl Source for SteadySource {
    ghost rest = { λ s. Some s.rest };

    ghost faults = { λ _. 0 };

    /// Takes as many bytes as are left, as `into` has room for, and as a piece has at the most. It never fails.
    fn read(&mut self, into: &mut [u8]) -> Result<usize, Failed>
        ensures steady { IsOk result }
        ensures within { IfOk result (λ n. n ≤ length into.new) }
        ensures taken { IfOk result (λ n. Takes (Some self.old.rest) (Some self.new.rest) (take n into.new)) }
        ensures end { IfOk result (λ n. n ≡ 0 → 0 < length into.old → IsAtEnd (Some self.old.rest)) }
        ensures count { IfOk result (λ n. n ≡ min (min (length self.old.rest) (length into.old)) self.old.piece) }
        ensures given { IfOk result (λ n. self.new ≡ record self.old { rest = drop n self.old.rest }) }
    {
        let count = copy_piece(&self.bytes, self.at, self.piece, into);
        self.at += count;
        Ok(count)
    }
}
