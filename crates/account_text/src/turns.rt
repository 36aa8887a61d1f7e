//! Which update of its caller each update of a history is.
ghost use Rattle.std.specs.Prelude.{◌≡◌, ◌<◌, ◌↔◌, IsTrue, IfOk, All, Some, length, slice_get};
ghost use Rattle.prcu_model.specs.Fronts.{own_updates};

use prcu_model::{NoMemory, Op, Update};
use std::alloc::Global;
use std::marker::Model;

/// The updates of each of the first so many callers, counted.
#[derive(Drop)]
pub struct Turns<'a> {
    history: &'a [Update],
    // How many updates each update's caller has before it.
    turns: Vec<u64>,
    // How many updates each caller has.
    counts: Vec<u64>,
}

impl<'a> Model for Turns<'a> {
    ghost use Rattle.std.specs.Prelude.{length};
    ghost use Rattle.account_text.specs.Judging.{Calls, AreCounted};

    ghost Value = { Calls };

    ghost view = { λ t. record { history = t.history.now; callers = length t.counts.items } };

    ghost invariant = { λ t. AreCounted t.history.now t.turns.items t.counts.items };
}

impl<'a> Turns<'a> {
    /// Counts the updates of each caller.
    pub fn new(alloc: Global, history: &'a [Update], callers: u32) -> Result<Turns<'a>, NoMemory>
        requires { All (λ update. update.caller < callers) history.now }
        ensures { IfOk result (λ turns. turns ≡ record { history = history.now; callers = callers }) }
    {
        let mut counts = vec![in alloc; 0u64; callers as usize]?;
        let mut turns = Vec::with_capacity(alloc, history.len())?;
        for update in history {
            let count = &mut counts[update.caller as usize];
            turns.push(*count)?;
            *count += 1;
        }
        Ok(Turns {
            history,
            turns,
            counts,
        })
    }

    /// How many updates the caller has.
    pub fn count_of(&self, caller: u32) -> u64
        requires { caller < self.now.callers }
        ensures { result ≡ length (own_updates caller self.now.history) }
    {
        self.counts[caller as usize]
    }

    /// Whether the caller's update after so many others of its own is this operation at this position.
    pub fn is_update(&self, caller: u32, turn: u64, position: u64, op: Op) -> bool
        ensures { IsTrue result
            ↔ (slice_get (own_updates caller self.now.history) turn ≡ Some (record { position = position; op = op })) }
    {
        if position == 0 || position > self.history.len() as u64 {
            return false;
        }
        let i = (position - 1) as usize;
        self.history[i] == Update { caller, op } && self.turns[i] == turn
    }
}
