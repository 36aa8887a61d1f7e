//! Exchanges of a word that all callers exchange, in twos.
ghost use Rattle.std.specs.Prelude.{◌≡◌, true, false};

use std::marker::Model;

/// When a caller pauses that loses exchanges of a word which others exchange too. Exchanges belong together in twos: the first tells the number
/// that stands there, and the second, made at once, takes the word as a rule. A pause between the two would make that number old. A clause
/// sees whether one was lost since the last pause.
#[derive(Drop)]
pub struct LostExchanges {
    one: bool,
}

impl Model for LostExchanges {
    ghost use Rattle.std.specs.Prelude.{Bool};

    ghost Value = { Bool };

    ghost view = { λ lost. lost.one };
}

impl LostExchanges {
    /// Before the first exchange.
    pub fn none() -> LostExchanges
        ensures none { result ≡ false }
    {
        LostExchanges { one: false }
    }

    /// Whether to pause after one more exchange that was lost: at once where it found the word held, since another one would be lost too, and
    /// else where it was the second since the last pause.
    pub fn pauses_after(&mut self, held: bool) -> bool
        ensures held { held ≡ true → result ≡ true }
        ensures second { self.old ≡ true → result ≡ true }
        ensures first { held ≡ false → self.old ≡ false → result ≡ false }
        ensures paused { result ≡ true → self.new ≡ false }
        ensures lost { result ≡ false → self.new ≡ true }
    {
        let pauses = held || self.one;
        self.one = !pauses;
        pauses
    }
}
