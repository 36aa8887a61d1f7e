//! How long a loop goes on that others may hold up, and what it does meanwhile. A call that may not return takes the runtime; a call of a
//! static library, where there is none, has to come to an end: so it gives up after more rounds than a machine makes in a century. It can't
//! yield the processor either: where it holds nothing it ends sooner, as it was, and its caller yields and calls again.
#![tactic(auto)]

ghost use Rattle.std.specs.Prelude.{ℕ, ◌≤◌, IfErr};

mod lost_exchanges;

use crossbeam_utils::Backoff;
pub use lost_exchanges::LostExchanges;
use std::convert::Infallible;
use std::sync::Wait;

/// How a caller waits for others. A loop that may not end pauses after each round that came to nothing, for at most 2^64 - 1 rounds.
pub trait Patience {
    /// What a call answers that has given up. `Infallible` where none ever does.
    type Tired: Drop;

    /// What a call answers that others are in the way of, and that holds nothing: it is to be made again. `Infallible` where it waits itself.
    type Busy: Drop;

    /// What one loop counts its pauses with.
    type Pauses: Drop;

    /// How many rounds a loop has made at least where its call gives up: all of 2^64 - 1, but for a patience whose pauses give up.
    ghost least: { Self → ℕ };

    /// Before the first round.
    fn pauses(&self) -> Self::Pauses;

    /// Before the first round of a loop at a word that all callers exchange. There longer pauses help: the fewer try at a time, the sooner one
    /// of them has it.
    fn crowd_pauses(&self) -> Self::Pauses;

    /// The same at the word that a call holds for some steps once it has it. There callers may let each other try in turn.
    fn front_pauses(&self) -> Self::Pauses;

    /// After the loop's exchange there was made: lets the next caller try whose turn it is.
    fn won(&self, pauses: &mut Self::Pauses);

    /// After a round that came to nothing: lets others go on, or gives up.
    fn pause(&self, pauses: &mut Self::Pauses) -> Result<(), Self::Tired>
        ensures { IfErr result (λ _. least self.now ≤ 1) };

    /// The same where the call holds nothing that others wait for, or one lock that it can give back: lets them go on, or ends the call, to
    /// be made again.
    fn rest(&self, pauses: &mut Self::Pauses) -> Result<(), Self::Busy>;

    /// Before a wait for all readers, where the call holds nothing: has it wait, or ends the call, to be made again when readers may have left.
    fn before_readers(&self) -> Result<(), Self::Busy>;

    /// After 2^64 - 1 rounds.
    fn tired(&self) -> Self::Tired
        ensures { least self.now ≤ 18446744073709551615 };
}

/// Never gives up: spins for some rounds, and yields the processor from then on.
#[derive(Drop)]
pub struct Steadfast<'a, R: Wait> {
    rt: &'a R,
}

impl<'a, R: Wait> Steadfast<'a, R> {
    /// The patience of a caller that may wait for good.
    pub fn new(rt: &'a R) -> Steadfast<'a, R> {
        Steadfast { rt }
    }
}

impl<'a, R: Wait> Patience for Steadfast<'a, R> {
    type Tired = Infallible;

    type Busy = Infallible;

    type Pauses = Backoff;

    ghost least = { λ _. 18446744073709551615 };

    fn pauses(&self) -> Backoff {
        Backoff::new()
    }

    fn crowd_pauses(&self) -> Backoff {
        Backoff::new()
    }

    fn front_pauses(&self) -> Backoff {
        Backoff::new()
    }

    fn won(&self, pauses: &mut Backoff) {}

    fn pause(&self, pauses: &mut Backoff) -> Result<(), Infallible> {
        pauses.snooze();
        Ok(())
    }

    fn rest(&self, pauses: &mut Backoff) -> Result<(), Infallible> {
        pauses.snooze();
        Ok(())
    }

    fn before_readers(&self) -> Result<(), Infallible> {
        Ok(())
    }

    fn tired(&self) -> Infallible {
        for _ in self.rt.forever() {}
        unreachable!()
    }
}
