//! The answer of a call.
ghost use Rattle.std.specs.Prelude.{◌≡◌};

use prcu_marks::{Gate, Point};
use prcu_model::{Reply, Told};
use seat_table::{Seat, WaitPart};

/// What a call came to: what it was told, and how deep its search went.
#[derive(Clone, Copy)]
pub struct Called {
    /// The reply, with the update's position.
    pub told: Told,
    /// Of a put that was told `New`, over how many slots its last search went down from the root; else 0. No clause binds it: it is a hint
    /// on which a client lifts, and a wrong one makes more or fewer lifts and never a wrong answer.
    pub depth: u64,
}

/// Passes the gate with the answer, once the seat is quiet.
pub(crate) fn answered<W: WaitPart, G: Gate>(
    gate: &G,
    seat: &Seat<W>,
    reply: Reply,
    number: u64,
) -> Told
    ensures { result ≡ record { reply = reply; number = number } }
{
    gate.pass(Point::Answered, seat.place());
    Told { reply, number }
}
