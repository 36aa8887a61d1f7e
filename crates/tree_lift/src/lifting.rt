//! The call.
ghost use Rattle.std.specs.Prelude.{◌≡◌, ◌+◌, ◌*◌, ◌≤◌, false, IfOk, IfErr};
ghost use Rattle.seat_table.specs.Gains.{IsInformed};
ghost use Rattle.seat_table.specs.Sections.{HasMade};
ghost use Rattle.seat_table.specs.Seats.{IsQuietSeat, shape_of};
ghost use Rattle.citrus_tree.specs.Going.{KeepsSeat};
ghost use Rattle.tree_lift.specs.Lifts.{EndsBy, HasAttempted, HasLifted, LeavesNoUpdate};

use crate::finding::find_turn;
use crate::room::make_room;
use crate::trying::{Outcome, try_turn};
use patience::Patience;
use seat_table::{CitrusTable, Seat, WaitPart};

/// What a lift is asked for.
#[derive(Clone, Copy)]
pub struct Aim {
    /// Nodes on the way to this key are turned.
    pub key: u64,
    /// The salt of the table's rule.
    pub salt: u64,
    /// How often a turn is tried at most.
    pub attempts: u32,
    /// Whether to stand still for readers where the place has no room for two more retired slots.
    pub hard: bool,
}

/// Why a lift ended.
#[derive(Clone, Copy, Debug, PartialEq, Eq)]
pub enum Stop {
    /// The way was found to need no turn.
    Level,
    /// The place has no room for two more retired slots.
    NoRoom,
    /// No slot was free.
    NoSlot,
    /// All attempts were made.
    Spent,
}

/// What a lift came to.
#[derive(Clone, Copy, Debug, PartialEq, Eq)]
pub struct Lifted {
    /// How many nodes changed places with a child.
    pub turns: u32,
    /// How many turns were tried, with those that came to nothing.
    pub tried: u32,
    pub stop: Stop,
}

// What an attempt came to.
#[derive(Clone, Copy)]
enum Attempt {
    /// A turn was made, or a lock was taken or something changed meanwhile.
    Tried { turned: bool },
    Ended { stop: Stop },
}

/// Lets nodes on the way to a key change places with a child that is to stand above, the topmost first, until the way needs no turn or so
/// many attempts were made. The dictionary and its history stay as they are but for what others do. An attempt that finds a lock taken, or
/// something changed meanwhile, comes to nothing. Each turn retires two slots and spends up to three tickets: for the two slots that it takes,
/// and for itself. It waits for nobody, except where it is asked to stand still and the place has no room for two more retired slots: then
/// it waits for all open sections once, and gives the retired slots back.
// Most puts need none: their own code stays small.
#[inline(never)]
pub fn lift<P: Patience, W: WaitPart>(
    patience: &P,
    table: &CitrusTable<W>,
    seat: &mut Seat<W>,
    aim: Aim,
) -> Result<Lifted, P::Tired>
    requires table { seat.old.table ≡ table.now }
    requires quiet { IsQuietSeat seat.old }
    requires tickets { 3 * aim.attempts ≤ seat.old.view.allowance.tickets }
    ensures table { seat.new.table ≡ seat.old.table }
    ensures updates { IfOk result (λ _. LeavesNoUpdate seat.old.view aim.key seat.new.view) }
    ensures turns { IfOk result (λ answer. HasLifted (shape_of W.WAY table.now) aim answer seat.old.view seat.new.view) }
    ensures ends { IfOk result (λ answer. EndsBy (shape_of W.WAY table.now) aim answer.stop seat.new.view) }
    ensures few { IfOk result (λ answer. (answer.turns ≤ answer.tried) × (answer.tried ≤ aim.attempts)) }
    ensures unwaited { IfOk result (λ _. aim.hard ≡ false → seat.new.view.counts.waits ≡ seat.old.view.counts.waits) }
    ensures keeps { IfOk result (λ _. KeepsSeat (3 * aim.attempts) seat.old seat.new) }
    ensures spares { IfOk result (λ answer. seat.old.view.allowance.tickets ≤ seat.new.view.allowance.tickets + 3 * answer.tried + 3) }
    ensures informed { IfOk result (λ _. IsInformed seat.old.view → IsInformed seat.new.view) }
    ensures tired { IfErr result (λ _. HasMade (P.least patience.now) seat.new.view) }
{
    let mut turns = 0;
    for i in 0..aim.attempts {
        match make_attempt(patience, table, seat, aim)? {
            Attempt::Tried { turned } => turns += u32::from(turned),
            Attempt::Ended { stop } => {
                return Ok(Lifted {
                    turns,
                    tried: i,
                    stop,
                });
            }
        }
    }
    Ok(Lifted {
        turns,
        tried: aim.attempts,
        stop: Stop::Spent,
    })
}

// One attempt at a turn.
fn make_attempt<P: Patience, W: WaitPart>(
    patience: &P,
    table: &CitrusTable<W>,
    seat: &mut Seat<W>,
    aim: Aim,
) -> Result<Attempt, P::Tired>
    requires table { seat.old.table ≡ table.now }
    requires quiet { IsQuietSeat seat.old }
    requires tickets { 3 ≤ seat.old.view.allowance.tickets }
    ensures table { seat.new.table ≡ seat.old.table }
    ensures attempted { IfOk result (λ answer. HasAttempted (shape_of W.WAY table.now) aim seat.old answer seat.new) }
    ensures tired { IfErr result (λ _. HasMade (P.least patience.now) seat.new.view) }
{
    if !make_room(patience, table, seat, aim.hard)? {
        return Ok(Attempt::Ended { stop: Stop::NoRoom });
    }
    let Some(turn) = find_turn(table, seat, aim.key, aim.salt) else {
        return Ok(Attempt::Ended { stop: Stop::Level });
    };
    match try_turn(patience, table, seat, turn)? {
        Outcome::Turned => Ok(Attempt::Tried { turned: true }),
        Outcome::Refused => Ok(Attempt::Tried { turned: false }),
        Outcome::NoSlot => Ok(Attempt::Ended { stop: Stop::NoSlot }),
    }
}
