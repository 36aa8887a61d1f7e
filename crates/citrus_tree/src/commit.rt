//! The front, made odd for one store.
ghost use Rattle.std.specs.Prelude.{◌≡◌, ℕ, ◌+◌, ◌/◌, ◌%◌, ◌≤◌, true, Some, None, IfOk, IfErr};
ghost use Rattle.prcu_marks.specs.Marks.{most_front};
ghost use Rattle.core_points.specs.declared.stage.Stage.TheVariants as at;
ghost use Rattle.core_points.specs.declared.stage.Update.{Update};
ghost use Rattle.core_points.specs.Programs.{past_even};
ghost use Rattle.prcu_model.specs.declared.operation.Op.{Op};
ghost use Rattle.seat_table.specs.Sections.{HasMade};
ghost use Rattle.seat_table.specs.Seats.{shape_of};
ghost use Rattle.tree_points.specs.Points.{IsAt};
ghost use Rattle.citrus_tree.specs.declared.commit.WhenCrowded.TheVariants.{GiveWay};
ghost use Rattle.citrus_tree.specs.Going.{LosesFront, Opened, Closed};

use core_state::linking;
use patience::{LostExchanges, Patience};
use seat_table::{CitrusTable, Seat, WaitPart, steps};

// The number itself, or the next one, whichever is even.
fn even_from(number: u64) -> u64
    ensures even { result % 2 ≡ 0 }
{
    if number % 2 == 0 {
        number
    } else {
        number.wrapping_add(1)
    }
}

/// What a caller does where others have the front, or are faster.
#[derive(Clone, Copy)]
pub(crate) enum WhenCrowded {
    /// It tries until it has the front.
    Wait,
    /// It answers busy where its patience would rather be called again.
    GiveWay,
}

/// Makes the front odd, and answers the even number that it was. It waits while another caller's update is being stored. So does a delete:
/// its node is marked by then, and the lock of a marked node can't be given back before the update.
// A call would hand its answer through memory.
#[inline(always)]
pub(crate) fn open_commit<P: Patience, W: WaitPart>(
    patience: &P,
    table: &CitrusTable<W>,
    seat: &mut Seat<W>,
) -> Result<u64, P::Tired>
    requires table { seat.old.table ≡ table.now }
    requires settled { seat.old.view.moving ≡ None }
    requires paid { seat.old.view.commit ≡ None }
    ensures seat { (seat.new.table ≡ seat.old.table) × (seat.new.listed ≡ seat.old.listed) }
    ensures few { IfOk result (λ answer. answer ≤ most_front) }
    ensures opened { IfOk result (λ answer. Opened seat.old.view answer seat.new.view) }
    ensures at { IfOk result (λ answer. (op : Op) (kept e : ℕ) (u : Update)
        → IsAt (shape_of W.WAY table.now) op kept (at.Commit u e) seat.old.view
        → IsAt (shape_of W.WAY table.now) op kept (at.Store u answer) seat.new.view) }
    ensures tired { IfErr result (λ _. HasMade (P.least patience.now) seat.new.view) }
{
    match open_commit_so(patience, table, seat, WhenCrowded::Wait)? {
        Ok(front) => Ok(front),
        Err(_) => unreachable!(),
    }
}

/// The same for a caller that says what it does where exchanges are lost. To give way is for one that has changed nothing yet, and can
/// give its lock back. Where that is answered busy nothing changed but what is known of the front.
// A call would hand its answer through memory.
#[inline(always)]
pub(crate) fn open_commit_so<P: Patience, W: WaitPart>(
    patience: &P,
    table: &CitrusTable<W>,
    seat: &mut Seat<W>,
    when_crowded: WhenCrowded,
) -> Result<Result<u64, P::Busy>, P::Tired>
    requires table { seat.old.table ≡ table.now }
    requires settled { seat.old.view.moving ≡ None }
    requires paid { seat.old.view.commit ≡ None }
    ensures seat { (seat.new.table ≡ seat.old.table) × (seat.new.listed ≡ seat.old.listed) }
    ensures few { IfOk result (λ answer. IfOk answer (λ front. front ≤ most_front)) }
    ensures opened { IfOk result (λ answer. IfOk answer (λ front. Opened seat.old.view front seat.new.view)) }
    ensures at { IfOk result (λ answer. IfOk answer (λ front. (op : Op) (kept e : ℕ) (u : Update)
        → IsAt (shape_of W.WAY table.now) op kept (at.Commit u e) seat.old.view
        → IsAt (shape_of W.WAY table.now) op kept (at.Store u front) seat.new.view)) }
    ensures asked { IfOk result (λ answer. IfErr answer (λ _. when_crowded ≡ GiveWay)) }
    ensures busy { IfOk result (λ answer. IfErr answer (λ _. LosesFront seat.old.view seat.new.view)) }
    ensures tired { IfErr result (λ _. HasMade (P.least patience.now) seat.new.view) }
{
    let mut pauses = patience.front_pauses();
    let mut lost = LostExchanges::none();
    let mut expected = even_from(seat.front_seen());
    for round in 0..u64::MAX {
        let found = steps::open_commit(table, seat, expected);
        if found == expected {
            patience.won(&mut pauses);
            return Ok(Ok(found));
        }
        expected = even_from(found);
        if lost.pauses_after(linking(found)) {
            match when_crowded {
                WhenCrowded::Wait => patience.pause(&mut pauses)?,
                WhenCrowded::GiveWay => {
                    if let Err(busy) = patience.rest(&mut pauses) {
                        return Ok(Err(busy));
                    }
                }
            }
        }
    }
    Err(patience.tired())
}

/// Makes the front even again, and answers the number of the update that was stored.
pub(crate) fn close_commit<W: WaitPart>(
    table: &CitrusTable<W>,
    seat: &mut Seat<W>,
    front: u64,
) -> u64
    requires table { seat.old.table ≡ table.now }
    requires odd { seat.old.view.commit ≡ Some (record { found = front; stored = true }) }
    requires few { front ≤ most_front }
    ensures seat { (seat.new.table ≡ seat.old.table) × (seat.new.listed ≡ seat.old.listed) }
    ensures number { result ≡ (front + 2) / 2 }
    ensures closed { Closed seat.old.view seat.new.view }
    ensures at { (op : Op) (kept : ℕ) (u : Update) → IsAt (shape_of W.WAY table.now) op kept (at.Even u front) seat.old.view
        → IsAt (shape_of W.WAY table.now) op kept (past_even u ((front + 2) / 2)) seat.new.view }
{
    let even = front + 2;
    steps::close_commit(table, seat, even);
    even / 2
}
