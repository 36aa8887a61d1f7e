//! The front, taken for a while: no other seat makes an update meanwhile.
ghost use Rattle.std.specs.Prelude.{◌≡◌, ◌%◌, ◌≤◌, None, IfOk, IfErr};
ghost use Rattle.prcu_marks.specs.Marks.{most_front};
ghost use Rattle.seat_table.specs.Sections.{HasMade};
ghost use Rattle.exact_list.specs.Tries.{LosesFront, TakesFront};

use core_state::linking;
use patience::{LostExchanges, Patience};
use seat_table::{CitrusTable, Seat, WaitWords, steps};

// The number itself, or the next one, whichever is even.
fn even_from(number: u64) -> u64
    ensures even { result % 2 ≡ 0 }
{
    if number % 2 == 0 {
        number
    } else {
        number.wrapping_add(1)
    }
}

/// Makes the front odd, and answers the even number that it was. It waits while another seat has it, or answers busy where its patience would
/// rather be called again: then it hasn't made it odd. From then on no other seat makes an update, until this one makes the front even again:
/// by [`steps::close_commit`] after its own update, or without one by [`steps::give_front_back`].
pub(crate) fn take_front<P: Patience, W: WaitWords>(
    patience: &P,
    table: &CitrusTable<W>,
    seat: &mut Seat<W>,
) -> Result<Result<u64, P::Busy>, P::Tired>
    requires table { seat.old.table ≡ table.now }
    requires settled { seat.old.view.moving ≡ None }
    requires paid { seat.old.view.commit ≡ None }
    ensures seat { (seat.new.table ≡ seat.old.table) × (seat.new.listed ≡ seat.old.listed) }
    ensures few { IfOk result (λ answer. IfOk answer (λ front. front ≤ most_front)) }
    ensures taken { IfOk result (λ answer. IfOk answer (λ front. TakesFront seat.old.view front seat.new.view)) }
    ensures busy { IfOk result (λ answer. IfErr answer (λ _. LosesFront seat.old.view seat.new.view)) }
    ensures lost { IfErr result (λ _. LosesFront seat.old.view seat.new.view) }
    ensures tired { IfErr result (λ _. HasMade (P.least patience.now) seat.new.view) }
{
    let mut pauses = patience.front_pauses();
    let mut lost = LostExchanges::none();
    let mut expected = even_from(seat.front_seen());
    for round in 0..u64::MAX {
        let found = steps::open_commit(table, seat, expected);
        if found == expected {
            patience.won(&mut pauses);
            return Ok(Ok(found));
        }
        expected = even_from(found);
        if lost.pauses_after(linking(found)) {
            if let Err(busy) = patience.rest(&mut pauses) {
                return Ok(Err(busy));
            }
        }
    }
    Err(patience.tired())
}
