//! The access to a word that a step of any kind makes.
ghost use Rattle.std.specs.Prelude.{◌≡◌};
ghost use Rattle.core_state.specs.Memory.{word_of};
ghost use Rattle.prcu_marks.specs.Marks.{said_by};
ghost use Rattle.seat_table.specs.Seats.{shape_of};
ghost use Rattle.seat_table.specs.Gains.{TellsNow, Touches, Told};

use crate::rule::Nothing;
use crate::table::CitrusTable;
use crate::told::{Detail, Told as Tells};
use crate::waiter::WaitWords;
use atomic_table::Seat;
use core_state::{Act, Field, View, index_of};
use prcu_marks::Access;
use std::marker::Brand;

type Token = Seat<Nothing, View>;

// Where a word stands in the table's row.
#[inline(always)]
fn word_at<W: WaitWords>(table: &CitrusTable<W>, word: Field) -> usize
    ensures index { result ≡ word_of (shape_of W.WAY table.now) word }
{
    index_of(&table.rows, word)
}

#[inline(always)]
fn touches_it<W: WaitWords, A: Detail>(
    table: &CitrusTable<W>,
    seat: &mut Token,
    act: Act,
    word: Field,
    access: Access,
) -> u64
    requires picked { (A.shape ≡ shape_of W.WAY table.now) × (A.act ≡ act) }
    requires table { seat.old.table_id ≡ table.now.id }
    requires asks { Touches W.WAY table.now seat.old.me.0 act access word }
    ensures seat { (seat.new.table_id ≡ seat.old.table_id) × (seat.new.me.1 ≡ seat.old.me.1) }
    ensures told { Told (shape_of W.WAY table.now) seat.old.me.0 act (said_by access result) seat.new.me.0 }
    ensures now { TellsNow (shape_of W.WAY table.now) seat.new.me.0 }
{
    let index = word_at(table, word);
    let words = &table.table.shared;
    match access {
        Access::Load => words.load::<Tells<A>>(seat, index),
        Access::Store { number } => {
            words.store::<Tells<A>>(seat, index, number);
            number
        }
        Access::Exchange { expected, number } => {
            words.compare_exchange::<Tells<A>>(seat, index, expected, number)
        }
        Access::Add { number } => words.fetch_add::<Tells<A>>(seat, index, number),
        Access::Subtract { number } => words.fetch_sub::<Tells<A>>(seat, index, number),
        Access::Flip => words.fetch_xor::<Tells<A>>(seat, index, 1),
    }
}

/// Makes the access, and answers the number found, or stored where it is a store. A constant access folds away.
#[inline(always)]
pub(crate) fn touch<W: WaitWords>(
    table: &CitrusTable<W>,
    seat: &mut Token,
    act: Act,
    word: Field,
    access: Access,
) -> u64
    requires table { seat.old.table_id ≡ table.now.id }
    requires asks { Touches W.WAY table.now seat.old.me.0 act access word }
    ensures seat { (seat.new.table_id ≡ seat.old.table_id) × (seat.new.me.1 ≡ seat.old.me.1) }
    ensures told { Told (shape_of W.WAY table.now) seat.old.me.0 act (said_by access result) seat.new.me.0 }
    ensures now { TellsNow (shape_of W.WAY table.now) seat.new.me.0 }
{
    touches_it::<W, Brand>(table, seat, act, word, access)
}
