//! The access to a word that a step of any kind makes.
ghost use Rattle.std.specs.Prelude.{◌≡◌};
ghost use Rattle.prcu_marks.specs.Marks.{said_by};
ghost use Rattle.class_hash.specs.Seats.{HasRoom};
ghost use Rattle.class_hash.specs.Calls.{Touches, Told};

use crate::rule::Nothing;
use crate::table::HashTable;
use crate::told::{Detail, Told as Tells};
use atomic_table::Seat;
use hash_core::{Act, View};
use prcu_marks::Access;
use std::marker::Brand;

type Token = Seat<Nothing, View>;

#[inline(always)]
fn touches_it<A: Detail>(
    table: &HashTable,
    seat: &mut Token,
    act: Act,
    word: usize,
    access: Access,
) -> u64
    requires picked { (A.table ≡ table.now) × (A.act ≡ act) }
    requires table { seat.old.table_id ≡ table.now.id }
    requires asks { Touches table.now seat.old.me.0 act access word }
    ensures seat { (seat.new.table_id ≡ seat.old.table_id) × (seat.new.me.1 ≡ seat.old.me.1) }
    ensures told { Told table.now seat.old.me.0 act (said_by access result) seat.new.me.0 }
    ensures room { HasRoom seat.new.me.0 }
{
    let words = &table.table.shared;
    match access {
        Access::Load => words.load::<Tells<A>>(seat, word),
        Access::Store { number } => {
            words.store::<Tells<A>>(seat, word, number);
            number
        }
        Access::Exchange { expected, number } => {
            words.compare_exchange::<Tells<A>>(seat, word, expected, number)
        }
        Access::Add { number } => words.fetch_add::<Tells<A>>(seat, word, number),
        Access::Subtract { number } => words.fetch_sub::<Tells<A>>(seat, word, number),
        Access::Flip => words.fetch_xor::<Tells<A>>(seat, word, 1),
    }
}

/// Makes the access, and answers the number found, or stored where it is a store. A constant access folds away.
#[inline(always)]
pub(crate) fn touch(
    table: &HashTable,
    seat: &mut Token,
    act: Act,
    word: usize,
    access: Access,
) -> u64
    requires table { seat.old.table_id ≡ table.now.id }
    requires asks { Touches table.now seat.old.me.0 act access word }
    ensures seat { (seat.new.table_id ≡ seat.old.table_id) × (seat.new.me.1 ≡ seat.old.me.1) }
    ensures told { Told table.now seat.old.me.0 act (said_by access result) seat.new.me.0 }
    ensures room { HasRoom seat.new.me.0 }
{
    touches_it::<Brand>(table, seat, act, word, access)
}
