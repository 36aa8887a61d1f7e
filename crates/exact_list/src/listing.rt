//! Lists of a key range.
ghost use Rattle.std.specs.Prelude.{◌≡◌, ◌≤◌, List, [], ◌∷◌, None, IfOk, IfErr};
ghost use Rattle.seat_table.specs.Sections.{HasMade};
ghost use Rattle.seat_table.specs.Seats.{IsQuietSeat};
ghost use Rattle.exact_list.specs.Tries.{Holds, HoldsTo, IsRecent, EndAs, Try, HasTried};

use crate::direction::{Ascending, Direction};
use crate::page::Page;
use crate::walks::gather;
use core_state::{front_of, linking};
use key_interval::Keys;
use patience::Patience;
use seat_table::{CitrusTable, Seat, WaitPart, steps};

/// What a list came to.
#[derive(Clone, Copy, Debug, PartialEq, Eq)]
pub enum Listed {
    /// The page holds the pairs that the dictionary had in the range after so many updates, all of them.
    Whole { front: u64 },
    /// There were more than the page is for. It holds the first ones, and `next` is the key after them.
    Part { front: u64, next: u64 },
    /// An update was under way or made in each of the tries. In the last one the first look at the front found `first`, and the last
    /// look `last`.
    Moved { first: u64, last: u64 },
}

// One try, in a section of its own.
fn attempt<D: Direction, P: Patience, W: WaitPart>(
    patience: &P,
    table: &CitrusTable<W>,
    seat: &mut Seat<W>,
    keys: &Keys,
    page: &mut Page,
) -> Result<Listed, P::Tired>
    requires table { seat.old.table ≡ table.now }
    requires outside { seat.old.view.section ≡ None }
    requires unlocked { seat.old.view.locks ≡ [] }
    ensures seat { (seat.new.table ≡ seat.old.table) × (seat.new.listed ≡ seat.old.listed) }
    ensures capacity { IfOk result (λ _. page.new.capacity ≡ page.old.capacity) }
    ensures tried { IfOk result (λ answer. (t : Try) × HasTried seat.old.view keys.now.low (t ∷ []) seat.new.view
        × EndAs answer 1 (t ∷ [])) }
    ensures left_off { IfErr result (λ _. (t : Try) × HasTried seat.old.view keys.now.low (t ∷ []) seat.new.view) }
    ensures holds { IfOk result (λ answer. HoldsTo D.SIDE answer keys.now seat.new.view.seen page.new) }
    ensures recent { IfOk result (λ answer. IsRecent answer seat.old.view.seen seat.new.view.seen) }
    ensures tired { IfErr result (λ _. HasMade (P.least patience.now) seat.new.view) }
{
    page.clear();
    W::enter(table, seat, keys.low());
    let first = steps::look_at_front(table, seat);
    if linking(first) {
        W::leave(table, seat);
        return Ok(Listed::Moved { first, last: first });
    }
    let gathered = gather::<D, P, W>(patience, table, seat, keys, page);
    // The same number again: no update came between, so what was found is so at that front. docs/TREE_CALLS.md#lists-of-a-key-range
    let last = steps::look_at_front(table, seat);
    W::leave(table, seat);
    let next = gathered?;
    if last != first {
        page.clear();
        return Ok(Listed::Moved { first, last });
    }
    let front = front_of(first);
    match next {
        None => Ok(Listed::Whole { front }),
        Some(next) => Ok(Listed::Part { front, next }),
    }
}

// Lists as [`list`] does, in this direction.
pub(crate) fn list_in<D: Direction, P: Patience, W: WaitPart>(
    patience: &P,
    table: &CitrusTable<W>,
    seat: &mut Seat<W>,
    keys: Keys,
    page: &mut Page,
    tries: u32,
) -> Result<Listed, P::Tired>
    requires table { seat.old.table ≡ table.now }
    requires quiet { IsQuietSeat seat.old }
    requires tries { 1 ≤ tries }
    ensures seat { (seat.new.table ≡ seat.old.table) × (seat.new.listed ≡ seat.old.listed) }
    ensures quiet { IsQuietSeat seat.new }
    ensures tickets { seat.new.view.allowance.tickets ≡ seat.old.view.allowance.tickets }
    ensures capacity { IfOk result (λ _. page.new.capacity ≡ page.old.capacity) }
    ensures tried { IfOk result (λ answer. (made : List Try) × HasTried seat.old.view keys.low made seat.new.view
        × EndAs answer tries made) }
    ensures holds { IfOk result (λ answer. HoldsTo D.SIDE answer keys seat.new.view.seen page.new) }
    ensures recent { IfOk result (λ answer. IsRecent answer seat.old.view.seen seat.new.view.seen) }
    ensures tired { IfErr result (λ _. HasMade (P.least patience.now) seat.new.view) }
{
    let mut listed = attempt::<D, P, W>(patience, table, seat, &keys, page)?;
    for tried in 1..tries {
        match listed {
            Listed::Moved { .. } => listed = attempt::<D, P, W>(
                patience, table, seat, &keys, page,
            )?,
            _ => return Ok(listed),
        }
    }
    Ok(listed)
}

/// Lists the pairs with these keys on the page, keys ascending, as the dictionary had them after some number of updates: the front.
/// A try reads in a section, without a lock, and looks at the front before and after. It counts where no update was under way or
/// made in between. `Whole` and `Part` come from the first try that counts, `Moved` where none of the `tries` does.
///
/// The front isn't before what the seat has seen. No memory is asked for, and no ticket is taken.
///
/// It walks the tree in order, and loads some four words for each pair, beside those on the first way down. Where it passed more than 64
/// slots to the left it goes down from the root again now and then, at most once for each 65 keys that it loads. The looks at the front are
/// as the sequence numbers of a seqlock.
pub fn list<P: Patience, W: WaitPart>(
    patience: &P,
    table: &CitrusTable<W>,
    seat: &mut Seat<W>,
    keys: Keys,
    page: &mut Page,
    tries: u32,
) -> Result<Listed, P::Tired>
    requires table { seat.old.table ≡ table.now }
    requires quiet { IsQuietSeat seat.old }
    requires tries { 1 ≤ tries }
    ensures seat { (seat.new.table ≡ seat.old.table) × (seat.new.listed ≡ seat.old.listed) }
    ensures quiet { IsQuietSeat seat.new }
    ensures tickets { seat.new.view.allowance.tickets ≡ seat.old.view.allowance.tickets }
    ensures capacity { IfOk result (λ _. page.new.capacity ≡ page.old.capacity) }
    ensures tried { IfOk result (λ answer. (made : List Try) × HasTried seat.old.view keys.low made seat.new.view
        × EndAs answer tries made) }
    ensures holds { IfOk result (λ answer. Holds answer keys seat.new.view.seen page.new) }
    ensures recent { IfOk result (λ answer. IsRecent answer seat.old.view.seen seat.new.view.seen) }
    ensures tired { IfErr result (λ _. HasMade (P.least patience.now) seat.new.view) }
{
    list_in::<Ascending, P, W>(patience, table, seat, keys, page, tries)
}
