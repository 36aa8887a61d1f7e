//! One call for each step from K3 on, by the step's name in `core_state`. Each makes one atomic step, and tells the view after it, and what
//! the seat gained from the rule.
ghost use Rattle.std.specs.Prelude.{◌≡◌, ℕ, ◌+◌, ◌<◌};
ghost use Rattle.core_state.specs.declared.shape.Shape.{Shape};
ghost use Rattle.core_state.specs.declared.act.Act.TheVariants as acts;
ghost use Rattle.seat_table.specs.Seats as scans;
ghost use Rattle.seat_table.specs.Gains.{IsAsked, Told};
ghost use Rattle.seat_table.specs.Seats.{shape_of, unlisted};

mod waiters;

use crate::access::touch;
use crate::scan::after_look;
use crate::seat::Seat;
use crate::table::CitrusTable;
use crate::waiter::WaitWords;
use core_state::{Act, Field, Part, in_slot};
use prcu_marks::{Access, Side};
pub use waiters::{
    announce_key, begin_wait, enter_by_count, enter_by_row, enter_by_stamp, leave_by_count,
    leave_by_row, leave_by_stamp, load_clock, load_gate, look_count, look_key, look_row,
    look_stamp, turn_gate,
};

/// Loads the life of the slot in hand or the spare (K9).
pub fn load_own_life<W: WaitWords>(table: &CitrusTable<W>, seat: &mut Seat<W>, slot: u32) -> u64
    requires table { seat.old.table ≡ table.now }
    requires asks { IsAsked (shape_of W.WAY table.now) seat.old.view (acts.LoadOwnLife slot) }
    ensures seat { (seat.new.table ≡ seat.old.table) × (seat.new.listed ≡ seat.old.listed) × (seat.new.looked ≡ seat.old.looked) }
    ensures told { Told (shape_of W.WAY table.now) seat.old.view (acts.LoadOwnLife slot) result seat.new.view }
{
    let word = Field::Life { slot };
    let act = Act::LoadOwnLife { slot };
    touch(table, &mut seat.seat, act, word, Access::Load)
}

/// Loads the life of the slot in hand, which becomes the spare (K9).
pub fn keep_as_spare<W: WaitWords>(table: &CitrusTable<W>, seat: &mut Seat<W>, slot: u32) -> u64
    requires table { seat.old.table ≡ table.now }
    requires asks { IsAsked (shape_of W.WAY table.now) seat.old.view (acts.KeepAsSpare slot) }
    ensures seat { (seat.new.table ≡ seat.old.table) × (seat.new.listed ≡ seat.old.listed) × (seat.new.looked ≡ seat.old.looked) }
    ensures told { Told (shape_of W.WAY table.now) seat.old.view (acts.KeepAsSpare slot) result seat.new.view }
{
    let word = Field::Life { slot };
    let act = Act::KeepAsSpare { slot };
    let found = touch(table, &mut seat.seat, act, word, Access::Load);
    seat.hand = None;
    seat.spare = Some(slot);
    found
}

/// Loads the life of a retired slot (K9).
pub fn load_retired_life<W: WaitWords>(table: &CitrusTable<W>, seat: &mut Seat<W>, slot: u32) -> u64
    requires table { seat.old.table ≡ table.now }
    requires asks { IsAsked (shape_of W.WAY table.now) seat.old.view (acts.LoadRetiredLife slot) }
    ensures seat { (seat.new.table ≡ seat.old.table) × (seat.new.listed ≡ seat.old.listed) × (seat.new.looked ≡ seat.old.looked) }
    ensures told { Told (shape_of W.WAY table.now) seat.old.view (acts.LoadRetiredLife slot) result seat.new.view }
{
    let word = Field::Life { slot };
    let act = Act::LoadRetiredLife { slot };
    touch(table, &mut seat.seat, act, word, Access::Load)
}

/// Exchanges the free count for one less (K10).
pub fn reserve<W: WaitWords>(table: &CitrusTable<W>, seat: &mut Seat<W>, expected: u64) -> u64
    requires table { seat.old.table ≡ table.now }
    requires asks { IsAsked (shape_of W.WAY table.now) seat.old.view (acts.Reserve expected) }
    ensures seat { (seat.new.table ≡ seat.old.table) × (seat.new.listed ≡ seat.old.listed) × (seat.new.looked ≡ seat.old.looked) }
    ensures told { Told (shape_of W.WAY table.now) seat.old.view (acts.Reserve expected) result seat.new.view }
{
    let token = &mut seat.seat;
    let act = Act::Reserve { expected };
    let access = Access::Exchange {
        expected,
        number: expected - 1,
    };
    let found = touch(table, token, act, Field::Free, access);
    if found == expected {
        seat.tickets -= 1;
        seat.free = expected - 1;
    } else {
        seat.free = found;
    }
    found
}

/// Exchanges the state of a slot from 0 to 1: a free slot is seized (K11).
pub fn seize<W: WaitWords>(table: &CitrusTable<W>, seat: &mut Seat<W>, slot: u32) -> u64
    requires table { seat.old.table ≡ table.now }
    requires asks { IsAsked (shape_of W.WAY table.now) seat.old.view (acts.Seize slot) }
    ensures seat { (seat.new.table ≡ seat.old.table) × (seat.new.listed ≡ seat.old.listed) }
    ensures looked { seat.new.looked ≡ scans.after_look (table.now.slots + table.now.places) seat.old.looked slot }
    ensures told { Told (shape_of W.WAY table.now) seat.old.view (acts.Seize slot) result seat.new.view }
{
    let word = Field::State { slot };
    let looked = after_look(seat.looked, slot, table.slots() + table.places());
    let access = Access::Exchange {
        expected: 0,
        number: 1,
    };
    let found = touch(table, &mut seat.seat, Act::Seize { slot }, word, access);
    seat.looked = looked;
    if found == 0 {
        seat.hand = Some(slot);
    }
    found
}

/// Stores the key, the value or a link of the slot in hand or the spare (K12).
#[inline(always)]
pub fn fill<W: WaitWords>(
    table: &CitrusTable<W>,
    seat: &mut Seat<W>,
    slot: u32,
    part: Part,
    number: u64,
)
    requires table { seat.old.table ≡ table.now }
    requires asks { IsAsked (shape_of W.WAY table.now) seat.old.view (acts.Fill slot part number) }
    ensures seat { (seat.new.table ≡ seat.old.table) × (seat.new.listed ≡ seat.old.listed) × (seat.new.looked ≡ seat.old.looked) }
    ensures told { Told (shape_of W.WAY table.now) seat.old.view (acts.Fill slot part number) number seat.new.view }
{
    let word = in_slot(slot, part);
    let act = Act::Fill { slot, part, number };
    touch(table, &mut seat.seat, act, word, Access::Store { number });
}

/// Raises the life of the slot in hand (K12).
pub fn raise_in_hand<W: WaitWords>(
    table: &CitrusTable<W>,
    seat: &mut Seat<W>,
    slot: u32,
    number: u64,
)
    requires table { seat.old.table ≡ table.now }
    requires asks { IsAsked (shape_of W.WAY table.now) seat.old.view (acts.RaiseInHand slot number) }
    ensures seat { (seat.new.table ≡ seat.old.table) × (seat.new.listed ≡ seat.old.listed) × (seat.new.looked ≡ seat.old.looked) }
    ensures told { Told (shape_of W.WAY table.now) seat.old.view (acts.RaiseInHand slot number) number seat.new.view }
{
    let word = Field::Life { slot };
    let act = Act::RaiseInHand { slot, number };
    touch(table, &mut seat.seat, act, word, Access::Store { number });
}

/// Raises the life of a retired slot, which becomes the spare and is taken off the list (K12).
pub fn raise_to_spare<W: WaitWords>(
    table: &CitrusTable<W>,
    seat: &mut Seat<W>,
    slot: u32,
    number: u64,
)
    requires table { seat.old.table ≡ table.now }
    requires asks { IsAsked (shape_of W.WAY table.now) seat.old.view (acts.RaiseToSpare slot number) }
    ensures table { seat.new.table ≡ seat.old.table }
    ensures looked { seat.new.looked ≡ seat.old.looked }
    ensures listed { seat.new.listed ≡ unlisted slot seat.old.listed }
    ensures told { Told (shape_of W.WAY table.now) seat.old.view (acts.RaiseToSpare slot number) number seat.new.view }
{
    let word = Field::Life { slot };
    seat.listed.take_off(slot);
    seat.spare = Some(slot);
    let act = Act::RaiseToSpare { slot, number };
    touch(table, &mut seat.seat, act, word, Access::Store { number });
}

/// Raises the life of a retired slot, which comes into the hand for a ticket and is taken off the list, where the place has a spare (K12).
pub fn raise_to_hand<W: WaitWords>(
    table: &CitrusTable<W>,
    seat: &mut Seat<W>,
    slot: u32,
    number: u64,
)
    requires table { seat.old.table ≡ table.now }
    requires asks { IsAsked (shape_of W.WAY table.now) seat.old.view (acts.RaiseToHand slot number) }
    ensures table { seat.new.table ≡ seat.old.table }
    ensures looked { seat.new.looked ≡ seat.old.looked }
    ensures listed { seat.new.listed ≡ unlisted slot seat.old.listed }
    ensures told { Told (shape_of W.WAY table.now) seat.old.view (acts.RaiseToHand slot number) number seat.new.view }
{
    let word = Field::Life { slot };
    seat.listed.take_off(slot);
    seat.hand = Some(slot);
    seat.tickets -= 1;
    let act = Act::RaiseToHand { slot, number };
    touch(table, &mut seat.seat, act, word, Access::Store { number });
}

/// Raises the life of a retired slot, where the place has a spare (K12).
pub fn raise_retired<W: WaitWords>(
    table: &CitrusTable<W>,
    seat: &mut Seat<W>,
    slot: u32,
    number: u64,
)
    requires table { seat.old.table ≡ table.now }
    requires asks { IsAsked (shape_of W.WAY table.now) seat.old.view (acts.RaiseRetired slot number) }
    ensures seat { (seat.new.table ≡ seat.old.table) × (seat.new.listed ≡ seat.old.listed) × (seat.new.looked ≡ seat.old.looked) }
    ensures told { Told (shape_of W.WAY table.now) seat.old.view (acts.RaiseRetired slot number) number seat.new.view }
{
    let word = Field::Life { slot };
    let act = Act::RaiseRetired { slot, number };
    touch(table, &mut seat.seat, act, word, Access::Store { number });
}

/// Exchanges a slot's lock from 0 to the place plus 1 (K13).
pub fn lock<W: WaitWords>(table: &CitrusTable<W>, seat: &mut Seat<W>, slot: u32) -> u64
    requires table { seat.old.table ≡ table.now }
    requires asks { IsAsked (shape_of W.WAY table.now) seat.old.view (acts.Lock slot) }
    ensures seat { (seat.new.table ≡ seat.old.table) × (seat.new.listed ≡ seat.old.listed) × (seat.new.looked ≡ seat.old.looked) }
    ensures told { Told (shape_of W.WAY table.now) seat.old.view (acts.Lock slot) result seat.new.view }
{
    let word = Field::Lock { slot };
    let mine = seat.place as u64 + 1;
    let access = Access::Exchange {
        expected: 0,
        number: mine,
    };
    touch(table, &mut seat.seat, Act::Lock { slot }, word, access)
}

/// Gives a lock up (K14).
pub fn unlock<W: WaitWords>(table: &CitrusTable<W>, seat: &mut Seat<W>, slot: u32)
    requires table { seat.old.table ≡ table.now }
    requires asks { IsAsked (shape_of W.WAY table.now) seat.old.view (acts.Unlock slot) }
    ensures seat { (seat.new.table ≡ seat.old.table) × (seat.new.listed ≡ seat.old.listed) × (seat.new.looked ≡ seat.old.looked) }
    ensures told { Told (shape_of W.WAY table.now) seat.old.view (acts.Unlock slot) 0 seat.new.view }
{
    let word = Field::Lock { slot };
    let access = Access::Store { number: 0 };
    touch(table, &mut seat.seat, Act::Unlock { slot }, word, access);
}

/// Frees the slot in hand (K15).
pub fn free_in_hand<W: WaitWords>(table: &CitrusTable<W>, seat: &mut Seat<W>, slot: u32)
    requires table { seat.old.table ≡ table.now }
    requires asks { IsAsked (shape_of W.WAY table.now) seat.old.view (acts.FreeInHand slot) }
    ensures seat { (seat.new.table ≡ seat.old.table) × (seat.new.listed ≡ seat.old.listed) × (seat.new.looked ≡ seat.old.looked) }
    ensures told { Told (shape_of W.WAY table.now) seat.old.view (acts.FreeInHand slot) 0 seat.new.view }
{
    let word = Field::State { slot };
    seat.hand = None;
    let act = Act::FreeInHand { slot };
    let access = Access::Store { number: 0 };
    touch(table, &mut seat.seat, act, word, access);
}

/// Frees a retired slot, which is taken off the list (K15).
pub fn free_retired<W: WaitWords>(table: &CitrusTable<W>, seat: &mut Seat<W>, slot: u32)
    requires table { seat.old.table ≡ table.now }
    requires asks { IsAsked (shape_of W.WAY table.now) seat.old.view (acts.FreeRetired slot) }
    ensures table { seat.new.table ≡ seat.old.table }
    ensures looked { seat.new.looked ≡ seat.old.looked }
    ensures listed { seat.new.listed ≡ unlisted slot seat.old.listed }
    ensures told { Told (shape_of W.WAY table.now) seat.old.view (acts.FreeRetired slot) 0 seat.new.view }
{
    let word = Field::State { slot };
    seat.listed.take_off(slot);
    let act = Act::FreeRetired { slot };
    let access = Access::Store { number: 0 };
    touch(table, &mut seat.seat, act, word, access);
}

/// Adds 1 to the free count (K16).
pub fn count_free<W: WaitWords>(table: &CitrusTable<W>, seat: &mut Seat<W>)
    requires table { seat.old.table ≡ table.now }
    requires asks { IsAsked (shape_of W.WAY table.now) seat.old.view acts.CountFree }
    ensures seat { (seat.new.table ≡ seat.old.table) × (seat.new.listed ≡ seat.old.listed) × (seat.new.looked ≡ seat.old.looked) }
    ensures told { (found : ℕ) × Told (shape_of W.WAY table.now) seat.old.view acts.CountFree found seat.new.view }
{
    let access = Access::Add { number: 1 };
    let found = touch(table, &mut seat.seat, Act::CountFree, Field::Free, access);
    seat.free = found + 1;
}

/// Loads a word of a slot, in a search (K17).
#[inline(always)]
pub fn search_load<W: WaitWords>(
    table: &CitrusTable<W>,
    seat: &mut Seat<W>,
    slot: u32,
    part: Part,
) -> u64
    requires table { seat.old.table ≡ table.now }
    requires asks { IsAsked (shape_of W.WAY table.now) seat.old.view (acts.SearchLoad slot part) }
    ensures seat { (seat.new.table ≡ seat.old.table) × (seat.new.listed ≡ seat.old.listed) × (seat.new.looked ≡ seat.old.looked) }
    ensures told { Told (shape_of W.WAY table.now) seat.old.view (acts.SearchLoad slot part) result seat.new.view }
{
    let word = in_slot(slot, part);
    let act = Act::SearchLoad { slot, part };
    touch(table, &mut seat.seat, act, word, Access::Load)
}

/// Loads a word of a slot, in a listing (K17).
#[inline(always)]
pub fn list_load<W: WaitWords>(
    table: &CitrusTable<W>,
    seat: &mut Seat<W>,
    slot: u32,
    part: Part,
) -> u64
    requires table { seat.old.table ≡ table.now }
    requires asks { IsAsked (shape_of W.WAY table.now) seat.old.view (acts.ListLoad slot part) }
    ensures seat { (seat.new.table ≡ seat.old.table) × (seat.new.listed ≡ seat.old.listed) × (seat.new.looked ≡ seat.old.looked) }
    ensures told { Told (shape_of W.WAY table.now) seat.old.view (acts.ListLoad slot part) result seat.new.view }
{
    let word = in_slot(slot, part);
    let act = Act::ListLoad { slot, part };
    touch(table, &mut seat.seat, act, word, Access::Load)
}

/// Loads a word of a slot under its lock (K18).
#[inline(always)]
pub fn locked_load<W: WaitWords>(
    table: &CitrusTable<W>,
    seat: &mut Seat<W>,
    slot: u32,
    part: Part,
) -> u64
    requires table { seat.old.table ≡ table.now }
    requires asks { IsAsked (shape_of W.WAY table.now) seat.old.view (acts.LockedLoad slot part) }
    ensures seat { (seat.new.table ≡ seat.old.table) × (seat.new.listed ≡ seat.old.listed) × (seat.new.looked ≡ seat.old.looked) }
    ensures told { Told (shape_of W.WAY table.now) seat.old.view (acts.LockedLoad slot part) result seat.new.view }
{
    let word = in_slot(slot, part);
    let act = Act::LockedLoad { slot, part };
    touch(table, &mut seat.seat, act, word, Access::Load)
}

/// Exchanges the front from an even number to the next (K19).
pub fn open_commit<W: WaitWords>(table: &CitrusTable<W>, seat: &mut Seat<W>, expected: u64) -> u64
    requires table { seat.old.table ≡ table.now }
    requires asks { IsAsked (shape_of W.WAY table.now) seat.old.view (acts.OpenCommit expected) }
    ensures seat { (seat.new.table ≡ seat.old.table) × (seat.new.listed ≡ seat.old.listed) × (seat.new.looked ≡ seat.old.looked) }
    ensures told { Told (shape_of W.WAY table.now) seat.old.view (acts.OpenCommit expected) result seat.new.view }
{
    let token = &mut seat.seat;
    let act = Act::OpenCommit { expected };
    let access = Access::Exchange {
        expected,
        number: expected + 1,
    };
    let found = touch(table, token, act, Field::Front, access);
    seat.front = if found == expected {
        expected + 1
    } else {
        found
    };
    found
}

/// Links the slot in hand as a leaf (K20).
pub fn link_leaf<W: WaitWords>(
    table: &CitrusTable<W>,
    seat: &mut Seat<W>,
    slot: u32,
    side: Side,
    leaf: u32,
    key: u64,
    value: u64,
)
    requires table { seat.old.table ≡ table.now }
    requires asks { IsAsked (shape_of W.WAY table.now) seat.old.view (acts.LinkLeaf slot side leaf key value) }
    ensures seat { (seat.new.table ≡ seat.old.table) × (seat.new.listed ≡ seat.old.listed) × (seat.new.looked ≡ seat.old.looked) }
    ensures told { Told (shape_of W.WAY table.now) seat.old.view (acts.LinkLeaf slot side leaf key value) leaf seat.new.view }
{
    let word = Field::Link { slot, side };
    seat.tickets -= 1;
    seat.hand = None;
    let act = Act::LinkLeaf {
        slot,
        side,
        leaf,
        key,
        value,
    };
    let number = leaf as u64;
    touch(table, &mut seat.seat, act, word, Access::Store { number });
}

/// Bypasses a marked node, where child 0 is none (K21).
pub fn bypass<W: WaitWords>(
    table: &CitrusTable<W>,
    seat: &mut Seat<W>,
    parent: u32,
    side: Side,
    node: u32,
    child: u32,
    key: u64,
)
    requires table { seat.old.table ≡ table.now }
    requires asks { IsAsked (shape_of W.WAY table.now) seat.old.view (acts.Bypass parent side node child key) }
    ensures seat { (seat.new.table ≡ seat.old.table) × (seat.new.listed ≡ seat.old.listed) × (seat.new.looked ≡ seat.old.looked) }
    ensures told { Told (shape_of W.WAY table.now) seat.old.view (acts.Bypass parent side node child key) child seat.new.view }
{
    let word = Field::Link { slot: parent, side };
    seat.tickets -= 1;
    let act = Act::Bypass {
        parent,
        side,
        node,
        child,
        key,
    };
    let number = child as u64;
    touch(table, &mut seat.seat, act, word, Access::Store { number });
}

/// Marks a node (K22).
pub fn mark<W: WaitWords>(table: &CitrusTable<W>, seat: &mut Seat<W>, slot: u32, life: u64)
    requires table { seat.old.table ≡ table.now }
    requires asks { IsAsked (shape_of W.WAY table.now) seat.old.view (acts.Mark slot life) }
    ensures seat { (seat.new.table ≡ seat.old.table) × (seat.new.listed ≡ seat.old.listed) × (seat.new.looked ≡ seat.old.looked) }
    ensures told { Told (shape_of W.WAY table.now) seat.old.view (acts.Mark slot life) (life + 1) seat.new.view }
{
    let word = Field::Life { slot };
    let token = &mut seat.seat;
    let access = Access::Store { number: life + 1 };
    touch(table, token, Act::Mark { slot, life }, word, access);
}

/// Raises the tag of a side (K23).
pub fn raise_tag<W: WaitWords>(
    table: &CitrusTable<W>,
    seat: &mut Seat<W>,
    slot: u32,
    side: Side,
    tag: u64,
)
    requires table { seat.old.table ≡ table.now }
    requires fits { tag < 18446744073709551615 }
    requires asks { IsAsked (shape_of W.WAY table.now) seat.old.view (acts.RaiseTag slot side tag) }
    ensures seat { (seat.new.table ≡ seat.old.table) × (seat.new.listed ≡ seat.old.listed) × (seat.new.looked ≡ seat.old.looked) }
    ensures told { Told (shape_of W.WAY table.now) seat.old.view (acts.RaiseTag slot side tag) (tag + 1) seat.new.view }
{
    let word = Field::Tag { slot, side };
    let act = Act::RaiseTag { slot, side, tag };
    let access = Access::Store { number: tag + 1 };
    touch(table, &mut seat.seat, act, word, access);
}

/// Makes the front even again (K24).
pub fn close_commit<W: WaitWords>(table: &CitrusTable<W>, seat: &mut Seat<W>, front: u64)
    requires table { seat.old.table ≡ table.now }
    requires asks { IsAsked (shape_of W.WAY table.now) seat.old.view (acts.CloseCommit front) }
    ensures seat { (seat.new.table ≡ seat.old.table) × (seat.new.listed ≡ seat.old.listed) × (seat.new.looked ≡ seat.old.looked) }
    ensures told { Told (shape_of W.WAY table.now) seat.old.view (acts.CloseCommit front) front seat.new.view }
{
    seat.front = front;
    let act = Act::CloseCommit { front };
    let access = Access::Store { number: front };
    touch(table, &mut seat.seat, act, Field::Front, access);
}

/// Gives the front back: makes it even again without an update (K39).
pub fn give_front_back<W: WaitWords>(table: &CitrusTable<W>, seat: &mut Seat<W>, front: u64)
    requires table { seat.old.table ≡ table.now }
    requires asks { IsAsked (shape_of W.WAY table.now) seat.old.view (acts.GiveFrontBack front) }
    ensures seat { (seat.new.table ≡ seat.old.table) × (seat.new.listed ≡ seat.old.listed) × (seat.new.looked ≡ seat.old.looked) }
    ensures told { Told (shape_of W.WAY table.now) seat.old.view (acts.GiveFrontBack front) front seat.new.view }
{
    seat.front = front;
    let act = Act::GiveFrontBack { front };
    let access = Access::Store { number: front };
    touch(table, &mut seat.seat, act, Field::Front, access);
}

/// Stores that the pairs moved to another table, by who has the front, which stays odd for good (K41). No update comes behind it.
pub fn store_moved<W: WaitWords>(table: &CitrusTable<W>, seat: &mut Seat<W>)
    requires table { seat.old.table ≡ table.now }
    requires asks { IsAsked (shape_of W.WAY table.now) seat.old.view acts.StoreMoved }
    ensures seat { (seat.new.table ≡ seat.old.table) × (seat.new.listed ≡ seat.old.listed) × (seat.new.looked ≡ seat.old.looked) }
    ensures told { Told (shape_of W.WAY table.now) seat.old.view acts.StoreMoved 1 seat.new.view }
{
    let access = Access::Store { number: 1 };
    touch(table, &mut seat.seat, Act::StoreMoved, Field::Moved, access);
}

/// Loads whether the pairs moved to another table (K42): 0 before, 1 from then on. At 1 the seat has seen all updates of this table.
#[inline(always)]
pub fn load_moved<W: WaitWords>(table: &CitrusTable<W>, seat: &mut Seat<W>) -> u64
    requires table { seat.old.table ≡ table.now }
    requires asks { IsAsked (shape_of W.WAY table.now) seat.old.view acts.LoadMoved }
    ensures seat { (seat.new.table ≡ seat.old.table) × (seat.new.listed ≡ seat.old.listed) × (seat.new.looked ≡ seat.old.looked) }
    ensures told { Told (shape_of W.WAY table.now) seat.old.view acts.LoadMoved result seat.new.view }
{
    let word = Field::Moved;
    touch(table, &mut seat.seat, Act::LoadMoved, word, Access::Load)
}

/// Links a copy of the successor, which is the spare, in a node's place (K25).
pub fn link_copy<W: WaitWords>(
    table: &CitrusTable<W>,
    seat: &mut Seat<W>,
    parent: u32,
    side: Side,
    node: u32,
    copy: u32,
    old: u32,
    old_parent: u32,
    key: u64,
    next_key: u64,
)
    requires table { seat.old.table ≡ table.now }
    requires asks { IsAsked (shape_of W.WAY table.now) seat.old.view (acts.LinkCopy parent side node copy old old_parent key next_key) }
    ensures seat { (seat.new.table ≡ seat.old.table) × (seat.new.listed ≡ seat.old.listed) × (seat.new.looked ≡ seat.old.looked) }
    ensures told { Told (shape_of W.WAY table.now) seat.old.view
        (acts.LinkCopy parent side node copy old old_parent key next_key) copy seat.new.view }
{
    let word = Field::Link { slot: parent, side };
    seat.tickets -= 1;
    seat.spare = None;
    let act = Act::LinkCopy {
        parent,
        side,
        node,
        copy,
        old,
        old_parent,
        key,
        next_key,
    };
    let number = copy as u64;
    touch(table, &mut seat.seat, act, word, Access::Store { number });
}

/// Unlinks the old successor from its parent's left (K26).
pub fn unlink_left<W: WaitWords>(
    table: &CitrusTable<W>,
    seat: &mut Seat<W>,
    parent: u32,
    old: u32,
    child: u32,
)
    requires table { seat.old.table ≡ table.now }
    requires asks { IsAsked (shape_of W.WAY table.now) seat.old.view (acts.UnlinkLeft parent old child) }
    ensures seat { (seat.new.table ≡ seat.old.table) × (seat.new.listed ≡ seat.old.listed) × (seat.new.looked ≡ seat.old.looked) }
    ensures told { Told (shape_of W.WAY table.now) seat.old.view (acts.UnlinkLeft parent old child) child seat.new.view }
{
    let word = Field::Link {
        slot: parent,
        side: Side::Left,
    };
    let act = Act::UnlinkLeft { parent, old, child };
    let number = child as u64;
    touch(table, &mut seat.seat, act, word, Access::Store { number });
}

/// Unlinks the old successor from the copy's right (K27).
pub fn unlink_right<W: WaitWords>(
    table: &CitrusTable<W>,
    seat: &mut Seat<W>,
    copy: u32,
    old: u32,
    child: u32,
)
    requires table { seat.old.table ≡ table.now }
    requires asks { IsAsked (shape_of W.WAY table.now) seat.old.view (acts.UnlinkRight copy old child) }
    ensures seat { (seat.new.table ≡ seat.old.table) × (seat.new.listed ≡ seat.old.listed) × (seat.new.looked ≡ seat.old.looked) }
    ensures told { Told (shape_of W.WAY table.now) seat.old.view (acts.UnlinkRight copy old child) child seat.new.view }
{
    let word = Field::Link {
        slot: copy,
        side: Side::Right,
    };
    let act = Act::UnlinkRight { copy, old, child };
    let number = child as u64;
    touch(table, &mut seat.seat, act, word, Access::Store { number });
}

/// Replaces a marked node and its marked child: the spare, with the child's key, is linked in the node's place, and below it the slot in
/// hand, with the node's key (K38).
pub fn rotate<W: WaitWords>(
    table: &CitrusTable<W>,
    seat: &mut Seat<W>,
    parent: u32,
    side: Side,
    node: u32,
    child: u32,
    top: u32,
)
    requires table { seat.old.table ≡ table.now }
    requires asks { IsAsked (shape_of W.WAY table.now) seat.old.view (acts.Rotate parent side node child top) }
    ensures seat { (seat.new.table ≡ seat.old.table) × (seat.new.listed ≡ seat.old.listed) × (seat.new.looked ≡ seat.old.looked) }
    ensures told { Told (shape_of W.WAY table.now) seat.old.view (acts.Rotate parent side node child top) top seat.new.view }
{
    let word = Field::Link { slot: parent, side };
    seat.tickets -= 1;
    seat.hand = None;
    seat.spare = None;
    let act = Act::Rotate {
        parent,
        side,
        node,
        child,
        top,
    };
    let number = top as u64;
    touch(table, &mut seat.seat, act, word, Access::Store { number });
}

/// Replaces a value (K36).
pub fn replace_value<W: WaitWords>(
    table: &CitrusTable<W>,
    seat: &mut Seat<W>,
    slot: u32,
    key: u64,
    value: u64,
)
    requires table { seat.old.table ≡ table.now }
    requires asks { IsAsked (shape_of W.WAY table.now) seat.old.view (acts.ReplaceValue slot key value) }
    ensures seat { (seat.new.table ≡ seat.old.table) × (seat.new.listed ≡ seat.old.listed) × (seat.new.looked ≡ seat.old.looked) }
    ensures told { Told (shape_of W.WAY table.now) seat.old.view (acts.ReplaceValue slot key value) value seat.new.view }
{
    let word = Field::Value { slot };
    seat.tickets -= 1;
    let act = Act::ReplaceValue { slot, key, value };
    let access = Access::Store { number: value };
    touch(table, &mut seat.seat, act, word, access);
}

/// Loads the front, in a section that becomes a listing, or is one (K37).
pub fn look_at_front<W: WaitWords>(table: &CitrusTable<W>, seat: &mut Seat<W>) -> u64
    requires table { seat.old.table ≡ table.now }
    requires asks { IsAsked (shape_of W.WAY table.now) seat.old.view acts.LookAtFront }
    ensures seat { (seat.new.table ≡ seat.old.table) × (seat.new.listed ≡ seat.old.listed) × (seat.new.looked ≡ seat.old.looked) }
    ensures told { Told (shape_of W.WAY table.now) seat.old.view acts.LookAtFront result seat.new.view }
{
    let act = Act::LookAtFront;
    let found = touch(table, &mut seat.seat, act, Field::Front, Access::Load);
    seat.front = found;
    found
}
