//! One call for each step, by its name among the acts of `hash_core`. Each makes one atomic step, and tells the view after it, and what
//! the seat gained from the rule. The load that a join makes stands with the join.
ghost use Rattle.std.specs.Prelude.{◌≡◌, ◌+◌, ◌≤◌};
ghost use Rattle.prcu_marks.specs.Marks.{most_front};
ghost use Rattle.hash_core.specs.declared.act.Act.TheVariants as acts;
ghost use Rattle.hash_core.specs.Steps.{Needs};
ghost use Rattle.class_hash.specs.Calls.{Told};

use crate::access::touch;
use crate::seat::{Bucket, HashSeat, Stock};
use crate::stocks::{remember, stock_of};
use crate::table::HashTable;
use hash_core::{Act, Field, index_of};
use prcu_marks::Access;

/// Adds 1 to the readers of the key's class: a section is entered (H3).
pub(crate) fn enter(table: &HashTable, seat: &mut HashSeat, key: u64) -> u64
    requires table { seat.old.table ≡ table.now.id }
    requires asks { Needs table.now.capacities seat.old.view (acts.Enter key) }
    ensures table { seat.new.table ≡ seat.old.table }
    ensures told { Told table.now seat.old.view (acts.Enter key) result seat.new.view }
{
    let class = (key % 64) as u32;
    seat.key = Some(key);
    let word = index_of(Field::Readers { class });
    let access = Access::Add { number: 1 };
    touch(table, &mut seat.seat, Act::Enter { key }, word, access)
}

/// Takes 1 from the readers of the section's class: it is left (H4).
pub(crate) fn leave(table: &HashTable, seat: &mut HashSeat) -> u64
    requires table { seat.old.table ≡ table.now.id }
    requires asks { Needs table.now.capacities seat.old.view acts.Leave }
    ensures table { seat.new.table ≡ seat.old.table }
    ensures told { Told table.now seat.old.view acts.Leave result seat.new.view }
{
    let class = seat.class_read();
    seat.key = None;
    let word = index_of(Field::Readers { class });
    let access = Access::Subtract { number: 1 };
    touch(table, &mut seat.seat, Act::Leave, word, access)
}

/// Loads the head of the section's class, or a field of the slot at which its search stands (H5).
pub(crate) fn search_load(table: &HashTable, seat: &mut HashSeat, field: Field) -> u64
    requires table { seat.old.table ≡ table.now.id }
    requires asks { Needs table.now.capacities seat.old.view (acts.SearchLoad field) }
    ensures table { seat.new.table ≡ seat.old.table }
    ensures told { Told table.now seat.old.view (acts.SearchLoad field) result seat.new.view }
{
    let word = index_of(field);
    touch(
        table,
        &mut seat.seat,
        Act::SearchLoad { field },
        word,
        Access::Load,
    )
}

/// Exchanges the lock of a class from 0 to the place plus 1 (H6).
pub(crate) fn lock(table: &HashTable, seat: &mut HashSeat, class: u32) -> u64
    requires table { seat.old.table ≡ table.now.id }
    requires asks { Needs table.now.capacities seat.old.view (acts.Lock class) }
    ensures table { seat.new.table ≡ seat.old.table }
    ensures told { Told table.now seat.old.view (acts.Lock class) result seat.new.view }
{
    let word = index_of(Field::Lock { class });
    let mine = seat.place as u64 + 1;
    let access = Access::Exchange {
        expected: 0,
        number: mine,
    };
    let found = touch(table, &mut seat.seat, Act::Lock { class }, word, access);
    if found == 0 {
        seat.bucket = Some(Bucket {
            class,
            free: None,
            retired: None,
        });
    }
    found
}

/// Gives the lock up (H7).
pub(crate) fn unlock(table: &HashTable, seat: &mut HashSeat)
    requires table { seat.old.table ≡ table.now.id }
    requires asks { Needs table.now.capacities seat.old.view acts.Unlock }
    ensures table { seat.new.table ≡ seat.old.table }
    ensures told { Told table.now seat.old.view acts.Unlock 0 seat.new.view }
{
    let class = seat.class_held();
    seat.bucket = None;
    let word = index_of(Field::Lock { class });
    let access = Access::Store { number: 0 };
    touch(table, &mut seat.seat, Act::Unlock, word, access);
}

/// Loads the readers of the class under its lock (H8).
pub(crate) fn load_readers(table: &HashTable, seat: &mut HashSeat) -> u64
    requires table { seat.old.table ≡ table.now.id }
    requires asks { Needs table.now.capacities seat.old.view acts.LoadReaders }
    ensures table { seat.new.table ≡ seat.old.table }
    ensures told { Told table.now seat.old.view acts.LoadReaders result seat.new.view }
{
    let class = seat.class_held();
    let word = index_of(Field::Readers { class });
    touch(table, &mut seat.seat, Act::LoadReaders, word, Access::Load)
}

/// Loads another word of the class under its lock, or one of a slot of it (H9).
pub(crate) fn locked_load(table: &HashTable, seat: &mut HashSeat, field: Field) -> u64
    requires table { seat.old.table ≡ table.now.id }
    requires asks { Needs table.now.capacities seat.old.view (acts.LockedLoad field) }
    ensures table { seat.new.table ≡ seat.old.table }
    ensures told { Told table.now seat.old.view (acts.LockedLoad field) result seat.new.view }
{
    let word = index_of(field);
    let found = touch(
        table,
        &mut seat.seat,
        Act::LockedLoad { field },
        word,
        Access::Load,
    );
    remember(&mut seat.bucket, stock_of(&field), found);
    found
}

/// Stores the next free slot in the free word: the first comes into the hand (H10).
pub(crate) fn take_slot(table: &HashTable, seat: &mut HashSeat, slot: u32, next: u64)
    requires table { seat.old.table ≡ table.now.id }
    requires asks { Needs table.now.capacities seat.old.view (acts.TakeSlot slot next) }
    ensures table { seat.new.table ≡ seat.old.table }
    ensures told { Told table.now seat.old.view (acts.TakeSlot slot next) next seat.new.view }
{
    let class = seat.class_held();
    remember(&mut seat.bucket, Some(Stock::Free), next);
    let word = index_of(Field::Free { class });
    let act = Act::TakeSlot { slot, next };
    let access = Access::Store { number: next };
    touch(table, &mut seat.seat, act, word, access);
}

/// Stores 0 in the retired word: the retired list comes into the hand (H10).
pub(crate) fn take_retired(table: &HashTable, seat: &mut HashSeat, slot: u64)
    requires table { seat.old.table ≡ table.now.id }
    requires asks { Needs table.now.capacities seat.old.view (acts.TakeRetired slot) }
    ensures table { seat.new.table ≡ seat.old.table }
    ensures told { Told table.now seat.old.view (acts.TakeRetired slot) 0 seat.new.view }
{
    let class = seat.class_held();
    remember(&mut seat.bucket, Some(Stock::Retired), 0);
    let word = index_of(Field::Retired { class });
    let access = Access::Store { number: 0 };
    touch(
        table,
        &mut seat.seat,
        Act::TakeRetired { slot },
        word,
        access,
    );
}

/// Makes the list in hand the free list (H10).
pub(crate) fn free_retired(table: &HashTable, seat: &mut HashSeat, slot: u64)
    requires table { seat.old.table ≡ table.now.id }
    requires asks { Needs table.now.capacities seat.old.view (acts.FreeRetired slot) }
    ensures table { seat.new.table ≡ seat.old.table }
    ensures told { Told table.now seat.old.view (acts.FreeRetired slot) slot seat.new.view }
{
    let class = seat.class_held();
    remember(&mut seat.bucket, Some(Stock::Free), slot);
    let word = index_of(Field::Free { class });
    let access = Access::Store { number: slot };
    touch(
        table,
        &mut seat.seat,
        Act::FreeRetired { slot },
        word,
        access,
    );
}

/// Stores the chain of the slot unlinked (H10).
pub(crate) fn store_chain(table: &HashTable, seat: &mut HashSeat, slot: u32, number: u64)
    requires table { seat.old.table ≡ table.now.id }
    requires asks { Needs table.now.capacities seat.old.view (acts.StoreChain slot number) }
    ensures table { seat.new.table ≡ seat.old.table }
    ensures told { Told table.now seat.old.view (acts.StoreChain slot number) number seat.new.view }
{
    let word = index_of(Field::Chain { slot });
    let act = Act::StoreChain { slot, number };
    let access = Access::Store { number };
    touch(table, &mut seat.seat, act, word, access);
}

/// Makes the slot unlinked the first of the retired list (H10).
pub(crate) fn retire(table: &HashTable, seat: &mut HashSeat, slot: u32)
    requires table { seat.old.table ≡ table.now.id }
    requires asks { Needs table.now.capacities seat.old.view (acts.Retire slot) }
    ensures table { seat.new.table ≡ seat.old.table }
    ensures told { Told table.now seat.old.view (acts.Retire slot) slot seat.new.view }
{
    let class = seat.class_held();
    let first = slot as u64;
    remember(&mut seat.bucket, Some(Stock::Retired), first);
    let word = index_of(Field::Retired { class });
    let access = Access::Store { number: first };
    touch(table, &mut seat.seat, Act::Retire { slot }, word, access);
}

/// Stores a field of the slot taken (H11).
pub(crate) fn fill(table: &HashTable, seat: &mut HashSeat, field: Field, number: u64)
    requires table { seat.old.table ≡ table.now.id }
    requires asks { Needs table.now.capacities seat.old.view (acts.Fill field number) }
    ensures table { seat.new.table ≡ seat.old.table }
    ensures told { Told table.now seat.old.view (acts.Fill field number) number seat.new.view }
{
    let word = index_of(field);
    let act = Act::Fill { field, number };
    let access = Access::Store { number };
    touch(table, &mut seat.seat, act, word, access);
}

/// Exchanges the front from an even number to the next (H12).
pub(crate) fn open_commit(table: &HashTable, seat: &mut HashSeat, even: u64) -> u64
    requires table { seat.old.table ≡ table.now.id }
    requires asks { Needs table.now.capacities seat.old.view (acts.OpenCommit even) }
    requires small { even ≤ most_front + 1 }
    ensures table { seat.new.table ≡ seat.old.table }
    ensures told { Told table.now seat.old.view (acts.OpenCommit even) result seat.new.view }
{
    let act = Act::OpenCommit { even };
    let word = index_of(Field::Front);
    let access = Access::Exchange {
        expected: even,
        number: even + 1,
    };
    touch(table, &mut seat.seat, act, word, access)
}

/// Links the slot taken, with this key and value, at the head (H13).
pub(crate) fn link_slot(table: &HashTable, seat: &mut HashSeat, slot: u32, key: u64, value: u64)
    requires table { seat.old.table ≡ table.now.id }
    requires asks { Needs table.now.capacities seat.old.view (acts.LinkSlot slot key value) }
    ensures table { seat.new.table ≡ seat.old.table }
    ensures told { Told table.now seat.old.view (acts.LinkSlot slot key value) slot seat.new.view }
{
    let class = seat.class_held();
    seat.tickets -= 1;
    let word = index_of(Field::Head { class });
    let act = Act::LinkSlot { slot, key, value };
    let access = Access::Store {
        number: slot as u64,
    };
    touch(table, &mut seat.seat, act, word, access);
}

/// Stores the next of a slot in the link to it, which unlinks it (H14).
pub(crate) fn unlink_slot(
    table: &HashTable,
    seat: &mut HashSeat,
    link: Field,
    slot: u32,
    key: u64,
    next: u64,
)
    requires table { seat.old.table ≡ table.now.id }
    requires asks { Needs table.now.capacities seat.old.view (acts.UnlinkSlot link slot key next) }
    ensures table { seat.new.table ≡ seat.old.table }
    ensures told { Told table.now seat.old.view (acts.UnlinkSlot link slot key next) next seat.new.view }
{
    seat.tickets -= 1;
    let word = index_of(link);
    let act = Act::UnlinkSlot {
        link,
        slot,
        key,
        next,
    };
    let access = Access::Store { number: next };
    touch(table, &mut seat.seat, act, word, access);
}

/// Stores another value of a key that is present (H15).
pub(crate) fn replace_value(table: &HashTable, seat: &mut HashSeat, slot: u32, key: u64, value: u64)
    requires table { seat.old.table ≡ table.now.id }
    requires asks { Needs table.now.capacities seat.old.view (acts.ReplaceValue slot key value) }
    ensures table { seat.new.table ≡ seat.old.table }
    ensures told { Told table.now seat.old.view (acts.ReplaceValue slot key value) value seat.new.view }
{
    seat.tickets -= 1;
    let word = index_of(Field::Value { slot });
    let act = Act::ReplaceValue { slot, key, value };
    let access = Access::Store { number: value };
    touch(table, &mut seat.seat, act, word, access);
}

/// Stores the next even number in the front (H16).
pub(crate) fn close_commit(table: &HashTable, seat: &mut HashSeat, front: u64)
    requires table { seat.old.table ≡ table.now.id }
    requires asks { Needs table.now.capacities seat.old.view (acts.CloseCommit front) }
    ensures table { seat.new.table ≡ seat.old.table }
    ensures told { Told table.now seat.old.view (acts.CloseCommit front) front seat.new.view }
{
    let word = index_of(Field::Front);
    let act = Act::CloseCommit { front };
    let access = Access::Store { number: front };
    touch(table, &mut seat.seat, act, word, access);
}
