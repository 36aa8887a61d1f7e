//! A search in a section, without a lock.
ghost use Rattle.std.specs.Prelude.{◌≡◌, ◌≢◌, ℕ, ◌%◌, true, Option, Some, None};
ghost use Rattle.hash_core.specs.declared.view.SearchState.TheVariants.{Start, Unread, Passed, Found, Ended};
ghost use Rattle.hash_core.specs.declared.view.View.{View};
ghost use Rattle.hash_core.specs.Memory.{is_slot_of};
ghost use Rattle.hash_core.specs.Steps.{IsQuiet};
ghost use Rattle.class_hash.specs.Answers.{IsInformed};
ghost use Rattle.class_hash.specs.Calls.{IsSearching, IsAtLink, Looked};

use crate::seat::HashSeat;
use crate::steps;
use crate::table::HashTable;
use hash_core::Field;
use std::sync::Wait;

/// Looks for the key in a section that is entered and left. The value comes from a front in between.
pub(crate) fn search<R: Wait>(
    rt: &R,
    table: &HashTable,
    seat: &mut HashSeat,
    key: u64,
) -> Option<u64>
    requires table { seat.old.table ≡ table.now.id }
    requires quiet { IsQuiet seat.old.view }
    ensures table { seat.new.table ≡ seat.old.table }
    ensures view { Looked seat.old.view key result seat.new.view }
    ensures informed { IsInformed table.now.capacities table.now.places seat.new.view }
{
    steps::enter(table, seat, key);
    let answer = walk_unlocked(rt, table, seat, key);
    steps::leave(table, seat);
    answer
}

// The value that the search in the open section comes to.
fn walk_unlocked<R: Wait>(rt: &R, table: &HashTable, seat: &mut HashSeat, key: u64) -> Option<u64>
    requires table { seat.old.table ≡ table.now.id }
    requires entered { (before : View) × IsSearching before key Start None seat.old.view }
    ensures table { seat.new.table ≡ seat.old.table }
    ensures ended { (before : View) → IsSearching before key Start None seat.old.view → result ≡ None
        → IsSearching before key Ended None seat.new.view }
    ensures found { (before : View) (value : ℕ) → IsSearching before key Start None seat.old.view → result ≡ Some value
        → (slot : ℕ) × IsSearching before key (Found slot) (Some value) seat.new.view }
{
    let class = (key % 64) as u32;
    let mut link = steps::search_load(table, seat, Field::Head { class });
    for _ in rt.forever() {
        if link == 0 {
            return None;
        }
        let slot = slot_at(table, link);
        if steps::search_load(table, seat, Field::Key { slot }) == key {
            return Some(steps::search_load(table, seat, Field::Value { slot }));
        }
        link = steps::search_load(table, seat, Field::Next { slot });
    }
    unreachable!()
}

/// The slot to which a link leads that isn't 0.
pub(crate) fn slot_at(table: &HashTable, link: u64) -> u32
    requires { (class : ℕ) × (is_slot_of table.now.capacities class link ≡ true) }
    ensures { result ≡ link }
{
    let _inside = &table.table;
    link as u32
}
