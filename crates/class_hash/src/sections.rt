//! Sections: what a reader enters and leaves.
ghost use Rattle.std.specs.Prelude.{◌≡◌, ℕ, Some};
ghost use Rattle.hash_core.specs.declared.view.Section.{Section};
ghost use Rattle.hash_core.specs.Steps.{IsQuiet};
ghost use Rattle.class_hash.specs.Answers.{IsInformed};
ghost use Rattle.hash_core.specs.declared.act.Act.TheVariants as acts;
ghost use Rattle.class_hash.specs.Calls.{Told};

use crate::seat::HashSeat;
use crate::steps;
use crate::table::HashTable;

/// Enters a section with this key. Until the seat leaves it, no slot of the key's class that it may come to is used again.
pub fn enter(table: &HashTable, seat: &mut HashSeat, key: u64)
    requires table { seat.old.table ≡ table.now.id }
    requires quiet { IsQuiet seat.old.view }
    ensures table { seat.new.table ≡ seat.old.table }
    ensures view { (found : ℕ) × Told table.now seat.old.view (acts.Enter key) found seat.new.view }
    ensures inside { (section : Section) × (seat.new.view.section ≡ Some section) × (section.key ≡ key) }
{
    steps::enter(table, seat, key);
}

/// Leaves the open section.
pub fn leave(table: &HashTable, seat: &mut HashSeat)
    requires table { seat.old.table ≡ table.now.id }
    requires inside { (section : Section) × (seat.old.view.section ≡ Some section) }
    ensures table { seat.new.table ≡ seat.old.table }
    ensures view { (found : ℕ) × Told table.now seat.old.view acts.Leave found seat.new.view }
    ensures informed { IsInformed table.now.capacities table.now.places seat.new.view }
{
    steps::leave(table, seat);
}
