//! The calls of the dictionary.
ghost use Rattle.std.specs.Prelude.{◌≡◌, ◌≤◌, ◌%◌, ◌↔◌};
ghost use Rattle.prcu_model.specs.declared.operation.Reply.TheVariants.{Full};
ghost use Rattle.hash_core.specs.Steps.{IsQuiet};
ghost use Rattle.class_hash.specs.Answers.{IsInformed};
ghost use Rattle.class_hash.specs.Calls.{LoadsBothEmpty, BeginsByLookup};
ghost use Rattle.class_hash.specs.Replies.{Gets, told_added, Puts, Sets, Dels};

use crate::bucket::free_bucket;
use crate::puts::add;
use crate::search::search;
use crate::seat::HashSeat;
use crate::table::HashTable;
use crate::updates::{lock_bucket, replace, unlink};
use crate::walk::{lacks, walk_locked};
use prcu_model::{Reply, Told};
use std::sync::Wait;

fn told(reply: Reply, number: u64) -> Told
    ensures { result ≡ record { reply = reply; number = number } }
{
    Told { reply, number }
}

fn told_added(added: Option<u64>) -> Told
    ensures { result ≡ told_added added }
{
    match added {
        Some(number) => told(Reply::New, number),
        None => told(Reply::Full, 0),
    }
}

/// The key's value, or `Absent`, as the dictionary gave it at some time of the call. It waits for nobody's step, but others'
/// updates can make the search longer.
pub fn get<R: Wait>(rt: &R, table: &HashTable, seat: &mut HashSeat, key: u64) -> Told
    requires table { seat.old.table ≡ table.now.id }
    requires quiet { IsQuiet seat.old.view }
    ensures table { seat.new.table ≡ seat.old.table }
    ensures view { Gets seat.old.view key result seat.new.view }
    ensures informed { IsInformed table.now.capacities table.now.places seat.new.view }
    ensures quiet { IsQuiet seat.new.view }
{
    match search(rt, table, seat, key) {
        Some(value) => told(Reply::Val { value }, 0),
        None => told(Reply::Absent, 0),
    }
}

/// Adds the pair, where the key is absent: `New` with the update's position. `Old` where the key is present, as at `get`, and
/// `Full` where no slot of the key's class is free or retired. It waits for the holder of the bucket's lock, for other
/// updates, and, where no slot is free, for the sections of the class that are open.
pub fn put<R: Wait>(rt: &R, table: &HashTable, seat: &mut HashSeat, key: u64, value: u64) -> Told
    requires table { seat.old.table ≡ table.now.id }
    requires quiet { IsQuiet seat.old.view }
    requires ticket { 1 ≤ seat.old.view.tickets }
    ensures table { seat.new.table ≡ seat.old.table }
    ensures view { Puts table.now.capacities seat.old.view key value result seat.new.view }
    ensures full { (result.reply ≡ Full) ↔ LoadsBothEmpty (key % 64) seat.old.view.trail seat.new.view.trail }
    ensures begins { BeginsByLookup key seat.old.view.trail seat.new.view.trail }
    ensures informed { IsInformed table.now.capacities table.now.places seat.new.view }
    ensures quiet { IsQuiet seat.new.view }
{
    for _ in rt.forever() {
        if search(rt, table, seat, key).is_some() {
            return told(Reply::Old, 0);
        }
        lock_bucket(rt, table, seat, (key % 64) as u32);
        if lacks(rt, table, seat, key) {
            return told_added(add(rt, table, seat, key, value));
        }
        free_bucket(table, seat);
    }
    unreachable!()
}

/// Gives the key another value, where it is present: `Was` with the old value and the update's position. `Absent` as at
/// `get`. It waits for the holder of the bucket's lock and for other updates.
pub fn set<R: Wait>(rt: &R, table: &HashTable, seat: &mut HashSeat, key: u64, value: u64) -> Told
    requires table { seat.old.table ≡ table.now.id }
    requires quiet { IsQuiet seat.old.view }
    requires ticket { 1 ≤ seat.old.view.tickets }
    ensures table { seat.new.table ≡ seat.old.table }
    ensures view { Sets seat.old.view key value result seat.new.view }
    ensures begins { BeginsByLookup key seat.old.view.trail seat.new.view.trail }
    ensures informed { IsInformed table.now.capacities table.now.places seat.new.view }
    ensures quiet { IsQuiet seat.new.view }
{
    for _ in rt.forever() {
        if search(rt, table, seat, key).is_none() {
            return told(Reply::Absent, 0);
        }
        lock_bucket(rt, table, seat, (key % 64) as u32);
        if let Some(place) = walk_locked(rt, table, seat, key) {
            let (old, number) = replace(rt, table, seat, place.slot, key, value);
            return told(Reply::Was { value: old }, number);
        }
        free_bucket(table, seat);
    }
    unreachable!()
}

/// Takes the key out, where it is present: `Gone` with the update's position. `Absent` as at `get`. It waits for the holder
/// of the bucket's lock and for other updates.
pub fn del<R: Wait>(rt: &R, table: &HashTable, seat: &mut HashSeat, key: u64) -> Told
    requires table { seat.old.table ≡ table.now.id }
    requires quiet { IsQuiet seat.old.view }
    requires ticket { 1 ≤ seat.old.view.tickets }
    ensures table { seat.new.table ≡ seat.old.table }
    ensures view { Dels seat.old.view key result seat.new.view }
    ensures begins { BeginsByLookup key seat.old.view.trail seat.new.view.trail }
    ensures informed { IsInformed table.now.capacities table.now.places seat.new.view }
    ensures quiet { IsQuiet seat.new.view }
{
    for _ in rt.forever() {
        if search(rt, table, seat, key).is_none() {
            return told(Reply::Absent, 0);
        }
        lock_bucket(rt, table, seat, (key % 64) as u32);
        if let Some(place) = walk_locked(rt, table, seat, key) {
            let number = unlink(rt, table, seat, place.previous, place.slot, key);
            return told(Reply::Gone, number);
        }
        free_bucket(table, seat);
    }
    unreachable!()
}
