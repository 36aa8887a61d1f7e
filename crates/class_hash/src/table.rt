//! The table, and how it is made.
ghost use Rattle.std.specs.Prelude.{◌≡◌, ◌+◌, ◌*◌, ◌<◌, ◌≤◌, ◌∷◌, ◌++◌, [], IfOk, length, sum};
ghost use Rattle.prcu_marks.specs.Marks.{most_tickets};
ghost use Rattle.hash_core.specs.Memory.{base};
ghost use Rattle.class_hash.specs.Seats.{IsFresh, class_words, first_link, next_link, fresh_seat, HasClasses, HasSlots, HasClassSlots};
ghost use Rattle.class_hash.specs.Answers.{IsInformed};

use crate::rule::{Nothing, Ruled};
use crate::seat::HashSeat;
use atomic_table::Table;
use hash_core::layout::{CLASS_BASE, CLASS_ROOM, SLOT_BASE, SLOT_WORDS};
use hash_core::{Shape, View};
use prcu_model::NoMemory;
use std::alloc::{AllocError, Global};
use std::marker::Model;

/// The buckets of a hash dictionary, for callers that each step with a seat of their own.
#[derive(Drop)]
pub struct HashTable {
    pub(crate) table: Table<Nothing, View, Shape, Ruled, Global>,
}

impl Model for HashTable {
    ghost use Rattle.std.specs.Prelude.{◌≡◌};
    ghost use Rattle.hash_core.specs.Rule.{IsShape};
    ghost use Rattle.hash_core.specs.Memory.{word_count};
    ghost use Rattle.class_hash.specs.Seats.{TableAt};

    ghost Value = { TableAt };

    ghost view = { λ t. record {
      id = t.table.shared.table_id;
      capacities = t.table.shared.key.capacities.items;
      places = t.table.shared.key.places;
      tickets = t.table.shared.key.tickets;
    } };

    ghost invariant = { λ t. (t.table.shared.table_id.words ≡ word_count t.table.shared.key.capacities.items)
        × IsShape t.table.shared.key.capacities.items t.table.shared.key.places t.table.shared.key.tickets };
}

fn first_link_of(before: u32, room: u32) -> u64
    requires { before < 2097153 }
    ensures { result ≡ first_link before room }
{
    if room == 0 { 0 } else { before as u64 + 1 }
}

fn next_link_of(before: u32, room: u32, i: u32) -> u64
    requires { (before < 2097153) × (i < room) × (room < 2097153) }
    ensures { result ≡ next_link before room i }
{
    if i + 1 == room {
        0
    } else {
        before as u64 + i as u64 + 2
    }
}

fn add_class(words: &mut Vec<u64>, free: u64) -> Result<(), AllocError>
    ensures { IfOk result (λ _. words.new.items ≡ words.old.items ++ class_words free) }
{
    words.extend_from_slice(&[0, 0, 0, free, 0])?;
    words.extend_from_slice(&[0; CLASS_ROOM])
}

fn add_slot(words: &mut Vec<u64>, chain: u64) -> Result<(), AllocError>
    ensures { IfOk result (λ _. words.new.items ≡ words.old.items ++ 0 ∷ 0 ∷ 0 ∷ chain ∷ []) }
{
    words.extend_from_slice(&[0, 0, 0, chain])
}

/// The front and the words of the classes, with the room before and behind each.
fn add_classes(words: &mut Vec<u64>, capacities: &[u32]) -> Result<(), AllocError>
    requires empty { words.old.items ≡ [] }
    requires slots { sum capacities.now ≤ 2097152 }
    ensures { IfOk result (λ _. HasClasses capacities.now (length capacities.now) words.new.items) }
{
    words.extend_from_slice(&[0; CLASS_BASE])?;
    let mut before = 0;
    for room in capacities {
        add_class(words, first_link_of(before, *room))?;
        before += *room;
    }
    Ok(())
}

/// The words of the slots of one class, which come after `before` slots of others.
fn add_slots(words: &mut Vec<u64>, before: u32, room: u32) -> Result<(), AllocError>
    requires before { length words.old.items ≡ SLOT_BASE + SLOT_WORDS * (before + 1) }
    requires slots { before + room ≤ 2097152 }
    ensures { IfOk result (λ _. HasSlots before room room words.old.items words.new.items) }
{
    for i in 0..room {
        add_slot(words, next_link_of(before, room, i))?;
    }
    Ok(())
}

/// The words of all slots.
fn add_all_slots(words: &mut Vec<u64>, capacities: &[u32]) -> Result<(), AllocError>
    requires classes { length words.old.items ≡ SLOT_BASE + SLOT_WORDS }
    requires slots { sum capacities.now ≤ 2097152 }
    ensures { IfOk result (λ _. HasClassSlots capacities.now (length capacities.now) words.old.items words.new.items) }
{
    let mut before = 0;
    for room in capacities {
        add_slots(words, before, *room)?;
        before += *room;
    }
    Ok(())
}

fn first_words(alloc: Global, capacities: &[u32]) -> Result<Vec<u64>, AllocError>
    requires classes { length capacities.now ≡ 64 }
    requires slots { sum capacities.now ≤ 2097152 }
    ensures { IfOk result (λ words. IsFresh capacities.now words.items) }
{
    let mut words = Vec::new(alloc);
    add_classes(&mut words, capacities)?;
    add_all_slots(&mut words, capacities)?;
    Ok(words)
}

impl HashTable {
    /// A table whose class `c` owns `capacities[c]` slots, all of them free, and the one seat on it, which works at place
    /// 0 and has all other places unused and all tickets: one for each update. `NoMemory` comes where there was none.
    pub fn new(
        alloc: Global,
        capacities: &[u32],
        places: u32,
        tickets: u64,
    ) -> Result<(HashTable, HashSeat), NoMemory>
        requires classes { length capacities.now ≡ 64 }
        requires slots { sum capacities.now ≤ 2097152 }
        requires places { (1 ≤ places) × (places ≤ 64) }
        requires tickets { tickets ≤ most_tickets }
        ensures made { IfOk result (λ made. (made.0.capacities ≡ capacities.now) × (made.0.places ≡ places) × (made.0.tickets ≡ tickets)
            × (made.1 ≡ fresh_seat made.0)) }
        ensures informed { IfOk result (λ made. IsInformed made.0.capacities made.0.places made.1.view) }
    {
        let shape = Shape {
            capacities: capacities.to_vec(alloc)?,
            places,
            tickets,
        };
        let words = first_words(alloc, capacities)?;
        let (table, seat) = Table::of_words(alloc, words.as_slice(), &shape)?;
        let seat = HashSeat {
            seat,
            place: 0,
            places,
            tickets,
            key: None,
            bucket: None,
        };
        Ok((HashTable { table }, seat))
    }
}
