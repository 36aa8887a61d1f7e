//! A history that is replayed once, and then answers for the dictionary at any front.
ghost use Rattle.std.specs.Prelude.{◌≡◌, ℕ, ◌+◌, ◌-◌, ◌<◌, ◌≤◌, ◌↔◌, IsTrue, IfOk, IfNone, IfSome, ◌++◌, length, slice_get, slice_index, All};
ghost use Rattle.std.specs.FinMap as map;
ghost use Rattle.prcu_model.specs.Dictionary.{Dictionary, updated, key_of, map_at, map_of, IsUpdateAt, IsLegal, Confirms};
ghost use Rattle.prcu_model.specs.Fronts.{MayStand, IsLeastFor};
ghost use Rattle.account_text.specs.Judging.{line_of, IsUpTo, IsOrdered, asks_for_room, IsShown, IsFilled, ExplainsFrom, IsPast, IsFirstShown, IsChangeOf, AreAllChanged, value_for};

use crate::key_index::{Change, KeyIndex};
use prcu_model::{NoMemory, Op, PlainMap, Reply, Told, Update};
use std::alloc::Global;
use std::marker::Model;

// The key that the operation asks for.
fn key_of(op: Op) -> u64
    ensures { result ≡ key_of op }
{
    match op {
        Op::Put { key, .. } | Op::Get { key } | Op::Del { key } | Op::Set { key, .. } => key,
    }
}

// Whether the reply says that no slot is left for a put.
fn asks_for_room(op: Op, reply: Reply) -> bool
    ensures { result ≡ asks_for_room op reply }
{
    matches!((op, reply), (Op::Put { .. }, Reply::Full))
}

// Whether so many pairs, with twenty slots for each other script, fill the slots.
fn are_filled(pairs: u64, scripts: u32, slots: u32) -> bool
    ensures { IsTrue result ↔ IsFilled (record { scripts = scripts; slots = slots }) pairs }
{
    let reserved = 20 * u64::from(scripts.saturating_sub(1));
    u64::from(slots) <= pairs.saturating_add(reserved)
}

// Whether the reply is given where the operation's key has this value, and changes nothing there.
fn is_shown(op: Op, reply: Reply, value: Option<u64>) -> bool
    ensures { IsTrue result ↔ IsShown op reply value }
{
    match (op, reply) {
        (Op::Get { .. }, Reply::Val { value: told }) => value == Some(told),
        (Op::Get { .. } | Op::Del { .. } | Op::Set { .. }, Reply::Absent) => value.is_none(),
        (Op::Put { .. }, Reply::Old) => value.is_some(),
        _ => false,
    }
}

// The changes at lower keys, or at the key and no later than the front, and the others.
fn split_changes(changes: &[Change], key: u64, front: u64) -> (&[Change], &[Change])
    requires { IsOrdered changes.now }
    ensures parts { changes.now ≡ result.0.now ++ result.1.now }
    ensures until { All (IsUpTo key front) result.0.now }
    ensures later { All (IsPast key front) result.1.now }
{
    let count = changes.partition_point(|change| {
        change.key < key || change.key == key && change.position <= front
    });
    changes.split_at(count)
}

// The value that the last of the changes left, if it is at the key.
fn last_value(changes: &[Change], key: u64) -> Option<u64>
    ensures { result ≡ value_for key (slice_get changes.now (length changes.now - 1)) }
{
    let last = changes.last()?;
    if last.key == key { last.value } else { None }
}

// The position of the first change of the key that shows the reply, where no change is at a lower key.
fn first_shown(changes: &[Change], key: u64, op: Op, reply: Reply) -> Option<u64>
    requires ordered { IsOrdered changes.now }
    requires from { All (λ change. key ≤ change.key) changes.now }
    ensures none { IfNone result (All (λ change. change.key ≡ key → IsShown op reply change.value → ⊥) changes.now) }
    ensures first { IfSome result (IsFirstShown changes.now key op reply) }
{
    for change in changes {
        if change.key != key {
            return None;
        }
        if is_shown(op, reply, change.value) {
            return Some(change.position);
        }
    }
    None
}

// The first of these numbers of pairs that fills the slots, counted from 0.
fn first_filled(sizes: &[u64], scripts: u32, slots: u32) -> Option<u64>
    ensures none { IfNone result ((i : ℕ) → i < length sizes.now
        → IsFilled (record { scripts = scripts; slots = slots }) (slice_index sizes.now i) → ⊥) }
    ensures within { IfSome result (λ first. first < length sizes.now) }
    ensures filled { IfSome result (λ first. IsFilled (record { scripts = scripts; slots = slots }) (slice_index sizes.now first)) }
    ensures first { IfSome result (λ first. (i : ℕ) → i < first
        → IsFilled (record { scripts = scripts; slots = slots }) (slice_index sizes.now i) → ⊥) }
{
    for (i, pairs) in sizes.iter().enumerate() {
        if are_filled(*pairs, scripts, slots) {
            return Some(i as u64);
        }
    }
    None
}

// Whether the operation was an update, by the dictionary's size before and after it and the value that it left at its key.
fn was_update(op: Op, before: u64, after: u64, value: Option<u64>) -> bool
    ensures { (m : Dictionary) → before ≡ map.len m → after ≡ map.len (updated m op) → value ≡ map.get (updated m op) (key_of op)
        → IsTrue result ↔ IsUpdateAt m op }
{
    match op {
        Op::Put { .. } => before < after,
        Op::Get { .. } => false,
        Op::Del { .. } => after < before,
        Op::Set { .. } => value.is_some(),
    }
}

/// What one replay of a history gathers: the dictionary's size at each front, the change of each update, the dictionary at the last
/// front, and whether each update was one.
#[derive(Drop)]
pub struct Replayed {
    pub sizes: Vec<u64>,
    pub changes: Vec<Change>,
    pub last: PlainMap,
    pub legal: bool,
}

/// Replays the history.
pub fn replay(alloc: Global, history: &[Update]) -> Result<Replayed, NoMemory>
    ensures fronts { IfOk result (λ all. length all.sizes.items ≡ length history.now + 1) }
    ensures sizes { IfOk result (λ all. (front : ℕ) → front ≤ length history.now
        → slice_index all.sizes.items front ≡ map.len (map_at history.now front)) }
    ensures right { IfOk result (λ all. All (IsChangeOf history.now) all.changes.items) }
    ensures whole { IfOk result (λ all. AreAllChanged all.changes.items (length history.now)) }
    ensures last { IfOk result (λ all. all.last ≡ map_at history.now (length history.now)) }
    ensures legal { IfOk result (λ all. IsTrue all.legal ↔ IsLegal history.now) }
{
    let mut map = PlainMap::new(alloc);
    let mut legal = true;
    let mut sizes = Vec::with_capacity(alloc, history.len() + 1)?;
    let mut changes = Vec::with_capacity(alloc, history.len())?;
    sizes.push(map.len())?;
    for (i, update) in history.iter().enumerate() {
        let before = map.len();
        map.update(update.op)?;
        let after = map.len();
        let key = key_of(update.op);
        let value = map.get(key);
        legal &= was_update(update.op, before, after, value);
        sizes.push(after)?;
        changes.push(Change {
            key,
            position: i as u64 + 1,
            value,
        })?;
    }
    Ok(Replayed {
        sizes,
        changes,
        last: map,
        legal,
    })
}

// A history with the dictionary's size at each front, the changes of each key, the dictionary at the last front, and whether the
// history is legal. So many scripts share so many slots.
#[derive(Drop)]
pub struct Timeline<'a> {
    history: &'a [Update],
    scripts: u32,
    slots: u32,
    sizes: Vec<u64>,
    changes: KeyIndex,
    last: PlainMap,
    legal: bool,
}

impl<'a> Model for Timeline<'a> {
    ghost use Rattle.account_text.specs.Judging.{Course, IsIndexed};

    ghost Value = { Course };

    ghost view = { λ t. record {
      room = record { scripts = t.scripts; slots = t.slots };
      history = t.history.now;
    } };

    ghost use Rattle.std.specs.Prelude.{◌≡◌, ◌↔◌, IsTrue, length};
    ghost use Rattle.prcu_model.specs.Dictionary.{IsLegal, map_at};

    ghost invariant = { λ t. IsIndexed t.history.now t.sizes.items t.changes × (t.last ≡ map_at t.history.now (length t.history.now))
        × (IsTrue t.legal ↔ IsLegal t.history.now) };
}

impl<'a> Timeline<'a> {
    /// Replays the history, of which nothing is asked. The time is that of the replay, and of putting the changes in
    /// buckets by their keys.
    pub fn new(
        alloc: Global,
        history: &'a [Update],
        scripts: u32,
        slots: u32,
    ) -> Result<Timeline<'a>, NoMemory>
        ensures { IfOk result (λ timeline. timeline ≡ record {
          room = record { scripts = scripts; slots = slots };
          history = history.now;
        }) }
    {
        let Replayed {
            sizes,
            changes,
            last,
            legal,
        } = replay(alloc, history)?;
        Ok(Timeline {
            history,
            scripts,
            slots,
            sizes,
            changes: KeyIndex::new(alloc, changes)?,
            last,
            legal,
        })
    }

    /// The history.
    pub fn history(&self) -> &[Update]
        ensures { result.now ≡ self.now.history }
    {
        self.history
    }

    /// Whether the history is legal (`is_legal`). The replay has found it out.
    pub fn is_legal(&self) -> bool
        ensures { IsTrue result ↔ IsLegal self.now.history }
    {
        self.legal
    }

    /// The pairs that the whole history makes, keys ascending.
    pub fn last_pairs(&self, alloc: Global) -> Result<Vec<(u64, u64)>, NoMemory>
        ensures { IfOk result (λ pairs. pairs.items ≡ map.entries (map_of self.now.history)) }
    {
        self.last.pairs(alloc)
    }

    // The value of the key at the front.
    fn value_at(&self, key: u64, front: u64) -> Option<u64>
        requires { front ≤ length self.now.history }
        ensures { result ≡ map.get (map_at self.now.history front) key }
    {
        let (until, _) = split_changes(self.changes.near(key), key, front);
        last_value(until, key)
    }

    // The least front, not below this one, at which so many pairs are there that no slot is left for a put.
    fn least_filled(&self, before: u64) -> Option<u64>
        requires { before ≤ length self.now.history }
        ensures none { IfNone result ((front : ℕ) → before ≤ front → front ≤ length self.now.history
            → IsFilled self.now.room (map.len (map_at self.now.history front)) → ⊥) }
        ensures above { IfSome result (λ front. before ≤ front) }
        ensures within { IfSome result (λ front. front ≤ length self.now.history) }
        ensures filled { IfSome result (λ front. IsFilled self.now.room (map.len (map_at self.now.history front))) }
        ensures least { IfSome result (λ front. (other : ℕ) → before ≤ other → other < front
            → IsFilled self.now.room (map.len (map_at self.now.history other)) → ⊥) }
    {
        let later = &self.sizes[before as usize..];
        let steps = first_filled(later, self.scripts, self.slots)?;
        Some(before + steps)
    }

    // The least front, not below this one, at which the operation's key has a value that shows the reply.
    fn least_shown(&self, before: u64, op: Op, reply: Reply) -> Option<u64>
        requires { before ≤ length self.now.history }
        ensures none { IfNone result ((front : ℕ) → before ≤ front → front ≤ length self.now.history
            → IsShown op reply (map.get (map_at self.now.history front) (key_of op)) → ⊥) }
        ensures above { IfSome result (λ front. before ≤ front) }
        ensures within { IfSome result (λ front. front ≤ length self.now.history) }
        ensures shown { IfSome result (λ front. IsShown op reply (map.get (map_at self.now.history front) (key_of op))) }
        ensures least { IfSome result (λ front. (other : ℕ) → before ≤ other → other < front
            → IsShown op reply (map.get (map_at self.now.history other) (key_of op)) → ⊥) }
    {
        let key = key_of(op);
        let (until, later) = split_changes(self.changes.near(key), key, before);
        if is_shown(op, reply, last_value(until, key)) {
            return Some(before);
        }
        first_shown(later, key, op, reply)
    }

    // The least front, not below this one, whose dictionary explains the reply.
    fn least_front(&self, before: u64, op: Op, reply: Reply) -> Option<u64>
        requires { before ≤ length self.now.history }
        ensures none { IfNone result ((front : ℕ) → ExplainsFrom self.now before op reply front → ⊥) }
        ensures explained { IfSome result (ExplainsFrom self.now before op reply) }
        ensures least { IfSome result (λ front. (other : ℕ) → ExplainsFrom self.now before op reply other → front ≤ other) }
    {
        if asks_for_room(op, reply) {
            self.least_filled(before)
        } else {
            self.least_shown(before, op, reply)
        }
    }

    /// The least number that may stand beside the line, after the number of the line before it, and `None` exactly
    /// where none may. The key's changes are found in constant time where keys are spread evenly; then a search takes
    /// the logarithm of their number, and a walk passes those that lie before the number, or for `Full` the fronts.
    pub fn try_number_for(&self, before: u64, op: Op, told: Told) -> Option<u64>
        ensures none { IfNone result
            ((number : ℕ) → MayStand self.now.room self.now.history before (line_of op told) number → ⊥) }
        ensures least { IfSome result (IsLeastFor self.now.room self.now.history before (line_of op told)) }
    {
        if told.reply.tells_update() {
            return (before < told.number).then_some(told.number);
        }
        if before > self.history.len() as u64 {
            return None;
        }
        self.least_front(before, op, told.reply)
    }

    /// Whether the reply fits an update with this operation, made at the front.
    pub fn confirms(&self, front: u64, op: Op, reply: Reply) -> bool
        requires { front ≤ length self.now.history }
        ensures { IsTrue result ↔ Confirms (map_at self.now.history front) op reply }
    {
        match (op, reply) {
            (Op::Put { .. }, Reply::New) | (Op::Del { .. }, Reply::Gone) => true,
            (Op::Set { key, .. }, Reply::Was { value }) => {
                self.value_at(key, front) == Some(value)
            }
            _ => false,
        }
    }
}
