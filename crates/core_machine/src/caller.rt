//! What a caller keeps between two steps.
ghost use Rattle.std.specs.Prelude.{◌≡◌, ◌*◌, ◌/◌, IfOk, None, ◌+◌, ◌<◌, ◌≤◌, ◌^◌, false, length, drop};
ghost use Rattle.core_points.specs.Programs.{move_locks, answer as answer_with, begun_with, committing, first_point, spare_first, taking, key_now, low_key as low_of, high_key as high_of, value_in as value_of, or_root as slot_or_root, first_or_root as first_slot};
ghost use Rattle.core_points.specs.Laws.{is_finished};
ghost use Rattle.prcu_model.specs.Dictionary.{key_of as key_in};
ghost use Rattle.core_machine.specs.Runs.{new_own};
ghost use Rattle.core_machine.specs.Laws.{shape_for};
ghost use Rattle.core_machine.specs.Stored.{own_of, HasRoom, MayAdd};

use arrayvec::ArrayVec;
use core_points::stage::{Aim, Moving, Stage, Update, Waits};
use core_state::shape::ROOM;
use prcu_model::{NoMemory, Op, Reply, Told, ToldList};
use std::alloc::Global;

/// A caller's own values: its place in a table of so many places and slots, its script and how much of it was taken up, the operation in
/// hand and where it is in it, what it told, the slots of its place, its locks (the latest first), and what its place last found or
/// left in the free count and in the front.
#[derive(Drop)]
pub struct Caller {
    pub(crate) place: u32,
    pub(crate) places: u32,
    pub(crate) slots: u32,
    pub(crate) op: Op,
    pub(crate) script: Vec<Op>,
    pub(crate) taken: usize,
    pub(crate) stage: Stage,
    pub(crate) told: ToldList,
    pub(crate) hand: Option<u32>,
    pub(crate) hand_life: u64,
    pub(crate) spare: Option<u32>,
    pub(crate) retired: ArrayVec<u32, 16>,
    pub(crate) locks: ArrayVec<u32, 5>,
    pub(crate) scan: u32,
    pub(crate) free: u64,
    pub(crate) front: u64,
    /// The slot at which the search of its open section stands or ended.
    pub(crate) stands: Option<u32>,
}

/// The highest key for whose readers a wait waits.
pub(crate) fn high_key(waits: Waits) -> u64
    ensures { result ≡ high_of waits }
{
    match waits {
        Waits::Reuse { .. } => u64::MAX,
        Waits::Move { moving } => moving.next_key,
    }
}

pub(crate) fn key_of(op: Op) -> u64
    ensures { result ≡ key_in op }
{
    match op {
        Op::Put { key, .. } => key,
        Op::Get { key } => key,
        Op::Del { key } => key,
        Op::Set { key, .. } => key,
    }
}

pub(crate) fn value_in(op: Op) -> u64
    ensures { result ≡ value_of op }
{
    match op {
        Op::Put { value, .. } => value,
        Op::Get { .. } => 0,
        Op::Del { .. } => 0,
        Op::Set { value, .. } => value,
    }
}

/// The slot, or the root where there is none.
pub(crate) fn or_root(slot: Option<u32>) -> u32
    ensures { result ≡ slot_or_root slot }
{
    match slot {
        None => 0,
        Some(slot) => slot,
    }
}

pub(crate) fn first_or_root(slots: &[u32]) -> u32
    ensures { result ≡ first_slot slots.now }
{
    if slots.is_empty() { 0 } else { slots[0] }
}

/// Where a place's first scan for a free slot begins: each place has a part of the slots of its own.
fn first_scan(place: u32, places: u32, slots: u32) -> u32
    requires places { (place < places) × (places ≤ 64) }
    requires slots { (1 ≤ slots) × (slots ≤ 2097152) }
    ensures { result ≡ places + 1 + place * slots / places }
{
    let part = place as u64 * slots as u64 / places as u64;
    places + 1 + part as u32
}

impl Caller {
    /// The caller of a script at a place of a table with so many places and slots. It has its first operation in hand and hasn't stepped.
    /// All its lists are made here, with room for all its answers.
    pub fn new(
        alloc: Global,
        place: u32,
        places: u32,
        slots: u32,
        script: &[Op],
    ) -> Result<Caller, NoMemory>
        requires places { (place < places) × (places ≤ 64) }
        requires slots { (1 ≤ slots) × (slots ≤ 2097152) }
        requires script { length script.now ≤ 1048576 }
        ensures own { IfOk result (λ c. own_of c ≡ begun_with (new_own (shape_for slots places) place) script.now) }
        ensures room { IfOk result (λ c. HasRoom c) }
        ensures stands { IfOk result (λ c. c.stands ≡ None) }
    {
        let mut own = Vec::with_capacity(alloc, script.len())?;
        own.extend_from_slice(script)?;
        let mut caller = Caller {
            place,
            places,
            slots,
            op: Op::Get { key: 0 },
            script: own,
            taken: 0,
            stage: Stage::Finished,
            told: ToldList::new(alloc, script.len() as u32)?,
            hand: None,
            hand_life: 0,
            spare: Some(place + 1),
            retired: ArrayVec::new(),
            locks: ArrayVec::new(),
            scan: first_scan(place, places, slots),
            free: slots as u64,
            front: 0,
            stands: None,
        };
        caller.take_up();
        Ok(caller)
    }

    pub(crate) fn is_finished(&self) -> bool
        ensures { result ≡ is_finished self.now.stage }
    {
        matches!(self.stage, Stage::Finished)
    }

    pub(crate) fn key(&self) -> u64
        ensures { result ≡ key_now (own_of self.now) }
    {
        key_of(self.op)
    }

    /// The lowest key for whose readers a wait waits.
    pub(crate) fn low_key(&self, waits: Waits) -> u64
        requires { MayAdd (own_of self.now) waits }
        ensures { result ≡ low_of (own_of self.now) waits }
    {
        match waits {
            Waits::Reuse { .. } => 0,
            Waits::Move { .. } => self.key() + 1,
        }
    }

    /// Goes on with the next operation, if there is one.
    fn take_up(&mut self)
        requires room { length (drop self.old.taken self.old.script.items) ≤ self.old.told.spare }
        requires front { self.old.front < 2 ^ 63 }
        ensures own { own_of self.new ≡ begun_with (own_of self.old) (own_of self.old).rest }
        ensures room { HasRoom self.new }
        ensures stands { self.new.stands ≡ self.old.stands }
    {
        if self.taken < self.script.len() {
            self.op = self.script[self.taken];
            self.taken += 1;
            self.stage = self.first_point();
        } else {
            self.stage = Stage::Finished;
        }
    }

    /// Answers the operation in hand, and goes on with the next.
    pub(crate) fn answer(&mut self, reply: Reply, number: u64)
        requires going { is_finished self.old.stage ≡ false }
        requires room { HasRoom self.old }
        ensures own { own_of self.new ≡ answer_with (own_of self.old) reply number }
        ensures room { HasRoom self.new }
    {
        self.told.push(Told { reply, number });
        self.take_up();
    }

    fn first_point(&self) -> Stage
        ensures point { result ≡ first_point (own_of self.now) self.now.op }
        ensures going { is_finished result ≡ false }
    {
        match self.op {
            Op::Del { .. } => {
                if self.retired.len() + 1 >= ROOM as usize {
                    let waits = Waits::Reuse { aim: Aim::Room };
                    Stage::Begin { waits }
                } else {
                    self.spare_first()
                }
            }
            _ => Stage::EnterClock,
        }
    }

    /// A delete without a spare takes a slot before it searches.
    pub(crate) fn spare_first(&self) -> Stage
        ensures point { result ≡ spare_first (own_of self.now) }
        ensures going { is_finished result ≡ false }
    {
        if self.spare.is_some() {
            Stage::EnterClock
        } else {
            self.taking(Aim::Spare)
        }
    }

    pub(crate) fn taking(&self, aim: Aim) -> Stage
        ensures { result ≡ taking (own_of self.now) aim }
    {
        let expected = if self.free == 0 { 1 } else { self.free };
        Stage::Reserve { aim, expected }
    }

    pub(crate) fn committing(&self, update: Update) -> Stage
        requires { self.now.front < 2 ^ 63 }
        ensures { result ≡ committing (own_of self.now) update }
    {
        let expected = self.front + self.front % 2;
        Stage::Commit { update, expected }
    }
}

/// The locks of a move, in the order in which they are given up.
pub(crate) fn hold_for(locks: &mut ArrayVec<u32, 5>, moving: Moving)
    ensures { locks.new.items ≡ move_locks moving }
{
    let node = moving.node;
    let successor = moving.successor;
    locks.clear();
    locks.push(successor.slot);
    if successor.parent == node.node {
        locks.push(moving.copy);
        locks.push(node.node);
        locks.push(node.parent);
    } else {
        locks.push(successor.parent);
        locks.push(moving.copy);
        locks.push(node.node);
        locks.push(node.parent);
    }
}
