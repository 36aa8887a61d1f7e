//! The machine: all callers, and the words on which they step.
ghost use Rattle.std.specs.Prelude.{◌≡◌, ℕ, ◌<◌, ◌≤◌, false, List, [], ◌∷◌, ◌++◌, length, map, set, slice_get, None, Some, vec_len, vec_capacity, IfOk, OnOk};
ghost use Rattle.prcu_marks.specs.declared.mark.Why.{Why};
ghost use Rattle.prcu_model.specs.declared.operation.Op.{Op};
ghost use Rattle.core_points.specs.Laws.{is_finished};
ghost use Rattle.core_points.specs.Programs.{Own};
ghost use Rattle.core_machine.specs.declared.caller.Caller.{Caller};
ghost use Rattle.core_machine.specs.declared.machine.Stepped.TheVariants as did;
ghost use Rattle.core_machine.specs.Runs.{core, made_owns, unfinished_from};
ghost use Rattle.core_machine.specs.Laws.{IsMachine, shape_for, update_now};
ghost use Rattle.core_machine.specs.Machines.{answers, HasEnded, HasRun, HasStored, IsSteppable, StepsBy, stepped_as, stepped_of};
ghost use Rattle.core_machine.specs.Stored.{HasRoom, own_of};

use crate::caller::Caller;
use crate::choosing::list_unfinished;
use crate::stepping::step_caller;
use arrayvec::ArrayVec;
use core_points::stage::Stage;
use core_state::Shape;
use core_state::shape::{ROOM, Waiter};
use prcu_marks::Why;
use prcu_model::{NoMemory, Scripts, Told, Update};
use seat_table::words_of;
use std::alloc::Global;
use std::marker::Model;
use std::sync::Wait;
use workload::drawing::{drawn, next_state};

/// What a step did.
#[derive(Clone, Copy, Debug, PartialEq, Eq)]
pub enum Stepped {
    /// The caller made its step, and goes on.
    Moved,
    /// The caller's exchange found a lock taken or the front odd, or its load found a stamp that stands in its wait's way. No word
    /// changed.
    Blocked { on: Why },
    /// The caller's script had ended. Nothing changed.
    Finished,
}

/// A caller for each script, on one table of the first waiter, stepped by hand. It takes all its memory when it is made.
#[derive(Drop)]
pub struct Machine {
    words: Vec<u64>,
    callers: Vec<Caller>,
    updates: Vec<Update>,
}

impl Model for Machine {
    ghost use Rattle.std.specs.Prelude.{map};
    ghost use Rattle.std.specs.Vec.{vec_capacity};
    ghost use Rattle.core_machine.specs.Stored.{HasRoom, own_of};
    ghost use Rattle.core_machine.specs.Machines.{MachineAt, IsReached};

    ghost Value = { MachineAt };

    ghost view = { λ m. record {
      words = m.words.items;
      owns = map own_of m.callers.items;
      updates = m.updates.items;
      standing = map (λ c. c.stands) m.callers.items;
    } };

    ghost invariant = { λ m. IsReached (record {
      words = m.words.items;
      owns = map own_of m.callers.items;
      updates = m.updates.items;
      standing = map (λ c. c.stands) m.callers.items;
    }) m.callers.items (vec_capacity m.updates) };
}

fn answer_for(blocked: Option<Why>) -> Stepped
    ensures { result ≡ stepped_of blocked }
{
    match blocked {
        None => Stepped::Moved,
        Some(on) => Stepped::Blocked { on },
    }
}

// Notes the update that the caller's step makes, if it makes one.
fn note_update(updates: &mut Vec<Update>, own: &Caller)
    requires room { vec_len updates.old < vec_capacity updates.old }
    ensures noted { updates.new.items ≡ updates.old.items ++ update_now (own_of own.now) }
    ensures capacity { vec_capacity updates.old ≤ vec_capacity updates.new }
{
    if let Stage::Store { .. } = own.stage {
        updates
            .push(Update {
                caller: own.place,
                op: own.op,
            })
            .unwrap();
    }
}

// One step of the caller with this index.
fn step_at(
    words: &mut [u64],
    callers: &mut [Caller],
    updates: &mut Vec<Update>,
    index: usize,
) -> Stepped
    requires caller { IsSteppable words.old callers.old index }
    requires room { vec_len updates.old < vec_capacity updates.old }
    ensures stepped { (c : Caller) → slice_get callers.old index ≡ Some c
        → StepsBy (is_finished c.stage) words.old callers.old updates.old.items index c words.new callers.new updates.new.items result }
    ensures capacity { vec_capacity updates.old ≤ vec_capacity updates.new }
{
    let own = &mut callers[index];
    if own.is_finished() {
        return Stepped::Finished;
    }
    note_update(updates, own);
    answer_for(step_caller(words, own))
}

// The callers of these scripts, one a place.
fn make_callers(alloc: Global, scripts: &Scripts, slots: u32) -> Result<Vec<Caller>, NoMemory>
    requires slots { (1 ≤ slots) × (slots ≤ 2097152) }
    ensures owns { IfOk result (λ callers. map own_of callers.items ≡ made_owns (shape_for slots (length scripts.now)) 0 scripts.now) }
    ensures rooms { IfOk result (λ callers. (i : ℕ) (c : Caller) → slice_get callers.items i ≡ Some c → HasRoom c) }
    ensures nowhere { IfOk result (λ callers. (i : ℕ) (c : Caller) → slice_get callers.items i ≡ Some c → c.stands ≡ None) }
{
    let places = scripts.count();
    let mut callers = Vec::with_capacity(alloc, places as usize)?;
    for place in 0..places {
        callers.push(Caller::new(alloc, place, places, slots, scripts.script(place))?)?;
    }
    Ok(callers)
}

impl Machine {
    /// A machine for these scripts, with so many slots beside the spare of each script. No caller has stepped. All the memory that the
    /// machine ever takes is taken here.
    pub fn new(alloc: Global, scripts: &Scripts, slots: u32) -> Result<Machine, NoMemory>
        requires slots { (1 ≤ slots) × (slots ≤ 2097152) }
        requires scripts { 1 ≤ length scripts.now }
        ensures made { OnOk result (IsMachine scripts.now slots) }
        ensures stored { IfOk result (λ machine. HasStored scripts.now slots (core scripts.now slots []) machine) }
        ensures count { IfOk result (λ machine. length machine.owns ≡ length scripts.now) }
    {
        let shape = Shape {
            waiter: Waiter::Eer,
            slots,
            places: scripts.count(),
            room: ROOM,
            tickets: 0,
        };
        let words = words_of(alloc, &shape)?;
        let callers = make_callers(alloc, scripts, slots)?;
        let updates = Vec::with_capacity(alloc, 4 * scripts.ops() as usize + 1)?;
        Ok(Machine {
            words,
            callers,
            updates,
        })
    }

    // Its time doesn't grow with the number of callers or slots.
    /// One step of the caller. It takes no memory.
    pub fn step(&mut self, caller: u32) -> Stepped
        requires { caller < length self.old.owns }
        ensures stored { (scripts : List (List Op)) (slots : ℕ) (callers : List ℕ) → IsMachine scripts slots
            → HasStored scripts slots (core scripts slots callers) self.old
            → HasStored scripts slots (core scripts slots (callers ++ caller ∷ [])) self.new }
        ensures answers { (scripts : List (List Op)) (slots : ℕ) (callers : List ℕ) → IsMachine scripts slots
            → HasStored scripts slots (core scripts slots callers) self.old
            → result ≡ stepped_as (answers (core scripts slots callers) caller) }
        ensures finished { result ≡ did.Finished → self.new ≡ self.old }
        ensures blocked { (why : Why) → result ≡ did.Blocked why → self.new.words ≡ self.old.words }
        ensures count { length self.new.owns ≡ length self.old.owns }
        ensures others { (own : Own) × (self.new.owns ≡ set self.old.owns caller own) }
    {
        step_at(
            &mut self.words,
            &mut self.callers,
            &mut self.updates,
            caller as usize,
        )
    }

    /// The callers whose scripts haven't ended, ascending.
    fn unfinished(&self) -> ArrayVec<u32, 64>
        ensures { result.items ≡ unfinished_from 0 self.now.owns }
    {
        list_unfinished(&self.callers)
    }

    /// Where the caller's script has ended, lists the others anew. Else it leaves the list of those that haven't ended.
    fn drop_ended(&self, caller: u32, left: &mut ArrayVec<u32, 64>)
        requires caller { caller < length self.now.owns }
        requires kept { (own : Own) → slice_get self.now.owns caller ≡ Some own → is_finished own.stage ≡ false
            → left.old.items ≡ unfinished_from 0 self.now.owns }
        ensures left { left.new.items ≡ unfinished_from 0 self.now.owns }
    {
        if self.callers[caller as usize].is_finished() {
            *left = self.unfinished();
        }
    }

    /// Steps until all scripts have ended. Before each step the generator's state, at first the number, moves on; and the caller at the
    /// drawn position among those that haven't ended makes the step. Where all scripts have ended nothing is drawn.
    pub fn run<R: Wait>(&mut self, rt: &R, number: u64)
        ensures ran { (scripts : List (List Op)) (slots : ℕ) (callers : List ℕ) → IsMachine scripts slots
            → HasStored scripts slots (core scripts slots callers) self.old → HasRun scripts slots callers number self.new }
        ensures ended { (scripts : List (List Op)) (slots : ℕ) (callers : List ℕ) → IsMachine scripts slots
            → HasStored scripts slots (core scripts slots callers) self.old → HasEnded scripts slots self.new }
        ensures count { length self.new.owns ≡ length self.old.owns }
    {
        let mut left = self.unfinished();
        let mut state = number;
        for _ in rt.forever() {
            if left.is_empty() {
                return;
            }
            let next = next_state(state);
            let position = (drawn(next) % left.len() as u64) as usize;
            let caller = left[position];
            self.step(caller);
            self.drop_ended(caller, &mut left);
            state = next;
        }
    }

    /// What the caller was told so far: at most 1,048,576 answers.
    pub fn told(&self, caller: u32) -> &[Told]
        requires { caller < length self.now.owns }
        ensures few { length result.now ≤ 1048576 }
        ensures told { (own : Own) → slice_get self.now.owns caller ≡ Some own → result.now ≡ own.told }
    {
        self.callers[caller as usize].told.entries()
    }

    /// All updates so far, in their order.
    pub fn updates(&self) -> &[Update]
        ensures { result.now ≡ self.now.updates }
    {
        self.updates.as_slice()
    }

    /// The slot at which the search of the caller's open section stands or ended, and `None` exactly where it has no open section.
    pub fn standing(&self, caller: u32) -> Option<u32>
        requires { caller < length self.now.owns }
        ensures { slice_get self.now.standing caller ≡ Some result }
    {
        self.callers[caller as usize].stands
    }
}
