//! Where a caller goes on by the number that its step found.
ghost use Rattle.std.specs.Prelude.{◌≡◌, ◌≢◌, ◌+◌, ◌%◌, ◌^◌, ◌<◌, ◌≤◌, ◌==◌, if◌then◌else◌, true, false, length};
ghost use Rattle.prcu_marks.specs.declared.mark.Side.TheVariants as sides;
ghost use Rattle.core_points.specs.declared.stage.Last.TheVariants as lasts;
ghost use Rattle.core_points.specs.declared.stage.Stage.TheVariants as stages;
ghost use Rattle.core_points.specs.Programs.{go, after, ended, excused, found as found_at, giving, is_reader, key_read, left_section, none_free, past_even, past_left, past_lock, past_raise, past_reserve, past_right, past_seize, past_store, past_unlock};
ghost use Rattle.core_points.specs.Laws.{is_finished};
ghost use Rattle.core_machine.specs.Stored.{own_of, HasRoom, HasSize, IsAble, MayAdd, MayRetire, at_locks, at_wait, in_delete, is_outside};

use crate::caller::{Caller, first_or_root, high_key, hold_for, or_root};
use crate::plan::{
    is_young, nothing_found, past_target_load, target_lock, target_locks, with_found,
};
use core_points::stage::{
    Aim, Last, Moving, Node, Spot, Stage, Successor, Target, Then, Update, Waits,
};
use core_state::step_side;
use prcu_marks::{Side, Why};
use prcu_model::{Op, Reply};

/// A search that ended at an empty side.
fn ended(op: Op, slot: u32, side: Side) -> Stage
    ensures { result ≡ ended op slot side }
{
    match op {
        Op::Put { .. } => Stage::SpotTag { slot, side },
        _ => Stage::Leave { then: Then::Absent },
    }
}

/// A search that found its key.
fn found(op: Op, slot: u32, parent: u32, side: Side) -> Stage
    ensures { result ≡ found_at op slot parent side }
{
    match op {
        Op::Get { .. } => Stage::Value { slot },
        Op::Put { .. } => Stage::Leave { then: Then::Old },
        Op::Del { .. } => Stage::ParentLife {
            parent,
            side,
            node: slot,
        },
        Op::Set { .. } => Stage::SetLife { slot },
    }
}

fn past_right(node: Node) -> Stage
    requires { node.left ≢ 0 → node.right < 2 ^ 32 }
    ensures { result ≡ past_right node }
{
    if node.left == 0 || node.right == 0 {
        let target = Target {
            node,
            successor: None,
        };
        Stage::Leave {
            then: Then::Delete { target },
        }
    } else {
        Stage::SuccessorLeft {
            node,
            successor: Successor {
                parent: node.node,
                slot: node.right as u32,
                parent_generation: 0,
                generation: 0,
            },
        }
    }
}

fn past_left(node: Node, successor: Successor, number: u64) -> Stage
    requires { number < 2 ^ 32 }
    ensures { result ≡ past_left node successor number }
{
    if number == 0 {
        if successor.parent == node.node {
            Stage::SuccessorLife { node, successor }
        } else {
            Stage::SuccessorParentLife { node, successor }
        }
    } else {
        let successor = Successor {
            parent: successor.slot,
            slot: number as u32,
            ..successor
        };
        Stage::SuccessorLeft { node, successor }
    }
}

fn past_even(update: Update, number: u64) -> Stage
    ensures { result ≡ past_even update number }
{
    match update {
        Update::Leaf { .. } => Stage::Unlock {
            last: Last::New { number },
        },
        Update::Value { old, .. } => Stage::Unlock {
            last: Last::Was { value: old, number },
        },
        Update::Bypass { node, child } => {
            if child == 0 {
                Stage::EmptyTag {
                    number,
                    slot: node.parent,
                    side: node.side,
                }
            } else {
                Stage::Unlock {
                    last: Last::Gone { number },
                }
            }
        }
        Update::Copy {
            node,
            successor,
            next_key,
            copy,
        } => {
            let moving = Moving {
                node,
                successor,
                copy,
                next_key,
                number,
            };
            Stage::Begin {
                waits: Waits::Move { moving },
            }
        }
    }
}

fn again() -> Stage
    ensures { result ≡ stages.Unlock lasts.Again }
{
    Stage::Unlock { last: Last::Again }
}

impl Caller {
    /// Goes on after the step of its point found this number.
    pub(crate) fn go_on(&mut self, number: u64)
        requires size { HasSize (own_of self.old) }
        requires able { IsAble (own_of self.old) number self.old.stage }
        requires room { HasRoom self.old }
        ensures own { own_of self.new ≡ after (own_of self.old) number self.old.stage }
        ensures room { HasRoom self.new }
    {
        match self.stage {
            Stage::Finished => {}
            Stage::EnterClock => self.stage = Stage::EnterKey { clock: number },
            Stage::EnterKey { clock } => self.stage = Stage::EnterStamp { clock },
            Stage::EnterStamp { .. } => {
                self.stage = Stage::AtLink {
                    slot: 0,
                    side: Side::Right,
                }
            }
            Stage::AtLink { slot, side } => self.past_link(slot, side, number),
            Stage::AtKey { slot, parent, side } => {
                let step = step_side(self.key(), number);
                self.past_key(slot, parent, side, step)
            }
            Stage::Leave { then } => self.past_section(then),
            Stage::Value { .. } => {
                self.stage = Stage::Leave {
                    then: Then::Value { value: number },
                }
            }
            Stage::SpotTag { slot, side } => {
                self.stage = Stage::SpotLife {
                    slot,
                    side,
                    tag: number,
                }
            }
            Stage::SpotLife { slot, side, tag } => {
                let generation = number / 2;
                let spot = Spot {
                    slot,
                    side,
                    generation,
                    tag,
                };
                self.stage = Stage::Leave {
                    then: Then::Link { spot },
                }
            }
            Stage::SetLife { slot } => {
                let generation = number / 2;
                self.stage = Stage::Leave {
                    then: Then::Replace { slot, generation },
                }
            }
            _ => self.go_on_deleting(number),
        }
    }

    fn past_link(&mut self, slot: u32, side: Side, number: u64)
        requires fits { number < 2 ^ 32 }
        requires going { is_finished self.old.stage ≡ false }
        requires room { HasRoom self.old }
        ensures own { own_of self.new ≡ go (own_of self.old)
            (if number == 0 then ended self.old.op slot side else stages.AtKey number slot side) }
        ensures room { HasRoom self.new }
    {
        self.stage = if number == 0 {
            ended(self.op, slot, side)
        } else {
            Stage::AtKey {
                slot: number as u32,
                parent: slot,
                side,
            }
        };
    }

    fn past_key(&mut self, slot: u32, parent: u32, side: Side, step: Option<Side>)
        requires going { is_finished self.old.stage ≡ false }
        requires room { HasRoom self.old }
        ensures own { own_of self.new ≡ go (own_of self.old) (key_read (own_of self.old) slot parent side step) }
        ensures room { HasRoom self.new }
    {
        self.stage = match step {
            None => found(self.op, slot, parent, side),
            Some(next) => Stage::AtLink { slot, side: next },
        };
    }

    fn past_section(&mut self, next: Then)
        requires going { is_finished self.old.stage ≡ false }
        requires room { HasRoom self.old }
        ensures own { own_of self.new ≡ left_section (own_of self.old) next }
        ensures room { HasRoom self.new }
    {
        match next {
            Then::Absent => self.answer(Reply::Absent, 0),
            Then::Value { value } => self.answer(Reply::Val { value }, 0),
            Then::Old => {
                if self.hand.is_some() {
                    self.stage = Stage::Raise;
                } else {
                    self.answer(Reply::Old, 0);
                }
            }
            Then::Link { spot } => {
                self.stage = if self.hand.is_some() {
                    Stage::LeafLock { spot }
                } else {
                    self.taking(Aim::Leaf { spot })
                };
            }
            Then::Replace { slot, generation } => self.stage = Stage::SetLock { slot, generation },
            Then::Delete { target } => self.stage = Stage::TargetLock { target, at: 0 },
        }
    }

    /// The same at the points of a delete's search.
    fn go_on_deleting(&mut self, number: u64)
        requires at { in_delete self.old.stage ≡ true }
        requires size { HasSize (own_of self.old) }
        requires able { IsAble (own_of self.old) number self.old.stage }
        requires room { HasRoom self.old }
        ensures own { own_of self.new ≡ after (own_of self.old) number self.old.stage }
        ensures room { HasRoom self.new }
    {
        match self.stage {
            Stage::ParentLife { parent, side, node } => {
                let parent_generation = number / 2;
                let node = Node {
                    parent,
                    side,
                    node,
                    parent_generation,
                    generation: 0,
                    left: 0,
                    right: 0,
                };
                self.stage = Stage::NodeLife { node }
            }
            Stage::NodeLife { node } => {
                let generation = number / 2;
                let node = Node { generation, ..node };
                self.stage = Stage::NodeLeft { node }
            }
            Stage::NodeLeft { node } => {
                let node = Node {
                    left: number,
                    ..node
                };
                self.stage = Stage::NodeRight { node }
            }
            Stage::NodeRight { node } => {
                self.stage = past_right(Node {
                    right: number,
                    ..node
                })
            }
            Stage::SuccessorLeft { node, successor } => {
                self.stage = past_left(node, successor, number)
            }
            Stage::SuccessorParentLife { node, successor } => {
                let parent_generation = number / 2;
                let successor = Successor {
                    parent_generation,
                    ..successor
                };
                self.stage = Stage::SuccessorLife { node, successor }
            }
            Stage::SuccessorLife { node, successor } => {
                let generation = number / 2;
                let successor = Some(Successor {
                    generation,
                    ..successor
                });
                let target = Target { node, successor };
                self.stage = Stage::Leave {
                    then: Then::Delete { target },
                }
            }
            _ => self.go_on_taking(number),
        }
    }

    /// The same at the points that take a slot or give the slot in hand back.
    fn go_on_taking(&mut self, number: u64)
        requires at { is_outside self.old.stage ≡ true }
        requires size { HasSize (own_of self.old) }
        requires able { IsAble (own_of self.old) number self.old.stage }
        requires room { HasRoom self.old }
        ensures own { own_of self.new ≡ after (own_of self.old) number self.old.stage }
        ensures room { HasRoom self.new }
    {
        match self.stage {
            Stage::Reserve { aim, expected } => self.past_reserve(aim, expected, number),
            Stage::Seize { aim } => self.past_seize(aim, number),
            Stage::Age { aim, slot } => {
                self.hand_life = number;
                self.stage = match aim {
                    Aim::Leaf { spot } => Stage::LeafField { spot, at: 0 },
                    _ => Stage::Keep { slot },
                }
            }
            Stage::Keep { slot } => {
                self.hand = None;
                self.spare = Some(slot);
                self.stage = Stage::EnterClock
            }
            Stage::Raise => self.stage = Stage::Free,
            Stage::Free => {
                self.hand = None;
                self.stage = Stage::Count
            }
            Stage::Count => {
                self.free = number + 1;
                self.answer(Reply::Old, 0)
            }
            _ => self.go_on_waiting(number),
        }
    }

    fn past_reserve(&mut self, aim: Aim, expected: u64, number: u64)
        requires going { is_finished self.old.stage ≡ false }
        requires room { HasRoom self.old }
        ensures own { own_of self.new ≡ past_reserve (own_of self.old) aim expected number }
        ensures room { HasRoom self.new }
    {
        if number == expected {
            self.free = number.saturating_sub(1);
            self.stage = Stage::Seize { aim };
        } else {
            if number == 0 {
                self.free = 0;
                self.none_free(aim);
            } else {
                self.free = number;
                self.stage = Stage::Reserve {
                    aim,
                    expected: number,
                };
            }
        }
    }

    fn none_free(&mut self, aim: Aim)
        requires going { is_finished self.old.stage ≡ false }
        requires room { HasRoom self.old }
        ensures own { own_of self.new ≡ none_free (own_of self.old) aim }
        ensures room { HasRoom self.new }
    {
        match aim {
            Aim::Leaf { .. } => {
                if self.retired.is_empty() {
                    self.answer(Reply::Full, 0);
                } else {
                    self.stage = Stage::Begin {
                        waits: Waits::Reuse { aim },
                    };
                }
            }
            _ => {
                self.stage = Stage::Begin {
                    waits: Waits::Reuse { aim },
                };
            }
        }
    }

    fn past_seize(&mut self, aim: Aim, number: u64)
        requires size { HasSize (own_of self.old) }
        requires going { is_finished self.old.stage ≡ false }
        requires room { HasRoom self.old }
        ensures own { own_of self.new ≡ past_seize (own_of self.old) aim number }
        ensures room { HasRoom self.new }
    {
        let slot = self.scan;
        self.scan = if slot == self.slots + self.places {
            1
        } else {
            slot + 1
        };
        if number == 0 {
            self.hand = Some(slot);
            self.stage = Stage::Age { aim, slot };
        } else {
            self.stage = Stage::Seize { aim };
        }
    }

    /// The same at the points of a wait, and of giving the retired slots back.
    fn go_on_waiting(&mut self, number: u64)
        requires at { at_wait self.old.stage ≡ true }
        requires size { HasSize (own_of self.old) }
        requires able { IsAble (own_of self.old) number self.old.stage }
        requires room { HasRoom self.old }
        ensures own { own_of self.new ≡ after (own_of self.old) number self.old.stage }
        ensures room { HasRoom self.new }
    {
        match self.stage {
            Stage::Begin { waits } => {
                self.stage = Stage::LookKey {
                    waits,
                    clock: number,
                    place: 0,
                }
            }
            Stage::LookKey {
                waits,
                clock,
                place,
            } => self.past_look(waits, clock, place, number),
            Stage::LookStamp {
                waits,
                clock,
                place,
                ..
            } => {
                if number == u64::MAX || clock < number {
                    self.excuse(waits, clock, place)
                } else {
                    self.stage = Stage::LookKey {
                        waits,
                        clock,
                        place,
                    }
                }
            }
            Stage::OldAge { aim } => self.stage = Stage::OldRaise { aim, life: number },
            Stage::OldRaise { aim, .. } => self.past_raise(aim),
            Stage::OldFree { aim } => {
                self.retired.remove(0);
                self.stage = Stage::OldCount { aim }
            }
            Stage::OldCount { aim } => {
                self.free = number + 1;
                self.give_back(aim)
            }
            _ => self.go_on_locked(number),
        }
    }

    fn past_look(&mut self, waits: Waits, clock: u64, place: u32, key: u64)
        requires place { place < self.old.places }
        requires few { self.old.places ≤ 64 }
        requires adds { MayAdd (own_of self.old) waits }
        requires going { is_finished self.old.stage ≡ false }
        requires room { HasRoom self.old }
        ensures own { own_of self.new ≡ (if is_reader (own_of self.old) waits key then go (own_of self.old)
            (stages.LookStamp waits clock place key) else excused (own_of self.old) waits clock place) }
        ensures room { HasRoom self.new }
    {
        if self.low_key(waits) <= key && key <= high_key(waits) {
            self.stage = Stage::LookStamp {
                waits,
                clock,
                place,
                key,
            };
        } else {
            self.excuse(waits, clock, place);
        }
    }

    /// The place is excused: the next one, or the end of the wait.
    fn excuse(&mut self, waits: Waits, clock: u64, place: u32)
        requires place { place < self.old.places }
        requires few { self.old.places ≤ 64 }
        requires going { is_finished self.old.stage ≡ false }
        requires room { HasRoom self.old }
        ensures own { own_of self.new ≡ excused (own_of self.old) waits clock place }
        ensures room { HasRoom self.new }
    {
        if place + 1 == self.places {
            match waits {
                Waits::Reuse { aim } => self.give_back(aim),
                Waits::Move { moving } => self.stage = Stage::OldMark { moving },
            }
        } else {
            self.stage = Stage::LookKey {
                waits,
                clock,
                place: place + 1,
            };
        }
    }

    /// The next retired slot, or where none is left what they were given back for.
    fn give_back(&mut self, aim: Aim)
        requires going { is_finished self.old.stage ≡ false }
        requires room { HasRoom self.old }
        ensures own { own_of self.new ≡ giving (own_of self.old) aim }
        ensures room { HasRoom self.new }
    {
        self.stage = if self.retired.is_empty() {
            match aim {
                Aim::Leaf { .. } => self.taking(aim),
                Aim::Spare => Stage::EnterClock,
                Aim::Room => self.spare_first(),
            }
        } else {
            Stage::OldAge { aim }
        };
    }

    fn past_raise(&mut self, aim: Aim)
        requires some { 1 ≤ length self.old.retired.items }
        requires going { is_finished self.old.stage ≡ false }
        requires room { HasRoom self.old }
        ensures own { own_of self.new ≡ past_raise (own_of self.old) aim }
        ensures room { HasRoom self.new }
    {
        if self.spare.is_some() {
            self.stage = Stage::OldFree { aim };
        } else {
            self.spare = Some(first_or_root(self.retired.as_slice()));
            self.retired.remove(0);
            self.give_back(aim);
        }
    }

    /// The same at the points of locks and updates.
    fn go_on_locked(&mut self, number: u64)
        requires at { at_locks self.old.stage ≡ true }
        requires size { HasSize (own_of self.old) }
        requires able { IsAble (own_of self.old) number self.old.stage }
        requires room { HasRoom self.old }
        ensures own { own_of self.new ≡ after (own_of self.old) number self.old.stage }
        ensures room { HasRoom self.new }
    {
        match self.stage {
            Stage::LeafField { spot, at } => {
                self.stage = if at == 3 {
                    Stage::LeafLock { spot }
                } else {
                    Stage::LeafField { spot, at: at + 1 }
                }
            }
            Stage::LeafLock { spot } => {
                self.past_lock(spot.slot, number, Stage::LeafLife { spot })
            }
            Stage::LeafLife { spot } => self.stage = Stage::LeafSide { spot, life: number },
            Stage::LeafSide { spot, life } => {
                self.stage = Stage::LeafTag {
                    spot,
                    life,
                    link: number,
                }
            }
            Stage::LeafTag { spot, life, link } => {
                let young = is_young(life, spot.generation);
                let empty = link == 0;
                let same = number == spot.tag;
                let holds = young && (empty && same);
                self.stage = if holds {
                    self.committing(Update::Leaf { spot })
                } else {
                    again()
                }
            }
            Stage::SetLock { slot, generation } => {
                self.past_lock(slot, number, Stage::SetCheck { slot, generation })
            }
            Stage::SetCheck { slot, generation } => {
                self.stage = if is_young(number, generation) {
                    Stage::SetValue { slot }
                } else {
                    again()
                }
            }
            Stage::SetValue { slot } => {
                self.stage = self.committing(Update::Value { slot, old: number })
            }
            Stage::Commit { update, expected } => self.past_commit(update, expected, number),
            Stage::Store { update, front } => {
                self.past_store(update);
                self.stage = Stage::Even { update, front }
            }
            Stage::Even { update, front } => {
                self.front = front + 2;
                self.stage = past_even(update, (front + 2) / 2)
            }
            Stage::Unlock { last } => self.past_unlock(last),
            _ => self.go_on_targeting(number),
        }
    }

    /// A lock that was found free, or not.
    pub(crate) fn past_lock(&mut self, slot: u32, number: u64, next: Stage)
        requires few { length self.old.locks.items < 5 }
        requires next { is_finished next ≡ false }
        requires going { is_finished self.old.stage ≡ false }
        requires room { HasRoom self.old }
        ensures own { own_of self.new ≡ past_lock (own_of self.old) slot number next }
        ensures room { HasRoom self.new }
    {
        if number == 0 {
            self.locks.insert(0, slot);
            self.stage = next;
        } else if self.locks.is_empty() {
            self.stage = Stage::EnterClock;
        } else {
            self.stage = again();
        }
    }

    fn past_commit(&mut self, update: Update, expected: u64, number: u64)
        requires fits { number + 2 < 2 ^ 63 }
        requires going { is_finished self.old.stage ≡ false }
        requires room { HasRoom self.old }
        ensures own { own_of self.new ≡ (if number == expected then go (record (own_of self.old) { front = expected + 1 })
            (stages.Store update expected) else go (record (own_of self.old) { front = number })
            (stages.Commit update (number + number % 2))) }
        ensures room { HasRoom self.new }
    {
        if number == expected {
            self.front = expected + 1;
            self.stage = Stage::Store {
                update,
                front: expected,
            };
        } else {
            self.front = number;
            self.stage = Stage::Commit {
                update,
                expected: number + number % 2,
            };
        }
    }

    fn past_store(&mut self, update: Update)
        requires few { MayRetire (own_of self.old) update }
        requires room { HasRoom self.old }
        ensures own { own_of self.new ≡ past_store (own_of self.old) update }
        ensures room { HasRoom self.new }
    {
        match update {
            Update::Leaf { .. } => self.hand = None,
            Update::Value { .. } => {}
            Update::Bypass { node, .. } => self.retired.push(node.node),
            Update::Copy { node, .. } => {
                self.spare = None;
                self.retired.push(node.node);
            }
        }
    }

    fn past_unlock(&mut self, last: Last)
        requires some { 1 ≤ length self.old.locks.items }
        requires going { is_finished self.old.stage ≡ false }
        requires room { HasRoom self.old }
        ensures own { own_of self.new ≡ past_unlock (own_of self.old) last }
        ensures room { HasRoom self.new }
    {
        self.locks.remove(0);
        if self.locks.is_empty() {
            match last {
                Last::Again => self.stage = Stage::EnterClock,
                Last::New { number } => self.answer(Reply::New, number),
                Last::Gone { number } => self.answer(Reply::Gone, number),
                Last::Was { value, number } => self.answer(Reply::Was { value }, number),
            }
        } else {
            self.stage = Stage::Unlock { last };
        }
    }
}
