//! The step that a caller makes at its point: its word, and what it does to it.
ghost use Rattle.std.specs.Prelude.{◌≡◌, ℕ, ◌+◌, ◌*◌, ◌/◌, ◌<◌, ◌^◌, ◌==◌, true, if◌then◌else◌};
ghost use Rattle.core_state.specs.declared.words.Field.TheVariants as fields;
ghost use Rattle.core_state.specs.declared.act.Act.TheVariants as acts;
ghost use Rattle.prcu_marks.specs.declared.access.Access.TheVariants as does;
ghost use Rattle.core_state.specs.Acts.{access_of};
ghost use Rattle.core_points.specs.Programs.{field_of, content, contents, is_some as has_slot, act_at, store_act};
ghost use Rattle.core_machine.specs.Stored.{own_of, touched, MayStore, is_outside, at_locks, at_move};

use crate::caller::{Caller, first_or_root, or_root, value_in};
use crate::plan::{target_lock, target_part, target_slot};
use core_points::stage::{Moving, Stage, Update};
use core_state::{Field, in_slot};
use prcu_marks::{Access, Side};

fn load(field: Field) -> (Field, Access)
    ensures { result ≡ (field, does.Load) }
{
    (field, Access::Load)
}

fn store(field: Field, number: u64) -> (Field, Access)
    ensures { result ≡ (field, does.Store number) }
{
    (field, Access::Store { number })
}

/// The word is one more.
fn add(field: Field) -> (Field, Access)
    ensures { result ≡ (field, does.Add 1) }
{
    (field, Access::Add { number: 1 })
}

fn load_life(slot: u32) -> (Field, Access)
    ensures { result ≡ (fields.Life slot, does.Load) }
{
    load(Field::Life { slot })
}

fn load_link(slot: u32, side: Side) -> (Field, Access)
    ensures { result ≡ (fields.Link slot side, does.Load) }
{
    load(Field::Link { slot, side })
}

fn load_tag(slot: u32, side: Side) -> (Field, Access)
    ensures { result ≡ (fields.Tag slot side, does.Load) }
{
    load(Field::Tag { slot, side })
}

/// The life after the next generation began.
fn raised(life: u64) -> u64
    requires { 2 * (life / 2 + 1) < 2 ^ 64 }
    ensures { result ≡ 2 * (life / 2 + 1) }
{
    2 * (life / 2 + 1)
}

fn mark(slot: u32, generation: u64) -> (Field, Access)
    requires { 2 * generation + 1 < 2 ^ 64 }
    ensures { result ≡ (fields.Life slot, does.Store (2 * generation + 1)) }
{
    store(Field::Life { slot }, 2 * generation + 1)
}

fn exchange(field: Field, expected: u64, number: u64) -> (Field, Access)
    ensures { result ≡ (field, does.Exchange expected number) }
{
    (field, Access::Exchange { expected, number })
}

fn lock(place: u32, slot: u32) -> (Field, Access)
    ensures { result ≡ (fields.Lock slot, does.Exchange 0 (place + 1)) }
{
    exchange(Field::Lock { slot }, 0, u64::from(place) + 1)
}

/// One of the four fields of a new node.
fn fill(slot: u32, at: u32, key: u64, value: u64, left: u64, right: u64) -> (Field, Access)
    ensures { result ≡ (content slot at, does.Store (contents key value left right at)) }
{
    if at == 0 {
        store(Field::Key { slot }, key)
    } else if at == 1 {
        store(Field::Value { slot }, value)
    } else if at == 2 {
        let side = Side::Left;
        store(Field::Link { slot, side }, left)
    } else {
        let side = Side::Right;
        store(Field::Link { slot, side }, right)
    }
}

/// The life of a retired slot is raised, which becomes the spare where there is none.
fn raise_old(spare: Option<u32>, slot: u32, life: u64) -> (Field, Access)
    requires { 2 * (life / 2 + 1) < 2 ^ 64 }
    ensures { (place : ℕ) → let number = 2 * (life / 2 + 1) in
        let act = if has_slot spare then acts.RaiseRetired slot number else acts.RaiseToSpare slot number in
        result ≡ (field_of place act, access_of place act) }
{
    let number = raised(life);
    match spare {
        None => store(Field::Life { slot }, number),
        Some(_) => store(Field::Life { slot }, number),
    }
}

fn unlink(moving: Moving, child: u64) -> (Field, Access)
    ensures { (place : ℕ) → let act =
        if moving.successor.parent == moving.node.node then acts.UnlinkRight moving.copy moving.successor.slot child
        else acts.UnlinkLeft moving.successor.parent moving.successor.slot child in result ≡ (field_of place act, access_of place act) }
{
    if moving.successor.parent == moving.node.node {
        store(
            Field::Link {
                slot: moving.copy,
                side: Side::Right,
            },
            child,
        )
    } else {
        store(
            Field::Link {
                slot: moving.successor.parent,
                side: Side::Left,
            },
            child,
        )
    }
}

/// What is stored while the front is odd.
fn update(own: &Caller, update: Update) -> (Field, Access)
    ensures { let o = own_of own.now in result ≡ (field_of o.place (store_act o update), access_of o.place (store_act o update)) }
{
    match update {
        Update::Leaf { spot } => store(
            Field::Link {
                slot: spot.slot,
                side: spot.side,
            },
            u64::from(or_root(own.hand)),
        ),
        Update::Value { slot, .. } => store(Field::Value { slot }, value_in(own.op)),
        Update::Bypass { node, child } => store(
            Field::Link {
                slot: node.parent,
                side: node.side,
            },
            child,
        ),
        Update::Copy { node, copy, .. } => store(
            Field::Link {
                slot: node.parent,
                side: node.side,
            },
            u64::from(copy),
        ),
    }
}

/// The word of the caller's step, and what the step does to it.
pub(crate) fn access_at(own: &Caller) -> (Field, Access)
    requires { let o = own_of own.now in MayStore o o.stage }
    ensures { result ≡ touched (own_of own.now) }
{
    match own.stage {
        Stage::Finished | Stage::EnterClock => load(Field::Clock),
        Stage::EnterKey { .. } => store(Field::Announced { place: own.place }, own.key()),
        Stage::EnterStamp { clock } => store(Field::Stamp { place: own.place }, clock),
        Stage::Leave { .. } => store(Field::Stamp { place: own.place }, u64::MAX),
        Stage::AtLink { slot, side } => load_link(slot, side),
        Stage::AtKey { slot, .. } => load(Field::Key { slot }),
        Stage::Value { slot } => load(Field::Value { slot }),
        Stage::SpotTag { slot, side } => load_tag(slot, side),
        Stage::SpotLife { slot, .. } => load_life(slot),
        Stage::SetLife { slot } => load_life(slot),
        Stage::ParentLife { parent, .. } => load_life(parent),
        Stage::NodeLife { node } => load_life(node.node),
        Stage::NodeLeft { node } => load_link(node.node, Side::Left),
        Stage::NodeRight { node } => load_link(node.node, Side::Right),
        Stage::SuccessorLeft { successor, .. } => load_link(successor.slot, Side::Left),
        Stage::SuccessorParentLife { successor, .. } => load_life(successor.parent),
        Stage::SuccessorLife { successor, .. } => load_life(successor.slot),
        _ => access_outside(own),
    }
}

/// The same at a point that takes a slot, waits, or gives slots back.
fn access_outside(own: &Caller) -> (Field, Access)
    requires at { is_outside own.now.stage ≡ true }
    requires fits { let o = own_of own.now in MayStore o o.stage }
    ensures { result ≡ touched (own_of own.now) }
{
    match own.stage {
        Stage::Reserve { expected, .. } => {
            exchange(Field::Free, expected, expected.saturating_sub(1))
        }
        Stage::Seize { .. } => exchange(Field::State { slot: own.scan }, 0, 1),
        Stage::Age { slot, .. } => load_life(slot),
        Stage::Keep { slot } => load_life(slot),
        Stage::Raise => store(
            Field::Life {
                slot: or_root(own.hand),
            },
            raised(own.hand_life),
        ),
        Stage::Free => store(
            Field::State {
                slot: or_root(own.hand),
            },
            0,
        ),
        Stage::Count | Stage::OldCount { .. } => add(Field::Free),
        Stage::Begin { .. } => add(Field::Clock),
        Stage::LookKey { place, .. } => load(Field::Announced { place }),
        Stage::LookStamp { place, .. } => load(Field::Stamp { place }),
        Stage::OldAge { .. } => load_life(first_or_root(own.retired.as_slice())),
        Stage::OldRaise { life, .. } => raise_old(
            own.spare,
            first_or_root(own.retired.as_slice()),
            life,
        ),
        Stage::OldFree { .. } => store(
            Field::State {
                slot: first_or_root(own.retired.as_slice()),
            },
            0,
        ),
        _ => access_locked(own),
    }
}

/// The same at a point that takes a lock, gives one up, or is under locks.
fn access_locked(own: &Caller) -> (Field, Access)
    requires at { at_locks own.now.stage ≡ true }
    requires fits { let o = own_of own.now in MayStore o o.stage }
    ensures { result ≡ touched (own_of own.now) }
{
    match own.stage {
        Stage::LeafField { at, .. } => fill(
            or_root(own.hand),
            at,
            own.key(),
            value_in(own.op),
            0,
            0,
        ),
        Stage::LeafLock { spot } => lock(own.place, spot.slot),
        Stage::LeafLife { spot } => load_life(spot.slot),
        Stage::LeafSide { spot, .. } => load_link(spot.slot, spot.side),
        Stage::LeafTag { spot, .. } => load_tag(spot.slot, spot.side),
        Stage::Commit { expected, .. } => exchange(Field::Front, expected, expected + 1),
        Stage::Store { update: made, .. } => update(own, made),
        Stage::Even { front, .. } => store(Field::Front, front + 2),
        Stage::Unlock { .. } => store(
            Field::Lock {
                slot: first_or_root(own.locks.as_slice()),
            },
            0,
        ),
        Stage::SetLock { slot, .. } => lock(own.place, slot),
        Stage::SetCheck { slot, .. } => load_life(slot),
        Stage::SetValue { slot } => load(Field::Value { slot }),
        Stage::TargetLock { target, at } => lock(own.place, target_lock(target, at)),
        Stage::TargetLoad { target, at, .. } => load(in_slot(
            target_slot(target, at),
            target_part(target, at),
        )),
        Stage::Mark { node, .. } => mark(node.node, node.generation),
        Stage::EmptyTag { slot, side, .. } => load_tag(slot, side),
        Stage::EmptyRaise {
            slot,
            side,
            tag,
            ..
        } => store(Field::Tag { slot, side }, tag + 1),
        _ => access_moving(own),
    }
}

/// The same at a point of a delete of a node with two children.
fn access_moving(own: &Caller) -> (Field, Access)
    requires at { at_move own.now.stage ≡ true }
    requires fits { let o = own_of own.now in MayStore o o.stage }
    ensures { result ≡ touched (own_of own.now) }
{
    match own.stage {
        Stage::SuccessorKey { successor, .. } => load(Field::Key {
            slot: successor.slot,
        }),
        Stage::SuccessorValue { successor, .. } => load(Field::Value {
            slot: successor.slot,
        }),
        Stage::CopyField {
            node,
            next_key,
            value,
            at,
            ..
        } => fill(
            or_root(own.spare),
            at,
            next_key,
            value,
            node.left,
            node.right,
        ),
        Stage::CopyAge { .. } => load_life(or_root(own.spare)),
        Stage::CopyLock { .. } => lock(own.place, or_root(own.spare)),
        Stage::CopyMark { node, .. } => mark(node.node, node.generation),
        Stage::OldMark { moving } => mark(moving.successor.slot, moving.successor.generation),
        Stage::OldRight { moving } => load_link(moving.successor.slot, Side::Right),
        Stage::Unlink { moving, child } => unlink(moving, child),
        _ => unreachable!(),
    }
}
