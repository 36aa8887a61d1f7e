//! Where a caller goes on at the points of a delete under its locks, and of its move.
ghost use Rattle.std.specs.Prelude.{◌≡◌, ◌+◌, ◌<◌, ◌==◌, if◌then◌else◌, true, false, length};
ghost use Rattle.prcu_marks.specs.declared.mark.Side.TheVariants as sides;
ghost use Rattle.core_points.specs.declared.stage.Last.TheVariants as lasts;
ghost use Rattle.core_points.specs.declared.stage.Stage.TheVariants as stages;
ghost use Rattle.core_points.specs.Laws.{is_finished};
ghost use Rattle.core_points.specs.Programs.{after, past_lock, past_unlink};
ghost use Rattle.core_machine.specs.Stored.{own_of, HasRoom, HasSize, IsAble, at_move, at_target};

use crate::caller::{Caller, hold_for, or_root};
use crate::plan::{nothing_found, past_target_load, target_lock, target_locks, with_found};
use core_points::stage::{Last, Moving, Stage, Update};
use prcu_marks::Side;

/// The old successor was unlinked: the tag of a side that it left empty is raised, and then all locks are given up.
fn past_unlink(moving: Moving, child: u64) -> Stage
    ensures point { result ≡ (if child == 0 then
        (if moving.successor.parent == moving.node.node then stages.EmptyTag moving.number moving.copy sides.Right
        else stages.EmptyTag moving.number moving.successor.parent sides.Left) else stages.Unlock (lasts.Gone moving.number)) }
    ensures going { is_finished result ≡ false }
{
    let number = moving.number;
    if child == 0 {
        if moving.successor.parent == moving.node.node {
            Stage::EmptyTag {
                number,
                slot: moving.copy,
                side: Side::Right,
            }
        } else {
            Stage::EmptyTag {
                number,
                slot: moving.successor.parent,
                side: Side::Left,
            }
        }
    } else {
        Stage::Unlock {
            last: Last::Gone { number },
        }
    }
}

impl Caller {
    /// The same at the points of a delete under its locks.
    pub(crate) fn go_on_targeting(&mut self, number: u64)
        requires at { at_target self.old.stage ≡ true }
        requires size { HasSize (own_of self.old) }
        requires able { IsAble (own_of self.old) number self.old.stage }
        requires room { HasRoom self.old }
        ensures own { own_of self.new ≡ after (own_of self.old) number self.old.stage }
        ensures room { HasRoom self.new }
    {
        match self.stage {
            Stage::TargetLock { target, at } => {
                let next = if at + 1 == target_locks(target) {
                    Stage::TargetLoad {
                        target,
                        at: 0,
                        found: nothing_found(),
                    }
                } else {
                    Stage::TargetLock { target, at: at + 1 }
                };
                self.past_lock(target_lock(target, at), number, next)
            }
            Stage::TargetLoad { target, at, found } => {
                self.stage = past_target_load(target, at, with_found(found, at, number))
            }
            Stage::Mark { node, child } => {
                self.stage = self.committing(Update::Bypass { node, child })
            }
            Stage::EmptyTag {
                number: update,
                slot,
                side,
            } => {
                self.stage = Stage::EmptyRaise {
                    number: update,
                    slot,
                    side,
                    tag: number,
                }
            }
            Stage::EmptyRaise { number: update, .. } => {
                self.stage = Stage::Unlock {
                    last: Last::Gone { number: update },
                }
            }
            _ => self.go_on_moving(number),
        }
    }

    /// The same at the points of a delete of a node with two children.
    fn go_on_moving(&mut self, number: u64)
        requires at { at_move self.old.stage ≡ true }
        requires size { HasSize (own_of self.old) }
        requires able { IsAble (own_of self.old) number self.old.stage }
        requires room { HasRoom self.old }
        ensures own { own_of self.new ≡ after (own_of self.old) number self.old.stage }
        ensures room { HasRoom self.new }
    {
        match self.stage {
            Stage::SuccessorKey { node, successor } => {
                self.stage = Stage::SuccessorValue {
                    node,
                    successor,
                    next_key: number,
                }
            }
            Stage::SuccessorValue {
                node,
                successor,
                next_key,
            } => {
                self.stage = Stage::CopyField {
                    node,
                    successor,
                    next_key,
                    value: number,
                    at: 0,
                }
            }
            Stage::CopyField {
                node,
                successor,
                next_key,
                value,
                at,
            } => {
                self.stage = if at == 3 {
                    Stage::CopyAge {
                        node,
                        successor,
                        next_key,
                    }
                } else {
                    Stage::CopyField {
                        node,
                        successor,
                        next_key,
                        value,
                        at: at + 1,
                    }
                }
            }
            Stage::CopyAge {
                node,
                successor,
                next_key,
            } => {
                self.stage = Stage::CopyLock {
                    node,
                    successor,
                    next_key,
                }
            }
            Stage::CopyLock {
                node,
                successor,
                next_key,
            } => {
                let next = Stage::CopyMark {
                    node,
                    successor,
                    next_key,
                };
                self.past_lock(or_root(self.spare), number, next)
            }
            Stage::CopyMark {
                node,
                successor,
                next_key,
            } => {
                let copy = or_root(self.spare);
                self.stage = self.committing(Update::Copy {
                    node,
                    successor,
                    next_key,
                    copy,
                })
            }
            Stage::OldMark { moving } => self.stage = Stage::OldRight { moving },
            Stage::OldRight { moving } => {
                self.stage = Stage::Unlink {
                    moving,
                    child: number,
                }
            }
            Stage::Unlink { moving, child } => self.past_unlink(moving, child),
            _ => unreachable!(),
        }
    }

    fn past_unlink(&mut self, moving: Moving, child: u64)
        requires few { length self.old.retired.items < 16 }
        requires going { is_finished self.old.stage ≡ false }
        requires room { HasRoom self.old }
        ensures own { own_of self.new ≡ past_unlink (own_of self.old) moving child }
        ensures room { HasRoom self.new }
    {
        self.retired.push(moving.successor.slot);
        hold_for(&mut self.locks, moving);
        self.stage = past_unlink(moving, child);
    }
}
