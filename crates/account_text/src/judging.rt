//! Whether a history is one, and whether it explains what scripts were told.
ghost use Rattle.std.specs.Prelude.{◌≡◌, ◌<◌, ◌^◌, ◌↔◌, [], All, IfOk, IfNone, IfSome, IsTrue, length, map, slice_index_or};
ghost use Rattle.prcu_model.specs.Dictionary.{IsLegal};
ghost use Rattle.prcu_model.specs.Scripts.{entries_of};
ghost use Rattle.prcu_model.specs.Fronts.{AreExplainable, CanBeNumbered, AreNumbered, AllAreNumbered, told_lines, all_told_lines};
ghost use Rattle.account_text.specs.Judging.{IsScriptExplained, line_of, IsTold, AreToldFrom};

use crate::timeline::{Timeline, replay};
use crate::turns::Turns;
use prcu_model::{Line, LineList, NoMemory, Op, Scripts, Told, ToldList, Update};
use std::alloc::Global;

/// Whether each update of the history does what an update does, at the dictionary that those before it leave: a put
/// adds a key that is absent, and a del and a set find theirs.
pub fn is_legal(alloc: Global, history: &[Update]) -> Result<bool, NoMemory>
    ensures { IfOk result (λ legal. IsTrue legal ↔ IsLegal history.now) }
{
    Ok(replay(alloc, history)?.legal)
}

// Whether each script has an answer for each operation, and no more.
pub(crate) fn are_all_answered(scripts: &Scripts, told: &[ToldList]) -> bool
    ensures { IsTrue result ↔ (map length (entries_of told.now) ≡ map length scripts.now) }
{
    if told.len() != scripts.count() as usize {
        return false;
    }
    for (i, list) in told.iter().enumerate() {
        if list.entries().len() != scripts.script(i as u32).len() {
            return false;
        }
    }
    true
}

// Whether each update is of one of the first so many callers.
pub(crate) fn are_callers_below(history: &[Update], count: u32) -> bool
    ensures { IsTrue result ↔ All (λ update. update.caller < count) history.now }
{
    history.iter().all(|update| update.caller < count)
}

// Whether the line tells of the caller's update after so many others of its own, and the reply fits it.
pub(crate) fn is_told(
    caller: u32,
    turn: u64,
    op: Op,
    told: Told,
    timeline: &Timeline,
    turns: &Turns,
) -> bool
    requires { turns.now.history ≡ timeline.now.history }
    ensures { IsTrue result ↔ IsTold timeline.now.history caller turn (line_of op told) }
{
    turns.is_update(caller, turn, told.number, op)
        && timeline.confirms(told.number - 1, op, told.reply)
}

// Whether the caller's updates are those that the lines tell of, and each reply fits its update.
fn are_updates_told(
    caller: u32,
    script: &[Op],
    told: &[Told],
    timeline: &Timeline,
    turns: &Turns,
) -> bool
    requires history { turns.now.history ≡ timeline.now.history }
    requires caller { caller < turns.now.callers }
    ensures { IsTrue result ↔ AreToldFrom timeline.now.history caller 0 (told_lines script.now told.now) }
{
    let mut passed = 0;
    for (op, answer) in script.iter().zip(told) {
        if answer.reply.tells_update() {
            if !is_told(caller, passed, *op, *answer, timeline, turns) {
                return false;
            }
            passed += 1;
        }
    }
    passed == turns.count_of(caller)
}

/// The lines of one script with their numbers, each the least, and `None` exactly where no numbers may stand beside them.
pub fn try_number_script(
    alloc: Global,
    script: &[Op],
    told: &[Told],
    timeline: &Timeline,
) -> Result<Option<LineList>, NoMemory>
    requires same_length { length told.now ≡ length script.now }
    requires fits { length script.now < 2 ^ 32 }
    ensures none { IfOk result (λ lines. IfNone lines
        (CanBeNumbered timeline.now.room timeline.now.history (told_lines script.now told.now) → ⊥)) }
    ensures able { IfOk result (λ lines. IfSome lines
        (λ _. CanBeNumbered timeline.now.room timeline.now.history (told_lines script.now told.now))) }
    ensures numbered { IfOk result (λ lines. IfSome lines
        (λ list. AreNumbered timeline.now.room timeline.now.history 0 (told_lines script.now told.now) list.entries)) }
{
    let mut lines = LineList::new(alloc, script.len() as u32)?;
    let mut before = 0;
    for (op, answer) in script.iter().zip(told) {
        let Some(number) = timeline.try_number_for(before, *op, *answer) else {
            return Ok(None);
        };
        lines.push(Line {
            op: *op,
            reply: answer.reply,
            number,
        });
        before = number;
    }
    Ok(Some(lines))
}

// The lines of this caller with their numbers, and `None` exactly where the history doesn't explain what the caller was told: its
// updates, the replies to them, and the other lines.
fn explain_script(
    alloc: Global,
    caller: u32,
    script: &[Op],
    told: &[Told],
    timeline: &Timeline,
    turns: &Turns,
) -> Result<Option<LineList>, NoMemory>
    requires history { turns.now.history ≡ timeline.now.history }
    requires caller { caller < turns.now.callers }
    requires same_length { length told.now ≡ length script.now }
    requires fits { length script.now < 2 ^ 32 }
    ensures none { IfOk result (λ lines. IfNone lines
        (IsScriptExplained timeline.now.room timeline.now.history caller (told_lines script.now told.now) → ⊥)) }
    ensures explained { IfOk result (λ lines. IfSome lines
        (λ _. IsScriptExplained timeline.now.room timeline.now.history caller (told_lines script.now told.now))) }
    ensures numbered { IfOk result (λ lines. IfSome lines
        (λ list. AreNumbered timeline.now.room timeline.now.history 0 (told_lines script.now told.now) list.entries)) }
{
    if !are_updates_told(caller, script, told, timeline, turns) {
        return Ok(None);
    }
    try_number_script(alloc, script, told, timeline)
}

/// The lines of the scripts with their numbers, as `fronts` gives them, and `None` exactly where the timeline's history doesn't
/// explain what the scripts were told (`is_explained`).
pub fn explain(
    alloc: Global,
    scripts: &Scripts,
    told: &[ToldList],
    timeline: &Timeline,
) -> Result<Option<Vec<LineList>>, NoMemory>
    requires { timeline.now.room.scripts ≡ length scripts.now }
    ensures none { IfOk result (λ lists. IfNone lists
        (AreExplainable scripts.now (entries_of told.now) timeline.now.history timeline.now.room.slots → ⊥)) }
    ensures explained { IfOk result (λ lists. IfSome lists
        (λ _. AreExplainable scripts.now (entries_of told.now) timeline.now.history timeline.now.room.slots)) }
    ensures numbered { IfOk result (λ lists. IfSome lists (λ lists. AllAreNumbered timeline.now.room timeline.now.history
        (all_told_lines scripts.now (entries_of told.now)) (entries_of lists.items))) }
{
    let history = timeline.history();
    if !are_all_answered(scripts, told) || !are_callers_below(history, scripts.count()) {
        return Ok(None);
    }
    // No script has more operations than all of them together.
    prove!(scripts.ops() <= Scripts::MOST_OPS);
    let turns = Turns::new(alloc, history, scripts.count())?;
    let mut lists = Vec::with_capacity(alloc, told.len())?;
    for (i, list) in told.iter().enumerate() {
        let caller = i as u32;
        let script = scripts.script(caller);
        let answers = list.entries();
        let Some(lines) = explain_script(alloc, caller, script, answers, timeline, &turns)? else {
            return Ok(None);
        };
        lists.push(lines)?;
    }
    Ok(Some(lists))
}

/// Whether the history explains what the scripts were told, which share so many slots: each script has an answer for
/// each operation; the updates that it was told of are those of the history, at their positions, and there are no
/// others; each reply fits its update; and the other lines have fronts that don't fall. The history is replayed once; a
/// line takes a search among its key's updates, and a script passes each of them at most once besides.
pub fn is_explained(
    alloc: Global,
    scripts: &Scripts,
    told: &[ToldList],
    history: &[Update],
    slots: u32,
) -> Result<bool, NoMemory>
    ensures { IfOk result (λ explained. IsTrue explained ↔ AreExplainable scripts.now (entries_of told.now) history.now slots) }
{
    let timeline = Timeline::new(alloc, history, scripts.count(), slots)?;
    Ok(explain(alloc, scripts, told, &timeline)?.is_some())
}
