//! Which line of the scripts an account has wrong.
ghost use Rattle.std.specs.Prelude.{◌≡◌, ◌<◌, ◌≤◌, ◌+◌, ◌↔◌, ℕ, [], All, if◌then◌else◌, IsTrue, IfOk, IfNone, IfSome, length, map, slice_index_or};
ghost use Rattle.prcu_model.specs.Dictionary.{tells_update};
ghost use Rattle.prcu_model.specs.Fronts.{told_lines};
ghost use Rattle.prcu_model.specs.Scripts.{entries_of};
ghost use Rattle.account_text.specs.Judging.{line_of};
ghost use Rattle.account_text.specs.WrongLines.{IsRight, AreRight, IsWrongAt, IsScriptRight, IsFirstWrong, course_of};

use crate::judging::{are_all_answered, are_callers_below, is_told};
use crate::timeline::Timeline;
use crate::turns::Turns;
use prcu_model::{NoMemory, Op, Scripts, Told, ToldList, Update};
use std::alloc::Global;

/// A line of a script, both counted from 0.
#[derive(Clone, Copy, Debug, PartialEq, Eq)]
pub struct Place {
    pub script: u32,
    pub line: u64,
}

// Whether the caller's line is right, after a line with this number and so many updates of the caller.
fn is_right(
    caller: u32,
    turn: u64,
    before: u64,
    op: Op,
    told: Told,
    timeline: &Timeline,
    turns: &Turns,
) -> bool
    requires { turns.now.history ≡ timeline.now.history }
    ensures { IsTrue result ↔ IsRight timeline.now caller turn before (line_of op told) }
{
    let Some(number) = timeline.try_number_for(before, op, told) else {
        return false;
    };
    if number != told.number {
        return false;
    }
    !told.reply.tells_update() || is_told(caller, turn, op, told, timeline, turns)
}

// How many updates of its caller there are after this was told.
fn next_turn(turn: u64, told: Told) -> u64
    requires { turn < 18446744073709551615 }
    ensures next { result ≡ (if tells_update told.reply then turn + 1 else turn) }
    ensures within { result ≤ turn + 1 }
{
    if told.reply.tells_update() {
        turn + 1
    } else {
        turn
    }
}

// The place of the caller's first line that isn't right, and `None` where all are.
fn first_wrong(
    caller: u32,
    script: &[Op],
    told: &[Told],
    timeline: &Timeline,
    turns: &Turns,
) -> Option<u64>
    requires { turns.now.history ≡ timeline.now.history }
    ensures right { IfNone result (AreRight timeline.now caller 0 0 (told_lines script.now told.now)) }
    ensures wrong { IfSome result (IsWrongAt timeline.now caller 0 0 (told_lines script.now told.now)) }
    ensures within { IfSome result (λ place. place < length script.now) }
{
    let mut turn = 0;
    let mut before = 0;
    let mut place = 0;
    for (op, answer) in script.iter().zip(told) {
        if !is_right(caller, turn, before, *op, *answer, timeline, turns) {
            return Some(place);
        }
        turn = next_turn(turn, *answer);
        before = answer.number;
        place += 1;
    }
    None
}

/// The first line that the history doesn't explain as it stands, with its reply and its number, in the first script that has such a line.
/// `None` comes too where scripts have no answers, or a caller of the history has no script.
pub fn first_wrong_line(
    alloc: Global,
    scripts: &Scripts,
    told: &[ToldList],
    history: &[Update],
    slots: u32,
) -> Result<Option<Place>, NoMemory>
    ensures within { IfOk result (λ found. IfSome found (λ place. (place.script < length scripts.now)
        × (place.line < length (slice_index_or scripts.now place.script [])))) }
    ensures limit { IfOk result (λ found. IfSome found (λ place. place.line < 1048576)) }
    ensures wrong { IfOk result (λ found. IfSome found (IsFirstWrong scripts.now (entries_of told.now) history.now slots)) }
    ensures right { IfOk result (λ found. IfNone found (map length (entries_of told.now) ≡ map length scripts.now
        → All (λ update. update.caller < length scripts.now) history.now
        → (i : ℕ) → i < length scripts.now
        → IsScriptRight (course_of scripts.now history.now slots) scripts.now (entries_of told.now) i)) }
{
    if !are_all_answered(scripts, told) || !are_callers_below(history, scripts.count()) {
        return Ok(None);
    }
    let timeline = Timeline::new(alloc, history, scripts.count(), slots)?;
    let turns = Turns::new(alloc, history, scripts.count())?;
    for (i, list) in told.iter().enumerate() {
        let caller = i as u32;
        let script = scripts.script(caller);
        if let Some(line) = first_wrong(caller, script, list.entries(), &timeline, &turns) {
            return Ok(Some(Place {
                script: caller,
                line,
            }));
        }
    }
    Ok(None)
}
