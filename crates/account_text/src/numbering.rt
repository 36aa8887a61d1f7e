//! The number that stands beside each line.
ghost use Rattle.std.specs.Prelude.{◌≡◌, ◌^◌, ◌<◌, length, IfOk};
ghost use Rattle.std.specs.FinMap as map;
ghost use Rattle.prcu_model.specs.Dictionary.{map_of, IsLegal};
ghost use Rattle.prcu_model.specs.Scripts.{entries_of};
ghost use Rattle.prcu_model.specs.Fronts.{AreExplainable, CanBeNumbered, AreNumbered, AllAreNumbered, told_lines, all_told_lines};
ghost use Rattle.account_text.specs.Account.{IsAccount, HaveReplies, account_of};

use crate::judging::try_number_script;
use crate::printing::print_account;
use crate::timeline::Timeline;
use prcu_model::{LineList, NoMemory, Op, Scripts, Told, ToldList, Update};
use std::alloc::Global;

// The lines of one script, which numbers may stand beside, with their numbers.
fn number_script(
    alloc: Global,
    script: &[Op],
    told: &[Told],
    timeline: &Timeline,
) -> Result<LineList, NoMemory>
    requires same_length { length told.now ≡ length script.now }
    requires fits { length script.now < 2 ^ 32 }
    requires can { CanBeNumbered timeline.now.room timeline.now.history (told_lines script.now told.now) }
    ensures { IfOk result (λ list. AreNumbered timeline.now.room timeline.now.history 0 (told_lines script.now told.now) list.entries) }
{
    let lines = try_number_script(alloc, script, told, timeline)?;
    Ok(lines.unwrap())
}

// What `fronts` gives, of the timeline's history and slots.
fn number_scripts(
    alloc: Global,
    scripts: &Scripts,
    told: &[ToldList],
    timeline: &Timeline,
) -> Result<Vec<LineList>, NoMemory>
    requires scripts { timeline.now.room.scripts ≡ length scripts.now }
    requires explained { AreExplainable scripts.now (entries_of told.now) timeline.now.history timeline.now.room.slots }
    ensures { IfOk result (λ lists. AllAreNumbered timeline.now.room timeline.now.history
        (all_told_lines scripts.now (entries_of told.now)) (entries_of lists.items)) }
{
    // No script has more operations than all of them together.
    prove!(scripts.ops() <= Scripts::MOST_OPS);
    prove!(scripts.count() <= Scripts::MOST_SCRIPTS);
    let mut lists = Vec::with_capacity(alloc, told.len())?;
    for (i, list) in told.iter().enumerate() {
        let script = scripts.script(i as u32);
        lists.push(number_script(alloc, script, list.entries(), timeline)?)?;
    }
    Ok(lists)
}

/// What each script was told, with the number that stands beside each line: at an update its position in the history,
/// and else the least front that explains the reply and isn't below the number of the line before it. The scripts share
/// so many slots. The history is replayed once; a line takes a search among its key's updates, and a script passes each
/// of them at most once besides.
pub fn fronts(
    alloc: Global,
    scripts: &Scripts,
    told: &[ToldList],
    history: &[Update],
    slots: u32,
) -> Result<Vec<LineList>, NoMemory>
    requires { AreExplainable scripts.now (entries_of told.now) history.now slots }
    ensures numbered { IfOk result (λ lists. AllAreNumbered (record { scripts = length scripts.now; slots = slots }) history.now
        (all_told_lines scripts.now (entries_of told.now)) (entries_of lists.items)) }
    ensures account { IfOk result (λ lists. IsLegal history.now
        → (account : IsAccount scripts.now slots (account_of (entries_of lists.items) history.now (map.entries (map_of history.now))))
        × (account.history ≡ history.now)) }
{
    let timeline = Timeline::new(alloc, history, scripts.count(), slots)?;
    number_scripts(alloc, scripts, told, &timeline)
}

/// The account of what the scripts were told, with this history: its lines have the replies that were told. The scripts share so
/// many slots. It is what `fronts` and `write_account` make of them, with one replay of the history for both.
pub fn make_account(
    alloc: Global,
    scripts: &Scripts,
    told: &[ToldList],
    history: &[Update],
    slots: u32,
) -> Result<Vec<u8>, NoMemory>
    requires explained { AreExplainable scripts.now (entries_of told.now) history.now slots }
    requires legal { IsLegal history.now }
    ensures { IfOk result (λ text. (account : IsAccount scripts.now slots text.items) × (account.history ≡ history.now)
        × HaveReplies (entries_of told.now) account.lines) }
{
    let timeline = Timeline::new(alloc, history, scripts.count(), slots)?;
    let lines = number_scripts(alloc, scripts, told, &timeline)?;
    let pairs = timeline.last_pairs(alloc)?;
    print_account(alloc, &lines, history, &pairs)
}
