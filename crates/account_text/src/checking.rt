//! Whether a text is an account.
ghost use Rattle.std.specs.Prelude.{◌↔◌, IsTrue, IfOk};
ghost use Rattle.prcu_model.specs.Scripts.{entries_of};
ghost use Rattle.account_text.specs.Account.{IsAccount, IsPrinted};

use crate::judging::explain;
use crate::printing::print_account;
use crate::reading::read_account;
use crate::timeline::Timeline;
use prcu_model::{NoMemory, Scripts, ToldList, Update};
use std::alloc::Global;

/// Whether the text is an account of these scripts with so many slots. What the text claims is judged, printed again,
/// and compared with the text, so no reader has to be trusted.
pub fn check(alloc: Global, scripts: &Scripts, slots: u32, text: &[u8]) -> Result<bool, NoMemory>
    ensures { IfOk result (λ yes. IsTrue yes ↔ IsAccount scripts.now slots text.now) }
{
    prove!(scripts.count() <= Scripts::MOST_SCRIPTS);
    match read_account(alloc, scripts, text)? {
        Some(claims) => prints(alloc, scripts, slots, &claims.told, &claims.history, text),
        None => Ok(false),
    }
}

// Whether what was told and the history are true of the scripts, and printed they are the text.
fn prints(
    alloc: Global,
    scripts: &Scripts,
    slots: u32,
    told: &[ToldList],
    history: &[Update],
    text: &[u8],
) -> Result<bool, NoMemory>
    ensures { IfOk result (λ yes. IsTrue yes ↔ IsPrinted scripts.now slots (entries_of told.now) history.now text.now) }
{
    let timeline = Timeline::new(alloc, history, scripts.count(), slots)?;
    if !timeline.is_legal() {
        return Ok(false);
    }
    let Some(lines) = explain(alloc, scripts, told, &timeline)? else {
        return Ok(false);
    };
    let pairs = timeline.last_pairs(alloc)?;
    let printed = print_account(alloc, &lines, history, &pairs)?;
    Ok(printed.as_slice() == text)
}
