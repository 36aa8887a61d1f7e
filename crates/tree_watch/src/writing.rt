//! Watch texts: an account, and snapshots behind it.
ghost use Rattle.std.specs.Prelude.{◌≡◌, ◌++◌, IfOk, OnOk, length};
ghost use Rattle.prcu_model.specs.Fronts.{AreExplainable};
ghost use Rattle.prcu_model.specs.Dictionary.{IsLegal};
ghost use Rattle.prcu_model.specs.Scripts.{entries_of};
ghost use Rattle.account_text.specs.Account.{HaveReplies};
ghost use Rattle.tree_watch.specs.Snapshots.{AreSnapshots, kind_text, block_text, watch_part, IsWatchText};

use crate::snapshot::{Snapshot, Snapshots};
use account_text::{make_account, push_last_number, push_pairs};
use key_interval::Keys;
use prcu_model::{NoMemory, Scripts, ToldList, Update};
use script_text::push_number;
use std::alloc::Global;

/// The watch text of what the scripts were told, with this history and the snapshots of these keys: the lines of its account have the
/// replies that were told. The scripts share so many slots.
pub fn make_watch_text(
    alloc: Global,
    scripts: &Scripts,
    told: &[ToldList],
    history: &[Update],
    slots: u32,
    keys: Keys,
    snapshots: &Snapshots,
) -> Result<Vec<u8>, NoMemory>
    requires explained { AreExplainable scripts.now (entries_of told.now) history.now slots }
    requires legal { IsLegal history.now }
    requires snapshots { AreSnapshots history.now keys.low keys.high 0 snapshots.now }
    ensures { IfOk result (λ text. (watch : IsWatchText scripts.now slots keys.low keys.high text.items)
        × (watch.account.history ≡ history.now) × (watch.snapshots ≡ snapshots.now)
        × HaveReplies (entries_of told.now) watch.account.lines) }
{
    let mut text = make_account(alloc, scripts, told, history, slots)?;
    push_watch(&mut text, keys, snapshots)?;
    Ok(text)
}

// Appends the range, the snapshots' blocks, and `end`.
fn push_watch(out: &mut Vec<u8>, keys: Keys, snapshots: &Snapshots) -> Result<(), NoMemory>
    ensures four { OnOk result (length snapshots.now ≡ 4) }
    ensures text { OnOk result (out.new.items ≡ out.old.items ++ watch_part keys.low keys.high snapshots.now) }
{
    out.extend_from_slice(b"watch ")?;
    push_number(out, keys.low())?;
    out.push(b' ')?;
    push_last_number(out, keys.high())?;
    snapshots.push_to(out)?;
    out.extend_from_slice(b"end\n")?;
    Ok(())
}

// Appends the front, and the key after the pairs where there are more.
fn push_kind(out: &mut Vec<u8>, front: u64, next: Option<u64>) -> Result<(), NoMemory>
    ensures { OnOk result (out.new.items ≡ out.old.items ++ kind_text front next) }
{
    match next {
        None => {
            out.extend_from_slice(b"whole ")?;
            push_number(out, front)
        }
        Some(next) => {
            out.extend_from_slice(b"part ")?;
            push_number(out, front)?;
            out.push(b' ')?;
            push_number(out, next)
        }
    }
}

/// Appends the block of a snapshot.
pub(crate) fn push_block(out: &mut Vec<u8>, snapshot: &Snapshot) -> Result<(), NoMemory>
    ensures { OnOk result (out.new.items ≡ out.old.items ++ block_text snapshot.now) }
{
    let pairs = snapshot.pairs();
    push_kind(out, snapshot.front(), snapshot.next())?;
    out.push(b' ')?;
    push_last_number(out, pairs.len() as u64)?;
    push_pairs(out, pairs)
}
