//! The bytes of an account.
ghost use Rattle.std.specs.Prelude.{◌≡◌, ◌++◌, length, codes, decimal, flat_map, IfOk, OnOk};
ghost use Rattle.std.specs.FinMap as map;
ghost use Rattle.prcu_model.specs.Dictionary.{map_of};
ghost use Rattle.prcu_model.specs.Scripts.{entries_of};
ghost use Rattle.script_text.specs.Grammar.{op_text};
ghost use Rattle.account_text.specs.Account.{reply_text, line_text, script_part, scripts_from, history_from, pair_text, account_of};

use crate::timeline::replay;
use prcu_model::{Line, LineList, NoMemory, Reply, Update};
use script_text::{push_number, push_op};
use std::alloc::Global;

// Appends a word, a value and a space.
fn push_valued(out: &mut Vec<u8>, word: &[u8], value: u64) -> Result<(), NoMemory>
    ensures { OnOk result (out.new.items ≡ out.old.items ++ (word.now ++ decimal value ++ codes " ")) }
{
    out.extend_from_slice(word)?;
    push_number(out, value)?;
    out.push(b' ')?;
    Ok(())
}

// Appends the reply's words, with a space after them.
fn push_reply(out: &mut Vec<u8>, reply: Reply) -> Result<(), NoMemory>
    ensures { OnOk result (out.new.items ≡ out.old.items ++ reply_text reply) }
{
    match reply {
        Reply::New => out.extend_from_slice(b"new ")?,
        Reply::Old => out.extend_from_slice(b"old ")?,
        Reply::Full => out.extend_from_slice(b"full ")?,
        Reply::Val { value } => push_valued(out, b"val ", value)?,
        Reply::Absent => out.extend_from_slice(b"none ")?,
        Reply::Gone => out.extend_from_slice(b"gone ")?,
        Reply::Was { value } => push_valued(out, b"was ", value)?,
    }
    Ok(())
}

/// Appends a number and the end of the line.
pub fn push_last_number(out: &mut Vec<u8>, number: u64) -> Result<(), NoMemory>
    ensures { OnOk result (out.new.items ≡ out.old.items ++ (decimal number ++ codes "\n")) }
{
    push_number(out, number)?;
    out.push(b'\n')?;
    Ok(())
}

// Appends a line of an account's scripts.
fn push_line(out: &mut Vec<u8>, line: Line) -> Result<(), NoMemory>
    ensures { OnOk result (out.new.items ≡ out.old.items ++ line_text line) }
{
    push_op(out, line.op)?;
    out.push(b' ')?;
    push_reply(out, line.reply)?;
    push_last_number(out, line.number)
}

// Appends the script with this number.
fn push_script(out: &mut Vec<u8>, number: u64, lines: &[Line]) -> Result<(), NoMemory>
    ensures { OnOk result (out.new.items ≡ out.old.items ++ script_part number lines.now) }
{
    out.extend_from_slice(b"script ")?;
    push_last_number(out, number)?;
    for line in lines {
        push_line(out, *line)?;
    }
    Ok(())
}

// Appends all scripts.
fn push_scripts(out: &mut Vec<u8>, scripts: &[LineList]) -> Result<(), NoMemory>
    ensures { OnOk result (out.new.items ≡ out.old.items ++ scripts_from 0 (entries_of scripts.now)) }
{
    for (i, lines) in scripts.iter().enumerate() {
        push_script(out, i as u64, lines.entries())?;
    }
    Ok(())
}

// Appends the update with this position.
fn push_update(out: &mut Vec<u8>, position: u64, update: Update) -> Result<(), NoMemory>
    ensures { OnOk result (out.new.items ≡ out.old.items
        ++ (decimal position ++ codes " " ++ decimal update.caller ++ codes " " ++ op_text update.op ++ codes "\n")) }
{
    push_number(out, position)?;
    out.push(b' ')?;
    push_number(out, u64::from(update.caller))?;
    out.push(b' ')?;
    push_op(out, update.op)?;
    out.push(b'\n')?;
    Ok(())
}

// Appends the history.
fn push_history(out: &mut Vec<u8>, history: &[Update]) -> Result<(), NoMemory>
    ensures { OnOk result (out.new.items ≡ out.old.items
        ++ (codes "history " ++ decimal (length history.now) ++ codes "\n" ++ history_from 1 history.now)) }
{
    out.extend_from_slice(b"history ")?;
    push_last_number(out, history.len() as u64)?;
    for (i, update) in history.iter().enumerate() {
        push_update(out, i as u64 + 1, *update)?;
    }
    Ok(())
}

// Appends the line of a pair.
fn push_pair(out: &mut Vec<u8>, pair: (u64, u64)) -> Result<(), NoMemory>
    ensures { OnOk result (out.new.items ≡ out.old.items ++ pair_text pair) }
{
    push_number(out, pair.0)?;
    out.push(b' ')?;
    push_last_number(out, pair.1)
}

/// Appends a line for each pair, its key and its value.
pub fn push_pairs(out: &mut Vec<u8>, pairs: &[(u64, u64)]) -> Result<(), NoMemory>
    ensures { OnOk result (out.new.items ≡ out.old.items ++ flat_map pair_text pairs.now) }
{
    for pair in pairs {
        push_pair(out, *pair)?;
    }
    Ok(())
}

// Appends the final pairs.
fn push_final(out: &mut Vec<u8>, pairs: &[(u64, u64)]) -> Result<(), NoMemory>
    ensures { OnOk result (out.new.items ≡ out.old.items
        ++ (codes "final " ++ decimal (length pairs.now) ++ codes "\n" ++ flat_map pair_text pairs.now)) }
{
    out.extend_from_slice(b"final ")?;
    push_last_number(out, pairs.len() as u64)?;
    push_pairs(out, pairs)
}

/// The account that prints these lines of the scripts, this history, and these final pairs.
pub fn print_account(
    alloc: Global,
    lines: &[LineList],
    history: &[Update],
    pairs: &[(u64, u64)],
) -> Result<Vec<u8>, NoMemory>
    ensures { IfOk result (λ text. text.items ≡ account_of (entries_of lines.now) history.now pairs.now) }
{
    let mut out = Vec::new(alloc);
    push_scripts(&mut out, lines)?;
    push_history(&mut out, history)?;
    push_final(&mut out, pairs)?;
    out.extend_from_slice(b"end\n")?;
    Ok(out)
}

/// The account that prints these lines of the scripts and this history, with the final pairs that the history makes.
pub fn write_account(
    alloc: Global,
    lines: &[LineList],
    history: &[Update],
) -> Result<Vec<u8>, NoMemory>
    ensures { IfOk result (λ text. text.items ≡ account_of (entries_of lines.now) history.now (map.entries (map_of history.now))) }
{
    let pairs = replay(alloc, history)?.last.pairs(alloc)?;
    print_account(alloc, lines, history, &pairs)
}
