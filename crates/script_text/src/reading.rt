//! Reading scripts.
ghost use Rattle.std.specs.Prelude.{◌≡◌, ◌≤◌, ℕ, List, length, min, IfOk, OnOk, IsErrOf};
ghost use Rattle.prcu_model.specs.declared.operation.Op.{Op};
ghost use Rattle.script_text.specs.Grammar.{IsGoodLineUpTo, IsScriptText, IsFirstBad, IsScriptTextUpTo, IsFirstBadUpTo};

use crate::error::ScriptError;
use crate::operation::read_op;
use crate::split::next_line;
use prcu_model::Scripts;
use std::alloc::Global;

// Adds the line to the scripts, of which there may be so many. The number is that of the line, for the error.
fn read_line(scripts: &mut Scripts, most: u32, line: &[u8], number: u32) -> Result<(), ScriptError>
    requires most { most ≤ 64 }
    ensures ok { OnOk result (IsGoodLineUpTo most scripts.old line.now scripts.new) }
    ensures number { (n : ℕ) → IsErrOf result (ScriptError.Line n) → n ≡ number }
    ensures bad { (n : ℕ) → IsErrOf result (ScriptError.Line n)
        → (after : List (List Op)) → IsGoodLineUpTo most scripts.old line.now after → ⊥ }
{
    if line.is_empty() || line[0] == b'#' {
        return Ok(());
    }
    if line == b"script".as_slice() {
        if scripts.count() >= most {
            return Err(ScriptError::Line { number });
        }
        scripts.add_script()?;
        return Ok(());
    }
    let op = read_op(line).ok_or(ScriptError::Line { number })?;
    if scripts.count() == 0 || scripts.ops() == Scripts::MOST_OPS {
        return Err(ScriptError::Line { number });
    }
    scripts.add_op(op)?;
    Ok(())
}

/// Reads a script text: its lines in one pass, up to the first bad one. `Line` has that one's number, counted from 1,
/// or 4,294,967,295 where the number is larger. `NoMemory` comes where the memory for the scripts isn't there.
pub fn parse(alloc: Global, text: &[u8]) -> Result<Scripts, ScriptError>
    // What is read is in the grammar.
    ensures ok { IfOk result (λ scripts. IsScriptText text.now scripts) }

    // A text has one reading.
    ensures only { IfOk result (λ scripts.
        (others : List (List Op)) → IsScriptText text.now others → others ≡ scripts) }

    // The number told is that of the first bad line.
    ensures line { (n : ℕ) → IsErrOf result (ScriptError.Line n)
        → (first : ℕ) × IsFirstBad text.now first × (n ≡ min first 4294967295) }

    // Nothing can be read from a text with a bad line.
    ensures none { (n : ℕ) → IsErrOf result (ScriptError.Line n)
        → (scripts : List (List Op)) → IsScriptText text.now scripts → ⊥ }
{
    parse_up_to(alloc, text, Scripts::MOST_SCRIPTS)
}

/// Reads a text of at most so many scripts: its lines in one pass, up to the first bad one. `Line` has that one's number, counted from 1,
/// or 4,294,967,295 where the number is larger. `NoMemory` comes where the memory for the scripts isn't there.
pub fn parse_up_to(alloc: Global, text: &[u8], most: u32) -> Result<Scripts, ScriptError>
    requires most { most ≤ 64 }

    // What is read is in the grammar.
    ensures ok { IfOk result (λ scripts. IsScriptTextUpTo most text.now scripts) }

    // There are no more scripts than there may be.
    ensures few { IfOk result (λ scripts. length scripts ≤ most) }

    // A text has one reading.
    ensures only { IfOk result (λ scripts.
        (others : List (List Op)) → IsScriptTextUpTo most text.now others → others ≡ scripts) }

    // The number told is that of the first bad line.
    ensures line { (n : ℕ) → IsErrOf result (ScriptError.Line n)
        → (first : ℕ) × IsFirstBadUpTo most text.now first × (n ≡ min first 4294967295) }

    // Nothing can be read from a text with a bad line.
    ensures none { (n : ℕ) → IsErrOf result (ScriptError.Line n)
        → (scripts : List (List Op)) → IsScriptTextUpTo most text.now scripts → ⊥ }
{
    let mut scripts = Scripts::new(alloc);
    let mut rest = text;
    let mut number: u32 = 0;
    while let Some((line, after)) = next_line(rest) {
        number = number.saturating_add(1);
        read_line(&mut scripts, most, line, number)?;
        rest = after;
    }
    Ok(scripts)
}
