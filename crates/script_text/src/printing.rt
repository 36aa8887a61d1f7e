//! Printing scripts.
ghost use Rattle.std.specs.Prelude.{◌≡◌, ◌++◌, All, OnOk, IfOk};
ghost use Rattle.prcu_model.specs.Scripts.{FitsWords};
ghost use Rattle.script_text.specs.Grammar.{script_text, scripts_text, IsScriptText};

use crate::operation::push_op;
use prcu_model::{NoMemory, Op, Scripts};
use std::alloc::Global;

// Appends the script's lines.
fn push_script(out: &mut Vec<u8>, script: &[Op]) -> Result<(), NoMemory>
    ensures text { OnOk result (out.new.items ≡ out.old.items ++ script_text script.now) }
    ensures fits { OnOk result (All FitsWords script.now) }
{
    out.extend_from_slice(b"script\n")?;
    for op in script {
        push_op(out, *op)?;
        out.push(b'\n')?;
    }
    Ok(())
}

/// The one text of the scripts without comments and blank lines.
pub fn print(alloc: Global, scripts: &Scripts) -> Result<Vec<u8>, NoMemory>
    ensures text { IfOk result (λ text. text.items ≡ scripts_text scripts.now) }

    // Read again, it gives the scripts.
    ensures again { IfOk result (λ text. IsScriptText text.items scripts.now) }
{
    // A script takes 7 bytes at least, and an operation 6.
    let least = 7 * scripts.count() + 6 * scripts.ops();
    let mut text = Vec::with_capacity(alloc, least as usize)?;
    for i in 0..scripts.count() {
        push_script(&mut text, scripts.script(i))?;
    }
    Ok(text)
}
