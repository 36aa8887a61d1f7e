//! The bytes of a summary.
ghost use Rattle.std.specs.Prelude.{◌≡◌, ◌++◌, codes, IfOk, OnOk};
ghost use Rattle.workload.specs.Summaries.{count_line, summary_text};

use crate::summing::Summary;
use itoa::Buffer;
use prcu_model::NoMemory;
use std::alloc::Global;

// Appends a word, a space, a number and the end of the line.
fn push_count(out: &mut Vec<u8>, word: &[u8], number: u64) -> Result<(), NoMemory>
    ensures { OnOk result (out.new.items ≡ out.old.items ++ count_line word.now number) }
{
    let mut buffer = Buffer::new();
    out.extend_from_slice(word)?;
    out.push(b' ')?;
    out.extend_from_slice(buffer.format(number).as_bytes())?;
    out.push(b'\n')?;
    Ok(())
}

/// The summary as text: a line for each of its numbers, and `end`.
pub fn write_summary(alloc: Global, summary: &Summary) -> Result<Vec<u8>, NoMemory>
    ensures { IfOk result (λ text. text.items ≡ summary_text summary.now) }
{
    let mut out = Vec::new(alloc);
    push_count(&mut out, b"scripts", summary.scripts)?;
    push_count(&mut out, b"ops", summary.ops)?;
    push_count(&mut out, b"new", summary.new)?;
    push_count(&mut out, b"old", summary.old)?;
    push_count(&mut out, b"val", summary.val)?;
    push_count(&mut out, b"none", summary.none)?;
    push_count(&mut out, b"gone", summary.gone)?;
    push_count(&mut out, b"size", summary.size)?;
    push_count(&mut out, b"keys", summary.keys)?;
    push_count(&mut out, b"values", summary.values)?;
    out.extend_from_slice(b"end\n")?;
    Ok(out)
}
