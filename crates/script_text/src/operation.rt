//! Operations as text.
ghost use Rattle.std.specs.Prelude.{◌≡◌, ◌^◌, ◌<◌, ◌++◌, codes, decimal, ℕ, OnOk, MatchOption};
ghost use Rattle.prcu_model.specs.declared.operation.Op.{Op};
ghost use Rattle.prcu_model.specs.Scripts.{FitsWords};
ghost use Rattle.script_text.specs.Grammar.{op_text};

use crate::number::{push_number, read_number};
use crate::split::split_at_first;
use prcu_model::{NoMemory, Op};

// Appends a space and a number.
fn push_spaced(out: &mut Vec<u8>, number: u64) -> Result<(), NoMemory>
    ensures { OnOk result (out.new.items ≡ out.old.items ++ codes " " ++ decimal number) }
{
    out.push(b' ')?;
    push_number(out, number)
}

/// Appends the operation's text. At `NoMemory` nothing is said of what stands in `out` then.
pub fn push_op(out: &mut Vec<u8>, op: Op) -> Result<(), NoMemory>
    ensures text { OnOk result (out.new.items ≡ out.old.items ++ op_text op) }

    // Whoever pushes an operation learns that its numbers are below 2^64, as a reader demands.
    ensures fits { FitsWords op }
{
    match op {
        Op::Put { key, value } => {
            out.extend_from_slice(b"put")?;
            push_spaced(out, key)?;
            push_spaced(out, value)
        }
        Op::Get { key } => {
            out.extend_from_slice(b"get")?;
            push_spaced(out, key)
        }
        Op::Del { key } => {
            out.extend_from_slice(b"del")?;
            push_spaced(out, key)
        }
        Op::Set { key, value } => {
            out.extend_from_slice(b"set")?;
            push_spaced(out, key)?;
            push_spaced(out, value)
        }
    }
}

// The two numbers that the bytes are, parted by a space. `None` for all else.
fn read_pair(words: &[u8]) -> Option<(u64, u64)>
    ensures { MatchOption result
        ((m n : ℕ) → m < 2 ^ 64 → n < 2 ^ 64 → words.now ≡ decimal m ++ codes " " ++ decimal n → ⊥)
        (λ pair. words.now ≡ decimal pair.0 ++ codes " " ++ decimal pair.1) }
{
    let (first, second) = split_at_first(words, b' ')?;
    Some((read_number(first)?, read_number(second)?))
}

/// The operation whose text the line is. `None` where it is no operation's.
pub fn read_op(line: &[u8]) -> Option<Op>
    ensures { MatchOption result
        ((o : Op) → FitsWords o → line.now ≡ op_text o → ⊥)
        (λ o. (line.now ≡ op_text o) × FitsWords o) }
{
    if let Some(words) = line.strip_prefix(b"put ") {
        let (key, value) = read_pair(words)?;
        Some(Op::Put { key, value })
    } else if let Some(words) = line.strip_prefix(b"get ") {
        let key = read_number(words)?;
        Some(Op::Get { key })
    } else if let Some(words) = line.strip_prefix(b"del ") {
        let key = read_number(words)?;
        Some(Op::Del { key })
    } else if let Some(words) = line.strip_prefix(b"set ") {
        let (key, value) = read_pair(words)?;
        Some(Op::Set { key, value })
    } else {
        None
    }
}
