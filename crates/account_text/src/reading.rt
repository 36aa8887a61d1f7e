//! Taking out of an account what it claims.
//!
//! Nothing is checked that isn't needed to find the claims: of lines that no account has, anything may be read.
ghost use Rattle.std.specs.Prelude.{◌≡◌, ℕ, ◌^◌, ◌<◌, List, ◌∷◌, ◌++◌, length, map, codes, decimal, IfOk, Some};
ghost use Rattle.std.specs.List.{AllByRecursion};
ghost use Rattle.std.specs.Option.{IsSomeAnd};
ghost use Rattle.prcu_model.specs.declared.operation.Op.{Op};
ghost use Rattle.prcu_model.specs.declared.operation.Reply.{Reply};
ghost use Rattle.prcu_model.specs.declared.operation.Line.{Line};
ghost use Rattle.prcu_model.specs.declared.operation.Update.{Update};
ghost use Rattle.prcu_model.specs.Scripts.{entries_of, FitsWords};
ghost use Rattle.script_text.specs.Grammar.{lines_of, op_text, Lacks};
ghost use Rattle.account_text.specs.Account.{reply_text, account_of, told_of, tolds_of, FitsReply, FitsLine, FitsUpdate, Fit, line_body, update_body, history_head, history_lines, TellsScript, TellsScripts, TellsUpdates};
ghost use Rattle.account_text.specs.declared.reading.Claimed.{Claimed};

use prcu_model::{NoMemory, Op, Reply, Scripts, Told, ToldList, Update};
use script_text::{next_line, read_number, read_op, split_at_first};
use std::alloc::Global;

// What stands after the first space.
fn skip_word(bytes: &[u8]) -> Option<&[u8]>
    ensures { (word rest : List ℕ) → Lacks word 32 → bytes.now ≡ word ++ 32 ∷ rest
        → IsSomeAnd result (λ after. after.now ≡ rest) }
{
    let (_, rest) = split_at_first(bytes, b' ')?;
    Some(rest)
}

// The number that the bytes are.
fn last_number(bytes: &[u8]) -> Option<u64>
    ensures { (n : ℕ) → n < 2 ^ 64 → bytes.now ≡ decimal n → result ≡ Some n }
{
    let number = read_number(bytes)?;
    Some(number)
}

// The operation that the bytes are.
fn last_op(bytes: &[u8]) -> Option<Op>
    ensures { (op : Op) → FitsWords op → bytes.now ≡ op_text op → result ≡ Some op }
{
    read_op(bytes)
}

// The number before the first space, and what stands after that.
fn number_then(bytes: &[u8]) -> Option<(u64, &[u8])>
    ensures { (n : ℕ) (rest : List ℕ) → n < 2 ^ 64 → bytes.now ≡ decimal n ++ 32 ∷ rest
        → IsSomeAnd result (λ read. (read.0 ≡ n) × (read.1.now ≡ rest)) }
{
    let (word, rest) = split_at_first(bytes, b' ')?;
    Some((last_number(word)?, rest))
}

// What stands after the operation and a space.
fn skip_op(op: Op, line: &[u8]) -> Option<&[u8]>
    ensures { (rest : List ℕ) → FitsWords op → line.now ≡ op_text op ++ 32 ∷ rest
        → IsSomeAnd result (λ after. after.now ≡ rest) }
{
    let words = skip_word(line)?;
    let after_key = skip_word(words)?;
    match op {
        Op::Get { .. } | Op::Del { .. } => Some(after_key),
        Op::Put { .. } | Op::Set { .. } => skip_word(after_key),
    }
}

// The reply that the bytes begin with, and what stands after it.
fn reply_then(bytes: &[u8]) -> Option<(Reply, &[u8])>
    ensures { (reply : Reply) (rest : List ℕ) → FitsReply reply → bytes.now ≡ reply_text reply ++ rest
        → IsSomeAnd result (λ read. (read.0 ≡ reply) × (read.1.now ≡ rest)) }
{
    if let Some(rest) = bytes.strip_prefix(b"new ") {
        Some((Reply::New, rest))
    } else if let Some(rest) = bytes.strip_prefix(b"old ") {
        Some((Reply::Old, rest))
    } else if let Some(rest) = bytes.strip_prefix(b"full ") {
        Some((Reply::Full, rest))
    } else if let Some(rest) = bytes.strip_prefix(b"none ") {
        Some((Reply::Absent, rest))
    } else if let Some(rest) = bytes.strip_prefix(b"gone ") {
        Some((Reply::Gone, rest))
    } else if let Some(rest) = bytes.strip_prefix(b"val ") {
        let (value, rest) = number_then(rest)?;
        Some((Reply::Val { value }, rest))
    } else if let Some(rest) = bytes.strip_prefix(b"was ") {
        let (value, rest) = number_then(rest)?;
        Some((Reply::Was { value }, rest))
    } else {
        None
    }
}

// What the line tells of the operation.
fn read_told(op: Op, line: &[u8]) -> Option<Told>
    ensures { (reply : Reply) (number : ℕ) → FitsWords op → FitsReply reply → number < 2 ^ 64
        → line.now ≡ line_body (record { op = op; reply = reply; number = number })
        → result ≡ Some (record { reply = reply; number = number }) }
{
    let after_op = skip_op(op, line)?;
    let (reply, digits) = reply_then(after_op)?;
    let number = last_number(digits)?;
    Some(Told { reply, number })
}

// The update of which the line tells. Its position isn't looked at.
fn read_update(line: &[u8]) -> Option<Update>
    ensures { (n : ℕ) (update : Update) → n < 2 ^ 64 → FitsUpdate update → line.now ≡ update_body n update
        → result ≡ Some update }
{
    let after_position = skip_word(line)?;
    let (caller, words) = number_then(after_position)?;
    if caller > u64::from(u32::MAX) {
        return None;
    }
    let op = last_op(words)?;
    Some(Update {
        caller: caller as u32,
        op,
    })
}

// The text after its first line.
fn skip_line(text: &[u8]) -> Option<&[u8]>
    ensures { (line : List ℕ) (more : List (List ℕ)) → lines_of text.now ≡ line ∷ more
        → IsSomeAnd result (λ after. lines_of after.now ≡ more) }
{
    let (_, rest) = next_line(text)?;
    Some(rest)
}

// What the first line tells of the operation, and the text after that line.
fn next_told(op: Op, text: &[u8]) -> Option<(Told, &[u8])>
    ensures { (line : Line) (more : List (List ℕ)) → line.op ≡ op → FitsWords op → FitsLine line
        → lines_of text.now ≡ line_body line ∷ more
        → IsSomeAnd result (λ read. (read.0 ≡ told_of line) × (lines_of read.1.now ≡ more)) }
{
    let (line, rest) = next_line(text)?;
    Some((read_told(op, line)?, rest))
}

// The update of which the first line tells, and the text after that line.
fn next_update(text: &[u8]) -> Option<(Update, &[u8])>
    ensures { (n : ℕ) (update : Update) (more : List (List ℕ)) → n < 2 ^ 64 → FitsUpdate update
        → lines_of text.now ≡ update_body n update ∷ more
        → IsSomeAnd result (λ read. (read.0 ≡ update) × (lines_of read.1.now ≡ more)) }
{
    let (line, rest) = next_line(text)?;
    Some((read_update(line)?, rest))
}

// The number of updates that the first line tells, and the text after that line.
fn next_count(text: &[u8]) -> Option<(u64, &[u8])>
    ensures { (count : ℕ) (more : List (List ℕ)) → count < 2 ^ 64 → lines_of text.now ≡ history_head count ∷ more
        → IsSomeAnd result (λ read. (read.0 ≡ count) × (lines_of read.1.now ≡ more)) }
{
    let (line, rest) = next_line(text)?;
    let digits = skip_word(line)?;
    Some((last_number(digits)?, rest))
}

// What the lines tell of a script's operations, and the text after them.
fn read_lines<'a>(
    alloc: Global,
    script: &[Op],
    text: &'a [u8],
) -> Result<Option<(ToldList, &'a [u8])>, NoMemory>
    requires { length script.now < 2 ^ 32 }
    ensures { (lines : List Line) (more : List (List ℕ)) → TellsScript text.now script.now lines more
        → IfOk result (λ found. IsSomeAnd found (λ read. (read.0.entries ≡ tolds_of lines) × (lines_of read.1.now ≡ more))) }
{
    let mut told = ToldList::new(alloc, script.len() as u32)?;
    let mut rest = text;
    for op in script {
        let Some((answer, after)) = next_told(*op, rest) else {
            return Ok(None);
        };
        told.push(answer);
        rest = after;
    }
    Ok(Some((told, rest)))
}

// What the scripts were told, and the text after that.
fn read_scripts<'a>(
    alloc: Global,
    scripts: &Scripts,
    text: &'a [u8],
) -> Result<Option<(Vec<ToldList>, &'a [u8])>, NoMemory>
    ensures { (lines : List (List Line)) (more : List (List ℕ)) → TellsScripts 0 text.now scripts.now lines more
        → IfOk result (λ found. IsSomeAnd found (λ read. (entries_of read.0.items ≡ map tolds_of lines) × (lines_of read.1.now ≡ more))) }
{
    let mut told = Vec::new(alloc);
    let mut rest = text;
    for i in 0..scripts.count() {
        let Some(lines) = skip_line(rest) else {
            return Ok(None);
        };
        let Some((list, after)) = read_lines(alloc, scripts.script(i), lines)? else {
            return Ok(None);
        };
        told.push(list)?;
        rest = after;
    }
    Ok(Some((told, rest)))
}

// So many updates.
fn read_updates(alloc: Global, count: u64, text: &[u8]) -> Result<Option<Vec<Update>>, NoMemory>
    ensures { (updates : List Update) (more : List (List ℕ)) → length updates ≡ count → TellsUpdates 1 text.now updates more
        → IfOk result (λ found. IsSomeAnd found (λ history. history.items ≡ updates)) }
{
    let mut history = Vec::new(alloc);
    let mut rest = text;
    while (history.len() as u64) < count {
        let Some((update, after)) = next_update(rest) else {
            return Ok(None);
        };
        history.push(update)?;
        rest = after;
    }
    Ok(Some(history))
}

// The history, from the line that tells how many updates it has.
fn read_history(alloc: Global, text: &[u8]) -> Result<Option<Vec<Update>>, NoMemory>
    ensures { (history : List Update) (more : List (List ℕ)) → AllByRecursion FitsUpdate history → length history < 2 ^ 64
        → lines_of text.now ≡ history_head (length history) ∷ (history_lines 1 history ++ more)
        → IfOk result (λ found. IsSomeAnd found (λ read. read.items ≡ history)) }
{
    let Some((count, rest)) = next_count(text) else {
        return Ok(None);
    };
    read_updates(alloc, count, rest)
}

/// What an account claims: what each script was told, and the history.
#[derive(Drop)]
pub struct Claimed {
    /// For each script, in their order, what its operations were told.
    pub told: Vec<ToldList>,
    /// The updates, in their order.
    pub history: Vec<Update>,
}

/// Takes out of an account of the scripts what it claims. `None` comes only where the text is no account of the scripts,
/// and `NoMemory` where the memory for the claims isn't there. The time is that of the text and of the scripts.
pub fn read_account(
    alloc: Global,
    scripts: &Scripts,
    text: &[u8],
) -> Result<Option<Claimed>, NoMemory>
    // Whatever account the text is, its claims are found. Nothing is promised of other texts: whether a text is an
    // account is judged afterwards, by printing the claims again.
    ensures found { IfOk result (λ claimed. (lines : List (List Line)) (history : List Update) (final : List (ℕ × ℕ))
        → Fit scripts.now lines history → text.now ≡ account_of lines history final
        → (c : Claimed) × (claimed ≡ Some c) × (entries_of c.told.items ≡ map tolds_of lines) × (c.history.items ≡ history)) }
{
    // So few scripts are numbered by numbers that fit.
    prove!(scripts.count() <= Scripts::MOST_SCRIPTS);
    let Some((told, rest)) = read_scripts(alloc, scripts, text)? else {
        return Ok(None);
    };
    let Some(history) = read_history(alloc, rest)? else {
        return Ok(None);
    };
    Ok(Some(Claimed { told, history }))
}
