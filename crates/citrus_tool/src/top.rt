//! The top call.
ghost use Rattle.std.specs.Prelude.{◌≡◌, ◌≤◌, ◌⊎◌, ◌↔◌, ℕ, List, Some, Err, IfOk, OnOk, map, length, string_bytes};
ghost use Rattle.io_edge.specs.Edge.{Rose, Takes, IsAtEnd, TakesToLimit, ReadsToEnd};
ghost use Rattle.command_words.specs.declared.commands.Command as command;
ghost use Rattle.citrus_tool.specs.Answers.{Answered, AnsweredInPart, AnsweredBy, AnsweredInPartBy, IsAnswerable, WritesNothing};
ghost use Rattle.citrus_tool.specs.Details.{IsDetailed, IsDetailedBy};
ghost use Rattle.command_words.specs.Commands.{Asks, IsCommand, IsInRange, Reads, limit_of};
ghost use Rattle.command_words.specs.Statuses.{WritesWhole};

use crate::details::detail_of;
use crate::outcome::{Outcome, Ran};
use crate::running::answer_to;
use command_words::{Command, Status, command_of};
use io_edge::{ReadError, Sink, Source, read_all, write_all};
use prcu_marks::Gate;
use std::alloc::Global;
use std::sync::Wait;
use std::thread::Threads;

/// Does what the words ask for, from the source to the sink, and tells how it ended. The whole text is made before its
/// first byte is written. Where several causes meet, the first of these is told: words, reading and length, scripts,
/// memory for the work, writing; `NoMemory` may come in place of any before the first byte is written.
///
/// Scripts that run beside each other do so in threads of `rt`, and pass `gate`, which may hold one back.
pub fn tool<R: Threads + Wait + Sync, S: Source, K: Sink, G: Gate + Sync>(
    rt: &R,
    alloc: Global,
    words: &[String],
    source: &mut S,
    sink: &mut K,
    gate: &G,
) -> Outcome
    // Usage comes exactly for words that are no command, and then nothing is read or written.
    ensures usage { (result.status ≡ Status.Usage) ↔ (IsCommand (map string_bytes words.now) → ⊥) }
    ensures unread { result.status ≡ Status.Usage → source.new ≡ source.old }

    // A command that reads nothing leaves the source as it is.
    ensures reads_nothing { (command : command.Command) → Asks (map string_bytes words.now) command → (Reads command → ⊥)
        → source.new ≡ source.old }

    // Faults are those of the source and the sink, and each is told: a count stays as it was at every other status.
    ensures read_fault { result.status ≡ Status.ReadFault → Rose (S.faults source.old) (S.faults source.new) }
    ensures write_fault { result.status ≡ Status.WriteFault → Rose (K.faults sink.old) (K.faults sink.new) }
    ensures no_read_fault { (result.status ≡ Status.ReadFault → ⊥) → S.faults source.new ≡ S.faults source.old }
    ensures no_write_fault { (result.status ≡ Status.WriteFault → ⊥) → K.faults sink.new ≡ K.faults sink.old }
    ensures source_counted { S.faults source.old ≤ S.faults source.new }
    ensures sink_counted { K.faults sink.old ≤ K.faults sink.new }

    // TooLong comes exactly where more bytes than the command's limit were taken.
    ensures too_long { (command : command.Command) → Asks (map string_bytes words.now) command
        → TakesToLimit (limit_of command) (S.rest source.old) (S.rest source.new) (result.status ≡ Status.TooLong) }

    // Where something may have been written the input was read to its end, and nothing was read after the end was told.
    ensures last { (WritesNothing result.status → ⊥) → (command : command.Command) → Asks (map string_bytes words.now) command
        → Reads command
        → ReadsToEnd S.reads source.old source.new }

    // What was written answers what was read, and what is left is what the run made.
    ensures done { result.status ≡ Status.Done → Answered (map string_bytes words.now) Status.Done
        (S.rest source.old) (S.rest source.new) (K.bytes sink.old) (K.bytes sink.new) result.ran }
    ensures refused { result.status ≡ Status.Refused → Answered (map string_bytes words.now) Status.Refused
        (S.rest source.old) (S.rest source.new) (K.bytes sink.old) (K.bytes sink.new) result.ran }
    ensures bad_script { result.status ≡ Status.BadScript → Answered (map string_bytes words.now) Status.BadScript
        (S.rest source.old) (S.rest source.new) (K.bytes sink.old) (K.bytes sink.new) result.ran }
    ensures cut_short { result.status ≡ Status.WriteFault → AnsweredInPart (map string_bytes words.now)
        (S.rest source.old) (S.rest source.new) (K.bytes sink.old) (K.bytes sink.new) }
    ensures unwritten { WritesNothing result.status → sink.new ≡ sink.old }
    ensures passed_on { WritesWhole result.status → K.passed_on sink.new }

    // An input with good scripts within the limit is answered, unless a count rose or the memory wasn't there.
    ensures complete { (command : command.Command) (input : List ℕ) → Asks (map string_bytes words.now) command
        → S.rest source.old ≡ Some input → IsAnswerable command input → length input ≤ limit_of command
        → (Rose (S.faults source.old) (S.faults source.new) → ⊥) → (Rose (K.faults sink.old) (K.faults sink.new) → ⊥)
        → (result.status ≡ Status.Done) ⊎ (result.status ≡ Status.Refused) ⊎ (result.status ≡ Status.NoMemory) }
    // What is told beside the status is true of what was read.
    ensures detail { IsDetailed (map string_bytes words.now) result.status (S.rest source.old) (S.rest source.new) result.detail }
    // Nothing is left where the text wasn't written whole.
    ensures left { (result.status ≡ Status.Done → ⊥) → result.ran ≡ Ran.Nothing }
{
    match command_of(words) {
        Some(command) => answer_from(rt, alloc, command, source, sink, gate),
        None => Outcome::nothing(Status::Usage),
    }
}

// Reads the command's input from the source, and writes what answers it to the sink.
fn answer_from<R: Threads + Wait + Sync, S: Source, K: Sink, G: Gate + Sync>(
    rt: &R,
    alloc: Global,
    command: Command,
    source: &mut S,
    sink: &mut K,
    gate: &G,
) -> Outcome
    requires { IsInRange command }
    ensures read_fault { result.status ≡ Status.ReadFault → Rose (S.faults source.old) (S.faults source.new) }
    ensures write_fault { result.status ≡ Status.WriteFault → Rose (K.faults sink.old) (K.faults sink.new) }
    ensures no_read_fault { (result.status ≡ Status.ReadFault → ⊥) → S.faults source.new ≡ S.faults source.old }
    ensures no_write_fault { (result.status ≡ Status.WriteFault → ⊥) → K.faults sink.new ≡ K.faults sink.old }
    ensures source_counted { S.faults source.old ≤ S.faults source.new }
    ensures sink_counted { K.faults sink.old ≤ K.faults sink.new }
    ensures too_long { TakesToLimit (limit_of command) (S.rest source.old) (S.rest source.new) (result.status ≡ Status.TooLong) }
    ensures done { result.status ≡ Status.Done → AnsweredBy command Status.Done
        (S.rest source.old) (S.rest source.new) (K.bytes sink.old) (K.bytes sink.new) result.ran }
    ensures refused { result.status ≡ Status.Refused → AnsweredBy command Status.Refused
        (S.rest source.old) (S.rest source.new) (K.bytes sink.old) (K.bytes sink.new) result.ran }
    ensures bad_script { result.status ≡ Status.BadScript → AnsweredBy command Status.BadScript
        (S.rest source.old) (S.rest source.new) (K.bytes sink.old) (K.bytes sink.new) result.ran }
    ensures cut_short { result.status ≡ Status.WriteFault → AnsweredInPartBy command
        (S.rest source.old) (S.rest source.new) (K.bytes sink.old) (K.bytes sink.new) }
    ensures unwritten { WritesNothing result.status → sink.new ≡ sink.old }
    ensures last { (WritesNothing result.status → ⊥) → Reads command → ReadsToEnd S.reads source.old source.new }
    ensures passed_on { WritesWhole result.status → K.passed_on sink.new }
    ensures a_command { result.status ≡ Status.Usage → ⊥ }
    ensures reads_nothing { (Reads command → ⊥) → source.new ≡ source.old }
    ensures detail { IsDetailedBy command result.status (S.rest source.old) (S.rest source.new) result.detail }
    ensures left { (result.status ≡ Status.Done → ⊥) → result.ran ≡ Ran.Nothing }
{
    let input = match input_of(alloc, command, source) {
        Ok(input) => input,
        Err(ReadError::Fault) => return Outcome::nothing(Status::ReadFault),
        Err(ReadError::TooLong) => return Outcome::nothing(Status::TooLong),
        Err(ReadError::NoMemory) => return Outcome::nothing(Status::NoMemory),
    };
    let Ok(answer) = answer_to(rt, alloc, command, &input, gate) else {
        return Outcome::nothing(Status::NoMemory);
    };
    match write_all(sink, &answer.text) {
        Ok(()) => Outcome {
            status: answer.status,
            detail: detail_of(alloc, command, answer.status, &input),
            ran: answer.ran,
        },
        Err(_) => Outcome::nothing(Status::WriteFault),
    }
}

// The command's input, read from the source to its end. A command that reads nothing leaves the source as it is.
fn input_of<S: Source>(
    alloc: Global,
    command: Command,
    source: &mut S,
) -> Result<Vec<u8>, ReadError>
    ensures short { IfOk result (λ text. length text.items ≤ limit_of command) }
    ensures whole { IfOk result (λ text. Takes (S.rest source.old) (S.rest source.new) text.items) }
    ensures end { OnOk result (Reads command → IsAtEnd (S.rest source.new)) }
    ensures last { OnOk result (Reads command → ReadsToEnd S.reads source.old source.new) }
    ensures unread { (Reads command → ⊥) → source.new ≡ source.old }
    ensures too_long { TakesToLimit (limit_of command) (S.rest source.old) (S.rest source.new) (result ≡ Err ReadError.TooLong) }
    ensures fault { result ≡ Err ReadError.Fault → Rose (S.faults source.old) (S.faults source.new) }
    ensures no_fault { (result ≡ Err ReadError.Fault → ⊥) → S.faults source.new ≡ S.faults source.old }
    ensures counted { S.faults source.old ≤ S.faults source.new }
{
    match command {
        Command::Run { .. } | Command::Check { .. } | Command::Watch { .. } | Command::Hash => {
            read_all(alloc, source, command.limit())
        }
        Command::Load { .. } => Ok(Vec::new(alloc)),
    }
}
