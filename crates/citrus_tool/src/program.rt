//! The program, but for where its words and bytes come from and go.
ghost use Rattle.std.specs.Prelude.{◌≡◌, ◌≤◌, ◌⊎◌, ◌↔◌, ◌++◌, ℕ, List, Some, map, length, string_bytes};
ghost use Rattle.io_edge.specs.Edge.{Rose, Appends, AppendsFront, TakesToLimit, ReadsToEnd};
ghost use Rattle.command_words.specs.declared.commands.Command as command;
ghost use Rattle.citrus_tool.specs.declared.outcome.Ran.{Ran};
ghost use Rattle.citrus_tool.specs.Answers.{Answered, AnsweredInPart, IsAnswerable, WritesNothing};
ghost use Rattle.command_words.specs.Commands.{Asks, IsCommand, Reads, limit_of};
ghost use Rattle.command_words.specs.declared.statuses.Detail as detail;
ghost use Rattle.command_words.specs.Statuses.{WritesWhole, status_line, detail_line};
ghost use Rattle.citrus_tool.specs.Details.{IsDetailed};

use crate::top::tool;
use command_words::{Status, tell};
use io_edge::{Sink, Source};
use prcu_marks::Gate;
use std::alloc::Global;
use std::sync::Wait;
use std::thread::Threads;

/// Does what the words ask for, from the source to the sink, and tells on `errors` how it ended. Where `errors` fails a front of the
/// line was written, and the status still tells it.
pub fn run_words<R: Threads + Wait + Sync, S: Source, K: Sink, E: Sink, G: Gate + Sync>(
    rt: &R,
    alloc: Global,
    words: &[String],
    source: &mut S,
    sink: &mut K,
    errors: &mut E,
    gate: &G,
) -> Status
    // What `tool` says of the words, of what was read and of faults.
    ensures usage { (result ≡ Status.Usage) ↔ (IsCommand (map string_bytes words.now) → ⊥) }
    ensures unread { result ≡ Status.Usage → source.new ≡ source.old }
    ensures reads_nothing { (command : command.Command) → Asks (map string_bytes words.now) command → (Reads command → ⊥)
        → source.new ≡ source.old }
    ensures read_fault { result ≡ Status.ReadFault → Rose (S.faults source.old) (S.faults source.new) }
    ensures write_fault { result ≡ Status.WriteFault → Rose (K.faults sink.old) (K.faults sink.new) }
    ensures no_read_fault { (result ≡ Status.ReadFault → ⊥) → S.faults source.new ≡ S.faults source.old }
    ensures no_write_fault { (result ≡ Status.WriteFault → ⊥) → K.faults sink.new ≡ K.faults sink.old }
    ensures source_counted { S.faults source.old ≤ S.faults source.new }
    ensures sink_counted { K.faults sink.old ≤ K.faults sink.new }
    ensures too_long { (command : command.Command) → Asks (map string_bytes words.now) command
        → TakesToLimit (limit_of command) (S.rest source.old) (S.rest source.new) (result ≡ Status.TooLong) }
    ensures last { (WritesNothing result → ⊥) → (command : command.Command) → Asks (map string_bytes words.now) command → Reads command
        → ReadsToEnd S.reads source.old source.new }

    // What was written answers what was read, as `tool` says, for what some run left. Where the status is another than Done it left
    // nothing.
    ensures done { result ≡ Status.Done → (ran : Ran) × Answered (map string_bytes words.now) Status.Done
        (S.rest source.old) (S.rest source.new) (K.bytes sink.old) (K.bytes sink.new) ran }
    ensures refused { result ≡ Status.Refused → (ran : Ran) × Answered (map string_bytes words.now) Status.Refused
        (S.rest source.old) (S.rest source.new) (K.bytes sink.old) (K.bytes sink.new) ran }
    ensures bad_script { result ≡ Status.BadScript → (ran : Ran) × Answered (map string_bytes words.now) Status.BadScript
        (S.rest source.old) (S.rest source.new) (K.bytes sink.old) (K.bytes sink.new) ran }
    ensures cut_short { result ≡ Status.WriteFault → AnsweredInPart (map string_bytes words.now)
        (S.rest source.old) (S.rest source.new) (K.bytes sink.old) (K.bytes sink.new) }
    ensures unwritten { WritesNothing result → sink.new ≡ sink.old }
    ensures passed_on { WritesWhole result → K.passed_on sink.new }
    ensures complete { (command : command.Command) (input : List ℕ) → Asks (map string_bytes words.now) command
        → S.rest source.old ≡ Some input → IsAnswerable command input → length input ≤ limit_of command
        → (Rose (S.faults source.old) (S.faults source.new) → ⊥) → (Rose (K.faults sink.old) (K.faults sink.new) → ⊥)
        → (result ≡ Status.Done) ⊎ (result ≡ Status.Refused) ⊎ (result ≡ Status.NoMemory) }

    // What is told is the status that is given, and what more is known of what was read.
    ensures told { (Rose (E.faults errors.old) (E.faults errors.new) → ⊥)
        → (detail : detail.Detail) × IsDetailed (map string_bytes words.now) result (S.rest source.old) (S.rest source.new) detail
        × Appends (E.bytes errors.old) (E.bytes errors.new) (detail_line detail ++ status_line result) }
    ensures told_on { (Rose (E.faults errors.old) (E.faults errors.new) → ⊥) → E.passed_on errors.new }
    ensures front { (detail : detail.Detail) × IsDetailed (map string_bytes words.now) result (S.rest source.old) (S.rest source.new) detail
        × AppendsFront (E.bytes errors.old) (E.bytes errors.new) (detail_line detail ++ status_line result) }
{
    let outcome = tool(rt, alloc, words, source, sink, gate);
    tell(outcome.status, outcome.detail, errors);
    outcome.status
}
