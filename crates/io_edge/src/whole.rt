//! Whole texts, read from a source and written to a sink.
ghost use Rattle.std.specs.Prelude.{◌≡◌, ℕ, ◌-◌, ◌<◌, ◌≤◌, ◌++◌, Err, length, take, IfOk, OnOk, OnErr, vec_len};
ghost use Rattle.io_edge.specs.Edge.{Rose, Takes, IsAtEnd, Appends, AppendsFront, TakesToLimit, ReadsToEnd};

use crate::edge::{Failed, Sink, Source};
use std::alloc::{AllocError, Global};
use thiserror::Error;

/// Why a text couldn't be read.
#[derive(Debug, Drop, Error)]
pub enum ReadError {
    /// The source failed.
    #[error("reading failed")]
    Fault,
    /// The text is longer than the limit.
    #[error("the text is too long")]
    TooLong,
    /// The memory for the text wasn't there.
    #[error("out of memory")]
    NoMemory,
}

impl From<Failed> for ReadError {
    ghost use Rattle.std.specs.Prelude.{◌≡◌};
    ghost use Rattle.io_edge.specs.declared.whole.ReadError.TheVariants.{Fault};

    ghost from_gives = { λ _ e. e ≡ Fault };

    fn from(_failed: Failed) -> ReadError {
        ReadError::Fault
    }
}

impl From<AllocError> for ReadError {
    ghost use Rattle.std.specs.Prelude.{◌≡◌};
    ghost use Rattle.io_edge.specs.declared.whole.ReadError.TheVariants.{NoMemory};

    ghost from_gives = { λ _ e. e ≡ NoMemory };

    fn from(_refused: AllocError) -> ReadError {
        ReadError::NoMemory
    }
}

/// The sink failed before the whole text was written.
#[derive(Clone, Copy, Debug, PartialEq, Eq, Error)]
#[error("writing failed")]
pub struct WriteFault;

// How many bytes are asked of a source at once.
const PIECE: usize = 16 * 1024;

/// Reads to the end of the source. `Fault`: the source failed. `TooLong`: it has more than `limit` bytes; then one byte
/// past the limit was taken, and no more. `NoMemory`: there was no room for the text.
pub fn read_all<S: Source>(alloc: Global, source: &mut S, limit: u64) -> Result<Vec<u8>, ReadError>
    ensures short { IfOk result (λ text. vec_len text ≤ limit) }
    ensures whole { IfOk result (λ text. Takes (S.rest source.old) (S.rest source.new) text.items) }
    ensures end { OnOk result (IsAtEnd (S.rest source.new)) }

    // No read is made after the one that told the end.
    ensures last { OnOk result (ReadsToEnd S.reads source.old source.new) }

    ensures fault { result ≡ Err ReadError.Fault → Rose (S.faults source.old) (S.faults source.new) }
    ensures no_fault { (result ≡ Err ReadError.Fault → ⊥) → S.faults source.new ≡ S.faults source.old }
    ensures counted { S.faults source.old ≤ S.faults source.new }
    ensures too_long { TakesToLimit limit (S.rest source.old) (S.rest source.new) (result ≡ Err ReadError.TooLong) }
{
    let mut buffer = [0u8; PIECE];
    let mut text = Vec::new(alloc);
    loop {
        let taken = take_piece(source, &mut buffer, &mut text, limit)?;
        if taken == 0 {
            return Ok(text);
        }
    }
}

// Takes the next bytes to the end of the text, and tells how many. It asks for one byte past the limit at the most.
fn take_piece<S: Source>(
    source: &mut S,
    buffer: &mut [u8],
    text: &mut Vec<u8>,
    limit: u64,
) -> Result<usize, ReadError>
    requires room { 0 < length buffer.old }
    requires short { vec_len text.old ≤ limit }
    ensures within { IfOk result (λ n. n ≤ length buffer.new) }
    ensures taken { IfOk result (λ n. Takes (S.rest source.old) (S.rest source.new) (take n buffer.new)) }
    ensures added { IfOk result (λ n. text.new.items ≡ text.old.items ++ take n buffer.new) }
    ensures short { OnOk result (vec_len text.new ≤ limit) }
    ensures end { IfOk result (λ n. n ≡ 0 → IsAtEnd (S.rest source.old)) }
    ensures led { IfOk result (λ n. (room : ℕ) × (1 ≤ room) × S.reads source.old room n source.new) }
    ensures fault { result ≡ Err ReadError.Fault → Rose (S.faults source.old) (S.faults source.new) }
    ensures no_fault { (result ≡ Err ReadError.Fault → ⊥) → S.faults source.new ≡ S.faults source.old }
    ensures counted { S.faults source.old ≤ S.faults source.new }
    ensures too_long { TakesToLimit (limit - vec_len text.old) (S.rest source.old) (S.rest source.new)
        (result ≡ Err ReadError.TooLong) }
{
    let left = limit - text.len() as u64;
    let most = left.min(buffer.len() as u64 - 1) as usize + 1;
    let count = source.read(&mut buffer[..most])?;
    if count as u64 > left {
        return Err(ReadError::TooLong);
    }
    text.extend_from_slice(&buffer[..count])?;
    Ok(count)
}

/// Writes the whole text, and has the sink pass it on. At `WriteFault` the sink failed, and a front of the text was written.
pub fn write_all<K: Sink>(sink: &mut K, text: &[u8]) -> Result<(), WriteFault>
    ensures whole { OnOk result (Appends (K.bytes sink.old) (K.bytes sink.new) text.now) }
    ensures passed { OnOk result (K.passed_on sink.new) }
    ensures no_fault { OnOk result (K.faults sink.new ≡ K.faults sink.old) }
    ensures fault { OnErr result (Rose (K.faults sink.old) (K.faults sink.new)) }
    ensures front { OnErr result (AppendsFront (K.bytes sink.old) (K.bytes sink.new) text.now) }
    ensures counted { K.faults sink.old ≤ K.faults sink.new }
{
    write_pieces(sink, text)?;
    match sink.flush() {
        Ok(()) => Ok(()),
        Err(Failed) => Err(WriteFault),
    }
}

// Writes the whole text, piece by piece.
fn write_pieces<K: Sink>(sink: &mut K, text: &[u8]) -> Result<(), WriteFault>
    ensures whole { OnOk result (Appends (K.bytes sink.old) (K.bytes sink.new) text.now) }
    ensures no_fault { OnOk result (K.faults sink.new ≡ K.faults sink.old) }
    ensures fault { OnErr result (Rose (K.faults sink.old) (K.faults sink.new)) }
    ensures front { OnErr result (AppendsFront (K.bytes sink.old) (K.bytes sink.new) text.now) }
    ensures counted { K.faults sink.old ≤ K.faults sink.new }
{
    let mut written = 0;
    while written < text.len() {
        match sink.write(&text[written..]) {
            Ok(count) => written += count,
            Err(Failed) => return Err(WriteFault),
        }
    }
    Ok(())
}
