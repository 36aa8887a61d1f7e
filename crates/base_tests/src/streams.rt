//! The sources and the sinks through their traits: whole texts in pieces, with faults in between.

use crate::same::assert_same;
use io_edge::{
    Failed, MemorySink, MemorySource, NullSink, ReadError, Sink, Source, StdSink, StdSource,
    SteadySource, read_all, write_all,
};
use std::alloc::Global;
use std::process::Abort;
use std::test::Fail;

const TEXT: &[u8] = b"put 1 2\nget 1\n";

// What a source gives with no fault, in the end.
fn text_of<S: Source>(alloc: Global, source: &mut S) -> Result<Vec<u8>, ReadError> {
    read_all(alloc, source, 100)
}

// Whether the first two writes of a text succeed.
fn twice<K: Sink>(sink: &mut K, text: &[u8]) -> (bool, bool) {
    let first = write_all(sink, text).is_ok();
    (first, write_all(sink, text).is_ok())
}

// That a source with pieces of this length gives the whole text.
fn assert_gives<S: Source>(
    rt: &impl Abort,
    alloc: Global,
    source: &mut S,
    piece: usize,
) -> Result<(), Fail> {
    let text = text_of(alloc, source)?;
    assert_same(rt, text.as_slice(), TEXT, piece);
    Ok(())
}

#[test]
fn memory_sources_give_all_in_any_pieces(rt: HostRuntime) -> Result<(), Fail> {
    let alloc = rt.alloc();
    for piece in [1usize, 4, 100] {
        let mut source = MemorySource::new(TEXT.to_vec(alloc)?, piece, Vec::new(alloc));
        assert_gives(&rt, alloc, &mut source, piece)?;
        let mut steady = SteadySource::new(TEXT.to_vec(alloc)?, piece);
        assert_gives(&rt, alloc, &mut steady, piece)?;
    }
    Ok(())
}

#[test]
fn a_read_that_fails_loses_nothing(rt: HostRuntime) -> Result<(), Fail> {
    for (piece, taken) in [(1usize, 2usize), (4, 8)] {
        let mut source = MemorySource::new(
            TEXT.to_vec(rt.alloc())?,
            piece,
            [2u64].to_vec(rt.alloc())?,
        );
        assert!(rt; matches!(text_of(rt.alloc(), &mut source), Err(ReadError::Fault)));
        let rest = text_of(rt.alloc(), &mut source)?;
        assert_same(&rt, Some(rest.as_slice()), TEXT.get(taken..), piece);
    }
    Ok(())
}

#[test]
fn a_text_is_too_long_past_its_limit(rt: HostRuntime) -> Result<(), Fail> {
    for (limit, fits) in [(0u64, false), (13, false), (14, true), (u64::MAX, true)] {
        let mut source = SteadySource::new(TEXT.to_vec(rt.alloc())?, 4);
        match read_all(rt.alloc(), &mut source, limit) {
            Ok(text) => assert!(rt; fits && text.as_slice() == TEXT, "limit {limit}"),
            Err(e) => assert!(rt; !fits && matches!(e, ReadError::TooLong), "limit {limit}"),
        }
    }
    Ok(())
}

#[test]
fn memory_sinks_keep_a_front_where_a_write_fails(rt: HostRuntime) -> Result<(), Fail> {
    // the capacity, the most of a write, the calls that fail, and what is held after two tries
    let cases: [(usize, usize, &[u64], &[u8]); 5] = [
        (100, 1, &[], b"abcabc"),
        (100, 4, &[], b"abcabc"),
        (4, 4, &[], b"abca"),
        (100, 1, &[1], b"aabc"),
        (100, 4, &[0], b"abc"),
    ];
    for (capacity, piece, fails, held) in cases {
        let mut sink = MemorySink::new(rt.alloc(), capacity, piece, fails.to_vec(rt.alloc())?)?;
        let (first, second) = twice(&mut sink, b"abc");
        let is_whole = (sink.bytes(), first && second);
        assert_same(&rt, is_whole, (held, held.len() == 6), (capacity, piece));
        assert_same(&rt, sink.write(b""), Ok(0), (capacity, piece));
    }
    Ok(())
}

#[test]
fn a_standard_reader_serves(rt: HostRuntime) -> Result<(), Fail> {
    assert_gives(&rt, rt.alloc(), &mut StdSource::new(TEXT), 0)
}

#[test]
fn a_standard_writer_serves(rt: HostRuntime) -> Result<(), Fail> {
    let mut held = Vec::new(rt.alloc());
    let mut sink = StdSink::new(&mut held);
    let (first, second) = twice(&mut sink, b"abc");
    assert!(rt; first && second && sink.flush().is_ok());
    assert_same(&rt, held.as_slice(), b"abcabc".as_slice(), "its bytes");
    Ok(())
}

#[test]
fn a_slice_as_a_writer_takes_no_byte_once_it_is_full(rt: HostRuntime) {
    let mut room = [0u8; 4];
    let mut full = StdSink::new(room.as_mut_slice());
    assert_same(&rt, twice(&mut full, b"abc"), (true, false), "two writes");
    assert_same(&rt, full.write(b"d"), Err(Failed), "a third one");
}

#[test]
fn a_sink_that_holds_nothing_takes_all(rt: HostRuntime) {
    assert_same(
        &rt,
        twice(&mut NullSink::new(), b"abc"),
        (true, true),
        "two writes",
    );
}

#[test]
fn the_standard_streams_serve(rt: HostRuntime) {
    let mut output = StdSink::new(rt.stdout());
    assert!(rt; write_all(&mut output, b"one line\n").is_ok() && output.flush().is_ok());
    let mut input = StdSource::new(rt.stdin());
    let _ = input.read(&mut []);
}
