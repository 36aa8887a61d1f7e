//! The dictionary that a run leaves.
ghost use Rattle.std.specs.Prelude.{◌≡◌};
ghost use Rattle.hash_core.specs.Steps.{IsQuiet};

use super::words_of;
use crate::same::assert_same;
use citrus_tool::{Ran, Status, tool};
use class_hash::{HashSeat, HashTable, get};
use io_edge::{MemorySink, SteadySource};
use prcu_marks::OpenGate;
use prcu_model::Reply;
use std::process::Abort;
use std::sync::Wait;
use std::test::Fail;

// That the dictionary gives each key this value.
fn assert_found<R: Wait + Abort>(
    rt: &R,
    table: &HashTable,
    mut seat: HashSeat,
    pairs: &[(u64, Option<u64>)],
)
    requires { (seat.table ≡ table.now.id) × IsQuiet seat.view }
{
    for (key, value) in pairs {
        let wanted = match value {
            Some(value) => Reply::Val { value: *value },
            None => Reply::Absent,
        };
        assert_same(rt, get(rt, table, &mut seat, *key).reply, wanted, *key);
    }
}

#[test]
fn the_dictionary_that_is_left_has_the_pairs_of_the_account(rt: HostRuntime) -> Result<(), Fail> {
    let alloc = rt.alloc();
    let words = words_of(alloc, "citrus hash")?;
    let text = b"script\nput 6 1\nput 70 2\ndel 6\nscript\nput 1 3\nget 70\n";
    let mut source = SteadySource::new(Vec::from_slice(alloc, text)?, 100);
    let mut sink = MemorySink::new(alloc, 1000, 7, Vec::new(alloc))?;
    let outcome = tool(&rt, alloc, &words, &mut source, &mut sink, &OpenGate);
    assert!(rt; sink.bytes().ends_with(b"final 2\n1 3\n70 2\nend\n"));
    let Status::Done = outcome.status else {
        panic!(rt; "the scripts weren't run");
    };
    let Ran::Hash { table, seat } = outcome.ran else {
        panic!(rt; "no dictionary is left");
    };
    assert_found(&rt, &table, seat, &[(1, Some(3)), (70, Some(2)), (6, None)]);
    Ok(())
}
