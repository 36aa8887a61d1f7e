//! What no clause says of the model: that calls succeed, and a few answers from outside.
use crate::same::assert_same;
use crate::scripts::scripts_of;
use prcu_model::{Dict, Line, LineList, NoMemory, Op, Reply, Scripts, Told, ToldList, Update};
use std::alloc::Global;
use std::test::Fail;

// Updates, some of which change nothing.
const UPDATES: [Op; 10] = [
    Op::Put { key: 5, value: 50 },
    Op::Put { key: 2, value: 20 },
    Op::Put { key: 5, value: 51 },
    Op::Set { key: 2, value: 21 },
    Op::Set { key: 9, value: 90 },
    Op::Del { key: 7 },
    Op::Get { key: 5 },
    Op::Put {
        key: u64::MAX,
        value: 0,
    },
    Op::Put { key: 0, value: 1 },
    Op::Del { key: 5 },
];

// The dictionary that the updates leave, made by one caller.
fn left_by(alloc: Global, updates: &[Op]) -> Result<Dict, NoMemory> {
    let mut history = Vec::new(alloc);
    for op in updates {
        history.push(Update { caller: 0, op: *op })?;
    }
    Dict::replay(alloc, &history)
}

#[test]
fn a_history_is_replayed_update_by_update(rt: HostRuntime) -> Result<(), Fail> {
    let dict = left_by(rt.alloc(), &UPDATES)?;
    assert!(rt; dict.len() == 3);
    for (place, pair) in [(0, 1), (2, 21), (u64::MAX, 0)].iter().enumerate() {
        assert!(rt; (place as u64) < dict.len());
        assert_same(&rt, dict.pair(place as u64), *pair, place);
    }
    Ok(())
}

#[test]
fn a_replayed_dictionary_answers_for_each_key(rt: HostRuntime) -> Result<(), Fail> {
    let dict = left_by(rt.alloc(), &UPDATES)?;
    for (key, value) in [(2, Some(21)), (5, None), (9, None), (u64::MAX, Some(0))] {
        assert_same(&rt, dict.get(key), value, key);
    }
    Ok(())
}

#[test]
fn a_dictionary_is_empty_before_any_update(rt: HostRuntime) -> Result<(), Fail> {
    assert!(rt; left_by(rt.alloc(), &[])?.is_empty());
    assert!(rt; !left_by(rt.alloc(), &UPDATES)?.is_empty());
    Ok(())
}

#[test]
fn scripts_keep_their_operations_and_count_them(rt: HostRuntime) -> Result<(), Fail> {
    let first = [Op::Put { key: 1, value: 10 }, Op::Get { key: 1 }];
    let second = [Op::Put { key: 2, value: 20 }];
    let scripts = scripts_of(&rt, rt.alloc(), &[&first, &second])?;
    assert!(rt; scripts.count() == 2);
    let counts = (scripts.ops(), scripts.puts(), scripts.default_slots());
    assert_same(&rt, counts, (3, 2, 42), "the counts");
    assert_same(&rt, scripts.script(0), first.as_slice(), "the first script");
    assert_same(
        &rt,
        scripts.script(1),
        second.as_slice(),
        "the second script",
    );
    assert!(rt; Scripts::new(rt.alloc()).default_slots() == 1);
    Ok(())
}

#[test]
fn lists_of_answers_and_of_lines_grow(rt: HostRuntime) -> Result<(), Fail> {
    let reply = Reply::New;
    let mut told = ToldList::new(rt.alloc(), 1)?;
    told.push(Told { reply, number: 1 });
    assert!(rt; told.entries().len() == 1);
    let op = Op::Get { key: 1 };
    let mut lines = LineList::new(rt.alloc(), 1)?;
    lines.push(Line {
        op,
        reply,
        number: 0,
    });
    assert!(rt; lines.entries().len() == 1);
    Ok(())
}
