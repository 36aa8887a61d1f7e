//! Accounts of small runs, byte for byte.

use crate::same::assert_same;
use account_text::{fronts, is_explained, is_legal, read_account, write_account};
use prcu_model::{NoMemory, Op, Reply, Told, ToldList, Update};
use script_text::parse;
use std::alloc::Global;
use std::process::Abort;
use std::test::Fail;

// A run: the scripts, the slots, claims of what was told with any fronts, what these are and the history as values, and the account of the
// run.
#[derive(Clone, Copy)]
struct Run {
    scripts: &'static [u8],
    slots: u32,
    claims: &'static [u8],
    told: &'static str,
    history: &'static str,
    account: &'static [u8],
}

// All that the scripts were told, a list for each.
fn values_of(alloc: Global, lists: &[ToldList]) -> Result<String, NoMemory> {
    let mut told = String::new(alloc);
    for list in lists {
        told.push_str(&format!(in alloc; "{:?}", list.entries())?)?;
    }
    Ok(told)
}

// That the claims are read as what was told, that they are explained, and that the account with the least fronts is printed of them.
fn assert_account(rt: &impl Abort, alloc: Global, run: Run) -> Result<(), Fail> {
    let scripts = parse(alloc, run.scripts)?;
    let Some(claimed) = read_account(alloc, &scripts, run.claims)? else {
        return Err(Fail::new("no claims"));
    };
    let told = values_of(alloc, &claimed.told)?;
    assert_same(rt, told.as_str(), run.told, run.scripts);
    let history = claimed.history.as_slice();
    let updates = format!(in alloc; "{history:?}")?;
    assert_same(rt, updates.as_str(), run.history, run.scripts);
    assert!(rt; is_explained(alloc, &scripts, &claimed.told, history, run.slots)?);
    let lines = fronts(alloc, &scripts, &claimed.told, history, run.slots)?;
    let printed = write_account(alloc, &lines, history)?;
    assert_same(rt, printed.as_slice(), run.account, run.scripts);
    Ok(())
}

const RUNS: [Run; 3] = [
    // nothing
    Run {
        scripts: b"",
        slots: 1,
        claims: b"history 0\nfinal 0\nend\n",
        told: "",
        history: "[]",
        account: b"history 0\nfinal 0\nend\n",
    },
    // reads have the least fronts
    Run {
        scripts: b"script\nput 1 7\nscript\nget 1\nget 1\n",
        slots: 42,
        claims: b"script 0\nput 1 7 new 1\nscript 1\nget 1 none 0\nget 1 val 7 0\n\
history 1\n1 0 put 1 7\nfinal 1\n1 7\nend\n",
        told: "[Told { reply: New, number: 1 }]\
[Told { reply: Absent, number: 0 }, Told { reply: Val { value: 7 }, number: 0 }]",
        history: "[Update { caller: 0, op: Put { key: 1, value: 7 } }]",
        account: b"script 0\nput 1 7 new 1\nscript 1\nget 1 none 0\nget 1 val 7 1\n\
history 1\n1 0 put 1 7\nfinal 1\n1 7\nend\n",
    },
    // updates of two callers
    Run {
        scripts: b"script\nput 1 7\nscript\nget 1\nset 1 8\n",
        slots: 42,
        claims: b"script 0\nput 1 7 new 1\nscript 1\nget 1 none 0\nset 1 8 was 7 2\n\
history 2\n1 0 put 1 7\n2 1 set 1 8\nfinal 1\n1 8\nend\n",
        told: "[Told { reply: New, number: 1 }]\
[Told { reply: Absent, number: 0 }, Told { reply: Was { value: 7 }, number: 2 }]",
        history: "[Update { caller: 0, op: Put { key: 1, value: 7 } }, \
Update { caller: 1, op: Set { key: 1, value: 8 } }]",
        account: b"script 0\nput 1 7 new 1\nscript 1\nget 1 none 0\nset 1 8 was 7 2\n\
history 2\n1 0 put 1 7\n2 1 set 1 8\nfinal 1\n1 8\nend\n",
    },
];

#[test]
fn an_account_tells_a_run_byte_for_byte(rt: HostRuntime) -> Result<(), Fail> {
    for run in RUNS {
        assert_account(&rt, rt.alloc(), run)?;
    }
    Ok(())
}

const EACH_REPLY: Run = Run {
    scripts: b"script\nput 5 50\nget 5\ndel 5\nget 5\nscript\nput 5 50\nset 5 60\nput 5 50\nput 6 0\n",
    slots: 21,
    claims: b"script 0\nput 5 50 new 1\nget 5 val 50 0\ndel 5 gone 2\nget 5 none 0\n\
script 1\nput 5 50 new 3\nset 5 60 was 50 4\nput 5 50 old 0\nput 6 0 full 0\n\
history 4\n1 0 put 5 50\n2 0 del 5\n3 1 put 5 50\n4 1 set 5 60\n\
final 1\n5 60\nend\n",
    told: "[Told { reply: New, number: 1 }, Told { reply: Val { value: 50 }, number: 0 }, \
Told { reply: Gone, number: 2 }, Told { reply: Absent, number: 0 }]\
[Told { reply: New, number: 3 }, Told { reply: Was { value: 50 }, number: 4 }, \
Told { reply: Old, number: 0 }, Told { reply: Full, number: 0 }]",
    history: "[Update { caller: 0, op: Put { key: 5, value: 50 } }, Update { caller: 0, op: Del { key: 5 } }, \
Update { caller: 1, op: Put { key: 5, value: 50 } }, Update { caller: 1, op: Set { key: 5, value: 60 } }]",
    account: b"script 0\nput 5 50 new 1\nget 5 val 50 1\ndel 5 gone 2\nget 5 none 2\n\
script 1\nput 5 50 new 3\nset 5 60 was 50 4\nput 5 50 old 4\nput 6 0 full 4\n\
history 4\n1 0 put 5 50\n2 0 del 5\n3 1 put 5 50\n4 1 set 5 60\n\
final 1\n5 60\nend\n",
};

#[test]
fn an_account_prints_each_reply(rt: HostRuntime) -> Result<(), Fail> {
    assert_account(&rt, rt.alloc(), EACH_REPLY)
}

// An answer, with the number of its update where it is one.
macro_rules! told {
    ($reply:ident $number:tt) => {
        Told {
            reply: Reply::$reply,
            number: $number,
        }
    };
    ($reply:ident of $value:tt $number:tt) => {
        Told {
            reply: Reply::$reply { value: $value },
            number: $number,
        }
    };
}

// Whether the history explains the answers to a put of a first script, and to a set and a get of a second one. The last answer may lack.
fn explains(
    alloc: Global,
    put: Told,
    set: Told,
    get: Option<Told>,
    history: &[Update],
) -> Result<bool, Fail> {
    let scripts = parse(alloc, b"script\nput 1 7\nscript\nset 1 8\nget 1\n")?;
    let mut first = ToldList::new(alloc, 1)?;
    first.push(put);
    let mut second = ToldList::new(alloc, 2)?;
    second.push(set);
    if let Some(get) = get {
        second.push(get);
    }
    let told = [first, second];
    Ok(is_explained(alloc, &scripts, &told, history, 42)?)
}

#[test]
fn only_histories_of_updates_are_legal(rt: HostRuntime) -> Result<(), Fail> {
    let put = Update {
        caller: 0,
        op: Op::Put { key: 1, value: 7 },
    };
    let set = Update {
        caller: 1,
        op: Op::Set { key: 1, value: 8 },
    };
    for (history, legal) in [([put, set], true), ([set, put], false), ([put, put], false)] {
        assert_same(&rt, is_legal(rt.alloc(), &history)?, legal, history);
    }
    Ok(())
}

#[test]
fn only_claims_that_a_run_can_make_are_accepted(rt: HostRuntime) -> Result<(), Fail> {
    let put = Op::Put { key: 1, value: 7 };
    let set = Op::Set { key: 1, value: 8 };
    let updates = [
        Update { caller: 0, op: put },
        Update { caller: 1, op: set },
        Update { caller: 2, op: set },
    ];
    let get = Some(told!(Val of 8 0));
    let claims = [
        (told!(New 1), told!(Was of 7 2), get, 2usize, true),
        (told!(Old 0), told!(Was of 7 2), get, 2, false),
        (told!(New 1), told!(Was of 6 2), get, 2, false),
        (told!(New 1), told!(Was of 7 1), get, 2, false),
        (
            told!(New 1),
            told!(Absent 0),
            Some(told!(Val of 7 0)),
            2,
            false,
        ),
        (
            told!(New 1),
            told!(Was of 7 2),
            Some(told!(Val of 7 0)),
            2,
            false,
        ),
        (told!(New 1), told!(Was of 7 2), None, 2, false),
        // an update of a caller without a script
        (told!(New 1), told!(Was of 7 2), get, 3, false),
    ];
    for (put, set, get, count, explained) in claims {
        let history = updates.get(..count).unwrap_or(&[]);
        let found = explains(rt.alloc(), put, set, get, history)?;
        assert_same(&rt, found, explained, (put, set, get, count));
    }
    Ok(())
}
