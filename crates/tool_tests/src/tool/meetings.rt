//! Two scripts beside each other, or a script and the lists of a range, held where they meet.
use super::gates::{Hold, MANY, assert_held};
use super::{answer, put_and_deleted};
use crate::same::assert_same;
use citrus_tool::Status;
use prcu_marks::{OpenGate, Point};
use std::alloc::Global;
use std::process::Abort;
use std::sync::Wait;
use std::test::Fail;
use std::thread::Threads;

const WAITERS: [&str; 3] = ["--waiter=eer", "--waiter=d", "--waiter=deer"];

// Who is held where.
#[derive(Clone, Copy)]
enum Meeting {
    // The first caller is in its section from before the other's first until the other has answered so many times.
    ReaderStays(u64),
    // The first caller is in its section when the other's wait begins, and the other waits until the first has come to this point.
    ReaderMeetsTheMove(Point),
    // The writer begins once the reader's first section is over. There the reader stays until the writer is at its twentieth answer, and
    // the writer there until the reader is in its second section. It stays in it until the writer has answered 34 times.
    ReaderReturns,
    // Both callers are at their first answers at once.
    BothAnswer,
    // The lists after the first wait until the script has come to this point, and the script in its section until so many lists are made.
    ListsBeside(Point, u64),
}

// The holds of a meeting. A reader for which a delete waits needn't stay as long as one that sees the other go on.
fn holds_of(meeting: Meeting, misses: u64) -> [Hold; 4] {
    let turns = if misses == 0 { MANY } else { MANY / 10 };
    let free = Hold::first(0, Point::Answered, Point::Answered, 0);
    match meeting {
        Meeting::ReaderStays(answers) => [
            Hold::first(1, Point::InSection, Point::InSection, 1),
            Hold {
                turns,
                ..Hold::first(0, Point::InSection, Point::Answered, answers)
            },
            free,
            free,
        ],
        Meeting::ReaderMeetsTheMove(point) => [
            Hold::first(0, Point::InSection, Point::InGrace, 1),
            Hold::first(1, Point::InGrace, point, 1),
            free,
            free,
        ],
        Meeting::ReaderReturns => [
            Hold::first(1, Point::InSection, Point::Answered, 1),
            Hold::first(0, Point::Answered, Point::Answered, 20),
            Hold {
                visit: 20,
                ..Hold::first(1, Point::Answered, Point::InSection, 2)
            },
            Hold {
                visit: 2,
                turns,
                ..Hold::first(0, Point::InSection, Point::Answered, 34)
            },
        ],
        Meeting::BothAnswer => [
            Hold::first(0, Point::Answered, Point::Answered, 1),
            Hold::first(1, Point::Answered, Point::Answered, 1),
            free,
            free,
        ],
        Meeting::ListsBeside(point, lists) => [
            Hold::first(0, Point::InSection, Point::Answered, lists),
            Hold::first(1, Point::Answered, point, 1),
            free,
            free,
        ],
    }
}

// A script's line that `op` is, and what it is told; the other's delete moves a successor beside it, and the updates have this number and
// this last one. So many holds of each waiter are too long.
struct BesideMove {
    meeting: Meeting,
    op: &'static str,
    told: &'static str,
    count: u64,
    last: &'static str,
    value: u64,
    misses: [u64; 3],
}

const BESIDE_MOVES: [BesideMove; 4] = [
    // A move goes on beside a reader of another key.
    BesideMove {
        meeting: Meeting::ReaderStays(6),
        op: "get 100",
        told: "none 0",
        count: 6,
        last: "",
        value: 60,
        misses: [0, 0, 0],
    },
    // A key of the same class holds up the waiters by class.
    BesideMove {
        meeting: Meeting::ReaderStays(6),
        op: "get 70",
        told: "none 0",
        count: 6,
        last: "",
        value: 60,
        misses: [0, 1, 1],
    },
    // The successor is found while it moves.
    BesideMove {
        meeting: Meeting::ReaderMeetsTheMove(Point::Answered),
        op: "get 6",
        told: "val 60 4",
        count: 6,
        last: "",
        value: 60,
        misses: [0, 0, 0],
    },
    // The successor is set after it moved.
    BesideMove {
        meeting: Meeting::ReaderMeetsTheMove(Point::BeforeLock),
        op: "set 6 61",
        told: "was 60 7",
        count: 7,
        last: "7 0 set 6 61\n",
        value: 61,
        misses: [0, 0, 0],
    },
];

#[test]
fn a_script_beside_a_move_is_answered(rt: HostRuntime) -> Result<(), Fail> {
    let alloc = rt.alloc();
    for case in BESIDE_MOVES.iter() {
        let (op, told, count, last, value) = (
            case.op, case.told, case.count, case.last, case.value,
        );
        let input = format!(in alloc;
            "script\n{op}\nscript\nput 5 50\nput 2 20\nput 8 80\nput 6 60\nput 9 90\ndel 5\n"
        )?;
        let text = format!(in alloc;
            "script 0\n{op} {told}\nscript 1\nput 5 50 new 1\nput 2 20 new 2\nput 8 80 new 3\nput 6 60 new 4\nput 9 90 new 5\ndel 5 gone 6\nhistory {count}\n1 1 put 5 50\n2 1 put 2 20\n3 1 put 8 80\n4 1 put 6 60\n5 1 put 9 90\n6 1 del 5\n{last}final 4\n2 20\n6 {value}\n8 80\n9 90\nend\n"
        )?;
        for (waiter, misses) in WAITERS.iter().zip(case.misses.iter()) {
            let line = format!(in alloc; "citrus run {waiter}")?;
            assert_held(
                &rt,
                alloc,
                &line,
                input.as_bytes(),
                holds_of(case.meeting, *misses),
                *misses,
                text.as_bytes(),
            )?;
        }
    }
    Ok(())
}

#[test]
fn two_scripts_are_at_their_answers_at_once(rt: HostRuntime) -> Result<(), Fail> {
    assert_held(
        &rt,
        rt.alloc(),
        "citrus hash",
        b"script\nget 1\nscript\nget 2\n",
        holds_of(Meeting::BothAnswer, 0),
        0,
        b"script 0\nget 1 none 0\nscript 1\nget 2 none 0\nhistory 0\nfinal 0\nend\n",
    )
}

// What the scripts of a writer and of a reader of a key that nobody puts are, and how often the writer waits for the reader.
struct BesideDeletes {
    meeting: Meeting,
    reader: &'static str,
    told: &'static str,
    words: &'static str,
    misses: u64,
}

const BESIDE_DELETES: [BesideDeletes; 3] = [
    // The sixteenth delete waits for every reader.
    BesideDeletes {
        meeting: Meeting::ReaderStays(34),
        reader: "script\nget 100\n",
        told: "script 0\nget 100 none 0\n",
        words: "",
        misses: 1,
    },
    // With cookies no delete waits for a reader that came back.
    BesideDeletes {
        meeting: Meeting::ReaderReturns,
        reader: "script\nget 100\nget 100\n",
        told: "script 0\nget 100 none 0\nget 100 none 0\n",
        words: " --cookies",
        misses: 0,
    },
    BesideDeletes {
        meeting: Meeting::ReaderReturns,
        reader: "script\nget 100\nget 100\n",
        told: "script 0\nget 100 none 0\nget 100 none 0\n",
        words: "",
        misses: 1,
    },
];

#[test]
fn a_delete_waits_for_the_reader_unless_it_has_a_cookie(rt: HostRuntime) -> Result<(), Fail> {
    let alloc = rt.alloc();
    for case in BESIDE_DELETES.iter() {
        let (text, account) = put_and_deleted(alloc, 17, 1, case.reader, case.told)?;
        for waiter in WAITERS.iter() {
            let words = case.words;
            let line = format!(in alloc; "citrus run {waiter}{words}")?;
            assert_held(
                &rt,
                alloc,
                &line,
                text.as_bytes(),
                holds_of(case.meeting, case.misses),
                case.misses,
                account.as_bytes(),
            )?;
        }
    }
    Ok(())
}

#[test]
fn lists_are_made_beside_a_script(rt: HostRuntime) -> Result<(), Fail> {
    let cases: [(Meeting, &[u8]); 2] = [
        (
            Meeting::ListsBeside(Point::InSection, 4),
            b"script 0\nput 1 1 new 1\nhistory 1\n1 0 put 1 1\nfinal 1\n1 1\nend\nwatch 0 100\nwhole 0 0\nwhole 0 0\nwhole 0 0\nwhole 0 0\nend\n",
        ),
        (
            Meeting::ListsBeside(Point::Answered, 1),
            b"script 0\nput 1 1 new 1\nhistory 1\n1 0 put 1 1\nfinal 1\n1 1\nend\nwatch 0 100\nwhole 0 0\nwhole 1 1\n1 1\nwhole 1 1\n1 1\nwhole 1 1\n1 1\nend\n",
        ),
    ];
    for waiter in WAITERS.iter() {
        for (meeting, text) in cases {
            let line = format!(in rt.alloc(); "citrus watch {waiter} 0 100")?;
            let input = b"script\nput 1 1\n";
            assert_held(&rt, rt.alloc(), &line, input, holds_of(meeting, 0), 0, text)?;
        }
    }
    Ok(())
}

// That a get of one script beside a put of another finds its value or doesn't, whichever the line makes of it.
fn assert_found_or_not<R: Threads + Wait + Sync + Abort>(
    rt: &R,
    alloc: Global,
    line: &str,
) -> Result<(), Fail> {
    let input = b"script\nput 1 1\nscript\nget 1\n";
    let (status, written) = answer(rt, alloc, line, input, &OpenGate)?;
    assert_same(rt, status, Status::Done, line);
    let found =
        b"script 0\nput 1 1 new 1\nscript 1\nget 1 val 1 1\nhistory 1\n1 0 put 1 1\nfinal 1\n1 1\nend\n";
    let missed =
        b"script 0\nput 1 1 new 1\nscript 1\nget 1 none 0\nhistory 1\n1 0 put 1 1\nfinal 1\n1 1\nend\n";
    assert!(rt;
        written.as_slice() == found.as_slice() || written.as_slice() == missed.as_slice(),
        "{line}"
    );
    Ok(())
}

#[test]
fn what_a_get_is_told_beside_a_put_is_one_of_two_things(rt: HostRuntime) -> Result<(), Fail> {
    for _ in 0..100 {
        assert_found_or_not(&rt, rt.alloc(), "citrus hash")?;
    }
    for waiter in WAITERS.iter() {
        let line = format!(in rt.alloc(); "citrus run {waiter}")?;
        assert_found_or_not(&rt, rt.alloc(), &line)?;
    }
    Ok(())
}
