//! Which texts are read and which line is refused, and what is printed.

use crate::same::assert_same;
use prcu_model::Op;
use script_text::{ScriptError, parse, print, read_number, read_op};
use std::alloc::Global;
use std::process::Abort;
use std::test::Fail;

// The number of the first bad line, or 0 where the text is read.
fn bad_line(alloc: Global, text: &[u8]) -> Result<u32, ScriptError> {
    match parse(alloc, text) {
        Ok(_scripts) => Ok(0),
        Err(ScriptError::Line { number }) => Ok(number),
        Err(refused) => Err(refused),
    }
}

#[test]
fn blank_lines_and_comments_are_read(rt: HostRuntime) -> Result<(), Fail> {
    let texts: [&[u8]; 7] = [
        b"",
        b"\n",
        b"\n\n\nscript",
        b"#",
        b"# put 1\n#\r\n#\t\nscript\n#put",
        b"#\0\x80\xff\n",
        b"script\n\nscript\n# end",
    ];
    for text in texts {
        assert_same(&rt, bad_line(rt.alloc(), text)?, 0, text);
    }
    Ok(())
}

#[test]
fn the_first_bad_line_is_told(rt: HostRuntime) -> Result<(), Fail> {
    let cases: [(&[u8], u32); 34] = [
        (b"put 1 2", 1),
        (b"#\n\nget 1\nscript", 3),
        (b" script", 1),
        (b"script ", 1),
        (b"Script", 1),
        (b"scripts", 1),
        (b"script\r\n", 1),
        (b"scrip\xff", 1),
        (b"\0", 1),
        (b"script\n #", 2),
        (b"script\nfrob", 2),
        (b"script\nfrob 1", 2),
        (b"script\nget", 2),
        (b"script\nget ", 2),
        (b"script\nget 1 2", 2),
        (b"script\nget  1", 2),
        (b"script\nget 1 ", 2),
        (b"script\nget 1\r\n", 2),
        (b"script\nget\t1", 2),
        (b"script\nget 1\0", 2),
        (b"script\nget \xc2\xb2", 2),
        (b"script\nget +1", 2),
        (b"script\nget 00", 2),
        (b"script\nget 1x", 2),
        (b"script\nput 05 1", 2),
        (b"script\nput 5 01", 2),
        (b"script\nput 1", 2),
        (b"script\nput 1  2", 2),
        (b"script\nput 1 2 3", 2),
        (b"script\nput 18446744073709551616 0", 2),
        (b"script\nset 0 18446744073709551616", 2),
        (b"script\ndel 99999999999999999999999", 2),
        (b"script\n\nget 1\nget x\nget y\n", 4),
        (b"script\nget 1\n\n\nscript\n#\nput 1 1 \n", 7),
    ];
    for (text, line) in cases {
        assert_same(&rt, bad_line(rt.alloc(), text)?, line, text);
    }
    Ok(())
}

#[test]
fn sixty_four_scripts_are_read(rt: HostRuntime) -> Result<(), Fail> {
    let mut text = Vec::new(rt.alloc());
    for _ in 0..64u32 {
        text.extend_from_slice(b"script\n")?;
    }
    let line = bad_line(rt.alloc(), text.as_slice())?;
    assert_same(&rt, line, 0, "64 scripts");
    text.extend_from_slice(b"script\n")?;
    let line = bad_line(rt.alloc(), text.as_slice())?;
    assert_same(&rt, line, 65, "one script more");
    Ok(())
}

// Three scripts, with blank lines and a comment, and what is printed of them.
const THREE: &[u8] =
    b"#\nscript\nput 7 0\n\nset 7 18446744073709551615\nscript\nscript\ndel 7\nget 10";

const PRINTED: &[u8] =
    b"script\nput 7 0\nset 7 18446744073709551615\nscript\nscript\ndel 7\nget 10\n";

const FIRST: [Op; 2] = [
    Op::Put { key: 7, value: 0 },
    Op::Set {
        key: 7,
        value: u64::MAX,
    },
];

const LAST: [Op; 2] = [Op::Del { key: 7 }, Op::Get { key: 10 }];

#[test]
fn operations_come_in_their_order(rt: HostRuntime) -> Result<(), Fail> {
    let scripts = parse(rt.alloc(), THREE)?;
    assert!(rt; scripts.count() == 3);
    assert_same(&rt, scripts.script(0), FIRST.as_slice(), "the first script");
    assert_same(&rt, scripts.script(1).len(), 0, "the second script");
    assert_same(&rt, scripts.script(2), LAST.as_slice(), "the third script");
    Ok(())
}

// That the text is printed without comments and blank lines.
fn assert_printed(rt: &impl Abort, alloc: Global, text: &[u8]) -> Result<(), Fail> {
    let printed = print(alloc, &parse(alloc, text)?)?;
    assert_same(rt, printed.as_slice(), PRINTED, text);
    Ok(())
}

#[test]
fn printing_leaves_comments_and_blank_lines_out(rt: HostRuntime) -> Result<(), Fail> {
    assert_printed(&rt, rt.alloc(), THREE)?;
    assert_printed(&rt, rt.alloc(), PRINTED)
}

#[test]
fn numbers_are_read_alone(rt: HostRuntime) {
    let cases: [(&[u8], Option<u64>); 6] = [
        (b"0", Some(0)),
        (b"90", Some(90)),
        (b"18446744073709551615", Some(u64::MAX)),
        (b"18446744073709551616", None),
        (b"01", None),
        (b"", None),
    ];
    for (text, number) in cases {
        assert_same(&rt, read_number(text), number, text);
    }
}

#[test]
fn operations_are_read_alone(rt: HostRuntime) {
    let set = Some(Op::Set { key: 1, value: 2 });
    assert_same(&rt, read_op(b"set 1 2"), set, "an operation");
    assert_same(&rt, read_op(b"set 1 2\n"), None, "a line");
}
