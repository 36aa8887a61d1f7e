//! Workloads and a summary, number by number.

use crate::same::assert_same;
use account_text::is_explained;
use prcu_model::{Op, Reply, Told, ToldList};
use std::test::Fail;
use workload::{make, summary_of, write_summary};

#[test]
fn the_first_operation_of_number_0_is_a_del_that_finds_no_key(rt: HostRuntime) -> Result<(), Fail> {
    let alloc = rt.alloc();
    let scripts = make(alloc, 0, 1, 1)?;
    let first = [Op::Del { key: 115_200 }];
    assert_same(&rt, scripts.script(0), first.as_slice(), "the script");
    let mut list = ToldList::new(alloc, 1)?;
    list.push(Told {
        reply: Reply::Absent,
        number: 0,
    });
    let told = [list];
    let slots = scripts.default_slots();
    assert!(rt; is_explained(alloc, &scripts, &told, &[], slots)?);
    let summary = summary_of(alloc, &scripts, &told, &[])?;
    let text = write_summary(alloc, &summary)?;
    let expected =
        b"scripts 1\nops 1\nnew 0\nold 0\nval 0\nnone 1\ngone 0\nsize 0\nkeys 0\nvalues 0\nend\n";
    assert_same(&rt, text.as_slice(), expected.as_slice(), "the summary");
    Ok(())
}

#[test]
fn the_state_of_the_second_script_wraps_around(rt: HostRuntime) -> Result<(), Fail> {
    let scripts = make(rt.alloc(), u64::MAX, 2, 2)?;
    let first = [
        Op::Put {
            key: 175_552,
            value: 1_207_502_677,
        },
        Op::Get { key: 24_576 },
    ];
    assert_same(&rt, scripts.script(0), first.as_slice(), "the first script");
    let second = [
        Op::Del { key: 115_201 },
        Op::Put {
            key: 220_417,
            value: 823_830_125,
        },
    ];
    assert_same(
        &rt,
        scripts.script(1),
        second.as_slice(),
        "the second script",
    );
    Ok(())
}
