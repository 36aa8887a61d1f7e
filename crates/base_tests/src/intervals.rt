//! Intervals: images against the keys one by one, and the answers at the ends.
use crate::same::assert_same;
use key_interval::{Keys, class_of};
use std::test::Fail;

#[test]
fn an_image_has_the_classes_of_the_keys(rt: HostRuntime) -> Result<(), Fail> {
    let last = u64::MAX;
    for (low, high) in [
        (0, 0),
        (6, 8),
        (63, 64),
        (62, 124),
        (62, 125),
        (1000, 1130),
        (last, last),
        (last - 70, last - 60),
    ] {
        let keys = Keys::new(low, high).ok_or("low is at most high")?;
        let mut image = [false; 64];
        for x in low..high {
            image[class_of(x) as usize] = true;
        }
        image[class_of(high) as usize] = true;
        for (class, met) in image.iter().enumerate() {
            let place = (class, low, high);
            assert_same(&rt, keys.meets_class(class as u32), *met, place);
        }
    }
    Ok(())
}

#[test]
fn intervals_have_both_ends(rt: HostRuntime) -> Result<(), Fail> {
    assert_same(&rt, Keys::new(6, 5), None, "no keys");
    let keys = Keys::between(5, 8);
    assert_same(&rt, (keys.low(), keys.high()), (6, 8), "the ends");
    for (x, held) in [(5, false), (6, true), (8, true), (9, false)] {
        assert_same(&rt, keys.holds(x), held, x);
    }
    let one = Keys::new(8, 8).ok_or("one key")?;
    assert!(rt; keys.covers(&one) && !one.covers(&keys));
    assert!(rt; Keys::all().covers(&keys) && Keys::all().holds(u64::MAX));
    Ok(())
}

#[test]
fn classes_go_round_after_64_keys(rt: HostRuntime) {
    for (x, class) in [(0, 0), (63, 63), (64, 0), (70, 6)] {
        assert_same(&rt, class_of(x), class, x);
    }
}
