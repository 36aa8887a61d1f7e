//! The rule, by vectors that others publish.
use super::NO_SALT;
use crate::same::assert_same;
use std::test::Fail;
use tree_lift::{attempts_behind, is_deep, is_far_too_deep, most_depth, most_keys, rises_above};

// Keys, with what SplitMix64's finalizer makes of them by its reference in C and by Java's SplittableRandom. The first twelve are its states
// from the seed 0 on. Which of the last two is the greater turns on the last fold alone.
const PRIORITIES: [(u64, u64); 14] = [
    (0x9e37_79b9_7f4a_7c15, 0xe220_a839_7b1d_cdaf),
    (0x3c6e_f372_fe94_f82a, 0x6e78_9e6a_a1b9_65f4),
    (0xdaa6_6d2c_7ddf_743f, 0x06c4_5d18_8009_454f),
    (0x78dd_e6e5_fd29_f054, 0xf88b_b8a8_724c_81ec),
    (0x1715_609f_7c74_6c69, 0x1b39_896a_51a8_749b),
    (0xb54c_da58_fbbe_e87e, 0x53cb_9f0c_747e_a2ea),
    (0x5384_5412_7b09_6493, 0x2c82_9abe_1f45_32e1),
    (0xf1bb_cdcb_fa53_e0a8, 0xc584_133a_c916_ab3c),
    (0x8ff3_4785_799e_5cbd, 0x3ee5_7890_41c9_8ac3),
    (0x2e2a_c13e_f8e8_d8d2, 0xf3b8_488c_368c_b0a6),
    (0xcc62_3af8_7833_54e7, 0x657e_ecdd_3cb1_3d09),
    (0x6a99_b4b1_f77d_d0fc, 0xc2d3_26e0_055b_def6),
    (0x8dbe_ec7d_d0cb_7432, 0x8000_0001_1234_5678),
    (0xfb9f_d336_0d07_263b, 0x8000_0000_1234_567a),
];

#[test]
fn the_greater_number_of_splitmix64_rises(rt: HostRuntime) -> Result<(), Fail> {
    for salt in [NO_SALT, 1, 0x0123_4567_89ab_cdef, u64::MAX] {
        for (child, upper) in PRIORITIES {
            for (node, lower) in PRIORITIES {
                let rises = rises_above(salt, child ^ salt, node ^ salt);
                assert_same(&rt, rises, lower < upper, (salt, child, node));
            }
        }
    }
    Ok(())
}

// A number of keys, and how many slots a way may lead over then.
const MOST: [(u64, u64); 13] = [
    (0, 2),
    (1, 4),
    (2, 6),
    (3, 6),
    (4, 8),
    (7, 8),
    (8, 10),
    (1_023, 22),
    (1_024, 24),
    (1_000_000, 42),
    (2_097_152, 46),
    ((1 << 63) - 1, 128),
    (u64::MAX, 130),
];

#[test]
fn a_way_is_deep_beyond_twice_the_digits_and_two(rt: HostRuntime) -> Result<(), Fail> {
    for (size, most) in MOST {
        assert_same(&rt, most_depth(size), most, size);
        let deep = (is_deep(most, size), is_deep(most + 1, size));
        assert_same(&rt, deep, (false, true), size);
        let third = most.wrapping_add(most / 3);
        let far = (
            is_far_too_deep(third, size),
            is_far_too_deep(third.wrapping_add(1), size),
        );
        assert_same(&rt, far, (false, true), size);
        let attempts = (attempts_behind(most, size), attempts_behind(most + 1, size));
        assert_same(&rt, attempts, (0, 24), size);
    }
    Ok(())
}

#[test]
fn the_slots_that_are_not_free_bound_the_keys(rt: HostRuntime) -> Result<(), Fail> {
    for (slots, free, most) in [
        (1_068, 1_068, 0),
        (1_068, 1_067, 1),
        (1_068, 0, 1_068),
        (1 << 30, (1 << 30) - 1_000, 1_000),
        (5, 6, 0),
    ] {
        assert_same(&rt, most_keys(slots, free), most, (slots, free));
    }
    Ok(())
}
