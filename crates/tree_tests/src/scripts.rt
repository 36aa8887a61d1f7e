//! Scripts for the tests of other modules, drawn.
ghost use Rattle.std.specs.Prelude.{◌<◌, length};

use prcu_model::{NoMemory, Op, Scripts};
use std::alloc::Global;
use std::process::Abort;

/// The next number of a made sequence.
pub fn drawn(last: u64) -> u64 {
    last.wrapping_mul(6_364_136_223_846_793_005)
        .wrapping_add(1_442_695_040_888_963_407)
}

// The operation that a number stands for, on one of the keys.
fn op_of(number: u64, keys: &[u64], value: u64) -> Op
    requires { 0 < length keys.now }
{
    let key = keys[(number >> 40) as usize % keys.len()];
    match (number >> 32) % 8 {
        0..=2 => Op::Put { key, value },
        3..=4 => Op::Del { key },
        5 => Op::Set { key, value },
        _ => Op::Get { key },
    }
}

/// Scripts of so many callers, each with so many drawn calls on these keys. Each call has a value of its own.
pub fn drawn_scripts(
    rt: &impl Abort,
    alloc: Global,
    callers: u32,
    calls: u32,
    keys: &[u64],
) -> Result<Scripts, NoMemory>
    requires { 0 < length keys.now }
{
    let mut scripts = Scripts::new(alloc);
    let mut number = 1;
    for _ in 0..callers {
        assert!(rt; scripts.count() < Scripts::MOST_SCRIPTS);
        scripts.add_script()?;
        for _ in 0..calls {
            number = drawn(number);
            assert!(rt; 0 < scripts.count() && scripts.ops() < Scripts::MOST_OPS);
            let value = u64::from(scripts.ops());
            scripts.add_op(op_of(number, keys, value))?;
        }
    }
    Ok(scripts)
}

/// The key of an operation.
pub fn key_of(op: Op) -> u64 {
    match op {
        Op::Put { key, .. } | Op::Get { key } | Op::Del { key } | Op::Set { key, .. } => key,
    }
}
