//! Making a workload from a number.
ghost use Rattle.std.specs.Prelude.{◌≡◌, ◌+◌, ◌*◌, ◌<◌, ◌≤◌, ◌∷◌, [], ◌++◌, length, IfOk, OnOk};
ghost use Rattle.prcu_model.specs.Scripts.{op_count};
ghost use Rattle.workload.specs.Draws.{made_op, made_script, made_scripts};

use crate::drawing::{drawn, next_state};
use prcu_model::{NoMemory, Op, Scripts};
use std::alloc::Global;

// The next operation of the script, after this state, and the state that its draws leave.
fn make_op(script: u64, state: u64) -> (Op, u64)
    requires { script < 64 }
    ensures { result ≡ made_op script state }
{
    let first = next_state(state);
    let second = next_state(first);
    let kind = drawn(first) % 4;
    let key = 64 * (drawn(second) % 4096) + script;
    if kind < 2 {
        let third = next_state(second);
        let value = drawn(third);
        (Op::Put { key, value }, third)
    } else if kind == 2 {
        (Op::Get { key }, second)
    } else {
        (Op::Del { key }, second)
    }
}

// Adds the next script, with so many operations.
fn add_made(made: &mut Scripts, number: u64, ops: u32) -> Result<(), NoMemory>
    requires few { length made.old < 64 }
    requires few_ops { op_count made.old + ops ≤ 1048576 }
    ensures { OnOk result (made.new ≡ made.old ++ made_script number ops (length made.old) ∷ []) }
{
    let script = u64::from(made.count());
    made.add_script()?;
    let mut state = number.wrapping_add(script);
    for _ in 0..ops {
        let (op, after) = make_op(script, state);
        made.add_op(op)?;
        state = after;
    }
    Ok(())
}

/// The workload that the number makes: so many scripts, each of so many operations. The time grows with the number of
/// operations in all of them.
pub fn make(alloc: Global, number: u64, scripts: u32, ops: u32) -> Result<Scripts, NoMemory>
    requires some { 1 ≤ scripts }
    requires few { scripts ≤ 64 }
    requires few_ops { scripts * ops ≤ 1048576 }
    ensures { IfOk result (λ made. made ≡ made_scripts number scripts ops) }
{
    let mut made = Scripts::new(alloc);
    for _ in 0..scripts {
        add_made(&mut made, number, ops)?;
    }
    Ok(made)
}
