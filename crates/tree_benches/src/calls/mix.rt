//! Which operations are drawn.
ghost use Rattle.std.specs.Prelude.{◌≤◌};

use prcu_model::Op;
use workload::drawing::{drawn, next_state};

/// A mix of operations. But for `Load`, each key is drawn from the first so many, and there are as many puts as dels.
#[derive(Clone, Copy)]
pub enum Mix {
    /// 90 of 100 are gets, on 20,000 keys.
    MostlyGets,
    /// 50 of 100 are gets, on 1,000 keys.
    HalfGets,
    /// 98 of 100 are gets, on 200,000 keys.
    ManyKeys,
    /// All are gets, on 20,000 keys.
    OnlyGets,
    /// Those of the command `load`: two of four are puts and one is a get, on 4,096 keys that each thread has for itself.
    Load,
}

/// A mix with its name, how many keys four threads may use, and how many puts of drawn keys come first. After these about half of the keys
/// are there, and none of the command's.
#[derive(Clone, Copy)]
pub struct Row {
    pub name: &'static str,
    pub mix: Mix,
    pub keys: u32,
    pub first_puts: u32,
}

impl Row {
    pub const ALL: [Row; 5] = [
        Row {
            name: "90 of 100 gets on 20000 keys",
            mix: Mix::MostlyGets,
            keys: 20_000,
            first_puts: 14_000,
        },
        Row {
            name: "50 of 100 gets on 1000 keys",
            mix: Mix::HalfGets,
            keys: 1_000,
            first_puts: 700,
        },
        Row {
            name: "98 of 100 gets on 200000 keys",
            mix: Mix::ManyKeys,
            keys: 200_000,
            first_puts: 140_000,
        },
        Row {
            name: "100 of 100 gets on 20000 keys",
            mix: Mix::OnlyGets,
            keys: 20_000,
            first_puts: 14_000,
        },
        Row {
            name: "the operations of load",
            mix: Mix::Load,
            keys: 16_384,
            first_puts: 0,
        },
    ];
}

impl Mix {
    /// The operation that is drawn at a state, for the thread of a place; and the state after it.
    // A call would hand it through memory, and each program that this one is measured beside draws in its loop.
    #[inline(always)]
    pub fn draw(self, place: u32, state: u64) -> (Op, u64) {
        match self {
            Mix::MostlyGets => draw_of(90, 20_000, state),
            Mix::HalfGets => draw_of(50, 1_000, state),
            Mix::ManyKeys => draw_of(98, 200_000, state),
            Mix::OnlyGets => draw_of(100, 20_000, state),
            Mix::Load => draw_of_load(place, state),
        }
    }
}

// So many of 100 are gets, the others puts and dels.
#[inline(always)]
fn draw_of(gets: u64, keys: u64, state: u64) -> (Op, u64)
    requires some { 1 ≤ keys }
{
    let first = next_state(state);
    let second = next_state(first);
    let kind = drawn(first) % 100;
    let key = drawn(second) % keys;
    if kind < gets {
        (Op::Get { key }, second)
    } else if kind % 2 == 0 {
        (Op::Put { key, value: kind }, second)
    } else {
        (Op::Del { key }, second)
    }
}

// An operation of the command `load`.
#[inline(always)]
fn draw_of_load(place: u32, state: u64) -> (Op, u64) {
    let first = next_state(state);
    let second = next_state(first);
    let kind = drawn(first) % 4;
    let key = 64 * (drawn(second) % 4096) + u64::from(place);
    if kind < 2 {
        let third = next_state(second);
        let value = drawn(third);
        (Op::Put { key, value }, third)
    } else if kind == 2 {
        (Op::Get { key }, second)
    } else {
        (Op::Del { key }, second)
    }
}
