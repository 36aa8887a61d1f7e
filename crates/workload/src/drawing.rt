//! The generator of draws: a linear congruential one, of which the upper bits are drawn.
ghost use Rattle.std.specs.Prelude.{◌≡◌, ◌^◌, ◌<◌};
ghost use Rattle.workload.specs.Draws.{next_state, drawn};

/// The state after this one.
pub fn next_state(state: u64) -> u64
    ensures { result ≡ next_state state }
{
    state
        .wrapping_mul(6_364_136_223_846_793_005)
        .wrapping_add(1_442_695_040_888_963_407)
}

/// What is drawn at the state: its upper 31 bits.
pub fn drawn(state: u64) -> u64
    ensures drawn { result ≡ drawn state }
    ensures limit { result < 2 ^ 31 }
{
    state >> 33
}
