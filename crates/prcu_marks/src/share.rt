//! What a split of a seat gives away. It is for the proofs alone.
use std::marker::Brand;

/// How many places and tickets. Each call of a structure's split picks them.
pub trait Share {
    ghost use Rattle.std.specs.Prelude.{ℕ};

    ghost places: { ℕ };

    ghost tickets: { ℕ };
}

impl Share for Brand {
    ghost places = { 0 };

    ghost tickets = { 0 };
}
