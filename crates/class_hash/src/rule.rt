//! The rule that holds between any two steps on the table.
use atomic_table::TableRule;
use hash_core::{Shape, View};

/// What a slot of the base holds: nothing, since there is none.
#[derive(Drop)]
pub struct Nothing;

/// The rule of `hash_core`, over the table's words and the views of its seats.
pub struct Ruled;

impl TableRule<Nothing, View, Shape> for Ruled {
    ghost use Rattle.hash_core.specs.Rule.{Rule};
    ghost use Rattle.class_hash.specs.Seats.{first_seated};

    ghost holds = { λ k s. Rule k s.words s.views };

    ghost first = { first_seated };
}
