//! What each step tells. These types are for the proofs alone.
ghost use Rattle.seat_table.specs.Gains.{told};
ghost use Rattle.core_state.specs.Steps.{first_of, second_of, both_of, spent_view};

use crate::rule::Nothing;
use atomic_table::{Join, Play, Split};
use core_state::View;
use prcu_marks::Share;
use std::marker::{Brand, PhantomData};

/// Which step it is, on a table of which shape. Each access picks it.
pub(crate) trait Detail {
    ghost use Rattle.core_state.specs.declared.shape.Shape.{Shape};
    ghost use Rattle.core_state.specs.declared.act.Act.{Act};

    ghost shape: { Shape };

    ghost act: { Act };
}

impl Detail for Brand {
    ghost use Rattle.core_state.specs.declared.shape.Waiter.TheVariants.{Eer};
    ghost use Rattle.core_state.specs.declared.act.Act.TheVariants.{LoadClock};

    ghost shape = { record { waiter = Eer; slots = 0; places = 0; room = 0; tickets = 0 } };

    ghost act = { LoadClock };
}

pub(crate) struct Told<A> {
    marker: PhantomData<A>,
}

impl<A: Detail> Play<Nothing, View> for Told<A> {
    ghost then = { told A.shape A.act };
}

pub(crate) struct Cut<A> {
    marker: PhantomData<A>,
}

impl<A: Share> Split<View> for Cut<A> {
    ghost left = { first_of A.places A.tickets };

    ghost right = { second_of A.places A.tickets };
}

pub(crate) struct Glue;

impl Join<View> for Glue {
    ghost both = { both_of };

    ghost spent = { spent_view };
}
