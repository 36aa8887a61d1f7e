//! What each step tells. These types are for the proofs alone.
ghost use Rattle.class_hash.specs.Calls.{told};
ghost use Rattle.hash_core.specs.Steps.{first_of, second_of, both_of, spent};

use crate::rule::Nothing;
use atomic_table::{Join, Play, Split};
use hash_core::View;
use prcu_marks::Share;
use std::marker::{Brand, PhantomData};

/// Which step it is, on which table. Each access picks it.
pub(crate) trait Detail {
    ghost use Rattle.class_hash.specs.Seats.{TableAt};
    ghost use Rattle.hash_core.specs.declared.act.Act.{Act};

    ghost table: { TableAt };

    ghost act: { Act };
}

impl Detail for Brand {
    ghost use Rattle.class_hash.specs.Seats.{no_table};
    ghost use Rattle.hash_core.specs.declared.act.Act.TheVariants.{LoadFront};

    ghost table = { no_table };

    ghost act = { LoadFront };
}

pub(crate) struct Told<A> {
    marker: PhantomData<A>,
}

impl<A: Detail> Play<Nothing, View> for Told<A> {
    ghost then = { told A.table A.act };
}

pub(crate) struct Cut<A> {
    marker: PhantomData<A>,
}

impl<A: Share> Split<View> for Cut<A> {
    ghost left = { first_of A.places A.tickets };

    ghost right = { second_of A.places A.tickets };
}

pub(crate) struct Glue;

impl Join<View> for Glue {
    ghost both = { both_of };

    ghost spent = { spent };
}
