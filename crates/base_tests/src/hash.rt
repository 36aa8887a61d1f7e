//! What no clause says of the hash dictionary: what calls one after another are answered, and that a slot is used again beside its readers.
ghost use Rattle.std.specs.Prelude.{◌≡◌};
ghost use Rattle.hash_core.specs.Steps.{IsQuiet};

use crate::same::assert_same;
use class_hash::{HashClient, HashSeat, HashTable};
use prcu_marks::{Client, OpenGate};
use prcu_model::{Op, Reply, Told};
use std::process::Abort;
use std::sync::Wait;

mod calls;
mod readers;

// An operation, and what it is to be answered.
#[derive(Clone, Copy)]
struct Call {
    op: Op,
    told: Told,
}

fn answered(op: Op, reply: Reply, number: u64) -> Call {
    Call {
        op,
        told: Told { reply, number },
    }
}

// The seat, after it made the calls one after another. Each has to be answered as it says.
fn run<R: Abort + Wait>(rt: &R, table: &HashTable, seat: HashSeat, calls: &[Call]) -> HashSeat
    requires { (seat.table ≡ table.now.id) × IsQuiet seat.view }
    ensures { (result.table ≡ table.now.id) × IsQuiet result.view }
{
    let mut client = HashClient::new(table, seat, &OpenGate);
    for it in calls {
        assert!(rt; client.remaining() > 0, "no tickets are left");
        assert_same(rt, client.call(rt, it.op), it.told, it.op);
    }
    client.into_seat()
}
