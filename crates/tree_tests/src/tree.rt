//! What no clause says: that clients are made for each waiter, and what calls one after another are answered.
ghost use Rattle.std.specs.Prelude.{◌≡◌};
ghost use Rattle.seat_table.specs.Seats.{IsQuietSeat};

use crate::same::assert_same;
use prcu_marks::{Client, OpenGate};
use prcu_model::{Op, Reply, Told};
use seat_table::{CitrusTable, Seat, WaitPart};
use std::process::Abort;
use std::sync::Wait;
use tree_lift::TreeClient;

// A call as a line of an account tells it, with the number of its update where it is one.
macro_rules! call {
    (put $key:tt $value:tt new $number:tt) => {
        call!([Put { key: $key, value: $value }] [New] $number)
    };
    (put $key:tt $value:tt $told:ident) => {
        call!([Put { key: $key, value: $value }] [$told] 0)
    };
    (set $key:tt $value:tt was $old:tt $number:tt) => {
        call!([Set { key: $key, value: $value }] [Was { value: $old }] $number)
    };
    (set $key:tt $value:tt none) => {
        call!([Set { key: $key, value: $value }] [Absent] 0)
    };
    (get $key:tt val $value:tt) => {
        call!([Get { key: $key }] [Val { value: $value }] 0)
    };
    (get $key:tt none) => {
        call!([Get { key: $key }] [Absent] 0)
    };
    (del $key:tt gone $number:tt) => {
        call!([Del { key: $key }] [Gone] $number)
    };
    (del $key:tt none) => {
        call!([Del { key: $key }] [Absent] 0)
    };
    ([$($op:tt)*] [$($reply:tt)*] $number:tt) => {
        (Op::$($op)*, Told { reply: Reply::$($reply)*, number: $number })
    };
}

mod cookies;
mod histories;
mod lifted;
mod lists;
mod scripts;
mod searches;
mod shallow;
mod slots;

// An operation, and what it is to be answered.
type Call = (Op, Told);

// The seat, after it made the calls one after another. Each has to be answered as it says.
fn run<R: Abort + Wait, W: WaitPart>(
    rt: &R,
    table: &CitrusTable<W>,
    seat: Seat<W>,
    name: &str,
    calls: &[Call],
) -> Seat<W>
    requires { (seat.table ≡ table.now) × IsQuietSeat seat }
    ensures { (result.table ≡ table.now) × IsQuietSeat result }
{
    let mut client = TreeClient::new(table, seat, &OpenGate);
    for (op, answer) in calls {
        assert!(rt; client.remaining() > 0, "no tickets are left");
        assert_same(rt, client.call(rt, *op), *answer, (*op, name));
    }
    client.into_seat()
}
