//! What no clause says: that a client keeps its tree shallow.
ghost use Rattle.std.specs.Prelude.{◌≡◌};
ghost use Rattle.seat_table.specs.Seats.{IsQuietSeat};

use super::*;
use citrus_tree::call;
use std::test::Fail;
use waiters::Eer;

const KEYS: u64 = 300;

// In a tree of 400 slots a way over 20 is deep. From 27 on a client stands still for room to lift.
const MOST: u64 = 27;

// The seat, after its client put the keys one after another.
fn put_ascending<R: Abort + Wait>(rt: &R, table: &CitrusTable<Eer>, seat: Seat<Eer>) -> Seat<Eer>
    requires { (seat.table ≡ table.now) × IsQuietSeat seat }
    ensures { (result.table ≡ table.now) × IsQuietSeat result }
{
    let mut client = TreeClient::new(table, seat, &OpenGate);
    for key in 0..KEYS {
        assert!(rt; client.remaining() > 0, "no tickets are left");
        let wanted = Told {
            reply: Reply::New,
            number: key + 1,
        };
        let told = client.call(rt, Op::Put { key, value: key });
        assert_same(rt, told, wanted, key);
    }
    client.into_seat()
}

#[test]
fn a_client_keeps_ascending_keys_shallow(rt: HostRuntime) -> Result<(), Fail> {
    let (table, seat) = CitrusTable::<Eer>::new(rt.alloc(), 400, 1, 16 * KEYS)?;
    let mut seat = put_ascending(&rt, &table, seat);
    assert!(rt; seat.tickets() >= 4, "no tickets are left");
    let put = Op::Put {
        key: KEYS,
        value: 0,
    };
    let depth = call(&rt, &table, &mut seat, &OpenGate, put).depth;
    assert_same(&rt, depth <= MOST, true, depth);
    Ok(())
}
