//! How long the ways down to the keys are.
ghost use Rattle.std.specs.Prelude.{◌≡◌};
ghost use Rattle.seat_table.specs.Seats.{IsQuietSeat};

use crate::seated::Seated;
use crate::shapes::order::Order;
use citrus_tree::{Hop, Search};
use seat_table::{CitrusTable, Seat, WaitPart};
use std::sync::Wait;

/// Over how many slots the ways to the keys lead, all together and at most.
#[derive(Clone, Copy)]
pub struct Ways {
    pub sum: u64,
    pub longest: u64,
}

/// Goes down to each of so many keys that came last in the order.
pub fn measure_ways<R: Wait, W: WaitPart>(
    rt: &R,
    seated: Seated<'_, W>,
    order: Order,
    keys: u64,
    puts: u64,
) -> Ways {
    let (table, mut seat) = seated.parts();
    let mut ways = Ways { sum: 0, longest: 0 };
    for before in puts.saturating_sub(keys)..puts {
        let depth = depth_of(rt, table, &mut seat, order.key(before, keys));
        ways.sum = ways.sum.wrapping_add(depth);
        ways.longest = ways.longest.max(depth);
    }
    ways
}

// Over how many slots the way to a key leads, its own with it.
fn depth_of<R: Wait, W: WaitPart>(
    rt: &R,
    table: &CitrusTable<W>,
    seat: &mut Seat<W>,
    key: u64,
) -> u64
    requires table { seat.old.table ≡ table.now }
    requires quiet { IsQuietSeat seat.old }
    ensures table { seat.new.table ≡ seat.old.table }
    ensures quiet { IsQuietSeat seat.new }
{
    let mut search = Search::start(table, seat, key);
    let mut depth = 1u64;
    for _ in rt.forever() {
        let hop = search.hop();
        if let Hop::Moved = hop {
            depth = depth.wrapping_add(1);
            continue;
        }
        search.finish();
        return depth;
    }
    unreachable!()
}
