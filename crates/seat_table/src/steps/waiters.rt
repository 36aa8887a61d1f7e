//! The steps on the words of the three waiters: a section is entered and left, and a wait begins and looks for readers.
ghost use Rattle.std.specs.Prelude.{◌≡◌, ℕ};
ghost use Rattle.core_state.specs.declared.act.Act.TheVariants as acts;
ghost use Rattle.seat_table.specs.Gains.{IsAsked, Told};
ghost use Rattle.seat_table.specs.Seats.{shape_of};

use crate::access::touch;
use crate::seat::Seat;
use crate::table::CitrusTable;
use crate::waiter::WaitWords;
use core_state::{Act, Field};
use key_interval::{Keys, class_of};
use prcu_marks::Access;

/// Loads the clock, for the section that is entered next (K3).
pub fn load_clock<W: WaitWords>(table: &CitrusTable<W>, seat: &mut Seat<W>) -> u64
    requires table { seat.old.table ≡ table.now }
    requires asks { IsAsked (shape_of W.WAY table.now) seat.old.view acts.LoadClock }
    ensures seat { (seat.new.table ≡ seat.old.table) × (seat.new.listed ≡ seat.old.listed) × (seat.new.looked ≡ seat.old.looked) }
    ensures told { Told (shape_of W.WAY table.now) seat.old.view acts.LoadClock result seat.new.view }
{
    let act = Act::LoadClock;
    touch(table, &mut seat.seat, act, Field::Clock, Access::Load)
}

/// Stores the own key word (K4).
pub fn announce_key<W: WaitWords>(table: &CitrusTable<W>, seat: &mut Seat<W>, key: u64)
    requires table { seat.old.table ≡ table.now }
    requires asks { IsAsked (shape_of W.WAY table.now) seat.old.view (acts.AnnounceKey key) }
    ensures seat { (seat.new.table ≡ seat.old.table) × (seat.new.listed ≡ seat.old.listed) × (seat.new.looked ≡ seat.old.looked) }
    ensures told { Told (shape_of W.WAY table.now) seat.old.view (acts.AnnounceKey key) key seat.new.view }
{
    let word = Field::Announced { place: seat.place };
    let act = Act::AnnounceKey { key };
    let access = Access::Store { number: key };
    touch(table, &mut seat.seat, act, word, access);
}

/// Stores the own stamp: a section is entered (K5).
pub fn enter_by_stamp<W: WaitWords>(
    table: &CitrusTable<W>,
    seat: &mut Seat<W>,
    key: u64,
    stamp: u64,
)
    requires table { seat.old.table ≡ table.now }
    requires asks { IsAsked (shape_of W.WAY table.now) seat.old.view (acts.EnterByStamp key stamp) }
    ensures seat { (seat.new.table ≡ seat.old.table) × (seat.new.listed ≡ seat.old.listed) × (seat.new.looked ≡ seat.old.looked) }
    ensures told { Told (shape_of W.WAY table.now) seat.old.view (acts.EnterByStamp key stamp) stamp seat.new.view }
{
    let word = Field::Stamp { place: seat.place };
    seat.key = Some(key);
    seat.stamp = stamp;
    let act = Act::EnterByStamp { key, stamp };
    let access = Access::Store { number: stamp };
    touch(table, &mut seat.seat, act, word, access);
}

/// Makes the own stamp idle: the section is left (K6).
pub fn leave_by_stamp<W: WaitWords>(table: &CitrusTable<W>, seat: &mut Seat<W>)
    requires table { seat.old.table ≡ table.now }
    requires asks { IsAsked (shape_of W.WAY table.now) seat.old.view acts.LeaveByStamp }
    ensures seat { (seat.new.table ≡ seat.old.table) × (seat.new.listed ≡ seat.old.listed) × (seat.new.looked ≡ seat.old.looked) }
    ensures told { Told (shape_of W.WAY table.now) seat.old.view acts.LeaveByStamp 18446744073709551615 seat.new.view }
{
    let word = Field::Stamp { place: seat.place };
    seat.key = None;
    let access = Access::Store { number: u64::MAX };
    touch(table, &mut seat.seat, Act::LeaveByStamp, word, access);
}

/// Adds 1 to the clock: a wait for the readers with one of these keys begins (K7).
pub fn begin_wait<W: WaitWords>(table: &CitrusTable<W>, seat: &mut Seat<W>, keys: Keys) -> u64
    requires table { seat.old.table ≡ table.now }
    requires asks { IsAsked (shape_of W.WAY table.now) seat.old.view (acts.BeginWait keys.low keys.high) }
    ensures seat { (seat.new.table ≡ seat.old.table) × (seat.new.listed ≡ seat.old.listed) × (seat.new.looked ≡ seat.old.looked) }
    ensures told { Told (shape_of W.WAY table.now) seat.old.view (acts.BeginWait keys.low keys.high) result seat.new.view }
{
    let low = keys.low();
    let high = keys.high();
    seat.tickets -= 1;
    seat.waits += 1;
    let act = Act::BeginWait { low, high };
    let access = Access::Add { number: 1 };
    touch(table, &mut seat.seat, act, Field::Clock, access)
}

/// Loads the key of a place, in a wait (K8).
pub fn look_key<W: WaitWords>(
    table: &CitrusTable<W>,
    seat: &mut Seat<W>,
    place: u32,
    last: bool,
) -> u64
    requires table { seat.old.table ≡ table.now }
    requires asks { IsAsked (shape_of W.WAY table.now) seat.old.view (acts.LookKey place last) }
    ensures seat { (seat.new.table ≡ seat.old.table) × (seat.new.listed ≡ seat.old.listed) × (seat.new.looked ≡ seat.old.looked) }
    ensures told { Told (shape_of W.WAY table.now) seat.old.view (acts.LookKey place last) result seat.new.view }
{
    let word = Field::Announced { place };
    let act = Act::LookKey { place, last };
    touch(table, &mut seat.seat, act, word, Access::Load)
}

/// Loads the stamp of a place, in a wait (K8).
pub fn look_stamp<W: WaitWords>(
    table: &CitrusTable<W>,
    seat: &mut Seat<W>,
    place: u32,
    last: bool,
) -> u64
    requires table { seat.old.table ≡ table.now }
    requires asks { IsAsked (shape_of W.WAY table.now) seat.old.view (acts.LookStamp place last) }
    ensures seat { (seat.new.table ≡ seat.old.table) × (seat.new.listed ≡ seat.old.listed) × (seat.new.looked ≡ seat.old.looked) }
    ensures told { Told (shape_of W.WAY table.now) seat.old.view (acts.LookStamp place last) result seat.new.view }
{
    let word = Field::Stamp { place };
    let act = Act::LookStamp { place, last };
    touch(table, &mut seat.seat, act, word, Access::Load)
}

/// Loads a gate (K28).
pub fn load_gate<W: WaitWords>(table: &CitrusTable<W>, seat: &mut Seat<W>, class: u32) -> u64
    requires table { seat.old.table ≡ table.now }
    requires asks { IsAsked (shape_of W.WAY table.now) seat.old.view (acts.LoadGate class) }
    ensures seat { (seat.new.table ≡ seat.old.table) × (seat.new.listed ≡ seat.old.listed) × (seat.new.looked ≡ seat.old.looked) }
    ensures told { Told (shape_of W.WAY table.now) seat.old.view (acts.LoadGate class) result seat.new.view }
{
    let word = Field::Gate { class };
    let act = Act::LoadGate { class };
    touch(table, &mut seat.seat, act, word, Access::Load)
}

/// Adds 1 to a side of a class: a section is entered (K29).
pub fn enter_by_count<W: WaitWords>(table: &CitrusTable<W>, seat: &mut Seat<W>, key: u64, side: u32)
    requires table { seat.old.table ≡ table.now }
    requires asks { IsAsked (shape_of W.WAY table.now) seat.old.view (acts.EnterByCount key side) }
    ensures seat { (seat.new.table ≡ seat.old.table) × (seat.new.listed ≡ seat.old.listed) × (seat.new.looked ≡ seat.old.looked) }
    ensures told { (found : ℕ) × Told (shape_of W.WAY table.now) seat.old.view (acts.EnterByCount key side) found seat.new.view }
{
    let class = class_of(key);
    let word = Field::Count { class, side };
    seat.key = Some(key);
    seat.stamp = side as u64;
    let act = Act::EnterByCount { key, side };
    touch(table, &mut seat.seat, act, word, Access::Add { number: 1 });
}

/// Takes 1 from a side of a class: the section is left (K30).
pub fn leave_by_count<W: WaitWords>(
    table: &CitrusTable<W>,
    seat: &mut Seat<W>,
    class: u32,
    side: u32,
)
    requires table { seat.old.table ≡ table.now }
    requires asks { IsAsked (shape_of W.WAY table.now) seat.old.view (acts.LeaveByCount class side) }
    ensures seat { (seat.new.table ≡ seat.old.table) × (seat.new.listed ≡ seat.old.listed) × (seat.new.looked ≡ seat.old.looked) }
    ensures told { (found : ℕ) × Told (shape_of W.WAY table.now) seat.old.view (acts.LeaveByCount class side) found seat.new.view }
{
    let word = Field::Count { class, side };
    seat.key = None;
    let act = Act::LeaveByCount { class, side };
    let access = Access::Subtract { number: 1 };
    touch(table, &mut seat.seat, act, word, access);
}

/// Loads a side of a class, in a wait (K31).
pub fn look_count<W: WaitWords>(
    table: &CitrusTable<W>,
    seat: &mut Seat<W>,
    class: u32,
    side: u32,
    last: bool,
) -> u64
    requires table { seat.old.table ≡ table.now }
    requires asks { IsAsked (shape_of W.WAY table.now) seat.old.view (acts.LookCount class side last) }
    ensures seat { (seat.new.table ≡ seat.old.table) × (seat.new.listed ≡ seat.old.listed) × (seat.new.looked ≡ seat.old.looked) }
    ensures told { Told (shape_of W.WAY table.now) seat.old.view (acts.LookCount class side last) result seat.new.view }
{
    let word = Field::Count { class, side };
    let act = Act::LookCount { class, side, last };
    touch(table, &mut seat.seat, act, word, Access::Load)
}

/// Turns a gate (K32).
pub fn turn_gate<W: WaitWords>(table: &CitrusTable<W>, seat: &mut Seat<W>, class: u32) -> u64
    requires table { seat.old.table ≡ table.now }
    requires asks { IsAsked (shape_of W.WAY table.now) seat.old.view (acts.TurnGate class) }
    ensures seat { (seat.new.table ≡ seat.old.table) × (seat.new.listed ≡ seat.old.listed) × (seat.new.looked ≡ seat.old.looked) }
    ensures told { Told (shape_of W.WAY table.now) seat.old.view (acts.TurnGate class) result seat.new.view }
{
    let word = Field::Gate { class };
    seat.turns += 1;
    let act = Act::TurnGate { class };
    touch(table, &mut seat.seat, act, word, Access::Flip)
}

/// Stores the own stamp of a class: a section is entered (K33).
pub fn enter_by_row<W: WaitWords>(table: &CitrusTable<W>, seat: &mut Seat<W>, key: u64, stamp: u64)
    requires table { seat.old.table ≡ table.now }
    requires asks { IsAsked (shape_of W.WAY table.now) seat.old.view (acts.EnterByRow key stamp) }
    ensures seat { (seat.new.table ≡ seat.old.table) × (seat.new.listed ≡ seat.old.listed) × (seat.new.looked ≡ seat.old.looked) }
    ensures told { Told (shape_of W.WAY table.now) seat.old.view (acts.EnterByRow key stamp) stamp seat.new.view }
{
    let place = seat.place;
    let class = class_of(key);
    let word = Field::Row { place, class };
    seat.key = Some(key);
    seat.stamp = stamp;
    let act = Act::EnterByRow { key, stamp };
    let access = Access::Store { number: stamp };
    touch(table, &mut seat.seat, act, word, access);
}

/// Makes the own stamp of a class idle: the section is left (K34).
pub fn leave_by_row<W: WaitWords>(table: &CitrusTable<W>, seat: &mut Seat<W>, class: u32)
    requires table { seat.old.table ≡ table.now }
    requires asks { IsAsked (shape_of W.WAY table.now) seat.old.view (acts.LeaveByRow class) }
    ensures seat { (seat.new.table ≡ seat.old.table) × (seat.new.listed ≡ seat.old.listed) × (seat.new.looked ≡ seat.old.looked) }
    ensures told { Told (shape_of W.WAY table.now) seat.old.view (acts.LeaveByRow class) 18446744073709551615 seat.new.view }
{
    let place = seat.place;
    let word = Field::Row { place, class };
    seat.key = None;
    let act = Act::LeaveByRow { class };
    let access = Access::Store { number: u64::MAX };
    touch(table, &mut seat.seat, act, word, access);
}

/// Loads a stamp of a class, in a wait (K35).
pub fn look_row<W: WaitWords>(
    table: &CitrusTable<W>,
    seat: &mut Seat<W>,
    place: u32,
    class: u32,
    last: bool,
) -> u64
    requires table { seat.old.table ≡ table.now }
    requires asks { IsAsked (shape_of W.WAY table.now) seat.old.view (acts.LookRow place class last) }
    ensures seat { (seat.new.table ≡ seat.old.table) × (seat.new.listed ≡ seat.old.listed) × (seat.new.looked ≡ seat.old.looked) }
    ensures told { Told (shape_of W.WAY table.now) seat.old.view (acts.LookRow place class last) result seat.new.view }
{
    let word = Field::Row { place, class };
    let act = Act::LookRow { place, class, last };
    touch(table, &mut seat.seat, act, word, Access::Load)
}
