//! Sections and waits of the second waiter.
ghost use Rattle.std.specs.Prelude.{◌≡◌, ◌+◌, ◌%◌, ◌<◌, ◌≤◌, Some, IfNone, IfSome, true, false};
ghost use Rattle.core_state.specs.declared.words.Field.TheVariants.{Count};
ghost use Rattle.key_interval.specs.Keys.{MeetsClass, IsLastClass};
ghost use Rattle.seat_table.specs.declared.wait.Poll.TheVariants.{NotYet};
ghost use Rattle.seat_table.specs.Looks.{HasPassed, HasMet, LooksAt, IsOnward, IsLater, FindsNone, FindsOnce};
ghost use Rattle.seat_table.specs.Seats.{shape_of};
ghost use Rattle.seat_table.specs.Waits.{IsLatestOf, IsGoingOn, IsOver, Polled, StopsAt, reached};
ghost use Rattle.waiters.specs.Classes.{StaysAtClass, at_next, IsBack};

use key_interval::{Keys, class_of};
use prcu_marks::Why;
use seat_table::{CitrusTable, Grace, Poll, Seat, WaitPart, WaitWords, steps};

/// The waiter that counts readers by the class of their key. A reader adds 1 to the side of its key's class that the class's gate
/// names, and takes it away when it leaves. A wait goes over the classes of its keys: it finds the side that the gate doesn't name
/// at 0, turns the gate, and finds the other side at 0.
pub struct Domain;

impl WaitWords for Domain {
    ghost WAY = { 1 };

    const WAY: u32 = 1;
}

// What a grace has for a gate that isn't loaded yet. A gate is 0 or 1.
const NOT_LOADED: u64 = u64::MAX;

// Loads the gate of the class that the grace has come to, unless that was done.
fn load_gate(table: &CitrusTable<Domain>, seat: &mut Seat<Domain>, grace: &mut Grace<Domain>)
    requires table { seat.old.table ≡ table.now }
    requires latest { IsLatestOf (shape_of 1 table.now) grace.old seat.old.view }
    requires unturned { grace.old.turned ≡ false }
    ensures seat { (seat.new.table ≡ seat.old.table) × (seat.new.listed ≡ seat.old.listed) }
    ensures grace { grace.new ≡ record grace.old { gate = grace.new.gate } }
    ensures gone_on { IsGoingOn (shape_of 1 table.now) seat.old.view grace.new seat.new.view }
    ensures onward { LooksAt (IsOnward (reached grace.old)) seat.old.view seat.new.view }
    ensures clear { FindsNone grace.old.keys grace.old.clock seat.old.view seat.new.view }
{
    if grace.gate != NOT_LOADED {
        return;
    }
    grace.gate = steps::load_gate(table, seat, grace.class);
}

// Looks at a side of the class that the grace has come to, as the last look of the wait or another, and answers what stands in the
// wait's way there.
fn look(
    table: &CitrusTable<Domain>,
    seat: &mut Seat<Domain>,
    grace: &Grace<Domain>,
    side: u32,
    last: bool,
) -> Option<Why>
    requires table { seat.old.table ≡ table.now }
    requires latest { IsLatestOf (shape_of 1 table.now) grace.now seat.old.view }
    requires met { MeetsClass grace.now.keys grace.now.class }
    requires side { side < 2 }
    requires end { last ≡ true → (grace.now.turned ≡ true) × (side ≡ grace.now.gate % 2) × IsLastClass grace.now.keys grace.now.class }
    ensures seat { (seat.new.table ≡ seat.old.table) × (seat.new.listed ≡ seat.old.listed) }
    ensures passed { IfNone result (HasPassed seat.old.view last (Count grace.now.class side) seat.new.view) }
    ensures met { IfSome result (λ why. HasMet seat.old.view why seat.new.view) }
    ensures there { IfSome result (λ why. StopsAt (reached grace.now) why) }
    ensures spot { LooksAt (λ field. field ≡ Count grace.now.class side) seat.old.view seat.new.view }
    ensures clear { IfNone result (FindsNone grace.now.keys grace.now.clock seat.old.view seat.new.view) }
    ensures once { IfSome result (λ why. FindsOnce grace.now.keys grace.now.clock seat.old.view why seat.new.view) }
{
    let class = grace.class;
    let count = steps::look_count(table, seat, class, side, last);
    if count == 0 {
        return None;
    }
    Some(Why::Counter { class, side, count })
}

// Finds the side at 0 that the gate doesn't name, and turns the gate, unless that was done; or answers what stands in the wait's way.
fn turn(
    table: &CitrusTable<Domain>,
    seat: &mut Seat<Domain>,
    grace: &mut Grace<Domain>,
) -> Option<Why>
    requires table { seat.old.table ≡ table.now }
    requires latest { IsLatestOf (shape_of 1 table.now) grace.old seat.old.view }
    requires met { MeetsClass grace.old.keys grace.old.class }
    ensures seat { (seat.new.table ≡ seat.old.table) × (seat.new.listed ≡ seat.old.listed) }
    ensures grace { StaysAtClass grace.old grace.new }
    ensures turned { IfNone result ((grace.new.turned ≡ true) × IsGoingOn (shape_of 1 table.now) seat.old.view grace.new seat.new.view) }
    ensures met { IfSome result (λ why. Polled (shape_of 1 table.now) seat.old.view (NotYet why) grace.new seat.new.view) }
    ensures onward { LooksAt (IsOnward (reached grace.old)) seat.old.view seat.new.view }
    ensures later { IsLater (reached grace.old) (reached grace.new) }
    ensures clear { IfNone result (FindsNone grace.old.keys grace.old.clock seat.old.view seat.new.view) }
    ensures once { IfSome result (λ why. FindsOnce grace.old.keys grace.old.clock seat.old.view why seat.new.view) }
{
    if grace.turned {
        return None;
    }
    load_gate(table, seat, grace);
    let side = 1 - (grace.gate % 2) as u32;
    if let Some(why) = look(table, seat, grace, side, false) {
        return Some(why);
    }
    // Later sections are counted on the other side from here on, so the side that is looked at next runs empty.
    steps::turn_gate(table, seat, grace.class);
    grace.turned = true;
    None
}

// The grace comes to the next class.
fn go_on(grace: &mut Grace<Domain>)
    requires { grace.old.class < 63 }
    ensures { grace.new ≡ at_next grace.old }
{
    grace.class += 1;
    grace.gate = NOT_LOADED;
    grace.turned = false;
}

// Passes the class that the grace has come to, which isn't the last one; or answers what stands in the wait's way there.
fn pass(
    table: &CitrusTable<Domain>,
    seat: &mut Seat<Domain>,
    grace: &mut Grace<Domain>,
) -> Option<Why>
    requires table { seat.old.table ≡ table.now }
    requires latest { IsLatestOf (shape_of 1 table.now) grace.old seat.old.view }
    requires small { grace.old.class < 63 }
    ensures seat { (seat.new.table ≡ seat.old.table) × (seat.new.listed ≡ seat.old.listed) }
    ensures grace { (grace.new.keys ≡ grace.old.keys) × (grace.new.clock ≡ grace.old.clock) }
    ensures passed { IfNone result ((grace.new.class ≡ grace.old.class + 1)
        × IsGoingOn (shape_of 1 table.now) seat.old.view grace.new seat.new.view) }
    ensures met { IfSome result (λ why. Polled (shape_of 1 table.now) seat.old.view (NotYet why) grace.new seat.new.view) }
    ensures onward { LooksAt (IsOnward (reached grace.old)) seat.old.view seat.new.view }
    ensures later { IfNone result (IsLater (reached grace.old) (reached grace.new)) }
    ensures clear { IfNone result (FindsNone grace.old.keys grace.old.clock seat.old.view seat.new.view) }
    ensures once { IfSome result (λ why. FindsOnce grace.old.keys grace.old.clock seat.old.view why seat.new.view) }
{
    if !grace.keys.meets_class(grace.class) {
        go_on(grace);
        return None;
    }
    if let Some(why) = turn(table, seat, grace) {
        return Some(why);
    }
    let side = (grace.gate % 2) as u32;
    if let Some(why) = look(table, seat, grace, side, false) {
        return Some(why);
    }
    go_on(grace);
    None
}

// Passes the last class, which the grace has come to: the wait is over. Or answers what stands in its way there.
fn end(
    table: &CitrusTable<Domain>,
    seat: &mut Seat<Domain>,
    grace: &mut Grace<Domain>,
) -> Option<Why>
    requires table { seat.old.table ≡ table.now }
    requires latest { IsLatestOf (shape_of 1 table.now) grace.old seat.old.view }
    requires last { IsLastClass grace.old.keys grace.old.class }
    ensures seat { (seat.new.table ≡ seat.old.table) × (seat.new.listed ≡ seat.old.listed) }
    ensures grace { (grace.new.keys ≡ grace.old.keys) × (grace.new.clock ≡ grace.old.clock) }
    ensures over { IfNone result (IsOver (shape_of 1 table.now) seat.old.view seat.new.view) }
    ensures met { IfSome result (λ why. Polled (shape_of 1 table.now) seat.old.view (NotYet why) grace.new seat.new.view) }
    ensures onward { LooksAt (IsOnward (reached grace.old)) seat.old.view seat.new.view }
    ensures clear { IfNone result (FindsNone grace.old.keys grace.old.clock seat.old.view seat.new.view) }
    ensures once { IfSome result (λ why. FindsOnce grace.old.keys grace.old.clock seat.old.view why seat.new.view) }
{
    if let Some(why) = turn(table, seat, grace) {
        return Some(why);
    }
    let side = (grace.gate % 2) as u32;
    if let Some(why) = look(table, seat, grace, side, true) {
        return Some(why);
    }
    None
}

// A grace beyond the last class has nothing left to wait for. It goes back, since one look has to end the wait.
fn go_back(grace: &mut Grace<Domain>, last: u32)
    ensures { IsBack last grace.old grace.new }
{
    if last < grace.class {
        grace.class = last;
        grace.turned = true;
    }
}

impl WaitPart for Domain {
    fn enter(table: &CitrusTable<Domain>, seat: &mut Seat<Domain>, key: u64) {
        let gate = steps::load_gate(table, seat, class_of(key));
        // The gate may have been turned since it was loaded, so a wait finds both sides at 0. docs/TREE.md#the-tree
        steps::enter_by_count(table, seat, key, (gate % 2) as u32);
    }

    fn leave(table: &CitrusTable<Domain>, seat: &mut Seat<Domain>) {
        if let Some(key) = seat.section() {
            let side = seat.side();
            steps::leave_by_count(table, seat, class_of(key), side);
        }
    }

    fn begin(table: &CitrusTable<Domain>, seat: &mut Seat<Domain>, keys: Keys) -> Grace<Domain> {
        let clock = steps::begin_wait(table, seat, keys);
        Grace::new(keys, clock)
    }

    fn poll(
        table: &CitrusTable<Domain>,
        seat: &mut Seat<Domain>,
        grace: &mut Grace<Domain>,
    ) -> Poll {
        let last = grace.keys.last_class();
        for _ in grace.class..last {
            if let Some(why) = pass(table, seat, grace) {
                return Poll::NotYet { why };
            }
        }
        go_back(grace, last);
        if let Some(why) = end(table, seat, grace) {
            return Poll::NotYet { why };
        }
        Poll::Over
    }
}
