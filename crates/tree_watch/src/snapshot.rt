//! Snapshots of a key range.
ghost use Rattle.std.specs.Prelude.{◌≡◌, ◌++◌, [], ◌∷◌, IfOk, OnOk, flat_map, length};
ghost use Rattle.prcu_marks.specs.Marks.{updates_of};
ghost use Rattle.seat_table.specs.Seats.{IsQuietSeat};
ghost use Rattle.tree_watch.specs.Snapshots.{AreSnapshots, OnlyLists, HasLookedAt, none_yet, block_text};

use crate::pauses::{Pace, pause};
use crate::writing::push_block;
use crossbeam_utils::Backoff;
use exact_list::{Listed, Page, list};
use key_interval::Keys;
use prcu_marks::{Gate, Point};
use prcu_model::NoMemory;
use seat_table::{CitrusTable, Seat, WaitPart};
use std::alloc::Global;
use std::marker::Model;
use std::sync::Wait;

// How many pairs a snapshot has at most.
const MOST_PAIRS: u32 = 4096;

// How often a list is tried before other threads get their turn.
const TRIES: u32 = 1000;

/// The pairs that a dictionary had in a key range after some number of updates, keys ascending: all of them, or the first 4,096.
#[derive(Drop)]
pub struct Snapshot {
    front: u64,
    page: Page,
    next: Option<u64>,
}

impl Model for Snapshot {
    ghost use Rattle.std.specs.Prelude.{◌≡◌};
    ghost use Rattle.tree_watch.specs.Snapshots.{SnapshotAt};

    ghost Value = { SnapshotAt };

    ghost view = { λ s. record { front = s.front; pairs = s.page.pairs; next = s.next } };

    ghost invariant = { λ s. s.page.capacity ≡ 4096 };
}

impl Snapshot {
    // One before it is taken: of a dictionary that nobody updated.
    fn empty(alloc: Global) -> Result<Snapshot, NoMemory>
        ensures { IfOk result (λ snapshot. snapshot ≡ none_yet) }
    {
        Ok(Snapshot {
            front: 0,
            page: Page::new(alloc, MOST_PAIRS)?,
            next: None,
        })
    }

    /// After how many updates the dictionary had these pairs.
    pub fn front(&self) -> u64
        ensures { result ≡ self.now.front }
    {
        self.front
    }

    /// The pairs. Keys ascend.
    pub fn pairs(&self) -> &[(u64, u64)]
        ensures { result.now ≡ self.now.pairs }
    {
        self.page.pairs()
    }

    /// The key after its pairs, where there are more than it takes.
    pub fn next(&self) -> Option<u64>
        ensures { result ≡ self.now.next }
    {
        self.next
    }

    // Takes it anew, after a pause. Beside updates that never pause it may never return.
    fn take<R: Wait, W: WaitPart>(
        &mut self,
        rt: &R,
        table: &CitrusTable<W>,
        seat: &mut Seat<W>,
        keys: Keys,
        pace: &Pace<'_>,
    )
        requires table { seat.old.table ≡ table.now }
        requires quiet { IsQuietSeat seat.old }
        ensures seat { seat.new.table ≡ seat.old.table }
        ensures quiet { IsQuietSeat seat.new }
        ensures only { OnlyLists seat.old.view seat.new.view }
        ensures taken { AreSnapshots (updates_of seat.new.view.seen) keys.low keys.high (length (updates_of seat.old.view.seen))
            (self.new ∷ []) }
        ensures looked { HasLookedAt seat.old.view seat.new.view (self.new ∷ []) }
    {
        pause(table, seat, keys.low(), pace);
        let backoff = Backoff::new();
        for _ in rt.forever() {
            match list(rt, table, seat, keys, &mut self.page, TRIES) {
                Listed::Whole { front } => {
                    self.front = front;
                    self.next = None;
                    return;
                }
                Listed::Part { front, next } => {
                    self.front = front;
                    self.next = Some(next);
                    return;
                }
                Listed::Moved { .. } => backoff.snooze(),
            }
        }
        unreachable!()
    }
}

/// Four snapshots of one key range, in the order in which they were taken. Contracts see them as a list.
#[derive(Drop)]
pub struct Snapshots {
    first: Snapshot,
    second: Snapshot,
    third: Snapshot,
    fourth: Snapshot,
}

impl Model for Snapshots {
    ghost use Rattle.std.specs.Prelude.{List, [], ◌∷◌};
    ghost use Rattle.tree_watch.specs.Snapshots.{SnapshotAt};

    ghost Value = { List SnapshotAt };

    ghost view = { λ s. s.first ∷ s.second ∷ s.third ∷ s.fourth ∷ [] };

    ghost invariant = { λ s. Unit {0} };
}

impl Snapshots {
    /// Four before they are taken: of a dictionary that nobody updated. `NoMemory` may come where memory is short.
    pub fn empty(alloc: Global) -> Result<Snapshots, NoMemory>
        ensures { IfOk result (λ snapshots. snapshots ≡ none_yet ∷ none_yet ∷ none_yet ∷ none_yet ∷ []) }
    {
        Ok(Snapshots {
            first: Snapshot::empty(alloc)?,
            second: Snapshot::empty(alloc)?,
            third: Snapshot::empty(alloc)?,
            fourth: Snapshot::empty(alloc)?,
        })
    }

    // Appends the block of each.
    pub(crate) fn push_to(&self, out: &mut Vec<u8>) -> Result<(), NoMemory>
        ensures four { length self.now ≡ 4 }
        ensures text { OnOk result (out.new.items ≡ out.old.items ++ flat_map block_text self.now) }
    {
        push_block(out, &self.first)?;
        push_block(out, &self.second)?;
        push_block(out, &self.third)?;
        push_block(out, &self.fourth)
    }

    /// Takes all anew, one after another, and passes the gate after each. Before each it lets other threads go on until they have made
    /// as many updates more as the pace says, have made none for a while, or have ended: so the snapshots stand apart where there is
    /// something to see, and no clause rests on it. Beside updates that never pause it may never return.
    pub fn take<R: Wait, W: WaitPart, G: Gate>(
        &mut self,
        rt: &R,
        table: &CitrusTable<W>,
        seat: &mut Seat<W>,
        keys: Keys,
        pace: &Pace<'_>,
        gate: &G,
        caller: u32,
    )
        requires table { seat.old.table ≡ table.now }
        requires quiet { IsQuietSeat seat.old }
        ensures seat { seat.new.table ≡ seat.old.table }
        ensures quiet { IsQuietSeat seat.new }
        ensures only { OnlyLists seat.old.view seat.new.view }
        ensures taken { AreSnapshots (updates_of seat.new.view.seen) keys.low keys.high (length (updates_of seat.old.view.seen)) self.new }
        ensures looked { HasLookedAt seat.old.view seat.new.view self.new }
    {
        self.first.take(rt, table, seat, keys, pace);
        gate.pass(Point::Answered, caller);
        self.second.take(rt, table, seat, keys, pace);
        gate.pass(Point::Answered, caller);
        self.third.take(rt, table, seat, keys, pace);
        gate.pass(Point::Answered, caller);
        self.fourth.take(rt, table, seat, keys, pace);
        gate.pass(Point::Answered, caller);
    }
}
