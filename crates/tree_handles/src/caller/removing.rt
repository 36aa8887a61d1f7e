//! Removes: by a copy of the successor, which waits for readers; or by turns, where a reader is known to stay.
ghost use Rattle.std.specs.Prelude.{◌≡◌, ◌≤◌, ◌+◌, false, true, IfOk, IfErr, IfNone, IfSome};
ghost use Rattle.prcu_model.specs.declared.operation.Op.TheVariants.{Del};
ghost use Rattle.seat_table.specs.Seats.{shape_of};
ghost use Rattle.citrus_tree.specs.Deletes.{FoundTwoChildren, WaitsOnceAtMost};
ghost use Rattle.tree_lift.specs.Lifts.{LeavesNoUpdate};
ghost use Rattle.tree_handles.specs.Callers.{CallerAt, IsSameCaller, MayGoOn};
ghost use Rattle.tree_handles.specs.Calls.{CausedBy, CausedReady, CausedTended, HasTurnedDown, IsBusy, IsLost, IsRemoved, IsRemovedReady, IsRemovedTended, LacksRoom, MeetsLastingReader};
ghost use Rattle.tree_handles.specs.declared.status.Status.TheVariants.{Lost};

use super::{Caller, TICKETS};
use crate::keeper::{forget_if, forget_unless_kept, is_under_way, serves_next};
use crate::spinning::{GaveUp, InTheWay};
use crate::status::Status;
use citrus_tree::Removed;
use citrus_tree::patient::{remove, remove_by_bypass};
use prcu_marks::OpenGate;
use seat_table::WaitPart;
use tree_lift::{Sunk, turn_down};

/// So many slots are kept back where a reader is known to stay: half as many again as a keeper is begun for. A reader that doesn't stay leaves
/// before that as a rule. With more a move would wait for the reader's class more often, with the waiters that have classes.
const MANY_BEHIND: usize = 48;

/// How often a node is turned down for a remove, at most. One to two turns are enough as a rule.
const MOST_TURNS: u32 = 64;

/// How many tickets a remove by turns leaves before each of them: three for the turn, and four for each of the two removes around it.
const TURN_TICKETS: u64 = 11;

impl<W: WaitPart> Caller<W> {
    /// Takes the key's pair out, where it is present and its value is the expected one if there is one, and tells its value. Where others are in
    /// its way it spins, or is busy; and so it is where its place has no room for what it takes out, or no spare and no slot is free for one,
    /// until the keeper is over.
    pub(crate) fn remove(&mut self, key: u64, expected: Option<u64>) -> Result<Removed, Status>
        ensures taken { IfOk result (λ removed. IsRemovedTended self.old key expected removed self.new) }
        ensures cause { IfErr result (λ status. CausedTended (Del key) status self.old self.new) }
    {
        if let Some(status) = self.hindrance(TICKETS) {
            return Err(status);
        }
        self.see_to_keeper();
        self.remove_ready(key, expected)
    }

    // The same, but for what is done about the keeper: by turns where a reader is known to stay.
    fn remove_ready(&mut self, key: u64, expected: Option<u64>) -> Result<Removed, Status>
        requires may { MayGoOn self.old }
        requires tickets { 4 ≤ self.old.seat.view.allowance.tickets }
        ensures taken { IfOk result (λ removed. IsRemovedReady self.old key expected removed self.new) }
        ensures cause { IfErr result (λ status. (ready : CallerAt) × HasTurnedDown key self.old ready × CausedReady (Del key) status ready self.new) }
    {
        if self.lacks_room() {
            return Err(Status::Busy);
        }
        if self.meets_lasting_reader() {
            return self.remove_by_turns(key, expected);
        }
        self.remove_at_once(key, expected)
    }

    // Whether a reader is known to stay.
    fn meets_lasting_reader(&self) -> bool
        ensures holds { result ≡ true → MeetsLastingReader self.now }
        ensures fails { result ≡ false → MeetsLastingReader self.now → ⊥ }
    {
        is_under_way(&self.keeper) && self.seat.retired().len() >= MANY_BEHIND
    }

    // Removes the key's pair so that the readers of a move aren't waited for, unless so many turns come to nothing: while the key's node has two
    // children it is turned down.
    fn remove_by_turns(&mut self, key: u64, expected: Option<u64>) -> Result<Removed, Status>
        requires may { MayGoOn self.old }
        requires tickets { 4 ≤ self.old.seat.view.allowance.tickets }
        requires room { LacksRoom self.old self.old → ⊥ }
        requires reader { MeetsLastingReader self.old }
        ensures taken { IfOk result (λ removed. IsRemovedReady self.old key expected removed self.new) }
        ensures cause { IfErr result (λ status. (ready : CallerAt) × HasTurnedDown key self.old ready × CausedReady (Del key) status ready self.new) }
    {
        for times in 0..MOST_TURNS {
            if self.seat.tickets() < TURN_TICKETS {
                break;
            }
            if self.lacks_room() {
                return Err(Status::Busy);
            }
            if let Some(removed) = self.bypass(key, expected)? {
                return Ok(removed);
            }
            self.turn_down(key)?;
        }
        self.remove_at_once(key, expected)
    }

    // Takes the pair out where its node has one child at most. `None` where it has two, and then no update was made.
    fn bypass(&mut self, key: u64, expected: Option<u64>) -> Result<Option<Removed>, Status>
        requires may { MayGoOn self.old }
        requires tickets { 4 ≤ self.old.seat.view.allowance.tickets }
        ensures taken { IfOk result (λ answer. IfSome answer (λ removed. IsRemoved self.old key expected removed self.new)) }
        ensures two { IfOk result (λ answer. IfNone answer (IsBusy (Del key) self.old self.new × FoundTwoChildren key self.new.seat.view)) }
        ensures waits { IfOk result (λ _. WaitsOnceAtMost (shape_of self.old.way self.old.table) self.old.seat.view self.new.seat.view) }
        ensures cause { IfErr result (λ status. CausedBy (Del key) status self.old self.new) }
    {
        let table = self.shared.table();
        let waits = self.seat.waits();
        let again = serves_next(&self.seat, &self.keeper, &self.cookie);
        let patience = self
            .spinning
            .for_call(self.shared.queue())
            .leaving_readers(again);
        let answer = remove_by_bypass(&patience, table, &mut self.seat, &OpenGate, key, expected);
        forget_if(self.seat.waits() != waits, &mut self.keeper);
        match answer {
            Ok(Ok(Some(removed))) => Ok(Some(removed)),
            Ok(Ok(None)) => Ok(None),
            Ok(Err(InTheWay)) => Err(Status::Busy),
            Err(GaveUp) => {
                self.lost = true;
                Err(Status::Lost)
            }
        }
    }

    // Turns the key's node down, where it has two children. It waits for nobody.
    fn turn_down(&mut self, key: u64) -> Result<Sunk, Status>
        requires may { MayGoOn self.old }
        requires tickets { 3 ≤ self.old.seat.view.allowance.tickets }
        ensures index { IsSameCaller self.old self.new }
        ensures updates { IfOk result (λ _. LeavesNoUpdate self.old.seat.view key self.new.seat.view) }
        ensures waits { IfOk result (λ _. self.new.seat.view.counts.waits ≡ self.old.seat.view.counts.waits) }
        ensures tickets { IfOk result (λ _. self.old.seat.view.allowance.tickets ≤ self.new.seat.view.allowance.tickets + 3) }
        ensures may { IfOk result (λ _. MayGoOn self.new) }
        ensures lost { IfErr result (λ status. (status ≡ Lost) × IsLost self.old self.new) }
    {
        let patience = self.spinning.for_call(self.shared.queue());
        match turn_down(&patience, self.shared.table(), &mut self.seat, key) {
            Ok(sunk) => Ok(sunk),
            Err(GaveUp) => {
                self.lost = true;
                Err(Status::Lost)
            }
        }
    }

    // Removes the key's pair by the copy of its successor where its node has two children: then it waits for the readers between the two.
    fn remove_at_once(&mut self, key: u64, expected: Option<u64>) -> Result<Removed, Status>
        requires may { MayGoOn self.old }
        requires tickets { 4 ≤ self.old.seat.view.allowance.tickets }
        ensures taken { IfOk result (λ removed. IsRemoved self.old key expected removed self.new) }
        ensures cause { IfErr result (λ status. CausedBy (Del key) status self.old self.new) }
    {
        let table = self.shared.table();
        let waits = self.seat.waits();
        let again = serves_next(&self.seat, &self.keeper, &self.cookie);
        let patience = self
            .spinning
            .for_call(self.shared.queue())
            .leaving_readers(again);
        let answer = remove(&patience, table, &mut self.seat, &OpenGate, key, expected);
        forget_unless_kept(&self.seat, waits, &mut self.keeper);
        match answer {
            Ok(Ok(removed)) => Ok(removed),
            Ok(Err(InTheWay)) => Err(Status::Busy),
            Err(GaveUp) => {
                self.lost = true;
                Err(Status::Lost)
            }
        }
    }
}
