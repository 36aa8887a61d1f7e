//! The seats on the table.
ghost use Rattle.std.specs.Prelude.{◌≡◌, ℕ, ◌+◌, ◌-◌, ◌<◌, ◌≤◌, [], ◌∷◌, ◌++◌, length, IfOk, Some};
ghost use Rattle.list_laws.specs.Counts.{IsIn};
ghost use Rattle.core_state.specs.declared.view.Section.{Section};
ghost use Rattle.core_state.specs.declared.view.Retired.{Retired};
ghost use Rattle.core_state.specs.Steps.{NeedsSplit, first_of, second_of, both_of};
ghost use Rattle.core_state.specs.Links.{IsRetiredAt};
ghost use Rattle.core_state.specs.Views.{HasLock};
ghost use Rattle.core_state.specs.declared.act.Act.TheVariants.{LoadClock};
ghost use Rattle.core_state.specs.Memory.{most_slots};
ghost use Rattle.seat_table.specs.Seats.{IsEmptyFor, IsQuietSeat, KeepsOwn, IsInside, IsSlotOf, IsLastFound, shape_of};
ghost use Rattle.seat_table.specs.Gains.{TellsNow, Told};
ghost use Rattle.seat_table.specs.Seats as scans;

use crate::access::touch;
use crate::listed::Listed;
use crate::notes::Notes;
use crate::rule::Nothing;
use crate::scan::region;
use crate::table::CitrusTable;
use crate::told::{Cut, Glue};
use crate::waiter::WaitWords;
use core_state::{Act, Field, View};
use prcu_marks::{Access, Share};
use prcu_model::NoMemory;
use std::alloc::Global;
use std::marker::{Brand, Model, PhantomData};

/// What one caller steps with. A clause sees the table that it is of, what it knows, and the retired slots that it lists.
#[derive(Drop)]
pub struct Seat<W: WaitWords> {
    pub(crate) seat: atomic_table::Seat<Nothing, View>,
    pub(crate) slots: u32,
    pub(crate) table_places: u32,
    pub(crate) table_room: u32,
    pub(crate) table_tickets: u64,
    pub(crate) place: u32,
    pub(crate) places: u32,
    pub(crate) tickets: u64,
    pub(crate) key: Option<u64>,
    pub(crate) stamp: u64,
    pub(crate) hand: Option<u32>,
    pub(crate) spare: Option<u32>,
    pub(crate) waits: u64,
    pub(crate) turns: u64,
    pub(crate) free: u64,
    pub(crate) front: u64,
    pub(crate) looked: u32,
    pub(crate) listed: Listed,
    pub(crate) notes: Notes,
    pub(crate) marker: PhantomData<W>,
}

impl<W: WaitWords> Model for Seat<W> {
    ghost use Rattle.std.specs.Prelude.{◌≡◌, []};
    ghost use Rattle.seat_table.specs.Seats.{SeatAt};
    ghost use Rattle.seat_table.specs.Gains.{IsSeat};

    ghost Value = { SeatAt };

    ghost view = { λ s. record {
      table = record {
        id = s.seat.table_id;
        slots = s.slots;
        places = s.table_places;
        room = s.table_room;
        tickets = s.table_tickets;
      };
      view = s.seat.me.0;
      listed = s.listed.slots;
      looked = s.looked;
    } };

    ghost invariant = { λ s. (s.seat.me.1 ≡ []) × IsSeat W.WAY
        (record { id = s.seat.table_id; slots = s.slots; places = s.table_places; room = s.table_room; tickets = s.table_tickets })
        (record {
          place = s.place;
          places = s.places;
          tickets = s.tickets;
          key = s.key;
          stamp = s.stamp;
          hand = s.hand;
          spare = s.spare;
          waits = s.waits;
          turns = s.turns;
          free = s.free;
          front = s.front;
        }) s.seat.me.0 × (s.listed.room ≡ s.table_room) };
}

impl<W: WaitWords> Seat<W> {
    /// The place at which the seat works.
    pub fn place(&self) -> u32
        ensures { result ≡ self.now.view.allowance.place }
    {
        self.place
    }

    /// How many more places it has, which it can give away.
    pub fn unused(&self) -> u32
        ensures { result + 1 ≡ self.now.view.allowance.places }
    {
        self.places - 1
    }

    /// How many tickets it has left.
    pub fn tickets(&self) -> u64
        ensures { result ≡ self.now.view.allowance.tickets }
    {
        self.tickets
    }

    /// The announced key of the open section, and `None` exactly outside one.
    pub fn section(&self) -> Option<u64>
        ensures { IsInside result self.now.view.section }
    {
        self.key
    }

    /// The side on which the open section of the second waiter counts.
    pub fn side(&self) -> u32
        requires way { W.WAY ≡ 1 }
        requires inside { (section : Section) × (self.now.view.section ≡ Some section) }
        ensures side { (section : Section) → self.now.view.section ≡ Some section → result ≡ section.stamp }
        ensures small { result < 2 }
    {
        self.stamp as u32
    }

    /// The slot in hand, and `None` exactly where there is none.
    pub fn in_hand(&self) -> Option<u32>
        ensures { IsSlotOf result self.now.view.hands.hand }
    {
        self.hand
    }

    /// The slot that is kept for the copy of a successor, and `None` exactly where the place has none.
    pub fn spare(&self) -> Option<u32>
        ensures { IsSlotOf result self.now.view.hands.spare }
    {
        self.spare
    }

    /// The retired slots that are listed.
    pub fn retired(&self) -> &[u32]
        ensures { result.now ≡ self.now.listed }
    {
        self.listed.as_slice()
    }

    /// What the rule of the table tells of this seat between two steps, for a proof that needs it: a call changes nothing, and answers
    /// nothing.
    pub fn rule_tells(&self)
        ensures tells { TellsNow (shape_of W.WAY self.now.table) self.now.view }
    {
        // The invariant is known where a field is read.
        let _place = self.place;
    }

    /// How many retired slots a place of its table may hold back.
    pub fn room(&self) -> usize
        ensures room { result ≡ self.now.table.room }
        ensures few { (16 ≤ result) × (result ≤ most_slots) }
    {
        self.table_room as usize
    }

    /// An empty list for a seat that is to be split off. `NoMemory` may come where memory is short.
    pub fn empty_list(&self, alloc: Global) -> Result<Listed, NoMemory>
        ensures { IfOk result (λ list. IsEmptyFor self.now.table list) }
    {
        let list = Listed::new(alloc, self.table_room)?;
        Ok(list)
    }

    /// Lists a retired slot, as the last one.
    pub fn list_retired(&mut self, slot: u32)
        requires retired { (i : ℕ) × (r : Retired) × IsRetiredAt self.old.view i r slot }
        requires unlocked { HasLock self.old.view slot → ⊥ }
        requires unlisted { TellsNow (shape_of W.WAY self.old.table) self.old.view → IsIn self.old.listed slot → ⊥ }
        requires few { length self.old.listed < self.old.table.room }
        ensures seat { (self.new.table ≡ self.old.table) × (self.new.view ≡ self.old.view) × (self.new.looked ≡ self.old.looked) }
        ensures listed { self.new.listed ≡ self.old.listed ++ slot ∷ [] }
    {
        self.listed.push(slot);
    }

    /// How many waits its place has begun.
    pub fn waits(&self) -> u64
        ensures { result ≡ self.now.view.counts.waits }
    {
        self.waits
    }

    /// How many gates it has turned.
    pub fn turns(&self) -> u64
        ensures { result ≡ self.now.view.counts.turns }
    {
        self.turns
    }

    /// What this place last found or left in the free count, at first the number of slots.
    pub fn free_seen(&self) -> u64
        ensures { IsLastFound self.now.table.slots result self.now.view.latest.free }
    {
        self.free
    }

    /// What this place last found or left in the front, at first 0.
    pub fn front_seen(&self) -> u64
        ensures { IsLastFound 0 result self.now.view.latest.front }
    {
        self.front
    }

    /// The slot to which its scans for a free slot have come: each look at the slot after it moves it on. At first it is the one before the
    /// region of its place.
    pub fn last_looked(&self) -> u32
        ensures { result ≡ self.now.looked }
    {
        self.looked
    }

    /// Notes a slot that this place freed, so that it is looked at before others. Where [`MOST_NOTED`](crate::MOST_NOTED) are noted already
    /// it isn't.
    pub fn note_freed(&mut self, slot: u32)
        ensures { self.new ≡ self.old }
    {
        self.notes.push(slot);
    }

    /// Notes a free slot for a pair that will hang at this one, so that it is looked at before others: the one of the same line of memory;
    /// where that isn't free and no other is noted, the first of a line of its own. It loads their states, which are no steps: it changes
    /// nothing else, and the seat learns nothing.
    pub fn note_near(&mut self, table: &CitrusTable<W>, near: u32)
        ensures { self.new ≡ self.old }
    {
        self.notes.note_near(table, near);
    }

    /// The slot that was noted last, which is noted no more. It may have been seized since.
    pub fn take_noted(&mut self) -> Option<u32>
        ensures seat { self.new ≡ self.old }
        ensures inside { (slot : ℕ) → result ≡ Some slot → (1 ≤ slot) × (slot ≤ self.old.table.slots + self.old.table.places) }
    {
        let slot = self.notes.pop()?;
        // It is a slot of the table. That is tested here, where else each step would have to keep it.
        let last = self.slots as u64 + self.table_places as u64;
        if slot == 0 || slot as u64 > last {
            return None;
        }
        Some(slot)
    }
}

fn cut<W: WaitWords, A: Share>(
    seat: Seat<W>,
    table: &CitrusTable<W>,
    away: u32,
    tickets: u64,
    list: Listed,
) -> (Seat<W>, Seat<W>)
    requires picked { (A.places ≡ away) × (A.tickets ≡ tickets) }
    requires table { seat.table ≡ table.now }
    requires list { IsEmptyFor seat.table list }
    requires needs { NeedsSplit seat.view away tickets }
    ensures seats { (result.0.table ≡ seat.table) × (result.1.table ≡ seat.table) × (result.0.listed ≡ seat.listed)
        × (result.1.listed ≡ []) }
    ensures views { (result.0.view ≡ first_of away tickets seat.view) × (result.1.view ≡ second_of away tickets seat.view) }
    ensures looked { (result.0.looked ≡ seat.looked)
        × (result.1.looked ≡ scans.region seat.table.slots seat.table.places result.1.view.allowance.place) }
{
    let Seat {
        seat: mut first,
        slots,
        table_places,
        table_room,
        table_tickets,
        place,
        places,
        tickets: all,
        key,
        stamp,
        hand,
        spare,
        waits,
        turns,
        free,
        front,
        looked,
        listed,
        notes,
        marker,
    } = seat;
    let second = table.table.shared.split_seat::<Cut<A>>(&mut first);
    let new_place = place + (places - away);
    let new_looked = region(table.slots(), table.places(), new_place);
    (
        Seat {
            seat: first,
            slots,
            table_places,
            table_room,
            table_tickets,
            place,
            places: places - away,
            tickets: all - tickets,
            key,
            stamp,
            hand,
            spare,
            waits,
            turns,
            free,
            front,
            looked,
            listed,
            notes,
            marker,
        },
        Seat {
            seat: second,
            slots,
            table_places,
            table_room,
            table_tickets,
            place: new_place,
            places: away,
            tickets,
            key: None,
            stamp: 0,
            hand: None,
            spare: Some(new_place + 1),
            waits: 0,
            turns: 0,
            free: slots as u64,
            front: 0,
            looked: new_looked,
            listed: list,
            notes: Notes::new(new_looked),
            marker: PhantomData,
        },
    )
}

impl<W: WaitWords> Seat<W> {
    /// Gives away the last of the unused places, and tickets. The second seat works at the first of these places, and lists its retired slots
    /// in the given list. Both seats have seen what this one has.
    pub fn split(
        self,
        table: &CitrusTable<W>,
        places: u32,
        tickets: u64,
        list: Listed,
    ) -> (Seat<W>, Seat<W>)
        requires table { self.table ≡ table.now }
        requires list { IsEmptyFor self.table list }
        requires quiet { IsQuietSeat self }
        requires places { (1 ≤ places) × (places < self.view.allowance.places) }
        requires tickets { tickets ≤ self.view.allowance.tickets }
        ensures seats { (result.0.table ≡ self.table) × (result.1.table ≡ self.table) × (result.0.listed ≡ self.listed)
            × (result.1.listed ≡ []) }
        ensures views { (result.0.view ≡ first_of places tickets self.view) × (result.1.view ≡ second_of places tickets self.view) }
        ensures looked { (result.0.looked ≡ self.looked)
            × (result.1.looked ≡ scans.region self.table.slots self.table.places result.1.view.allowance.place) }
        ensures quiet { IsQuietSeat result.0 × IsQuietSeat result.1 }
    {
        cut::<W, Brand>(self, table, places, tickets, list)
    }

    /// This seat gets the other's tickets, and answers for its places from now on. It loads the clock once more, to learn
    /// that all tickets together are few.
    pub fn join(self, table: &CitrusTable<W>, other: Seat<W>) -> Seat<W>
        requires table { (self.table ≡ table.now) × (other.table ≡ table.now) }
        requires quiet { IsQuietSeat self × IsQuietSeat other }
        ensures seat { (result.table ≡ self.table) × (result.listed ≡ self.listed) × (result.looked ≡ self.looked) }
        ensures told { (clock : ℕ) × Told (shape_of W.WAY table.now) (both_of self.view other.view) LoadClock clock result.view }
        ensures own { KeepsOwn self.view other.view result.view }
        ensures quiet { IsQuietSeat result }
    {
        let Seat {
            mut seat,
            slots,
            table_places,
            table_room,
            table_tickets,
            place,
            places,
            tickets,
            key,
            stamp,
            hand,
            spare,
            waits,
            turns,
            free,
            front,
            looked,
            listed,
            notes,
            marker,
        } = self;
        let Seat {
            seat: theirs,
            slots: _,
            table_places: _,
            table_room: _,
            table_tickets: _,
            place: _,
            places: _,
            tickets: more,
            key: _,
            stamp: _,
            hand: _,
            spare: _,
            waits: _,
            turns: their_turns,
            free: _,
            front: _,
            looked: _,
            listed: _,
            notes: _,
            marker: _,
        } = other;
        table.table.shared.join_seat::<Glue>(&mut seat, theirs);
        touch(table, &mut seat, Act::LoadClock, Field::Clock, Access::Load);
        Seat {
            seat,
            slots,
            table_places,
            table_room,
            table_tickets,
            place,
            places,
            tickets: tickets + more,
            key,
            stamp,
            hand,
            spare,
            waits,
            turns: turns + their_turns,
            free,
            front,
            looked,
            listed,
            notes,
            marker,
        }
    }
}

unsafe impl<W: WaitWords> Send for Seat<W> {}
