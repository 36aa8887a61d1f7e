//! One step of a caller on the words.
ghost use Rattle.std.specs.Prelude.{◌≡◌, ◌<◌, false, set, length, slice_index};
ghost use Rattle.core_points.specs.Programs.{act_at, after};
ghost use Rattle.core_points.specs.Laws.{is_finished};
ghost use Rattle.prcu_marks.specs.Marks.{left_by, said_by, StaysWord};
ghost use Rattle.core_state.specs.Acts.{access_of};
ghost use Rattle.core_state.specs.declared.shape.Shape.{Shape};
ghost use Rattle.core_state.specs.Memory.{word_of};
ghost use Rattle.core_state.specs.Steps.{turned_gate};
ghost use Rattle.core_machine.specs.Machines.{blocked as blocked_at, stands_after};
ghost use Rattle.core_machine.specs.Stored.{own_of, HasRoom, IsAble};
ghost use Rattle.core_machine.specs.Laws.{CanStep, found_now, told_now, index_now};

use crate::acting::access_at;
use crate::caller::Caller;
use core_points::stage::Stage;
use core_state::{Field, index_of, rows_of};
use prcu_marks::{Access, Why};

/// Makes the access, and answers the number that it tells: the one found, or stored where it is a store.
fn touch(words: &mut [u64], index: usize, access: Access) -> u64
    requires in_range { index < length words.old }
    requires stays { StaysWord access (slice_index words.old index) }
    ensures tells { result ≡ said_by access (slice_index words.old index) }
    ensures leaves { words.new ≡ set words.old index (left_by access (slice_index words.old index)) }
{
    let found = words[index];
    let (left, told) = match access {
        Access::Load => (found, found),
        Access::Store { number } => (number, number),
        Access::Exchange { expected, number } => {
            if found == expected {
                (number, found)
            } else {
                (found, found)
            }
        }
        Access::Add { number } => (found + number, found),
        Access::Subtract { number } => (found - number, found),
        Access::Flip => (turned(found), found),
    };
    words[index] = left;
    told
}

/// The number with its last bit turned.
fn turned(number: u64) -> u64
    ensures { result ≡ turned_gate number }
{
    if number % 2 == 0 {
        number + 1
    } else {
        number - 1
    }
}

impl Caller {
    /// Where the search of its section stands after the step of its point told this number.
    fn stands_after(&self, number: u64) -> Option<u32>
        requires { IsAble (own_of self.now) number self.now.stage }
        ensures { result ≡ stands_after self.now.stands number self.now.stage }
    {
        match self.stage {
            Stage::EnterStamp { .. } => Some(0),
            Stage::AtLink { .. } => {
                if number == 0 {
                    self.stands
                } else {
                    Some(number as u32)
                }
            }
            Stage::Leave { .. } => None,
            _ => self.stands,
        }
    }
}

// Where the word of a field stands in the row of such a table.
fn index_at(slots: u32, places: u32, field: Field) -> usize
    ensures index { (k : Shape) → k.slots ≡ slots → k.places ≡ places → result ≡ word_of k field }
{
    index_of(&rows_of(slots, places), field)
}

// Its time doesn't grow with the number of callers or slots.
/// One step of the caller on the words: the act of its point, and the point after it. It answers where the step was blocked. It takes
/// no memory.
pub fn step_caller(words: &mut [u64], own: &mut Caller) -> Option<Why>
    requires can { CanStep words.old (own_of own.old) }
    requires room { HasRoom own.old }
    ensures words { let o = own_of own.old in words.new
        ≡ set words.old (index_now o) (left_by (access_of o.place (act_at o o.stage)) (found_now words.old o)) }
    ensures own { let o = own_of own.old in own_of own.new ≡ after o (told_now words.old o) o.stage }
    ensures room { HasRoom own.new }
    ensures stands { own.new.stands ≡ stands_after own.old.stands (told_now words.old (own_of own.old)) own.old.stage }
    ensures blocked { let o = own_of own.old in result ≡ blocked_at o (told_now words.old o) o.stage }
{
    let (field, access) = access_at(own);
    let index = index_at(own.slots, own.places, field);
    let told = touch(words, index, access);
    let why = own.blocked(told);
    let stands = own.stands_after(told);
    own.go_on(told);
    own.stands = stands;
    why
}
