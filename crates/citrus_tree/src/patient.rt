//! The calls, for callers with a patience of their own. Where it ends, so does the call, and the seat may hold locks or stand in a section.
//! Where it would rather be called again than wait, and the call holds nothing, or one lock that it can give back, the call answers busy:
//! it made no update, and the seat is quiet.
ghost use Rattle.std.specs.Prelude.{◌≡◌, ◌≤◌, IfOk, IfErr};
ghost use Rattle.seat_table.specs.Gains.{IsInformed};
ghost use Rattle.seat_table.specs.Sections.{HasMade};
ghost use Rattle.seat_table.specs.Seats.{IsQuietSeat, shape_of};
ghost use Rattle.citrus_tree.specs.Deletes.{Begins};
ghost use Rattle.citrus_tree.specs.Replies.{GaveWay, IsTold};
ghost use Rattle.citrus_tree.specs.Going.{KeepsSeat};

use crate::answer::Called;
pub use crate::comparing::compare;
pub use crate::delete::{Removed, del, remove, remove_by_bypass};
pub use crate::insert::{put, put_reusing};
use crate::lookup::get;
pub use crate::replace::set;
use patience::Patience;
use prcu_marks::Gate;
use prcu_model::Op;
use seat_table::{CitrusTable, Seat, WaitPart};

/// Makes the operation by its own call: `put`, `get`, `del` or `set`. There it is said what it waits for. The depth is `put`'s, and 0
/// of the others. A get is never busy.
// A call would hand the operation and its answer through memory.
#[inline(always)]
pub fn call<P: Patience, W: WaitPart, G: Gate>(
    patience: &P,
    table: &CitrusTable<W>,
    seat: &mut Seat<W>,
    gate: &G,
    op: Op,
) -> Result<Result<Called, P::Busy>, P::Tired>
    requires table { seat.old.table ≡ table.now }
    requires quiet { IsQuietSeat seat.old }
    requires tickets { 4 ≤ seat.old.view.allowance.tickets }
    ensures table { seat.new.table ≡ seat.old.table }
    ensures told { IfOk result (λ answer. IfOk answer
        (λ called. IsTold (shape_of W.WAY table.now) seat.old.view op called.told seat.new.view)) }
    ensures busy { IfOk result (λ answer. IfErr answer (λ _. GaveWay (shape_of W.WAY table.now) seat.old.view op seat.new.view)) }
    ensures begins { IfOk result (λ _. Begins (shape_of W.WAY table.now) seat.old.view op seat.new.view) }
    ensures keeps { IfOk result (λ _. KeepsSeat 4 seat.old seat.new) }
    ensures informed { IfOk result (λ answer. IfOk answer (λ _. IsInformed seat.new.view)) }
    ensures tired { IfErr result (λ _. HasMade (P.least patience.now) seat.new.view) }
{
    match op {
        Op::Put { key, value } => put(patience, table, seat, gate, key, value),
        Op::Get { key } => {
            Ok(Ok(Called {
                told: get(table, seat, gate, key),
                depth: 0,
            }))
        }
        Op::Del { key } => match del(patience, table, seat, gate, key)? {
            Ok(told) => Ok(Ok(Called { told, depth: 0 })),
            Err(busy) => Ok(Err(busy)),
        },
        Op::Set { key, value } => match set(patience, table, seat, gate, key, value)? {
            Ok(told) => Ok(Ok(Called { told, depth: 0 })),
            Err(busy) => Ok(Err(busy)),
        },
    }
}
