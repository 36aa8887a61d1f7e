//! What the top call answers.

use class_hash::{HashSeat, HashTable};
use command_words::{Detail, Status};
use seat_table::{CitrusTable, Seat};
use waiters::{Deer, Domain, Eer};

/// What a run leaves: a dictionary, and the one seat into which those of all scripts were joined.
#[derive(Drop)]
pub enum Ran {
    /// Nothing.
    Nothing,
    /// The search tree, with the first waiter.
    Eer {
        table: CitrusTable<Eer>,
        seat: Seat<Eer>,
    },
    /// The search tree, with the second waiter.
    Domain {
        table: CitrusTable<Domain>,
        seat: Seat<Domain>,
    },
    /// The search tree, with the third waiter.
    Deer {
        table: CitrusTable<Deer>,
        seat: Seat<Deer>,
    },
    /// The hash dictionary.
    Hash {
        table: HashTable,
        seat: HashSeat,
    },
}

/// How a call of `tool` ended, what is told of it beside that, and what its run leaves.
#[derive(Drop)]
pub struct Outcome {
    pub status: Status,
    pub detail: Detail,
    pub ran: Ran,
}

impl Outcome {
    ghost use Rattle.std.specs.Prelude.{◌≡◌};

    // That of a call whose run leaves nothing.
    pub fn nothing(status: Status) -> Outcome
        ensures status { result.status ≡ status }
        ensures detail { result.detail ≡ Detail.Nothing }
        ensures ran { result.ran ≡ Ran.Nothing }
    {
        Outcome {
            status,
            detail: Detail::Nothing,
            ran: Ran::Nothing,
        }
    }
}
