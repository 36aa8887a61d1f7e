//! The laws of a table whose pairs moved, over its marks.
ghost use Rattle.moved_laws.specs.Moved.{LastIsKnown, KnownIsOne, EnteredBeforeIsLeft, AnswersAreJoined};

/// Who knows that the pairs moved knows all updates of the table, whatever comes afterwards.
pub fn last_is_known()
    ensures { LastIsKnown }
{}

/// So any two who know it know the same ones.
pub fn known_is_one()
    ensures { KnownIsOne }
{}

/// A section of whose seat a look found, in the section, that the pairs hadn't moved was left before a wait for its key ended that began behind
/// the move.
pub fn entered_before_is_left()
    ensures { EnteredBeforeIsLeft }
{}

/// What the table said, it said in the history that goes on elsewhere.
pub fn answers_are_joined()
    ensures { AnswersAreJoined }
{}
