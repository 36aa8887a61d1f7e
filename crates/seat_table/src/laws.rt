//! What a table is made of. The function has no body; its promise is the law.
ghost use Rattle.seat_table.specs.Seats.{FirstWordsHold};

/// The words with which a table is made (`words_of`) are those of a fresh one: the root and a spare for each place are taken, all other
/// slots are free, stamps are idle, and every other word is 0. With the first seat they have the rule of the table.
pub fn first_words_hold()
    ensures { FirstWordsHold }
{}
