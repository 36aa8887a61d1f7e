//! How words stand, what the rule gives, and that each kind of step keeps it. Each is a function without a body whose promise is the law.
ghost use Rattle.hash_core.specs.Memory.{NoPlaceIsShared, FieldsAreWithin, LinesAreOwn};
ghost use Rattle.hash_core.specs.Laws.{ChainsAreMap, SlotsHaveOneRole, ReadersAreCounted, FrontCounts, SearchesAreAnswered, SearchesStand, MarksAreInOrder, SlotsAreReused, ActsKeep, SplitsKeep, JoinsKeep, FreshHolds, RunsHold};

/// Each field has a place of its own in the table's row, and the words of a class share no line of memory with those of another class or
/// the front, wherever the row begins.
pub fn words_stand_apart()
    ensures places { NoPlaceIsShared }
    ensures within { FieldsAreWithin }
    ensures lines { LinesAreOwn }
{}

/// The chains hold just the pairs of the dictionary now, in distinct slots with distinct keys.
pub fn chains_are_map()
    ensures { ChainsAreMap }
{}

/// Each slot is in one role: linked, free, retired, or in hand of the lock's holder.
pub fn slots_have_one_role()
    ensures { SlotsHaveOneRole }
{}

/// The readers word of a class counts its open sections.
pub fn readers_are_counted()
    ensures { ReadersAreCounted }
{}

/// The front counts the updates.
pub fn front_counts()
    ensures { FrontCounts }
{}

/// What each open search will answer the dictionary said since it was entered.
pub fn searches_are_answered()
    ensures { SearchesAreAnswered }
{}

/// The slot at which an open search stands is linked, or was unlinked since it was entered.
pub fn searches_stand()
    ensures { SearchesStand }
{}

/// Sections are entered and left in order, and there are no marks of waits.
pub fn marks_are_in_order()
    ensures { MarksAreInOrder }
{}

/// A slot is given only when no section of its class is open that was entered before its last unlinking.
pub fn slots_are_reused()
    ensures { SlotsAreReused }
{}

/// A table as it is made has the rule.
pub fn fresh_holds()
    ensures { FreshHolds }
{}

/// An act whose needs are met keeps the rule, whatever it finds, and leaves an unlinked slot its key, value and next until it is given.
pub fn acts_keep()
    ensures { ActsKeep }
{}

/// A split of a seat keeps the rule.
pub fn splits_keep()
    ensures { SplitsKeep }
{}

/// A join of two seats keeps the rule.
pub fn joins_keep()
    ensures { JoinsKeep }
{}

/// Whatever steps, splits and joins are made from a table as it is made, the rule holds.
pub fn runs_hold()
    ensures { RunsHold }
{}
