//! What is promised of a handle's calls, over definitions alone. The functions have no body; the promise of each is a law.
ghost use Rattle.tree_handles.specs.Calls.{CallsMeetFronts};
ghost use Rattle.tree_handles.specs.Tidying.{TidiesMakeNoUpdate};
ghost use Rattle.tree_handles.specs.HeldValues.{HeldIsLeftFirst, TakenIsLeftFirst, OutlivesItsHolders, OutlivesItsLookups, HoldsBack, WaitsCount, PollsCount, OwnWaitsAreLater};

/// The gets, inserts, replaces and removes of a handle, and the calls of which an upsert is made, whatever others do between their steps,
/// fit the updates that its seat has seen: each update that it was told of stands in them once, in order and with its number, and every other
/// reply has a front at which the dictionary explains it.
pub fn calls_meet_fronts()
    ensures { CallsMeetFronts }
{}

/// A tidy whose handle isn't lost, whatever it answers, leaves of its place no marks but those of sections entered and left and of waits for
/// everybody: it makes no update, and no pair changes by it.
pub fn tidies_make_no_update()
    ensures { TidiesMakeNoUpdate }
{}

/// In any list of marks: an update took a value out of a key, and a wait for the key was begun after it and has ended. So each section
/// that found the value was left before the wait ended, or found it at a front by which a later update had put it back.
pub fn held_is_left_first()
    ensures { HeldIsLeftFirst }
{}

/// The same where nobody puts the value back: each section that found it was left before the wait ended.
pub fn taken_is_left_first()
    ensures { TakenIsLeftFirst }
{}

/// One caller held a value, and may have released it or not. Another took the key's value out, by a remove or a take, or replaced it, by a set
/// or a compare; and a wait for the key, of whatever seat, was begun after that and has ended. So the holder's section was left before the wait
/// ended, or found the value at a front by which that update or a later one had put it.
pub fn outlives_its_holders()
    ensures { OutlivesItsHolders }
{}

/// The same of a lookup that is over, as a hold is that was released.
pub fn outlives_its_lookups()
    ensures { OutlivesItsLookups }
{}

/// As long as a holder stands where its hold left it, no wait for its key has ended that was begun after the value was taken out, but
/// where the value had been put again when it was found.
pub fn holds_back()
    ensures { HoldsBack }
{}

/// A call that waits is a wait that was begun and has ended.
pub fn waits_count()
    ensures { WaitsCount }
{}

/// So is one that was begun by a call and found over by a later one.
pub fn polls_count()
    ensures { PollsCount }
{}

/// A wait is begun after an update where its seat has seen what the caller of the update had seen when it was told: so it is with the
/// caller's own next wait.
pub fn own_waits_are_later()
    ensures { OwnWaitsAreLater }
{}
