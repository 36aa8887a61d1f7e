//! What is promised of calls in a row. The function has no body; its promise is the law.
ghost use Rattle.tree_lift.specs.Lifts.{ChainsMeetFronts};

/// The calls of a client, whatever others do between their steps, fit the updates that it has seen: each update that it was told
/// of stands in them once, in order and with its number, and every other reply has a front at which the dictionary explains it.
pub fn chains_meet_fronts()
    ensures { ChainsMeetFronts }
{}
