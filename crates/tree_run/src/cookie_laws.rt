//! What is promised of calls in a row. The function has no body; its promise is the law.
ghost use Rattle.tree_run.specs.Clients.{ChainsMeetFronts};

/// The calls of a client, whatever others do between their steps, fit the updates that it has seen, as those of a client without cookies
/// do.
pub fn chains_meet_fronts()
    ensures { ChainsMeetFronts }
{}
