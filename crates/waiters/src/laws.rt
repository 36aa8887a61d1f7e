//! How many gates a wait turns. Each function here has no body; its promise is the law.
ghost use Rattle.waiters.specs.Classes.{EndTurnsRest, WaitTurnsEach};

/// With the poll that ends it, a wait has turned one gate for each class of its keys.
pub fn end_turns_rest()
    ensures { EndTurnsRest }
{}

/// A whole wait turns one gate for each class of its keys.
pub fn wait_turns_each()
    ensures { WaitTurnsEach }
{}
