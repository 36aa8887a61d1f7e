//! What is promised of the core's run, for all scripts and all orders of steps. Each function here has no body; its promise is the
//! law. Read `tolds_are_explained` first.
ghost use Rattle.core_machine.specs.Laws.{CallersCanStep, StepsAreStored, CoresAreSound, DrawsEnd, EndsAreExplained, StepsAreAllowed, ToldsAreExplained, FrontsAreGivenBack, GetsAnswer, GetsAreWaitFree, SectionsAreLeft, SectionsStandOnce, SchedulesAreOne};

/// Whatever callers step in whatever order, the invariant holds. So waits outlast their readers, and no slot is used again too early.
pub fn cores_are_sound()
    ensures { CoresAreSound }
{}

/// Each step of a caller whose script hasn't ended is an allowed step of the tree.
pub fn steps_are_allowed()
    ensures { StepsAreAllowed }
{}

/// At each moment the updates explain what the callers were told: a caller's updates are those that it was told of, and behind them the
/// one that its call has made and not told of, if any; and each other answer was true at some front.
pub fn tolds_are_explained()
    ensures { ToldsAreExplained }
{}

/// Once all scripts have ended, what was told is an account of them, and the marks fit them.
pub fn ends_are_explained()
    ensures { EndsAreExplained }
{}

/// Callers that are drawn from a number step until every script has ended.
pub fn draws_end()
    ensures { DrawsEnd }
{}

/// A caller whose script hasn't ended can step on the core's words.
pub fn callers_can_step()
    ensures { CallersCanStep }
{}

/// Such a step leaves the words, what the callers keep and the updates of the core after that step.
pub fn steps_are_stored()
    ensures { StepsAreStored }
{}

/// Whoever has the front gives it back within two steps of its own, whatever others do between; then it is even, and nobody has it.
pub fn fronts_are_given_back()
    ensures { FrontsAreGivenBack }
{}

/// An open section stood at no slot twice.
pub fn sections_stand_once()
    ensures { SectionsStandOnce }
{}

/// A section is left within 2 N + 10 steps of its caller's own, whatever others do between; N are all slots of the table.
pub fn sections_are_left()
    ensures { SectionsAreLeft }
{}

/// A get is answered within 2 N + 4 steps of its own, whatever others do between; N are all slots of the table.
pub fn gets_are_wait_free()
    ensures { GetsAreWaitFree }
{}

/// So is a get that steps alone, whatever the others hold and wherever they stand.
pub fn gets_answer()
    ensures { GetsAnswer }
{}

/// Two runs of the same scripts by the same number, with the same slots, tell the same and make the same updates.
pub fn schedules_are_one()
    ensures { SchedulesAreOne }
{}
