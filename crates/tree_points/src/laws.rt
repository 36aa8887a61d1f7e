//! What is promised of the points over the table. Each function here has no body; its promise is the law.
ghost use Rattle.tree_points.specs.Points.{CallsEnd, StepsAreAsked, StepsPass};

/// At each point whose step is none of the waiter's, what the table asks for the step is given.
pub fn steps_are_asked()
    ensures { StepsAreAsked }
{}

/// After such a step the call stands at the next point.
pub fn steps_pass()
    ensures { StepsPass }
{}

/// A call that has answered is quiet, and has left its other tickets alone.
pub fn calls_end()
    ensures { CallsEnd }
{}
