//! What is promised of the points of the calls. Each function here has no body; its promise is the law. Read `needs_are_given` and
//! `next_fits` first.
ghost use Rattle.core_points.specs.Laws.{AnswersAreSaid, RuleTells, NeedsAreGiven, NextFits, ActsAreWithin, TrailsAreFree, CallsBegin, NewViewsAreFree, PointsKeep};

/// At each point of each call, a view that fits the point has what its act needs.
pub fn needs_are_given()
    ensures { NeedsAreGiven }
{}

/// After the act of a point, whatever number it found, the view fits the next point.
pub fn next_fits()
    ensures { NextFits }
{}

/// The word of the act is one of the table's.
pub fn acts_are_within()
    ensures { ActsAreWithin }
{}

/// What the invariant tells a view of itself, which the two laws above need.
pub fn rule_tells()
    ensures { RuleTells }
{}

/// At each point that fixes an answer the history explains it.
pub fn answers_are_said()
    ensures { AnswersAreSaid }
{}

/// What a step notes in the trail changes nothing of this.
pub fn trails_are_free()
    ensures { TrailsAreFree }
{}

/// A caller between two calls fits the first point of its next one.
pub fn calls_begin()
    ensures { CallsBegin }
{}

/// A new view is between two calls.
pub fn new_views_are_free()
    ensures { NewViewsAreFree }
{}

/// So whoever makes the act of its point keeps the invariant, and fits the next point.
pub fn points_keep()
    ensures { PointsKeep }
{}
