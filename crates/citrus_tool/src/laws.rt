//! What is promised of all that is written.
ghost use Rattle.citrus_tool.specs.Answers.{DrawnTextsAreOne};

/// The input, the slots and the number of a schedule determine what `run` writes.
pub fn drawn_texts_are_one()
    ensures { DrawnTextsAreOne }
{}
