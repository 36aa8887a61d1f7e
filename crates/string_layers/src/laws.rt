//! The laws of strings in layers over one index. Each function here has no body; its promise is the law.
ghost use Rattle.string_layers.specs.Example.{NeedsCanBeMet};
ghost use Rattle.string_layers.specs.Laws.{FrontsAreTries, UpdatesChangeOne, WaysEndWithWhatWasSaid, AllAreTold, LeavesAreSaid, WhatIsFoundWasInPlace, NoSectionHasIt, NoSectionComesToIt, NumbersKeepTheirPrefix, NewLayersAreTheirMakers};

/// At each moment the pairs are a trie: each string has one place, and what is told where its way ends is the leaf's value, if one is in
/// place. Each layer in place has exactly one pair that leads to it, and one that was taken out has no pair.
pub fn fronts_are_tries()
    ensures { FrontsAreTries }
{}

/// Each update changes the map at one string or nowhere, and tells what the map had of it just before.
pub fn updates_change_one()
    ensures { UpdatesChangeOne }
{}

/// A lookup reads at later and later moments, within one section. What it ends with the map said of its string at some moment since the section
/// was entered.
pub fn ways_end_with_what_was_said()
    ensures { WaysEndWithWhatWasSaid }
{}

/// So it is of a section that goes through many strings: what its read of a string's pair ends with, the map said of it at some such moment. One
/// that is there all the time is so told, and one that isn't there at any time isn't.
pub fn all_are_told()
    ensures { AllAreTold }
{}

/// Whoever reads a leaf, also on a way through many strings, reads what the map says of its string at that moment.
pub fn leaves_are_said()
    ensures { LeavesAreSaid }
{}

/// What a section found was in place at a moment since it was entered, and the section is among those that a wait for its string is for.
pub fn what_is_found_was_in_place()
    ensures { WhatIsFoundWasInPlace }
{}

/// What left the index is on no way that begins later: behind a wait for the key of its string's sections, and for those of all, no section has
/// it.
pub fn no_section_has_it()
    ensures { NoSectionHasIt }
{}

/// So the number of a layer that was taken out may be given to another one then: no section comes to a layer by it.
pub fn no_section_comes_to_it()
    ensures { NoSectionComesToIt }
{}

/// A number keeps its prefix until it is given back.
pub fn numbers_keep_their_prefix()
    ensures { NumbersKeepTheirPrefix }
{}

/// Who makes a layer finds just those pairs in it that he put there, until it comes into place.
pub fn new_layers_are_their_makers()
    ensures { NewLayersAreTheirMakers }
{}

/// There is a history in which each kind of event comes.
pub fn needs_can_be_met()
    ensures { NeedsCanBeMet }
{}
