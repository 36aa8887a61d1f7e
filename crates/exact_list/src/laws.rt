//! What a listing's facts and gaps come to. Each is a function without a body whose promise is the law.
ghost use Rattle.exact_list.specs.Pairs.{CoversAreExact, PairsAreOne};

/// Pairs that cover a range, by what a listing found, are exactly the map's there, where that is so of the map.
pub fn covers_are_exact()
    ensures { CoversAreExact }
{}

/// A map has one list of its pairs in a range.
pub fn pairs_are_one()
    ensures { PairsAreOne }
{}
