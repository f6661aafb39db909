//! Laws of the definitions, each the contract of a function that does nothing.

ghost use Rattle.aqe_skew.specs.Laws.{OneListOfPairs};

/// The pairs of two sides are determined by their sizes.
pub fn one_list_of_pairs()
    ensures { OneListOfPairs }
{}
