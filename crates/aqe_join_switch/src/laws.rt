//! Laws of the definitions, each the contract of a function that does nothing.

ghost use Rattle.aqe_join_switch.specs.Laws.{ChosenSidesMayBeBuilt, UnknownSidesAreMerged};

/// A side that is chosen may be built by the kind of join.
pub fn chosen_sides_may_be_built()
    ensures { ChosenSidesMayBeBuilt }
{}

/// Where nothing is known of either side, they are sorted and merged.
pub fn unknown_sides_are_merged()
    ensures { UnknownSidesAreMerged }
{}
