//! Laws of the definitions, each the contract of a function that does nothing.

ghost use Rattle.aqe_coalesce.specs.Laws.{OneListOfGroups, SomeListOfGroups};

/// Partitions are coalesced to a target in one way at most.
pub fn one_list_of_groups()
    ensures { OneListOfGroups }
{}

/// Partitions are coalesced to a target in some way.
pub fn some_list_of_groups()
    ensures { SomeListOfGroups }
{}
