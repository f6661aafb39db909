//! The law, as the contract of a function that does nothing.

ghost use Rattle.aqe_planned.specs.Laws.{QueriesArePlanned};

/// The plan of each query that is analysed has only the forms that are planned.
pub fn queries_are_planned()
    ensures { QueriesArePlanned }
{}
