//! Laws of the definitions, each the contract of a function that does nothing.

ghost use Rattle.aqe_laws.specs.Laws.{OnePlan, PlanOrCheck, PlansAreClosed, PlansAreWellFormed, PlansAreBounded, ScansAreOfTheCatalog, SameIsEqual};

/// A query has at most one plan.
pub fn one_plan()
    ensures { OnePlan }
{}

/// A query has a plan exactly where no check fails.
pub fn plan_or_check()
    ensures { PlanOrCheck }
{}

/// The plan of a query is closed.
pub fn plans_are_closed()
    ensures { PlansAreClosed }
{}

/// The plan of a query is well formed.
pub fn plans_are_well_formed()
    ensures { PlansAreWellFormed }
{}

/// The plan of a query has at most 256 operators, and no node of it more than 256 columns.
pub fn plans_are_bounded()
    ensures { PlansAreBounded }
{}

/// Each scan of the plan of a query has the columns that the catalog has of the table.
pub fn scans_are_of_the_catalog()
    ensures { ScansAreOfTheCatalog }
{}

/// Two expressions count as equal, as a key of a group and an expression above it may, exactly
/// where they are the same expression.
pub fn same_is_equal()
    ensures { SameIsEqual }
{}
