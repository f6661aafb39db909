//! Laws of the definitions, each the contract of a function that does nothing.

ghost use Rattle.aqe_fitting.specs.Laws.{OnePlanFits, PlannedAtOnePlace, PlannedByMoreWays, PlannedWithSidesThatMayBeBuilt, PlansWithoutReadsFit};

/// A plan that the table of planning gives under a choice of ways is given under every choice that lets these ways be chosen too.
pub fn planned_by_more_ways()
    ensures { PlannedByMoreWays }
{}

/// A plan whose ways the sizes of sides chose builds only sides that the kinds of its joins let build.
pub fn planned_with_sides_that_may_be_built()
    ensures { PlannedWithSidesThatMayBeBuilt }
{}

/// The rows of all plans that the table of planning gives of a logical plan stand at one place.
pub fn planned_at_one_place()
    ensures { PlannedAtOnePlace }
{}

/// Of a plan that reads no stage only the table of planning decides whether it fits: its reads do, whatever is known of stages.
pub fn plans_without_reads_fit()
    ensures { PlansWithoutReadsFit }
{}

/// At most one plan fits a logical plan, under any estimates, sizes and settings.
pub fn one_plan_fits()
    ensures { OnePlanFits }
{}
