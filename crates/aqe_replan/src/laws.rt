//! What follows of the stages that can be made, each law the contract of a function that does nothing.

ghost use Rattle.aqe_replan.specs.Laws.{FirstPlansHaveFewParts, OthersStayReady, ReadyCanBeMade, StagesAreMadeOfThePlan};

/// Each stage that is ready can be made.
pub fn ready_can_be_made()
    ensures { ReadyCanBeMade }
{}

/// A stage that is no result is made of the plan, and the plan after it reads that stage: each part of the plan stays.
pub fn stages_are_made_of_the_plan()
    ensures { StagesAreMadeOfThePlan }
{}

/// Once the first stage that is ready was made, those behind it are ready, in their order.
pub fn others_stay_ready()
    ensures { OthersStayReady }
{}

/// The parts of the first plan of a query can be numbered in 32 bits, if those that its leaves bring can: for each as many as no table
/// has more files, and no exchange more parts.
pub fn first_plans_have_few_parts()
    ensures { FirstPlansHaveFewParts }
{}
