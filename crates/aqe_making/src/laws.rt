//! Laws of making, each the contract of a function that does nothing.

ghost use Rattle.aqe_making.specs.Laws.{AtMostOneIsNext, BodiesFit, ColumnsStay, MadeOneByOne, MakingsAreReady, MakingsStandInThePlan, NextIsMade, NotReadyAfter, PartsStillFit, QueriesMadeOneByOne, ReadyHasNoOther, StagesAreMade};

/// The next stage of a query, and both its plans after it, are determined.
pub fn at_most_one_is_next()
    ensures { AtMostOneIsNext }
{}

/// The next stage is made of an exchange of the plan, or of a sample of one, and the plan after it reads that stage.
pub fn next_is_made()
    ensures { NextIsMade }
{}

/// Each stage that can be made is that of an exchange which stands at its place.
pub fn makings_stand_in_the_plan()
    ensures { MakingsStandInThePlan }
{}

/// The body of each stage that can be made holds no exchange and reads whole stages alone.
pub fn makings_are_ready()
    ensures { MakingsAreReady }
{}

/// Where an exchange stands at a place, its stage is made of the plan, whether or not it is ready.
pub fn stages_are_made()
    ensures { StagesAreMade }
{}

/// Stages that are made one by one are those that could be made at once, in that order.
pub fn made_one_by_one()
    ensures { MadeOneByOne }
{}

/// The same for the plan of a query, whose result stage is made of the whole.
pub fn queries_made_one_by_one()
    ensures { QueriesMadeOneByOne }
{}

/// Where the result can be made, nothing else can.
pub fn ready_has_no_other()
    ensures { ReadyHasNoOther }
{}

/// A plan of which a stage was just made is not ready.
pub fn not_ready_after()
    ensures { NotReadyAfter }
{}

/// The numbers of parts still fit in 32 bits after a stage was made.
pub fn parts_still_fit()
    ensures { PartsStillFit }
{}

/// The numbers of parts of a body fit in 32 bits where those of the plan do.
pub fn bodies_fit()
    ensures { BodiesFit }
{}

/// The logical plan after a stage was made has the columns of the plan before.
pub fn columns_stay()
    ensures { ColumnsStay }
{}
