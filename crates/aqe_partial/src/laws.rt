//! Laws of the definitions, each the contract of a function that does nothing.

ghost use Rattle.aqe_partial.specs.PartialRows.{FinishingPartsIsGrouping, HeldPartialAnswersAsTheAggregate};

/// Finishing the partial rows of the parts gives the groups of all rows, in the same order.
pub fn finishing_parts_is_grouping()
    ensures { FinishingPartsIsGrouping }
{}

/// Where a stage holds the partial rows of the parts of an answer of `child`, what answers
/// `HeldPartial` answers the aggregate over `child`.
pub fn held_partial_answers_as_the_aggregate()
    ensures { HeldPartialAnswersAsTheAggregate }
{}
