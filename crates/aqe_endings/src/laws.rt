//! Laws of the definitions, each the contract of a function that does nothing.

ghost use Rattle.aqe_endings.specs.Laws.{MarksMayRepeat, NextEndingsCount, WholeStagesStay};

/// The ending of the task that may end next counts.
pub fn next_endings_count()
    ensures { NextEndingsCount }
{}

/// Each stage that was whole is whole behind the ending of the task that may end next.
pub fn whole_stages_stay()
    ensures { WholeStagesStay }
{}

/// A board that stands for a history stands for it also where a stage is marked again as it is marked already, so marks that did not
/// change need not be told to it.
pub fn marks_may_repeat()
    ensures { MarksMayRepeat }
{}
