//! Laws of the definitions, each the contract of a function that does nothing.

ghost use Rattle.aqe_course.specs.Laws.{DoneIsNotRefused, EachRunEnds, EndsTell, QueriesHaveTheSettingsInForce, RefusalsAreOfTheCourse, RunsAnswerTheSame, RunsHaveOneRefusal, RunsKeepRanges, RunsNumberTheirQueries, RunsKeepShapes};

/// A run is refused with one status at most, behind the same queries.
pub fn runs_have_one_refusal()
    ensures { RunsHaveOneRefusal }
{}

/// A run that is carried out is not refused.
pub fn runs_end_in_one_way()
    ensures { DoneIsNotRefused }
{}

/// A run that is carried out answers the same queries, however it is taken.
pub fn runs_answer_the_same()
    ensures { RunsAnswerTheSame }
{}

/// The queries of a run are numbered from 0, in the order of the script.
pub fn runs_number_their_queries()
    ensures { RunsNumberTheirQueries }
{}

/// What a run has loaded has the shape of its schema.
pub fn runs_keep_shapes()
    ensures { RunsKeepShapes }
{}

/// The settings of a query are those in force.
pub fn queries_have_the_settings_in_force()
    ensures { QueriesHaveTheSettingsInForce }
{}

/// The settings of a run and of each of its queries lie in their ranges.
pub fn runs_keep_ranges()
    ensures { RunsKeepRanges }
{}

/// A run is carried out or refused, and none is neither.
pub fn each_run_ends()
    ensures { EachRunEnds }
{}

/// The refusals of the course are told by their status.
pub fn refusals_are_of_the_course()
    ensures { RefusalsAreOfTheCourse }
{}

/// What the end of a run tells of its course.
pub fn ends_tell()
    ensures { EndsTell }
{}
