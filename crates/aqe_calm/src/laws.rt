//! Laws of the definitions, each the contract of a function that does nothing.

ghost use Rattle.aqe_calm.specs.Laws.{NextTasksAreServed, RestRunsAreCalm, RestRunsEndDone, ResultsHoldTheRows, TasksAreLeft, WholeStagesTurn};

/// Each state that a run comes to in which nothing but the rest ends tasks is calm: its plan and its stages are of the forms that tasks
/// carry out, each stage that is whole was never less, and nothing failed.
pub fn rest_runs_are_calm()
    ensures { RestRunsAreCalm }
{}

/// The position behind the ending of the next task is a turning point exactly where the stage of the task is whole then.
pub fn whole_stages_turn()
    ensures { WholeStagesTurn }
{}

/// Such a run ends in no other way than done, where the settings lie in their ranges.
pub fn rest_runs_end_done()
    ensures { RestRunsEndDone }
{}

/// The next task is served where the output of each task that was counted is kept: this is the condition of `run_task`.
pub fn next_tasks_are_served()
    ensures { NextTasksAreServed }
{}

/// Before the query is done some task may end next.
pub fn tasks_are_left()
    ensures { TasksAreLeft }
{}

/// The rows of the query are those that a result stage holds, map by map.
pub fn results_hold_the_rows()
    ensures { ResultsHoldTheRows }
{}
