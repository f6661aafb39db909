//! When a query is done, and how it ends.

ghost use Rattle.std.specs.Prelude.{◌≡◌, List, OnOk};
ghost use Rattle.aqe_estimates.specs.LoadedTables.{tables_of};
ghost use Rattle.aqe_scheduler.specs.Fates.{noted};
ghost use Rattle.aqe_scheduler.specs.History.{Entry};
ghost use Rattle.aqe_scheduler.specs.Stands.{StandsFor};
ghost use Rattle.aqe_session.specs.Query as spec;
ghost use Rattle.aqe_session.specs.Query.{Ends, Goes, HasRunAll, IsDone, IsOpen};

use aqe_base::{Memory, StageId, TaskId};
use aqe_steps::{Run, end, note_whole, turn};
use aqe_tables::Tables;
use aqe_task::Runner;
use std::alloc::Global;

/// What becomes of the tasks that no event ends.
#[derive(Clone, Copy, Debug, PartialEq, Eq, Drop)]
pub enum Rest {
    /// The program ends them itself, one after the other.
    Run,
    /// They are not ended.
    Stop,
}

/// How a query ended.
#[derive(Clone, Copy, Debug, PartialEq, Eq, Drop)]
pub enum QueryEnd {
    /// Its result is whole.
    Done,
    /// A task failed as often as a task may.
    Aborted { stage: StageId, task: TaskId },
    /// A stage's tasks could not read their inputs as often in a row as a stage may meet that.
    StageAborted { stage: StageId },
    /// Its events were over, and the task that would have ended next was not to be ended.
    Unfinished { stage: StageId, task: TaskId },
    /// Memory was wanted.
    Memory,
}

/// Whether the result is whole.
pub fn is_done(run: &Run) -> bool
    ensures { (h : List Entry) → StandsFor run.now.board h → result ≡ spec.is_whole_in (noted h) run.now.result }
{
    match run.result {
        Some(stage) => run.board.is_whole(stage),
        None => false,
    }
}

/// Ends a task, and does what is done at the position behind it.
fn end_task<R: Runner>(
    alloc: Global,
    run: &mut Run,
    tables: &Tables,
    runner: &mut R,
    stage: StageId,
    task: TaskId,
) -> Result<(), Memory>
    requires { spec.IsNext (tables_of tables.now) run.old stage task }
    ensures ends { OnOk result (Ends (tables_of tables.now) run.old run.new stage task) }
    ensures ran { OnOk result (HasRunAll (R.ran runner.old) run.old.runs (R.ran runner.new) run.new.runs) }
{
    end(alloc, run, tables, runner, stage, task)?;
    let is_turning = note_whole(run, stage)?;
    turn(alloc, run, is_turning)
}

/// Ends the task that may end next.
fn end_next<R: Runner>(
    alloc: Global,
    run: &mut Run,
    tables: &Tables,
    runner: &mut R,
) -> Result<(), Memory>
    requires { IsOpen (tables_of tables.now) run.old }
    ensures goes { OnOk result (Goes (tables_of tables.now) run.old run.new) }
    ensures ran { OnOk result (HasRunAll (R.ran runner.old) run.old.runs (R.ran runner.new) run.new.runs) }
{
    match run.board.next_rest() {
        Some((stage, task)) => end_task(alloc, run, tables, runner, stage, task),
        None => unreachable!(),
    }
}

/// Ends one task after the other until the result is whole.
pub fn run_to_end<R: Runner>(
    alloc: Global,
    run: &mut Run,
    tables: &Tables,
    runner: &mut R,
) -> Result<(), Memory>
    requires { spec.IsRunning (tables_of tables.now) run.old }
    ensures done { OnOk result (IsDone (tables_of tables.now) run.old run.new) }
    ensures ran { OnOk result (HasRunAll (R.ran runner.old) run.old.runs (R.ran runner.new) run.new.runs) }
{
    'tasks: for _ in 0..u64::MAX {
        if is_done(run) {
            return Ok(());
        }
        end_next(alloc, run, tables, runner)?;
    }
    Err(Memory)
}
