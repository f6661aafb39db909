//! One task ends.

ghost use Rattle.std.specs.Prelude.{◌≡◌, ◌<◌, length, Some, slice_get, IfOk, OnOk};
ghost use Rattle.aqe_scheduler.specs.Tables.{edited};
ghost use Rattle.aqe_estimates.specs.LoadedTables.{tables_of};
ghost use Rattle.aqe_task.specs.Tasks.{HasRun};
ghost use Rattle.aqe_steps.specs.Endings.{CanEnd, EndsTask, NotesWhole, done_at};

use crate::run::Run;
use aqe_base::{Event, ExecId, MapId, Memory, StageId, TaskId};
use aqe_journal::{RunNote, StageNote};
use aqe_tables::Tables;
use aqe_task::Runner;
use std::alloc::Global;

/// The executor of the tasks that the program ends by itself.
const REST: ExecId = ExecId(10_000);

/// The note of a stage.
fn note_at(stages: &[StageNote], stage: StageId) -> &StageNote
    requires { stage.0 < length stages.now }
    ensures { slice_get stages.now stage.0 ≡ Some result.now }
{
    &stages[stage.0 as usize]
}

/// Runs a task, keeps its output, and tells the board that it ended.
pub fn end<R: Runner>(
    alloc: Global,
    run: &mut Run,
    tables: &Tables,
    runner: &mut R,
    stage: StageId,
    task: TaskId,
) -> Result<(), Memory>
    requires { CanEnd (tables_of tables.now) run.old stage task.0 }
    ensures ended { OnOk result (EndsTask (tables_of tables.now) run.old run.new stage task) }
    ensures ran { OnOk result (HasRun (R.ran runner.old) (R.ran runner.new) stage task.0) }
{
    let note = note_at(&run.stages, stage);
    let output = runner.run(
        alloc,
        stage,
        &note.body,
        &note.kind,
        task.0,
        tables,
        &run.outputs,
    )?;
    run.outputs.keep(stage, MapId(task.0), output)?;
    let fate = run.board.take(Event::Ended {
        stage,
        task,
        executor: REST,
    });
    run.fates.push(fate)?;
    let position = run.fates.len() as u64;
    run.runs.push(RunNote {
        position,
        stage,
        task,
    })
}

/// Notes of a stage at which position it was whole first.
fn note_done(stages: &mut [StageNote], stage: StageId, position: u64)
    requires { stage.0 < length stages.old }
    ensures { stages.new ≡ edited stage.0 (done_at position) stages.old }
{
    let note = &mut stages[stage.0 as usize];
    note.done = Some(position);
}

/// Notes of the stage of a task that ended whether it is whole now, and answers that.
pub fn note_whole(run: &mut Run, stage: StageId) -> Result<bool, Memory>
    requires { stage.0 < length run.old.stages.items }
    ensures { IfOk result (NotesWhole run.old run.new stage) }
{
    if !run.board.is_whole(stage) {
        return Ok(false);
    }
    run.whole.push(stage)?;
    note_done(&mut run.stages, stage, run.fates.len() as u64);
    Ok(true)
}
