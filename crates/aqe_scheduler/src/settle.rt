//! How an event with its fate changes the board.

ghost use Rattle.std.specs.Prelude.{◌≡◌, ◌^◌, map};
ghost use Rattle.aqe_scheduler.specs.Changes.{bereft, ending_of, failure_of, fetch_of, loss_of, marking, settled};
ghost use Rattle.aqe_scheduler.specs.Tables.{edited};

use crate::fate::Fate;
use crate::stage::Stage;
use aqe_base::{Event, ExecId, MapId, StageId, TaskId};

/// A mark of need.
pub fn mark(stages: &mut [Stage], stage: StageId, needed: bool)
    ensures { stages.new ≡ edited stage.0 (marking needed) stages.old }
{
    let place = stage.0 as usize;
    if place < stages.len() {
        let found = &mut stages[place];
        found.needed = needed;
    }
}

/// A counted ending: the task is counted, its output is kept, and the streak of its stage is over.
fn end(stages: &mut [Stage], stage: StageId, task: TaskId, executor: ExecId)
    ensures { stages.new ≡ edited stage.0 (ending_of task.0 executor) stages.old }
{
    let place = stage.0 as usize;
    if place < stages.len() {
        let found = &mut stages[place];
        found.streak = 0;
        found.tasks.end(task.0, executor);
    }
}

/// A counted failure.
fn fail(stages: &mut [Stage], stage: StageId, task: TaskId)
    ensures { stages.new ≡ edited stage.0 (failure_of task.0) stages.old }
{
    let place = stage.0 as usize;
    if place < stages.len() {
        let found = &mut stages[place];
        found.tasks.fail(task.0);
    }
}

/// A failed fetch that was counted against the stage.
fn fetch(stages: &mut [Stage], stage: StageId)
    ensures { stages.new ≡ edited stage.0 fetch_of stages.old }
{
    let place = stage.0 as usize;
    if place < stages.len() {
        let found = &mut stages[place];
        found.streak = found.streak.saturating_add(1);
    }
}

/// The output of a map is gone.
fn take_output(stages: &mut [Stage], stage: StageId, map: MapId)
    ensures { stages.new ≡ edited stage.0 (bereft map.0) stages.old }
{
    let place = stage.0 as usize;
    if place < stages.len() {
        let found = &mut stages[place];
        found.tasks.take_output(map.0);
    }
}

/// The outputs of an executor are gone.
fn lose(stages: &mut [Stage], executor: ExecId)
    ensures { stages.new ≡ map (loss_of executor) stages.old }
{
    for stage in stages.iter_mut() {
        stage.tasks.lose(executor);
    }
}

/// What the board knows behind an event.
pub fn settle(stages: &mut [Stage], event: Event, fate: Fate)
    ensures { stages.new ≡ settled event fate stages.old }
{
    match event {
        Event::Ended {
            stage,
            task,
            executor,
        } => {
            if matches!(fate, Fate::Counted) {
                end(stages, stage, task, executor);
            }
        }
        Event::Failed { stage, task, .. } => {
            if matches!(fate, Fate::FailCounted) {
                fail(stages, stage, task);
            }
        }
        Event::Lost { executor } => lose(stages, executor),
        Event::Fetch {
            stage,
            parent,
            map,
            ..
        } => {
            if matches!(fate, Fate::FetchCounted) {
                fetch(stages, stage);
                take_output(stages, parent, map);
            }
        }
    }
}
