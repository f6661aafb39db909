//! What the board says of stages and tasks. Of what is not born it says what holds before anything happens.

ghost use Rattle.std.specs.Prelude.{◌≡◌, is_some};
ghost use Rattle.aqe_scheduler.specs.Looks.{shuffles, task_count};
ghost use Rattle.aqe_scheduler.specs.Tables.{births_on, done_on, needed_on, streak_on, task_on};

use crate::need::StageKindTag;
use crate::stage::Stage;

/// Whether the stage is needed.
pub fn is_needed(stages: &[Stage], stage: usize) -> bool
    ensures { result ≡ needed_on stages.now stage }
{
    match stages.get(stage) {
        Some(found) => found.needed,
        None => false,
    }
}

/// Whether the stage is born and a shuffle.
pub fn is_shuffle(stages: &[Stage], stage: usize) -> bool
    ensures { result ≡ shuffles (births_on stages.now) stage }
{
    match stages.get(stage) {
        Some(found) => matches!(found.kind, StageKindTag::Shuffle),
        None => false,
    }
}

/// Whether the task is done.
pub fn is_done(stages: &[Stage], stage: usize, task: usize) -> bool
    ensures { result ≡ done_on stages.now stage task }
{
    let Some(found) = stages.get(stage) else {
        return false;
    };
    let Some(kept) = found.tasks.get(task) else {
        return false;
    };
    match found.kind {
        StageKindTag::Shuffle => kept.on.is_some(),
        _ => kept.counted,
    }
}

/// The failures that were counted against the task, up to the greatest number of 64 bits.
pub fn failures(stages: &[Stage], stage: usize, task: usize) -> u64
    ensures { result ≡ (task_on stages.now stage task).fails }
{
    let Some(found) = stages.get(stage) else {
        return 0;
    };
    match found.tasks.get(task) {
        Some(kept) => kept.fails,
        None => 0,
    }
}

/// The streak of the stage, up to the greatest number of 64 bits.
pub fn streak(stages: &[Stage], stage: usize) -> u64
    ensures { result ≡ streak_on stages.now stage }
{
    match stages.get(stage) {
        Some(found) => found.streak,
        None => 0,
    }
}

/// The number of tasks of the stage; 0 if it is not born.
pub fn count_of(stages: &[Stage], stage: usize) -> usize
    ensures { result ≡ task_count (births_on stages.now) stage }
{
    match stages.get(stage) {
        Some(found) => found.reads.len(),
        None => 0,
    }
}

/// Whether the output of the task is there.
pub fn is_available(stages: &[Stage], stage: usize, task: usize) -> bool
    ensures { result ≡ is_some (task_on stages.now stage task).on }
{
    let Some(found) = stages.get(stage) else {
        return false;
    };
    match found.tasks.get(task) {
        Some(kept) => kept.on.is_some(),
        None => false,
    }
}
