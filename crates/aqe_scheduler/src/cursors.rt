//! For each stage a number of tasks at its front that are all done, so that no look has to begin at the first task.

ghost use Rattle.std.specs.Prelude.{◌≡◌, List, slice_index};
ghost use Rattle.aqe_scheduler.specs.Changes.{settled};
ghost use Rattle.aqe_scheduler.specs.Cursors.{AllDone, AreDone, GoesBack};
ghost use Rattle.aqe_scheduler.specs.Tables.{whole_on};
ghost use Rattle.aqe_scheduler.specs.declared.stage.Stage.{Stage as StageData};

use crate::fate::Fate;
use crate::looks::{count_of, is_done};
use crate::stage::Stage;
use aqe_base::Event;

/// The number of a stage; 0 where none is kept.
pub fn first_of(firsts: &[usize], stage: usize) -> usize
    ensures { result ≡ slice_index firsts.now stage }
{
    match firsts.get(stage) {
        Some(first) => *first,
        None => 0,
    }
}

/// The first task of the stage from `from` on that is not done.
fn first_open(stages: &[Stage], stage: usize, from: usize) -> usize
    ensures { AllDone stages.now stage from → AllDone stages.now stage result }
{
    let count = count_of(stages, stage);
    for task in from..count {
        if !is_done(stages, stage, task) {
            return task;
        }
    }
    from.max(count)
}

/// Whether the stage is born and all its tasks are done.
pub fn is_whole(stages: &[Stage], firsts: &[usize], stage: usize) -> bool
    requires { AreDone stages.now firsts.now }
    ensures { result ≡ whole_on stages.now stage }
{
    for task in first_of(firsts, stage)..count_of(stages, stage) {
        if !is_done(stages, stage, task) {
            return false;
        }
    }
    stage < stages.len()
}

/// Moves the number of a stage on to its first task that is not done.
fn advance(stages: &[Stage], firsts: &mut [usize], stage: usize)
    ensures { AreDone stages.now firsts.old → AreDone stages.now firsts.new }
{
    if stage < firsts.len() {
        firsts[stage] = first_open(stages, stage, firsts[stage]);
    }
}

/// Finds the number of each stage anew.
fn restart(stages: &[Stage], firsts: &mut [usize])
    ensures { AreDone stages.now firsts.new }
{
    for stage in 0..firsts.len() {
        firsts[stage] = first_open(stages, stage, 0);
    }
}

/// Moves the number of a stage back to a task that is no longer done.
fn go_back(firsts: &mut [usize], stage: usize, task: usize)
    ensures { GoesBack firsts.old stage task firsts.new }
{
    if stage < firsts.len() {
        firsts[stage] = firsts[stage].min(task);
    }
}

/// The numbers behind an event, over the stages as they are then.
pub fn follow(stages: &[Stage], firsts: &mut [usize], event: Event, fate: Fate)
    ensures { (before : List StageData) → stages.now ≡ settled event fate before → AreDone before firsts.old → AreDone stages.now firsts.new }
{
    match event {
        Event::Ended { stage, .. } => advance(stages, firsts, stage.0 as usize),
        Event::Failed { .. } => {}
        Event::Lost { .. } => restart(stages, firsts),
        Event::Fetch { parent, map, .. } => {
            if matches!(fate, Fate::FetchCounted) {
                go_back(firsts, parent.0 as usize, map.0 as usize);
            }
        }
    }
}
