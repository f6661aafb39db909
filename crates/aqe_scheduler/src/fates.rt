//! The fate of an event, by what the board says before it.

ghost use Rattle.std.specs.Prelude.{◌≡◌, ◌<◌, ◌≤◌, ℕ, option_copied};
ghost use Rattle.std.specs.List.{list_all, list_any};
ghost use Rattle.aqe_scheduler.specs.Cursors.{AreDone};
ghost use Rattle.aqe_scheduler.specs.Fates.{can_fetch, fate_by, has_inputs, judged, maps_of, names_map, task_reads};
ghost use Rattle.aqe_scheduler.specs.Tables.{births_on, done_on, needed_on};
ghost use Rattle.aqe_scheduler.specs.declared.fate.Fate.TheVariants as fate;

use crate::cursors::first_of;
use crate::fate::Fate;
use crate::looks::{is_done, is_needed, is_shuffle};
use crate::need::{Need, Needs};
use crate::stage::Stage;
use aqe_base::{Event, MapId, StageId, TaskId};

/// What the task reads, if there is such a task.
pub fn needs_of(stages: &[Stage], stage: usize, task: usize) -> Option<&Needs>
    ensures { option_copied result ≡ task_reads (births_on stages.now) stage task }
{
    match stages.get(stage) {
        Some(found) => found.reads.slice().get(task),
        None => None,
    }
}

/// Whether all maps that are needed are done. Those before the parent's first number are, so the look begins there.
fn maps_are_done(stages: &[Stage], firsts: &[usize], need: Need) -> bool
    requires { AreDone stages.now firsts.now }
    ensures { result ≡ list_all (done_on stages.now need.stage.0) (maps_of need) }
{
    let parent = need.stage.0 as usize;
    let begin = later(need.m0 as usize, first_of(firsts, parent));
    for map in begin..need.m1 as usize {
        if !is_done(stages, parent, map) {
            return false;
        }
    }
    true
}

/// The greater of two numbers.
fn later(a: usize, b: usize) -> usize
    ensures from { a ≤ result }
    ensures before { (t : ℕ) → a ≤ t → t < result → t < b }
{
    if a < b { b } else { a }
}

/// Whether all inputs of a task that reads this are done.
pub fn inputs_are_done(stages: &[Stage], firsts: &[usize], needs: &[Need]) -> bool
    requires { AreDone stages.now firsts.now }
    ensures { result ≡ has_inputs (done_on stages.now) needs.now }
{
    for need in needs {
        if !maps_are_done(stages, firsts, *need) {
            return false;
        }
    }
    true
}

/// Whether the map is among those of the need.
fn names(need: Need, parent: StageId, map: MapId) -> bool
    ensures { result ≡ names_map parent.0 map.0 need }
{
    need.stage.0 == parent.0 && (need.m0 <= map.0 && map.0 < need.m1)
}

/// Whether one of the needs has the map.
fn any_names(needs: &[Need], parent: StageId, map: MapId) -> bool
    ensures { result ≡ list_any (names_map parent.0 map.0) needs.now }
{
    for need in needs {
        if names(*need, parent, map) {
            return true;
        }
    }
    false
}

/// The fate of an event of the task, which counts as `otherwise` where nothing speaks against it.
fn task_fate(
    stages: &[Stage],
    firsts: &[usize],
    stage: StageId,
    task: TaskId,
    otherwise: Fate,
) -> Fate
    requires { AreDone stages.now firsts.now }
    ensures { let done = done_on stages.now in
        result ≡ judged (task_reads (births_on stages.now) stage.0 task.0) (needed_on stages.now stage.0) (done stage.0 task.0) done otherwise }
{
    let Some(needs) = needs_of(stages, stage.0 as usize, task.0 as usize) else {
        return Fate::Unknown;
    };
    if !is_needed(stages, stage.0 as usize) {
        return Fate::Late;
    }
    if is_done(stages, stage.0 as usize, task.0 as usize) {
        return Fate::Repeat;
    }
    if !inputs_are_done(stages, firsts, needs.slice()) {
        return Fate::Starved;
    }
    otherwise
}

/// The fate of a failure of the task to fetch the map's output of the parent.
fn fetch_fate(
    stages: &[Stage],
    firsts: &[usize],
    stage: StageId,
    task: TaskId,
    parent: StageId,
    map: MapId,
) -> Fate
    requires { AreDone stages.now firsts.now }
    ensures { let done = done_on stages.now in let reads = task_reads (births_on stages.now) stage.0 task.0 in
        result ≡ judged (can_fetch (births_on stages.now) parent.0 map.0 reads) (needed_on stages.now stage.0) (done stage.0 task.0) done fate.FetchCounted }
{
    let Some(needs) = needs_of(stages, stage.0 as usize, task.0 as usize) else {
        return Fate::Unknown;
    };
    if !is_shuffle(stages, parent.0 as usize) {
        return Fate::Unknown;
    }
    if !any_names(needs.slice(), parent, map) {
        return Fate::Unknown;
    }
    task_fate(stages, firsts, stage, task, Fate::FetchCounted)
}

/// The fate of an event.
pub fn fate_of(stages: &[Stage], firsts: &[usize], event: Event) -> Fate
    requires { AreDone stages.now firsts.now }
    ensures { result ≡ fate_by (births_on stages.now) (needed_on stages.now) (done_on stages.now) event }
{
    match event {
        Event::Ended { stage, task, .. } => task_fate(stages, firsts, stage, task, Fate::Counted),
        Event::Failed { stage, task, .. } => task_fate(
            stages,
            firsts,
            stage,
            task,
            Fate::FailCounted,
        ),
        Event::Lost { .. } => Fate::Lost,
        Event::Fetch {
            stage,
            task,
            parent,
            map,
            ..
        } => fetch_fate(stages, firsts, stage, task, parent, map),
    }
}
