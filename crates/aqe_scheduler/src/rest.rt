//! The task that ends next when no event is left.

ghost use Rattle.std.specs.Prelude.{◌≡◌, ◌<◌, ◌&&◌, [], ℕ, not, length, map, find, option_map, unwrap_or, IfSome};
ghost use Rattle.std.specs.List.{range_with_len};
ghost use Rattle.aqe_scheduler.specs.Cursors.{AreDone};
ghost use Rattle.aqe_scheduler.specs.Fates.{has_inputs, task_reads};
ghost use Rattle.aqe_scheduler.specs.Looks.{task_count};
ghost use Rattle.aqe_scheduler.specs.Rest.{may_end, rest_by, tasks_of};
ghost use Rattle.aqe_scheduler.specs.Tables.{births_on, done_on, needed_on};

use crate::cursors::first_of;
use crate::fates::{inputs_are_done, needs_of};
use crate::looks::{count_of, is_done, is_needed};
use crate::stage::Stage;

/// Whether a task of a stage that is needed may end next.
fn is_ready(stages: &[Stage], firsts: &[usize], stage: usize, task: usize) -> bool
    requires { AreDone stages.now firsts.now }
    ensures { result ≡ (not (done_on stages.now stage task)
        && has_inputs (done_on stages.now) (unwrap_or (task_reads (births_on stages.now) stage task) [])) }
{
    if is_done(stages, stage, task) {
        return false;
    }
    match needs_of(stages, stage, task) {
        Some(needs) => inputs_are_done(stages, firsts, needs.slice()),
        None => true,
    }
}

/// The first task of a stage that may end next.
fn first_ready(stages: &[Stage], firsts: &[usize], stage: usize) -> Option<usize>
    requires { AreDone stages.now firsts.now }
    ensures first { option_map (λ t. (stage, t)) result
        ≡ find (may_end (births_on stages.now) (needed_on stages.now) (done_on stages.now)) (tasks_of (births_on stages.now) stage) }
    ensures within { IfSome result (λ t. t < task_count (births_on stages.now) stage) }
{
    if !is_needed(stages, stage) {
        return None;
    }
    for task in first_of(firsts, stage)..count_of(stages, stage) {
        if is_ready(stages, firsts, stage, task) {
            return Some(task);
        }
    }
    None
}

/// The first task of all that may end next, with its stage.
pub fn next_rest(stages: &[Stage], firsts: &[usize]) -> Option<(usize, usize)>
    requires { AreDone stages.now firsts.now }
    ensures first { result ≡ rest_by (births_on stages.now) (needed_on stages.now) (done_on stages.now) }
    ensures within { IfSome result (λ p. (p.0 < length stages.now) × (p.1 < task_count (births_on stages.now) p.0)) }
{
    for stage in 0..stages.len() {
        match first_ready(stages, firsts, stage) {
            Some(task) => return Some((stage, task)),
            None => {}
        }
    }
    None
}
