//! Which stages of a query are needed.

ghost use Rattle.std.specs.Prelude.{◌≡◌, ◌<◌, ◌||◌, ◌&&◌, not, ℕ, Bool, false, IfOk, length, map, slice_index_or};
ghost use Rattle.std.specs.List.{range_with_len};
ghost use Rattle.aqe_journal.specs.Needed as spec;
ghost use Rattle.aqe_journal.specs.Needed.{needed_stages};
ghost use Rattle.aqe_needs.specs.Noted.{stages_of};

use crate::reading::{mark_stage, read_by_plan};
use aqe_base::{Listing, Memory};
use aqe_journal::StageNote;
use aqe_physical::{Plan, StageKind};
use std::alloc::Global;

/// Whether a stage keeps the result.
fn is_result(kind: &StageKind) -> bool
    ensures { result ≡ spec.is_result kind.now }
{
    match kind {
        StageKind::Result => true,
        StageKind::Shuffle(_) | StageKind::Broadcast | StageKind::Sample(_) => false,
    }
}

/// Whether a stage is needed: it keeps the result, or it is read.
fn is_marked(kind: &StageKind, is_read: bool) -> bool
    ensures { result ≡ (spec.is_result kind.now || is_read) }
{
    is_result(kind) || is_read
}

/// Whether a stage is still to be carried out.
fn is_open(is_needed: bool, is_whole: bool) -> bool
    ensures { result ≡ (is_needed && not is_whole) }
{
    is_needed && !is_whole
}

/// The note of a stage.
fn note_at(stages: &[StageNote], n: usize) -> &StageNote
    requires { n < length stages.now }
    ensures { result.now ≡ slice_index_or stages.now n result.now }
{
    &stages[n]
}

/// Whether a stage is whole.
fn whole_at(whole: &[bool], n: usize) -> bool
    requires { n < length whole.now }
    ensures { result ≡ slice_index_or whole.now n false }
{
    whole[n]
}

/// A mark for each stage, in order: whether it is needed. The plan needs those that it reads, a stage that is needed and
/// not whole those that it reads, and the result is always needed. `whole` tells for each stage whether it is whole.
///
/// Each plan is walked once, from the last stage to the first.
pub fn needed(
    alloc: Global,
    plan: &Plan,
    stages: &[StageNote],
    whole: &[bool],
) -> Result<Listing<bool>, Memory>
    requires { length whole.now ≡ length stages.now }
    ensures { (is_whole : ℕ → Bool) → whole.now ≡ map is_whole (range_with_len 0 (length stages.now)) →
        IfOk result (λ marks. marks ≡ needed_stages is_whole plan.now (stages_of stages.now)) }
{
    let mut flags = read_by_plan(alloc, plan, stages.len())?;
    let mut marks = Vec::with_capacity(alloc, stages.len())?;
    'stages: while let Some(is_read) = flags.pop() {
        let n = flags.len();
        let stage = note_at(stages, n);
        let is_needed = is_marked(&stage.kind, is_read);
        let goes = is_open(is_needed, whole_at(whole, n));
        mark_stage(&mut flags, stage, goes);
        marks.push(is_needed)?;
    }
    marks.reverse();
    Ok(Listing::from_vec(marks))
}
