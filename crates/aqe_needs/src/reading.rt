//! Which stages plans and stages read, as flags.

ghost use Rattle.std.specs.Prelude.{◌≡◌, ◌&&◌, IfOk, map};
ghost use Rattle.std.specs.List.{range_with_len};
ghost use Rattle.aqe_journal.specs.Needed.{plan_reads, stage_reads};
ghost use Rattle.aqe_needs.specs.Flags.{noted};
ghost use Rattle.aqe_needs.specs.Flags as spec;
ghost use Rattle.aqe_needs.specs.Noted.{stage_of};

use crate::flags::Flags;
use aqe_base::{Memory, StageId};
use aqe_journal::StageNote;
use aqe_physical::{Plan, StageKind, Target};
use std::alloc::Global;

/// The stage that holds the samples of a target.
pub(crate) fn sample_of(to: &Target) -> Option<StageId>
    ensures { result ≡ spec.sample_of to.now }
{
    match to {
        Target::Hash { .. } | Target::Single | Target::Broadcast => None,
        Target::Range { sample, .. } => *sample,
    }
}

/// The stage whose samples a stage of this kind reads.
fn sample_of_kind(kind: &StageKind) -> Option<StageId>
    ensures { result ≡ spec.sample_of_kind kind.now }
{
    match kind {
        StageKind::Shuffle(to) => sample_of(to),
        StageKind::Broadcast | StageKind::Sample(_) | StageKind::Result => None,
    }
}

/// Sets the flags of the stages that a plan reads.
#[tactic(auto, using(crate::proofs::Marked::leaf_steps))]
fn mark_plan(flags: &mut Flags, plan: &Plan)
    ensures { flags.new ≡ noted (plan_reads plan.now) 0 flags.old }
{
    match plan {
        Plan::OneRow | Plan::Scan { .. } | Plan::Nothing { .. } => {}
        Plan::Read { stage, .. } => flags.set(*stage),
        Plan::ReadBroadcast { stage } => flags.set(*stage),
        Plan::Filter { child, .. } => mark_plan(flags, child.get()),
        Plan::Project { child, .. } => mark_plan(flags, child.get()),
        Plan::PartialAgg { child, .. } => mark_plan(flags, child.get()),
        Plan::FinalAgg { child, .. } => mark_plan(flags, child.get()),
        Plan::Sort { child, .. } => mark_plan(flags, child.get()),
        Plan::LocalLimit { child, .. } => mark_plan(flags, child.get()),
        Plan::GlobalLimit { child, .. } => mark_plan(flags, child.get()),
        Plan::Exchange { to, child } => {
            flags.set_named(sample_of(to));
            mark_plan(flags, child.get());
        }
        Plan::Join { left, right, .. } => {
            mark_plan(flags, left.get());
            mark_plan(flags, right.get());
        }
        Plan::Union { left, right } => {
            mark_plan(flags, left.get());
            mark_plan(flags, right.get());
        }
    }
}

/// Sets the flags of the stages that a stage reads, if it is still to be carried out.
pub(crate) fn mark_stage(flags: &mut Flags, stage: &StageNote, is_open: bool)
    ensures { flags.new ≡ noted (λ s. is_open && stage_reads (stage_of stage.now) s) 0 flags.old }
{
    if is_open {
        flags.set_named(sample_of_kind(&stage.kind));
        mark_plan(flags, &stage.body);
    }
}

/// For each of so many stages, whether the plan reads it.
pub(crate) fn read_by_plan(alloc: Global, plan: &Plan, count: usize) -> Result<Flags, Memory>
    ensures { IfOk result (λ flags. flags ≡ map (plan_reads plan.now) (range_with_len 0 count)) }
{
    let mut flags = Flags::fresh(alloc, count)?;
    mark_plan(&mut flags, plan);
    Ok(flags)
}
