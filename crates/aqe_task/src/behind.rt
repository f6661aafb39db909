//! Which parts stand behind those of a plan.

ghost use Rattle.std.specs.Prelude.{◌-◌, ◌≤◌, SomeIff};
ghost use Rattle.aqe_physical.specs.Counts.{part_count};

use aqe_base::Side;
use aqe_physical::{JoinWay, Plan};

/// What is left of `k` behind the parts of a plan, or none where the plan has a part `k`.
///
/// Parts are taken off `k` and never added up, so any plan can be asked.
#[tactic(auto, using(aqe_physical::proofs::Counted::part_steps))]
pub(crate) fn behind_parts(plan: &Plan, k: u32) -> Option<u32>
    ensures { SomeIff result (part_count plan.now ≤ k) (k - part_count plan.now) }
{
    match plan {
        Plan::OneRow | Plan::ReadBroadcast { .. } => k.checked_sub(1),
        Plan::Scan { files, .. } => k.checked_sub((*files).max(1)),
        Plan::Nothing { parts, .. } => k.checked_sub(*parts),
        Plan::Read { rects, .. } => behind(rects.len(), k),
        Plan::Exchange { to, .. } => k.checked_sub(to.count()),
        Plan::Filter { child, .. }
        | Plan::Project { child, .. }
        | Plan::PartialAgg { child, .. }
        | Plan::FinalAgg { child, .. }
        | Plan::Sort { child, .. }
        | Plan::LocalLimit { child, .. }
        | Plan::GlobalLimit { child, .. } => behind_parts(child.get(), k),
        Plan::Join {
            way,
            left,
            right,
            ..
        } => match way {
            JoinWay::SortMerge | JoinWay::ShuffledHash(_) => behind_parts(left.get(), k),
            JoinWay::Broadcast(Side::Left) => behind_parts(right.get(), k),
            JoinWay::Broadcast(Side::Right) => behind_parts(left.get(), k),
            JoinWay::NestedLoop => k.checked_sub(1),
        },
        Plan::Union { left, right } => match behind_parts(left.get(), k) {
            Some(rest) => behind_parts(right.get(), rest),
            None => None,
        },
    }
}

/// What is left of `k` behind so many, or none where it is among them.
fn behind(count: usize, k: u32) -> Option<u32>
    ensures { SomeIff result (count ≤ k) (k - count) }
{
    k.checked_sub(u32::try_from(count).ok()?)
}
