//! How many parts a plan has, and how many of its exchanges shuffle.

ghost use Rattle.std.specs.Prelude.{◌≡◌, ◌<◌, ◌^◌};
ghost use Rattle.aqe_physical.specs.Counts.{PartsFit, join_count, part_count, shuffles, shuffles_at, target_count};

use crate::{JoinWay, Plan, Target};
use aqe_base::Side;

/// The number of parts of a plan.
#[tactic(auto, using(crate::proofs::Counted::part_steps))]
pub fn parts(plan: &Plan) -> u32
    requires { PartsFit plan.now }
    ensures { result ≡ part_count plan.now }
{
    match plan {
        Plan::OneRow | Plan::ReadBroadcast { .. } => 1,
        Plan::Scan { files, .. } => (*files).max(1),
        Plan::Nothing { parts, .. } => *parts,
        Plan::Read { rects, .. } => rects.len() as u32,
        Plan::Exchange { to, .. } => to.count(),
        Plan::Filter { child, .. }
        | Plan::Project { child, .. }
        | Plan::PartialAgg { child, .. }
        | Plan::FinalAgg { child, .. }
        | Plan::Sort { child, .. }
        | Plan::LocalLimit { child, .. }
        | Plan::GlobalLimit { child, .. } => parts(child.get()),
        Plan::Join {
            way,
            left,
            right,
            ..
        } => joined(*way, parts(left.get()), parts(right.get())),
        Plan::Union { left, right } => parts(left.get()) + parts(right.get()),
    }
}

/// The number of parts of a join whose sides have so many.
fn joined(way: JoinWay, left: u32, right: u32) -> u32
    ensures { result ≡ join_count way left right }
{
    match way {
        JoinWay::SortMerge | JoinWay::ShuffledHash(_) => left,
        JoinWay::Broadcast(Side::Left) => right,
        JoinWay::Broadcast(Side::Right) => left,
        JoinWay::NestedLoop => 1,
    }
}

/// The number of exchanges of a plan that are no broadcasts, without those within the stages that it reads.
#[tactic(auto, using(crate::proofs::Counted::shuffle_steps))]
pub fn count_shuffles(plan: &Plan) -> u32
    requires { shuffles plan.now < 2 ^ 32 }
    ensures { result ≡ shuffles plan.now }
{
    match plan {
        Plan::OneRow
        | Plan::Scan { .. }
        | Plan::Nothing { .. }
        | Plan::Read { .. }
        | Plan::ReadBroadcast { .. } => 0,
        Plan::Filter { child, .. }
        | Plan::Project { child, .. }
        | Plan::PartialAgg { child, .. }
        | Plan::FinalAgg { child, .. }
        | Plan::Sort { child, .. }
        | Plan::LocalLimit { child, .. }
        | Plan::GlobalLimit { child, .. } => count_shuffles(child.get()),
        Plan::Exchange { to, child } => to.shuffles() + count_shuffles(child.get()),
        Plan::Join { left, right, .. } => {
            count_shuffles(left.get()) + count_shuffles(right.get())
        }
        Plan::Union { left, right } => count_shuffles(left.get()) + count_shuffles(right.get()),
    }
}

impl Target {
    /// The number of parts that an exchange to it has.
    pub fn count(&self) -> u32
        ensures { result ≡ target_count self.now }
    {
        match self {
            Target::Hash { n, .. } | Target::Range { n, .. } => *n,
            Target::Single | Target::Broadcast => 1,
        }
    }

    /// One where an exchange to it shuffles, and none for a broadcast.
    fn shuffles(&self) -> u32
        ensures { result ≡ shuffles_at self.now }
    {
        match self {
            Target::Hash { .. } | Target::Range { .. } | Target::Single => 1,
            Target::Broadcast => 0,
        }
    }
}
