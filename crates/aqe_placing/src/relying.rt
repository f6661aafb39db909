//! Whether a part of a plan relies on where the rows of a stage stand.

ghost use Rattle.std.specs.Prelude.{◌≡◌, ◌==◌};
ghost use Rattle.std.specs.List.{list_any};
ghost use Rattle.aqe_fitting.specs.Strands as spec;
ghost use Rattle.aqe_placing.specs.Relying.{side_under};

use aqe_base::{Side, StageId};
use aqe_physical::{JoinWay, Plan};

/// Whether a read of the stage stands under a node that relies on where rows stand.
///
/// Such nodes are groups that are finished, a sort, a limit of all rows, and a join other than a broadcast. What stands above an
/// exchange or a union, or above the built side of a broadcast join, does not count below it.
pub fn relies_on_place(plan: &Plan, stage: StageId) -> bool
    ensures { result ≡ spec.relies_on_place plan.now stage }
{
    is_relied(plan, stage, false)
}

/// The same where it is told whether such a node stands above the plan.
#[tactic(auto, using(crate::proofs::Relied::relied_steps))]
fn is_relied(plan: &Plan, stage: StageId, under: bool) -> bool
    ensures { result ≡ list_any (λ read. read.0 == stage.0) (spec.relied plan.now under) }
{
    match plan {
        Plan::Read { stage: read, .. } => under && read.0 == stage.0,
        Plan::OneRow | Plan::Scan { .. } | Plan::Nothing { .. } | Plan::ReadBroadcast { .. } =>
            false,
        Plan::Filter { child, .. }
        | Plan::Project { child, .. }
        | Plan::PartialAgg { child, .. }
        | Plan::LocalLimit { child, .. } => is_relied(child.get(), stage, under),
        Plan::FinalAgg { child, .. } | Plan::Sort { child, .. } | Plan::GlobalLimit { child, .. } =>
            is_relied(child.get(), stage, true),
        Plan::Exchange { child, .. } => is_relied(child.get(), stage, false),
        Plan::Join {
            way,
            left,
            right,
            ..
        } => {
            is_relied(left.get(), stage, side_under(Side::Left, *way, under))
                || is_relied(right.get(), stage, side_under(Side::Right, *way, under))
        }
        Plan::Union { left, right } => {
            is_relied(left.get(), stage, false) || is_relied(right.get(), stage, false)
        }
    }
}

/// Whether a side of a join stands under a node that relies on where rows stand.
fn side_under(side: Side, way: JoinWay, under: bool) -> bool
    ensures { result ≡ side_under side way under }
{
    match way {
        JoinWay::Broadcast(built) => under && built != side,
        JoinWay::SortMerge | JoinWay::ShuffledHash(_) | JoinWay::NestedLoop => true,
    }
}
