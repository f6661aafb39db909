//! What a part of a plan reads.

ghost use Rattle.std.specs.Prelude.{◌≡◌, ◌++◌, ◌∷◌, [], OnOk, map, slice_get};
ghost use Rattle.aqe_physical.specs.Counts.{PartsFit};
ghost use Rattle.aqe_stages.specs.Reads.{all_maps, rect_needs};
ghost use Rattle.aqe_needs.specs.Maps.{need_with, sample_reads, part_reads, all_reads, side_reads};
ghost use Rattle.aqe_needs.specs.Maps as spec;

use aqe_base::{Memory, Rect, Side, StageId};
use aqe_physical::{JoinWay, Plan, Target, parts};
use aqe_scheduler::{Need, Needs};

/// Appends all maps of a stage; a stage without a count has none.
fn push_all_maps(found: &mut Needs, stage: StageId, counts: &[u32]) -> Result<(), Memory>
    ensures { OnOk result (found.new ≡ found.old ++ need_with counts.now (all_maps stage.0) ∷ []) }
{
    let m1 = match counts.get(stage.0 as usize) {
        Some(maps) => *maps,
        None => 0,
    };
    found.push(Need { stage, m0: 0, m1 })
}

/// Appends the samples that a target takes its bounds from.
pub(crate) fn push_sample(found: &mut Needs, to: &Target, counts: &[u32]) -> Result<(), Memory>
    ensures { OnOk result (found.new ≡ found.old ++ sample_reads counts.now to.now) }
{
    match to {
        Target::Hash { .. } | Target::Single | Target::Broadcast => Ok(()),
        Target::Range { sample, .. } => match sample {
            None => Ok(()),
            Some(stage) => push_all_maps(found, *stage, counts),
        },
    }
}

/// The rectangle of this number, if there is one.
fn rect_at(rects: &[Rect], k: u32) -> Option<Rect>
    ensures { result ≡ slice_get rects.now k }
{
    rects.get(k as usize).copied()
}

/// Appends the maps of a rectangle, if there is one of this number.
fn push_rect(found: &mut Needs, stage: StageId, rects: &[Rect], k: u32) -> Result<(), Memory>
    ensures { OnOk result (found.new ≡ found.old ++ map (need_with []) (rect_needs stage rects.now k)) }
{
    match rect_at(rects, k) {
        Some(rect) => found.push(Need {
            stage,
            m0: rect.m0,
            m1: rect.m1,
        }),
        None => Ok(()),
    }
}

/// Whether each part of a join reads the whole of its left side.
fn takes_left(way: JoinWay) -> bool
    ensures { result ≡ spec.takes_left way }
{
    match way {
        JoinWay::SortMerge | JoinWay::ShuffledHash(_) | JoinWay::Broadcast(Side::Right) => false,
        JoinWay::Broadcast(Side::Left) | JoinWay::NestedLoop => true,
    }
}

/// Whether each part of a join reads the whole of its right side.
fn takes_right(way: JoinWay) -> bool
    ensures { result ≡ spec.takes_right way }
{
    match way {
        JoinWay::SortMerge | JoinWay::ShuffledHash(_) | JoinWay::Broadcast(Side::Left) => false,
        JoinWay::Broadcast(Side::Right) | JoinWay::NestedLoop => true,
    }
}

/// Appends what part `k` of a plan reads.
#[cycle(push_part)]
pub(crate) fn push_part(
    found: &mut Needs,
    plan: &Plan,
    k: u32,
    counts: &[u32],
) -> Result<(), Memory>
    requires { PartsFit plan.now }
    ensures { OnOk result (found.new ≡ found.old ++ part_reads counts.now plan.now k) }
{
    match plan {
        Plan::OneRow | Plan::Scan { .. } | Plan::Nothing { .. } => Ok(()),
        Plan::Read { stage, rects, .. } => push_rect(found, *stage, rects.slice(), k),
        Plan::ReadBroadcast { stage } => push_all_maps(found, *stage, counts),
        Plan::Filter { child, .. } => push_part(found, child.get(), k, counts),
        Plan::Project { child, .. } => push_part(found, child.get(), k, counts),
        Plan::PartialAgg { child, .. } => push_part(found, child.get(), k, counts),
        Plan::FinalAgg { child, .. } => push_part(found, child.get(), k, counts),
        Plan::Sort { child, .. } => push_part(found, child.get(), k, counts),
        Plan::LocalLimit { child, .. } => push_part(found, child.get(), k, counts),
        Plan::GlobalLimit { child, .. } => push_part(found, child.get(), k, counts),
        Plan::Exchange { to, child } => {
            push_sample(found, to, counts)?;
            push_all_parts(found, child.get(), counts)
        }
        Plan::Join {
            way,
            left,
            right,
            ..
        } => {
            push_side(found, left.get(), k, counts, takes_left(*way))?;
            push_side(found, right.get(), k, counts, takes_right(*way))
        }
        Plan::Union { left, right } => {
            let first = left.get();
            let second = right.get();
            let before = parts(first);
            if k < before {
                push_part(found, first, k, counts)
            } else {
                push_part(found, second, k - before, counts)
            }
        }
    }
}

/// Appends what the parts of a plan read, part by part.
#[cycle(push_part)]
fn push_all_parts(found: &mut Needs, plan: &Plan, counts: &[u32]) -> Result<(), Memory>
    requires { PartsFit plan.now }
    ensures { OnOk result (found.new ≡ found.old ++ all_reads counts.now plan.now) }
{
    'parts: for k in 0..parts(plan) {
        push_part(found, plan, k, counts)?;
    }
    Ok(())
}

/// Appends what part `k` of a join reads of a side: what all parts of the side do, or only the one of its number.
#[cycle(push_part)]
fn push_side(
    found: &mut Needs,
    side: &Plan,
    k: u32,
    counts: &[u32],
    whole: bool,
) -> Result<(), Memory>
    requires { PartsFit side.now }
    ensures { OnOk result (found.new ≡ found.old ++ side_reads whole counts.now side.now k) }
{
    if whole {
        push_all_parts(found, side, counts)
    } else {
        push_part(found, side, k, counts)
    }
}
