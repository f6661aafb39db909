//! Which stages can be made of a plan.

ghost use Rattle.std.specs.Prelude.{◌≡◌, ◌++◌, ◌∷◌, [], ◌&&◌, IfOk, OnOk};
ghost use Rattle.aqe_making.specs.Ready as spec;
ghost use Rattle.aqe_making.specs.Makings.{makings, made_here, stage_of};
ghost use Rattle.aqe_replan.specs.Seen.{listed, standing, all_standing};

use crate::{Making, Makings, Sides};
use aqe_base::{Listing, Memory, Side, StageId, StageList};
use aqe_boxes::both;
use aqe_logical::copy_sort_keys;
use aqe_physical::{Plan, StageKind, Target, copy};
use std::alloc::Global;

/// Whether a stage is among those listed.
fn is_listed(stages: &StageList, stage: StageId) -> bool
    ensures { result ≡ listed stages.now stage.0 }
{
    stages.slice().iter().any(|one| one.0 == stage.0)
}

/// Whether a plan holds no exchange and reads whole stages alone.
#[cycle(is_ready)]
pub(crate) fn is_ready(plan: &Plan, whole: &StageList) -> bool
    ensures { result ≡ spec.is_ready (listed whole.now) plan.now }
{
    match plan {
        Plan::OneRow | Plan::Scan { .. } | Plan::Nothing { .. } => true,
        Plan::Exchange { .. } => false,
        Plan::Read { stage, .. } => is_listed(whole, *stage),
        Plan::ReadBroadcast { stage } => is_listed(whole, *stage),
        Plan::Filter { child, .. } => is_ready(child.get(), whole),
        Plan::Project { child, .. } => is_ready(child.get(), whole),
        Plan::PartialAgg { child, .. } => is_ready(child.get(), whole),
        Plan::FinalAgg { child, .. } => is_ready(child.get(), whole),
        Plan::Sort { child, .. } => is_ready(child.get(), whole),
        Plan::LocalLimit { child, .. } => is_ready(child.get(), whole),
        Plan::GlobalLimit { child, .. } => is_ready(child.get(), whole),
        Plan::Join { left, right, .. } => {
            let left = is_ready(left.get(), whole);
            are_both(left, is_ready(right.get(), whole))
        }
        Plan::Union { left, right } => {
            let left = is_ready(left.get(), whole);
            are_both(left, is_ready(right.get(), whole))
        }
    }
}

/// Whether both sides of a node are ready.
fn are_both(left: bool, right: bool) -> bool
    ensures { result ≡ (left && right) }
{
    left && right
}

/// Whether the sample that a range names is whole.
fn is_sample_ready(to: &Target, whole: &StageList) -> bool
    ensures { result ≡ spec.sample_ready (listed whole.now) to.now }
{
    match to {
        Target::Hash { .. } | Target::Single | Target::Broadcast => true,
        Target::Range { sample, .. } => match sample {
            None => true,
            Some(stage) => is_listed(whole, *stage),
        },
    }
}

/// The place one step further down.
fn further(alloc: Global, place: &[Side], side: Side) -> Result<Sides, Memory>
    ensures { IfOk result (λ p. p ≡ place.now ++ side ∷ []) }
{
    let mut sides = copied(alloc, place)?;
    sides.push(side)?;
    Ok(sides)
}

/// The kind of the stage that is made of an exchange.
fn kind_of(alloc: Global, to: &Target, child: &Plan) -> Result<StageKind, Memory>
    ensures { IfOk result (λ kind. kind ≡ (stage_of to.now child.now).kind) }
{
    match to {
        Target::Hash { .. } | Target::Single => shuffle(alloc, to),
        Target::Broadcast => Ok(StageKind::Broadcast),
        Target::Range { keys, sample, .. } => match sample {
            Some(_) => shuffle(alloc, to),
            None => {
                let keys = copy_sort_keys(alloc, keys)?;
                Ok(StageKind::Sample(keys))
            }
        },
    }
}

/// The kind of a stage that sends rows as an exchange does.
fn shuffle(alloc: Global, to: &Target) -> Result<StageKind, Memory>
    ensures { IfOk result (λ kind. kind ≡ StageKind.Shuffle to.now) }
{
    let to = to.copy(alloc)?;
    Ok(StageKind::Shuffle(to))
}

/// The making of an exchange that stands at a place.
#[tactic(auto, using(crate::proofs::Steps::making_is))]
fn making_at(alloc: Global, to: &Target, child: &Plan, place: &[Side]) -> Result<Making, Memory>
    ensures { IfOk result (λ m. m ≡ standing place.now (record { place = []; stage = stage_of to.now child.now })) }
{
    let (place, (kind, body)) = both(
        copied(alloc, place),
        both(kind_of(alloc, to, child), copy(alloc, child)),
    )?;
    Ok(Making { place, kind, body })
}

/// A place equal to this one.
fn copied(alloc: Global, place: &[Side]) -> Result<Sides, Memory>
    ensures { IfOk result (λ p. p ≡ place.now) }
{
    let sides = Vec::from_slice(alloc, place)?;
    Ok(Listing::from_vec(sides))
}

/// Appends the making of an exchange itself, if its part is ready and its sample is.
fn push_here(
    found: &mut Makings,
    alloc: Global,
    to: &Target,
    child: &Plan,
    place: &[Side],
    whole: &StageList,
) -> Result<(), Memory>
    ensures { OnOk result (found.new ≡ found.old ++ all_standing place.now (made_here (listed whole.now) to.now child.now)) }
{
    if is_ready(child, whole) && is_sample_ready(to, whole) {
        let making = making_at(alloc, to, child, place)?;
        found.push(making)
    } else {
        Ok(())
    }
}

/// Appends the makings of the exchanges of a plan that stands at a place.
#[cycle(push_makings)]
pub(crate) fn push_makings(
    found: &mut Makings,
    alloc: Global,
    plan: &Plan,
    place: &[Side],
    whole: &StageList,
) -> Result<(), Memory>
    ensures { OnOk result (found.new ≡ found.old ++ all_standing place.now (makings (listed whole.now) plan.now)) }
{
    match plan {
        Plan::OneRow
        | Plan::Scan { .. }
        | Plan::Nothing { .. }
        | Plan::Read { .. }
        | Plan::ReadBroadcast { .. } => Ok(()),
        Plan::Filter { child, .. } => {
            push_below(found, alloc, child.get(), place, Side::Left, whole)
        }
        Plan::Project { child, .. } => {
            push_below(found, alloc, child.get(), place, Side::Left, whole)
        }
        Plan::PartialAgg { child, .. } => {
            push_below(found, alloc, child.get(), place, Side::Left, whole)
        }
        Plan::FinalAgg { child, .. } => {
            push_below(found, alloc, child.get(), place, Side::Left, whole)
        }
        Plan::Sort { child, .. } => {
            push_below(found, alloc, child.get(), place, Side::Left, whole)
        }
        Plan::LocalLimit { child, .. } => {
            push_below(found, alloc, child.get(), place, Side::Left, whole)
        }
        Plan::GlobalLimit { child, .. } => {
            push_below(found, alloc, child.get(), place, Side::Left, whole)
        }
        Plan::Exchange { to, child } => {
            push_below(found, alloc, child.get(), place, Side::Left, whole)?;
            push_here(found, alloc, to, child.get(), place, whole)
        }
        Plan::Join { left, right, .. } => {
            push_below(found, alloc, left.get(), place, Side::Left, whole)?;
            push_below(found, alloc, right.get(), place, Side::Right, whole)
        }
        Plan::Union { left, right } => {
            push_below(found, alloc, left.get(), place, Side::Left, whole)?;
            push_below(found, alloc, right.get(), place, Side::Right, whole)
        }
    }
}

/// Appends the makings of a plan that stands at a side of the node at a place.
#[cycle(push_makings)]
fn push_below(
    found: &mut Makings,
    alloc: Global,
    plan: &Plan,
    place: &[Side],
    side: Side,
    whole: &StageList,
) -> Result<(), Memory>
    ensures { OnOk result (found.new ≡ found.old ++ all_standing (place.now ++ side ∷ []) (makings (listed whole.now) plan.now)) }
{
    let place = further(alloc, place, side)?;
    push_makings(found, alloc, plan, place.slice(), whole)
}
