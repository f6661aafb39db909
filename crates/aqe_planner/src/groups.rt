//! Groups: finished where their rows stand, or behind an exchange that brings equal keys together.

ghost use Rattle.std.specs.Prelude.{◌≡◌, ℕ, length, IfOk};
ghost use Rattle.aqe_fitting.specs.Placing as spec;
ghost use Rattle.aqe_join_keys.specs.Keys.{columns_from};
ghost use Rattle.aqe_planner.specs.Steps.{groups_behind, groups_here, groups_moved, groups_place, groups_plan};

use aqe_base::Memory;
use aqe_boxes::both;
use aqe_logical::{AggCalls, Exprs, Placement, copy_calls, copy_exprs, copy_sort_keys};
use aqe_physical::{Plan, Target};
use aqe_placing::{Standing, after_groups, columns_from, is_nothing, keeps_groups, stands};
use std::alloc::Global;

/// Whether groups can be finished where their rows stand: rows with equal keys stand in one part, or there are none.
fn serves(keys: &Exprs, from: &Standing) -> bool
    ensures { result ≡ spec.serves (spec.groups_of keys.now) from.now.plan from.now.place }
{
    is_nothing(&from.plan) || keeps_groups(keys.slice(), &from.place)
}

/// Where the groups over a plan stand.
fn place_of_groups(alloc: Global, keys: &Exprs, from: &Standing) -> Result<Placement, Memory>
    ensures { IfOk result (λ w. w ≡ spec.place_of_groups keys.now from.now.plan from.now.place) }
{
    if is_nothing(&from.plan) {
        Ok(Placement::Single)
    } else {
        after_groups(alloc, keys.slice(), &from.place)
    }
}

/// The partial groups of each part of a plan.
fn partial(alloc: Global, keys: &Exprs, calls: &AggCalls, plan: Plan) -> Result<Plan, Memory>
    ensures { IfOk result (λ p. p ≡ Plan.PartialAgg keys.now calls.now plan) }
{
    let parts = both(copy_exprs(alloc, keys), copy_calls(alloc, calls));
    let ((keys, calls), plan) = both(parts, Ok(plan))?;
    Plan::partial(alloc, keys, calls, plan)
}

/// The groups of each part of partial rows, whose first columns are the keys.
fn finished(alloc: Global, keys: &Exprs, calls: &AggCalls, plan: Plan) -> Result<Plan, Memory>
    ensures { IfOk result (λ p. p ≡ Plan.FinalAgg (length keys.now) calls.now plan) }
{
    let (calls, plan) = both(copy_calls(alloc, calls), Ok(plan))?;
    match u32::try_from(keys.len()) {
        Ok(count) => Plan::last(alloc, count, calls, plan),
        Err(_) => Err(Memory),
    }
}

/// The groups of each part of a plan.
fn grouped_here(alloc: Global, keys: &Exprs, calls: &AggCalls, plan: Plan) -> Result<Plan, Memory>
    ensures { IfOk result (λ p. p ≡ groups_here keys.now calls.now plan) }
{
    let plan = partial(alloc, keys, calls, plan)?;
    finished(alloc, keys, calls, plan)
}

/// The first columns, so many. More than 4,294,967,295 find no memory.
fn first_columns(alloc: Global, count: usize) -> Result<Exprs, Memory>
    ensures { IfOk result (λ columns. columns ≡ columns_from 0 count) }
{
    match u32::try_from(count) {
        Ok(count) => columns_from(alloc, 0, count),
        Err(_) => Err(Memory),
    }
}

/// Where partial groups are moved to: by the hash of their key columns, or to one part without keys.
fn target(alloc: Global, keys: &Exprs, n: u32) -> Result<Target, Memory>
    ensures { IfOk result (λ to. to ≡ spec.groups_target n (length keys.now)) }
{
    if keys.is_empty() {
        Ok(Target::Single)
    } else {
        let keys = first_columns(alloc, keys.len())?;
        Ok(Target::Hash { keys, n })
    }
}

/// The place that an exchange to this target gives.
fn place_of(alloc: Global, to: &Target) -> Result<Placement, Memory>
    ensures { IfOk result (λ w. w ≡ spec.place_of to.now) }
{
    match to {
        Target::Hash { keys, .. } => {
            let keys = copy_exprs(alloc, keys)?;
            Ok(Placement::Hash(keys))
        }
        Target::Range { keys, .. } => {
            let keys = copy_sort_keys(alloc, keys)?;
            Ok(Placement::Range(keys))
        }
        Target::Single => Ok(Placement::Single),
        Target::Broadcast => Ok(Placement::Any),
    }
}

/// The groups of a plan whose partial groups are moved.
fn grouped_behind(
    alloc: Global,
    keys: &Exprs,
    calls: &AggCalls,
    to: Target,
    plan: Plan,
) -> Result<Plan, Memory>
    ensures { IfOk result (λ p. p ≡ groups_behind keys.now calls.now to plan) }
{
    let (to, plan) = both(Ok(to), partial(alloc, keys, calls, plan))?;
    let plan = Plan::exchange(alloc, to, plan)?;
    finished(alloc, keys, calls, plan)
}

/// Groups that are finished where their rows stand.
fn stand_here(
    alloc: Global,
    keys: &Exprs,
    calls: &AggCalls,
    from: Standing,
) -> Result<Standing, Memory>
    ensures plan { IfOk result (λ s. s.plan ≡ groups_here keys.now calls.now from.plan) }
    ensures place { IfOk result (λ s. s.place ≡ spec.place_of_groups keys.now from.plan from.place) }
{
    let place = place_of_groups(alloc, keys, &from);
    stands(both(grouped_here(alloc, keys, calls, from.plan), place))
}

/// Groups that are finished behind an exchange.
fn stand_behind(
    alloc: Global,
    keys: &Exprs,
    calls: &AggCalls,
    n: u32,
    plan: Plan,
) -> Result<Standing, Memory>
    ensures plan { IfOk result (λ s. s.plan ≡ groups_moved n keys.now calls.now plan) }
    ensures place { IfOk result (λ s. s.place ≡ spec.place_of (spec.groups_target n (length keys.now))) }
{
    let (to, plan) = both(target(alloc, keys, n), Ok(plan))?;
    let place = place_of(alloc, &to);
    stands(both(grouped_behind(alloc, keys, calls, to, plan), place))
}

/// The groups of the rows of a plan.
pub(crate) fn grouped(
    alloc: Global,
    keys: &Exprs,
    calls: &AggCalls,
    n: u32,
    from: Standing,
) -> Result<Standing, Memory>
    ensures plan { IfOk result (λ s. s.plan ≡ groups_plan n keys.now calls.now from.plan from.place) }
    ensures place { IfOk result (λ s. s.place ≡ groups_place n keys.now from.plan from.place) }
{
    if serves(keys, &from) {
        stand_here(alloc, keys, calls, from)
    } else {
        stand_behind(alloc, keys, calls, n, from.plan)
    }
}
