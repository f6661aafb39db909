//! Limits: of one part, or of one part that each part gives its first rows to.

ghost use Rattle.std.specs.Prelude.{◌≡◌, IfOk};
ghost use Rattle.aqe_fitting.specs.Placing as spec;
ghost use Rattle.aqe_logical.specs.WellFormed.{IsLimitCount, IsLimitNumber};
ghost use Rattle.aqe_planner.specs.Steps.{given_rows, limit_moved, limit_place, limit_plan};

use aqe_base::Memory;
use aqe_boxes::both;
use aqe_logical::Placement;
use aqe_physical::{Plan, Target};
use aqe_placing::{Standing, is_nothing, is_single, stands};
use std::alloc::Global;

/// Whether all rows of a plan stand in one part, or there are none.
fn serves(from: &Standing) -> bool
    ensures { result ≡ spec.serves spec.one_part from.now.plan from.now.place }
{
    is_nothing(&from.plan) || is_single(&from.place)
}

/// What each part of a plan gives to a limit of all its rows.
fn given_rows(alloc: Global, count: Option<u64>, skip: u64, plan: Plan) -> Result<Plan, Memory>
    requires count { IsLimitCount count }
    requires skip { IsLimitNumber skip }
    ensures { IfOk result (λ p. p ≡ given_rows count skip plan) }
{
    match count {
        Some(count) => Plan::local_limit(alloc, count + skip, plan),
        None => Ok(plan),
    }
}

/// A limit of what each part of a plan gives, brought to one part.
fn limited_behind(alloc: Global, count: Option<u64>, skip: u64, plan: Plan) -> Result<Plan, Memory>
    requires count { IsLimitCount count }
    requires skip { IsLimitNumber skip }
    ensures { IfOk result (λ p. p ≡ limit_moved count skip plan) }
{
    let plan = given_rows(alloc, count, skip, plan)?;
    let plan = Plan::exchange(alloc, Target::Single, plan)?;
    Plan::global_limit(alloc, count, skip, plan)
}

/// Rows that are limited where they stand.
fn stand_here(
    alloc: Global,
    count: Option<u64>,
    skip: u64,
    from: Standing,
) -> Result<Standing, Memory>
    ensures plan { IfOk result (λ s. s.plan ≡ Plan.GlobalLimit count skip from.plan) }
    ensures place { IfOk result (λ s. s.place ≡ from.place) }
{
    let Standing { plan, place } = from;
    stands(both(Plan::global_limit(alloc, count, skip, plan), Ok(place)))
}

/// Rows that are limited behind an exchange.
fn stand_behind(
    alloc: Global,
    count: Option<u64>,
    skip: u64,
    plan: Plan,
) -> Result<Standing, Memory>
    requires count { IsLimitCount count }
    requires skip { IsLimitNumber skip }
    ensures plan { IfOk result (λ s. s.plan ≡ limit_moved count skip plan) }
    ensures place { IfOk result (λ s. s.place ≡ Placement.Single) }
{
    let plan = limited_behind(alloc, count, skip, plan);
    stands(both(plan, Ok(Placement::Single)))
}

/// The rows of a plan without the first `skip`, and of these the first `count` or all.
pub(crate) fn limited(
    alloc: Global,
    count: Option<u64>,
    skip: u64,
    from: Standing,
) -> Result<Standing, Memory>
    requires count { IsLimitCount count }
    requires skip { IsLimitNumber skip }
    ensures plan { IfOk result (λ s. s.plan ≡ limit_plan count skip from.plan from.place) }
    ensures place { IfOk result (λ s. s.place ≡ limit_place from.plan from.place) }
{
    if serves(&from) {
        stand_here(alloc, count, skip, from)
    } else {
        stand_behind(alloc, count, skip, from.plan)
    }
}
