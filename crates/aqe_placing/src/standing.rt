//! A plan with the place of its rows, and the nodes that keep rows within their parts.

ghost use Rattle.std.specs.Prelude.{◌≡◌, Ok, IfOk};
ghost use Rattle.aqe_fitting.specs.Placing as spec;

use crate::placing::after_project;
use aqe_base::Memory;
use aqe_boxes::both;
use aqe_expr::Expr;
use aqe_logical::{Exprs, Placement, copy_expr, copy_exprs};
use aqe_physical::Plan;
use std::alloc::Global;

/// A plan, and where its rows stand.
#[derive(Drop)]
pub struct Standing {
    pub plan: Plan,
    pub place: Placement,
}

/// A plan and its place, where both are there.
pub fn stands(parts: Result<(Plan, Placement), Memory>) -> Result<Standing, Memory>
    ensures { IfOk result (λ s. parts ≡ Ok (s.plan, s.place)) }
{
    let (plan, place) = parts?;
    Ok(Standing { plan, place })
}

/// The rows of each part for which the condition holds.
pub fn filtered(alloc: Global, cond: &Expr, from: Standing) -> Result<Standing, Memory>
    ensures { IfOk result (λ s. (s.plan ≡ Plan.Filter cond.now from.plan) × (s.place ≡ from.place)) }
{
    let Standing { plan, place } = from;
    let (cond, plan) = both(copy_expr(alloc, cond), Ok(plan))?;
    let plan = Plan::filter(alloc, cond, plan);
    stands(both(plan, Ok(place)))
}

/// Each row replaced by the values of the items.
pub fn projected(alloc: Global, items: &Exprs, from: Standing) -> Result<Standing, Memory>
    ensures { IfOk result (λ s. (s.plan ≡ Plan.Project items.now from.plan) × (s.place ≡ spec.after_project items.now from.place)) }
{
    let Standing { plan, place } = from;
    let place = after_project(alloc, items.slice(), &place);
    stands(both(mapped(alloc, items, plan), place))
}

/// The plan of the values of the items over the rows of a plan.
fn mapped(alloc: Global, items: &Exprs, plan: Plan) -> Result<Plan, Memory>
    ensures { IfOk result (λ p. p ≡ Plan.Project items.now plan) }
{
    let (items, plan) = both(copy_exprs(alloc, items), Ok(plan))?;
    Plan::project(alloc, items, plan)
}

/// Whether a plan has no rows.
pub fn is_nothing(plan: &Plan) -> bool
    ensures { result ≡ spec.is_nothing plan.now }
{
    match plan {
        Plan::Nothing { .. } => true,
        _ => false,
    }
}

/// Whether a plan reads rows that a stage keeps whole.
pub fn is_kept_whole(plan: &Plan) -> bool
    ensures { result ≡ spec.is_kept_whole plan.now }
{
    match plan {
        Plan::ReadBroadcast { .. } => true,
        _ => false,
    }
}
