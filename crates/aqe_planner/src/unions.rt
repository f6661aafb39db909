//! Unions: the parts of both sides, as they stand.

ghost use Rattle.std.specs.Prelude.{◌≡◌, IfOk};

use aqe_base::Memory;
use aqe_boxes::both;
use aqe_logical::Placement;
use aqe_physical::Plan;
use aqe_placing::{Standing, stands};
use std::alloc::Global;

/// The rows of two plans.
pub(crate) fn united(alloc: Global, left: Standing, right: Standing) -> Result<Standing, Memory>
    ensures plan { IfOk result (λ s. s.plan ≡ Plan.Union left.plan right.plan) }
    ensures place { IfOk result (λ s. s.place ≡ Placement.Any) }
{
    let plan = Plan::union(alloc, left.plan, right.plan);
    stands(both(plan, Ok(Placement::Any)))
}
