//! LIMIT and OFFSET.

ghost use Rattle.std.specs.Prelude.{◌≡◌, IfOk};
ghost use Rattle.aqe_rules.specs.Analysis as spec;

use aqe_base::Memory;
use aqe_logical::Logical;
use std::alloc::Global;

/// The number, or the greatest BIGINT where it is none.
fn bounded(n: u64) -> u64
    ensures { result ≡ spec.bounded n }
{
    n.min(9_223_372_036_854_775_807)
}

/// The rows of a plan between OFFSET and LIMIT; all of them where neither is there.
///
/// Numbers above 2^63 - 1 count as that one.
#[tactic(auto, using(crate::proofs::PlanSteps::cut_steps))]
pub fn cut(
    alloc: Global,
    limit: Option<u64>,
    offset: Option<u64>,
    plan: Logical,
) -> Result<Logical, Memory>
    ensures { IfOk result (λ p. p ≡ spec.cut limit offset plan) }
{
    if limit.is_none() && offset.is_none() {
        return Ok(plan);
    }
    let count = limit.map(bounded);
    let skip = bounded(offset.unwrap_or(0));
    Logical::limit(alloc, count, skip, plan)
}
