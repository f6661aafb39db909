//! The steps of the walk over what the parts of a query came to.
//!
//! They stand outside the cycle of queries, in which no plan is alive where a step may be refused.

ghost use Rattle.std.specs.Prelude.{◌≡◌, not, cond, [], IfOk, Err, MatchResult};
ghost use Rattle.aqe_logical.specs.declared.plan.Logical.{Logical};
ghost use Rattle.aqe_rules.specs.Analysis as spec;
ghost use Rattle.aqe_rules.specs.Faults.{Says};
ghost use Rattle.aqe_rules.specs.Limits as limits;
ghost use Rattle.aqe_rules.specs.Outcomes.{Outcome, upon};
ghost use Rattle.aqe_rules.specs.Plans as plans;
ghost use Rattle.aqe_rules.specs.Selects.{is_empty};
ghost use Rattle.aqe_rules.specs.Unions as unions;
ghost use Rattle.aqe_analysis.specs.Steps.{union_in_order};

use aqe_logical::Logical;
use aqe_ordered::{cut, ordered};
use aqe_rules::AnalysisFault;
use aqe_sources::{both_of, within_limits};
use aqe_trees::{CoreTree, JoinedTree, SortTree};
use aqe_unions::union_of;
use std::alloc::Global;

/// Whether there is a FROM.
pub(crate) fn has_from(sources: &[JoinedTree]) -> bool
    ensures { result ≡ not (is_empty sources.now) }
{
    sources.split_first().is_some()
}

/// Whether there is no further core.
pub(crate) fn is_lone(rest: &[(bool, CoreTree)]) -> bool
    ensures { result ≡ is_empty rest.now }
{
    rest.split_first().is_none()
}

/// The ORDER BY that the first core is read with: that of a lone one.
pub(crate) fn core_order<'a>(is_lone: bool, order: &'a [SortTree]) -> &'a [SortTree]
    ensures { result.now ≡ cond is_lone order.now [] }
{
    if is_lone { order } else { &[] }
}

/// The plan in this order, where it is not refused.
pub(crate) fn in_order(
    alloc: Global,
    order: &[SortTree],
    plan: Result<Logical, AnalysisFault>,
) -> Result<Logical, AnalysisFault>
    ensures { (o : Outcome Logical) → Says plan o → Says result (upon o (plans.ordered order.now)) }
{
    let plan = plan?;
    ordered(alloc, order, plan)
}

/// The plan of the cores of a union in this order; that of a lone core has it already.
pub(crate) fn union_in_order(
    alloc: Global,
    is_lone: bool,
    order: &[SortTree],
    plan: Result<Logical, AnalysisFault>,
) -> Result<Logical, AnalysisFault>
    ensures { (o : Outcome Logical) → Says plan o → Says result (union_in_order is_lone order.now o) }
{
    if is_lone {
        plan
    } else {
        in_order(alloc, order, plan)
    }
}

/// The union of two sides, where both are there.
fn united(
    alloc: Global,
    distinct: bool,
    sides: Result<(Logical, Logical), AnalysisFault>,
) -> Result<Logical, AnalysisFault>
    ensures { MatchResult sides (λ s. Says result (unions.union_of distinct s.0 s.1)) (λ f. result ≡ Err f) }
{
    let (left, right) = sides?;
    union_of(alloc, distinct, left, right)
}

/// The union with one core more, where both sides are there; else the fault of the first that is not.
pub(crate) fn united_next(
    alloc: Global,
    distinct: bool,
    left: Result<Logical, AnalysisFault>,
    right: Result<Logical, AnalysisFault>,
) -> Result<Logical, AnalysisFault>
    ensures { (o : Outcome Logical) → (p : Outcome Logical) → Says left o → Says right p
        → Says result (upon o (λ l. upon p (unions.union_of distinct l))) }
{
    united(alloc, distinct, both_of(left, right))
}

/// The plan between OFFSET and LIMIT, where it is not refused and keeps both limits of plans.
#[tactic(auto, using(crate::proofs::StepLemmas::cut_steps))]
pub(crate) fn within_cut(
    alloc: Global,
    limit: Option<u64>,
    offset: Option<u64>,
    plan: Result<Logical, AnalysisFault>,
) -> Result<Logical, AnalysisFault>
    ensures { (o : Outcome Logical) → Says plan o
        → Says result (upon o (λ p. limits.within_limits (spec.cut limit offset p))) }
{
    let plan = plan?;
    let plan = cut(alloc, limit, offset, plan)?;
    within_limits(plan)
}
