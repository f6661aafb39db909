//! Plans in an order.

ghost use Rattle.std.specs.Prelude.{◌≡◌, ◌==◌, not, None, length, List, Ok, IfOk};
ghost use Rattle.aqe_logical.specs.declared.plan.SortKey.{SortKey};
ghost use Rattle.aqe_rules.specs.Faults.{Says};
ghost use Rattle.aqe_rules.specs.Outcomes.{Outcome, upon};
ghost use Rattle.aqe_rules.specs.Plans as spec;
ghost use Rattle.aqe_rules.specs.Sources.{numbered};
ghost use Rattle.aqe_ordered.specs.Orders.{keys_over, dropped};
ghost use Rattle.aqe_sources.specs.Given.{Gives};

use crate::hiding::ShownAlone;
use crate::order::order_of;
use aqe_base::{Listing, Memory};
use aqe_boxes::both;
use aqe_logical::{Logical, SortKeys, schema_of};
use aqe_rules::{AnalysisFault, Named};
use aqe_sources::{FromItem, columns_of};
use aqe_trees::SortTree;
use aqe_unions::columns_up_to;
use aqe_values::Schema;
use std::alloc::Global;

/// The columns of a plan with these fields, as ORDER BY sees them: none is of an item of FROM.
#[tactic(auto, using(crate::proofs::PlanSteps::column_steps))]
pub fn shown_columns(alloc: Global, fields: Schema) -> Result<Listing<Named>, AnalysisFault>
    ensures { Gives result (λ columns. columns ≡ numbered None 0 fields) }
{
    columns_of(
        alloc,
        &[FromItem {
            name: None,
            columns: fields,
        }],
    )
}

/// The rows of a plan in the order of the keys; as they are where there is none.
#[tactic(auto, using(crate::proofs::PlanSteps::sort_steps))]
pub fn sorted_by(alloc: Global, keys: SortKeys, plan: Logical) -> Result<Logical, Memory>
    ensures { IfOk result (λ p. p ≡ spec.sorted_by keys plan) }
{
    if keys.is_empty() {
        Ok(plan)
    } else {
        Logical::sort(alloc, keys, plan)
    }
}

/// The rows of a plan without the hidden columns behind those of the fields, where there are some.
#[tactic(auto, using(crate::proofs::PlanSteps::drop_steps))]
pub fn without_hidden(
    alloc: Global,
    has_hidden: bool,
    fields: Schema,
    plan: Logical,
) -> Result<Logical, Memory>
    ensures { IfOk result (λ p. p ≡ dropped has_hidden fields plan) }
{
    if !has_hidden {
        return Ok(plan);
    }
    let (columns, plan) = both(columns_up_to(alloc, fields.slice()), Ok(plan))?;
    Logical::project(alloc, columns, fields, plan)
}

/// The keys of an ORDER BY over a plan that shows its own columns alone.
#[tactic(auto, using(crate::proofs::OrderSteps::alone_steps))]
fn keys_over(alloc: Global, sorts: &[SortTree], plan: &Logical) -> Result<SortKeys, AnalysisFault>
    ensures { Says result (keys_over sorts.now plan.now) }
{
    let fields = schema_of(alloc, plan)?;
    let columns = shown_columns(alloc, fields)?;
    let outputs = columns.slice();
    match order_of(alloc, &ShownAlone { outputs }, 0, outputs, sorts) {
        Ok(order) => Ok(order.keys),
        Err(fault) => Err(fault),
    }
}

/// A plan that shows its own columns alone, in the order of an ORDER BY: a union, or a query in parentheses.
#[tactic(auto, using(crate::proofs::OrderSteps::alone_steps))]
pub fn ordered(alloc: Global, sorts: &[SortTree], plan: Logical) -> Result<Logical, AnalysisFault>
    ensures { Says result (spec.ordered sorts.now plan) }
{
    match keys_over(alloc, sorts, &plan) {
        Ok(keys) => {
            let plan = sorted_by(alloc, keys, plan)?;
            Ok(plan)
        }
        Err(fault) => Err(fault),
    }
}
