//! The ORDER BY of a SELECT.

ghost use Rattle.std.specs.Prelude.{◌≡◌, [], IfOk, Err, MatchResult};
ghost use Rattle.aqe_rules.specs.Faults.{Says};
ghost use Rattle.aqe_rules.specs.Limits as limits;
ghost use Rattle.aqe_rules.specs.Outcomes.{Outcome, upon};
ghost use Rattle.aqe_rules.specs.Plans as plans;
ghost use Rattle.aqe_rules.specs.Expressions.{read};
ghost use Rattle.aqe_rules.specs.declared.typed.Typed.{Typed};
ghost use Rattle.aqe_trees.specs.declared.expression.OrTree.{OrTree};
ghost use Rattle.aqe_typing.specs.Calls.{calls_seen};
ghost use Rattle.aqe_ordered.specs.Orders.{order_seen};
ghost use Rattle.aqe_sources.specs.Given.{Gives};
ghost use Rattle.aqe_sources.specs.Seen.{SaysSeen};
ghost use Rattle.aqe_outputs.specs.Building.{built_by};
ghost use Rattle.aqe_outputs.specs.Shown.{outputs_seen, place_of};
ghost use Rattle.aqe_select.specs.Clauses.{plan_from};
ghost use Rattle.aqe_select.specs.Orders as spec;
ghost use Rattle.aqe_select.specs.Orders.{hidden_by};

use crate::clauses::Clauses;
use crate::copies::{copy_selected, or_memory};
use crate::plans::{Selected, fields_of, plan_of};
use crate::scope::calls_if;
use aqe_base::{Listing, Memory};
use aqe_boxes::both;
use aqe_logical::{Logical, SortKeys};
use aqe_ordered::{Hiding, Order, ShownAlone, order_of, shown_columns, sorted_by, without_hidden};
use aqe_outputs::{Building, OutputColumn, Shown};
use aqe_rules::{AnalysisFault, Named, Typed};
use aqe_sources::{both_of, within_limits};
use aqe_trees::{OrTree, SortTree};
use aqe_typing::{Call, Place, value_at};
use std::alloc::Global;

/// Where the hidden columns of a SELECT are read.
#[derive(Drop)]
pub(crate) struct HiddenOf<'a> {
    /// Whether equal rows count once, which allows no hidden column.
    distinct: bool,
    /// The output columns.
    outputs: &'a [Named],
    shown: &'a Shown,
    building: Building<'a>,
}

/// An expression over FROM, in which aggregate calls may stand, as it is built.
#[tactic(auto, using(crate::proofs::OrderSteps::column_steps))]
fn column(
    alloc: Global,
    shown: &Shown,
    building: &Building,
    value: &OrTree,
) -> Result<Typed, AnalysisFault>
    ensures { Says result (upon (read value.now (place_of shown.now)).value (built_by building.now)) }
{
    let place = Place {
        columns: shown.columns.slice(),
        list: &[],
        calls: shown.calls.slice(),
    };
    let value = value_at(alloc, value, &place)?;
    building.built(alloc, value)
}

impl<'a> Hiding for HiddenOf<'a> {
    ghost use Rattle.aqe_select.specs.Orders.{hidden_by};

    ghost rule = { hidden_by };

    #[tactic(auto, using(crate::proofs::OrderSteps::hidden_steps))]
    fn hidden(&self, alloc: Global, value: &OrTree) -> Result<Typed, AnalysisFault> {
        if self.distinct {
            let outputs = self.outputs;
            ShownAlone { outputs }.hidden(alloc, value)
        } else {
            column(alloc, self.shown, &self.building, value)
        }
    }
}

/// The output columns as ORDER BY sees them.
fn columns_shown(alloc: Global, outputs: &[OutputColumn]) -> Result<Listing<Named>, AnalysisFault>
    ensures { Gives result (λ columns. columns ≡ plans.shown_columns (outputs_seen outputs.now)) }
{
    let fields = fields_of(alloc, outputs)?;
    shown_columns(alloc, fields)
}

/// The keys of the ORDER BY, and its hidden columns.
fn order(
    alloc: Global,
    shown: &Shown,
    selected: &Selected,
    sorts: &[SortTree],
) -> Result<Order, AnalysisFault>
    ensures { SaysSeen order_seen result (spec.order_over shown.now selected.now sorts.now) }
{
    let columns = columns_shown(alloc, selected.outputs.slice())?;
    let outputs = columns.slice();
    let building = Building {
        is_grouped: selected.is_grouped,
        keys: selected.keys.slice(),
        columns: shown.columns.slice(),
    };
    let hiding = HiddenOf {
        distinct: selected.distinct,
        outputs,
        shown,
        building,
    };
    order_of(alloc, &hiding, selected.outputs.len(), outputs, sorts)
}

/// That the plan without its ORDER BY keeps both limits of plans, or the limit that it breaks.
///
/// It has no call that stands in ORDER BY alone, and no hidden column.
fn within(
    alloc: Global,
    clauses: &Clauses,
    shown: &Shown,
    selected: &Selected,
) -> Result<(), AnalysisFault>
    ensures { SaysSeen (λ _. spec.plan_before clauses.now shown.now selected.now) result
        (limits.within_limits (spec.plan_before clauses.now shown.now selected.now)) }
{
    let columns = shown.columns.slice();
    let calls = calls_if(alloc, selected.is_grouped, columns, clauses, &[]);
    let (copied, calls) = both(copy_selected(alloc, selected), calls)?;
    let plan = plan_of(alloc, copied, calls, Listing::new(alloc))?;
    match within_limits(plan) {
        Ok(_) => Ok(()),
        Err(fault) => Err(fault),
    }
}

/// The plan with its order, from which hidden columns are dropped again.
fn with_order(
    alloc: Global,
    selected: Selected,
    calls: Listing<Call>,
    order: Order,
) -> Result<Logical, Memory>
    ensures { IfOk result (λ p. p ≡ spec.with_order selected (calls_seen calls) (order_seen order)) }
{
    let Order { keys, hidden } = order;
    let has_hidden = !hidden.is_empty();
    let fields = or_memory(fields_of(alloc, selected.outputs.slice()));
    let plan = plan_of(alloc, selected, calls, hidden);
    let (plan, (keys, fields)) = both(plan, both(Ok(keys), fields))?;
    let (plan, fields) = both(sorted_by(alloc, keys, plan), Ok(fields))?;
    without_hidden(alloc, has_hidden, fields, plan)
}

/// The plan of a SELECT with an ORDER BY, whose keys are known or refused.
fn finished(
    alloc: Global,
    selected: Selected,
    calls: Listing<Call>,
    order: Result<((), Order), AnalysisFault>,
) -> Result<Logical, AnalysisFault>
    ensures { MatchResult order (λ o. Gives result (λ p. p ≡ spec.with_order selected (calls_seen calls) (order_seen o.1))) (λ f. result ≡ Err f) }
{
    let (_, order) = order?;
    let plan = with_order(alloc, selected, calls, order)?;
    Ok(plan)
}

/// The plan of a SELECT with an ORDER BY, once its clauses are read.
pub(crate) fn ordered(
    alloc: Global,
    clauses: &Clauses,
    shown: Shown,
    selected: Selected,
) -> Result<Logical, AnalysisFault>
    ensures { Says result (spec.planned clauses.now shown selected) }
{
    let within = within(alloc, clauses, &shown, &selected);
    let order = order(alloc, &shown, &selected, clauses.sorts);
    let Shown { calls, .. } = shown;
    finished(alloc, selected, calls, both_of(within, order))
}

/// The plan of a SELECT without an ORDER BY, once its clauses are read.
pub(crate) fn unordered(
    alloc: Global,
    shown: Shown,
    selected: Selected,
) -> Result<Logical, AnalysisFault>
    ensures { Says result (limits.within_limits (plan_from selected (calls_seen shown.calls) [])) }
{
    let Shown { calls, .. } = shown;
    let plan = plan_of(alloc, selected, calls, Listing::new(alloc))?;
    within_limits(plan)
}
