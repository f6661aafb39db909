//! The plan of a SELECT from what its clauses come to: its groups, HAVING, the output columns, and DISTINCT.
//!
//! What is made in several steps is handed on as results, so that no plan is alive where a step may find no memory.

ghost use Rattle.std.specs.Prelude.{◌≡◌, ◌++◌, [], map, true, ◌∷◌, IfOk};
ghost use Rattle.aqe_rules.specs.Plans as spec;
ghost use Rattle.aqe_rules.specs.Plans.{hidden_output};
ghost use Rattle.aqe_rules.specs.Selects.{field};
ghost use Rattle.aqe_typing.specs.Calls.{calls_seen};
ghost use Rattle.aqe_select.specs.Clauses.{plan_from};
ghost use Rattle.aqe_outputs.specs.Items as items;
ghost use Rattle.aqe_outputs.specs.Shown.{outputs_seen};

use crate::copies::or_memory;
use aqe_base::{Listing, Memory};
use aqe_boxes::both;
use aqe_logical::{AggCalls, Exprs, Logical};
use aqe_outputs::{OutputColumn, Outputs};
use aqe_rules::Typed;
use aqe_typing::Call;
use aqe_unions::distinct_rows;
use aqe_values::{Field, Schema, SqlType, Text};
use std::alloc::Global;

/// What the clauses of a SELECT come to.
#[derive(Drop)]
pub(crate) struct Selected {
    /// The rows that WHERE keeps.
    pub below: Logical,
    pub is_grouped: bool,
    /// The keys of the groups.
    pub keys: Listing<Typed>,
    pub outputs: Outputs,
    pub having: Option<Typed>,
    pub distinct: bool,
}

/// Puts a column without a name behind the others.
fn push_nameless(
    alloc: Global,
    fields: &mut Schema,
    kind: SqlType,
) -> Result<(), aqe_values::Memory>
    ensures { IfOk result (λ _. fields.new ≡ fields.old ++ field [] kind ∷ []) }
{
    let name = Text::copy_of(alloc, "")?;
    fields.push(Field { name, kind })
}

/// The columns of keys and calls, which have no names.
fn fields_of_groups(
    alloc: Global,
    keys: &[Typed],
    calls: &[Call],
) -> Result<Schema, aqe_values::Memory>
    ensures { IfOk result (λ fields. fields ≡ spec.aggregate_fields keys.now (calls_seen calls.now)) }
{
    let mut fields = Schema::new(alloc);
    'keys: for key in keys {
        push_nameless(alloc, &mut fields, key.kind)?;
    }
    'calls: for call in calls {
        push_nameless(alloc, &mut fields, call.kind)?;
    }
    Ok(fields)
}

/// The expressions of keys.
fn key_expressions(alloc: Global, keys: Listing<Typed>) -> Result<Exprs, Memory>
    ensures { IfOk result (λ exprs. exprs ≡ map (λ k. k.expr) keys) }
{
    let mut exprs = Exprs::new(alloc);
    'keys: for key in keys.into_vec() {
        exprs.push(key.expr)?;
    }
    Ok(exprs)
}

/// The calls without their types.
fn untyped_calls(alloc: Global, calls: Listing<Call>) -> Result<AggCalls, Memory>
    ensures { IfOk result (λ made. made ≡ map (λ c. c.call) (calls_seen calls)) }
{
    let mut made = AggCalls::new(alloc);
    'calls: for call in calls.into_vec() {
        made.push(call.call)?;
    }
    Ok(made)
}

/// The groups of the rows of a plan, by these keys and with the values of these calls.
#[tactic(auto, using(crate::proofs::PlanSteps::groups_made))]
fn grouped(
    alloc: Global,
    keys: Listing<Typed>,
    calls: Listing<Call>,
    below: Logical,
) -> Result<Logical, Memory>
    ensures { IfOk result (λ p. p ≡ spec.groups_of true keys (calls_seen calls) below) }
{
    let fields = fields_of_groups(alloc, keys.slice(), calls.slice());
    let schema = or_memory(fields);
    let keys = key_expressions(alloc, keys);
    let calls = untyped_calls(alloc, calls);
    let ((keys, calls), (schema, below)) = both(both(keys, calls), both(schema, Ok(below)))?;
    let plan = Logical::aggregate(alloc, keys, calls, schema, below)?;
    Ok(plan)
}

/// The same where the query is grouped; else its rows as they are.
fn groups_of(
    alloc: Global,
    is_grouped: bool,
    keys: Listing<Typed>,
    calls: Listing<Call>,
    below: Logical,
) -> Result<Logical, Memory>
    ensures { IfOk result (λ p. p ≡ spec.groups_of is_grouped keys (calls_seen calls) below) }
{
    if is_grouped {
        grouped(alloc, keys, calls, below)
    } else {
        Ok(below)
    }
}

/// The rows of the plan that HAVING keeps.
fn filtered_by(alloc: Global, having: Option<Typed>, below: Logical) -> Result<Logical, Memory>
    ensures { IfOk result (λ p. p ≡ spec.filtered_by having below) }
{
    match having {
        Some(having) => {
            let plan = Logical::filter(alloc, having.expr, below)?;
            Ok(plan)
        }
        None => Ok(below),
    }
}

/// The expressions of output columns.
fn expressions(alloc: Global, outputs: Outputs) -> Result<Exprs, Memory>
    ensures { IfOk result (λ exprs. exprs ≡ items.exprs_of (outputs_seen outputs)) }
{
    let mut exprs = Exprs::new(alloc);
    'outputs: for output in outputs.into_vec() {
        exprs.push(output.value.expr)?;
    }
    Ok(exprs)
}

/// The fields of output columns.
pub(crate) fn fields_of(
    alloc: Global,
    outputs: &[OutputColumn],
) -> Result<Schema, aqe_values::Memory>
    ensures { IfOk result (λ fields. fields ≡ spec.fields_of (outputs_seen outputs.now)) }
{
    let mut fields = Schema::new(alloc);
    'outputs: for output in outputs {
        let name = Text::copy_of(alloc, output.name.as_str())?;
        let kind = output.value.kind;
        fields.push(Field { name, kind })?;
    }
    Ok(fields)
}

/// The plan with the output columns alone.
#[tactic(auto, using(crate::proofs::PlanSteps::projection_made))]
fn projected_to(alloc: Global, outputs: Outputs, below: Logical) -> Result<Logical, Memory>
    ensures { IfOk result (λ p. p ≡ spec.projected_to (outputs_seen outputs) below) }
{
    let fields = fields_of(alloc, outputs.slice());
    let schema = or_memory(fields);
    let items = expressions(alloc, outputs);
    let (items, (schema, below)) = both(items, both(schema, Ok(below)))?;
    let plan = Logical::project(alloc, items, schema, below)?;
    Ok(plan)
}

/// The output columns with columns behind them that are there for the order alone, which have no names.
fn with_hidden_columns(
    alloc: Global,
    outputs: Outputs,
    hidden: Listing<Typed>,
) -> Result<Outputs, Memory>
    ensures { IfOk result (λ all. outputs_seen all ≡ outputs_seen outputs ++ map hidden_output hidden) }
{
    let mut all = outputs;
    'hidden: for value in hidden.into_vec() {
        let (name, value) = both(or_memory(Text::copy_of(alloc, "")), Ok(value))?;
        all.push(OutputColumn { name, value })?;
    }
    Ok(all)
}

/// The plan with the output columns, and these behind them.
fn projected_with(
    alloc: Global,
    outputs: Outputs,
    hidden: Listing<Typed>,
    below: Logical,
) -> Result<Logical, Memory>
    ensures { IfOk result (λ p. p ≡ spec.projected_to (outputs_seen outputs ++ map hidden_output hidden) below) }
{
    let (outputs, below) = both(with_hidden_columns(alloc, outputs, hidden), Ok(below))?;
    projected_to(alloc, outputs, below)
}

/// The same, equal rows once.
fn distinct_outputs(
    alloc: Global,
    outputs: Outputs,
    hidden: Listing<Typed>,
    below: Logical,
) -> Result<Logical, Memory>
    ensures { IfOk result (λ p. p ≡ spec.distinct_rows (spec.fields_of (outputs_seen outputs))
        (spec.projected_to (outputs_seen outputs ++ map hidden_output hidden) below)) }
{
    let fields = fields_of(alloc, outputs.slice());
    let schema = or_memory(fields);
    let (schema, plan) = both(schema, projected_with(alloc, outputs, hidden, below))?;
    distinct_rows(alloc, schema, plan)
}

/// The plan with the output columns and these behind them, equal rows once where that is wanted.
fn shown(
    alloc: Global,
    distinct: bool,
    outputs: Outputs,
    hidden: Listing<Typed>,
    below: Logical,
) -> Result<Logical, Memory>
    ensures { IfOk result (λ p. p ≡ spec.distinct_if distinct (spec.fields_of (outputs_seen outputs))
        (spec.projected_to (outputs_seen outputs ++ map hidden_output hidden) below)) }
{
    if distinct {
        distinct_outputs(alloc, outputs, hidden, below)
    } else {
        projected_with(alloc, outputs, hidden, below)
    }
}

/// The plan of a SELECT with the values of these calls, before its ORDER BY, with hidden columns behind its own.
#[tactic(auto, using(crate::proofs::PlanSteps::plan_made))]
pub(crate) fn plan_of(
    alloc: Global,
    selected: Selected,
    calls: Listing<Call>,
    hidden: Listing<Typed>,
) -> Result<Logical, Memory>
    ensures { IfOk result (λ p. p ≡ plan_from selected (calls_seen calls) (map hidden_output hidden)) }
{
    let Selected {
        below,
        is_grouped,
        keys,
        outputs,
        having,
        distinct,
    } = selected;
    let groups = groups_of(alloc, is_grouped, keys, calls, below);
    let (groups, (having, shown_columns)) = both(groups, Ok((having, (outputs, hidden))))?;
    let kept = filtered_by(alloc, having, groups);
    let (kept, (outputs, hidden)) = both(kept, Ok(shown_columns))?;
    shown(alloc, distinct, outputs, hidden, kept)
}
