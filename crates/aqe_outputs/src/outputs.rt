//! The output columns of a SELECT.

ghost use Rattle.std.specs.Prelude.{◌≡◌, [], ◌∷◌, ◌++◌, List, filter, Ok, Err, MatchResult};
ghost use Rattle.std.specs.List.{list_any};
ghost use Rattle.aqe_rules.specs.Outcomes.{Outcome, each};
ghost use Rattle.aqe_rules.specs.Readings as readings;
ghost use Rattle.aqe_rules.specs.Sources.{columns_of};
ghost use Rattle.aqe_rules.specs.Selects as spec;
ghost use Rattle.aqe_rules.specs.Selects.{Output, at};
ghost use Rattle.aqe_typing.specs.Calls.{calls_seen};
ghost use Rattle.aqe_sources.specs.Given.{Gives};
ghost use Rattle.aqe_outputs.specs.Building.{built_by};
ghost use Rattle.aqe_outputs.specs.Items as items;
ghost use Rattle.aqe_outputs.specs.Items.{behind};
ghost use Rattle.aqe_sources.specs.Seen.{item_seen, items_seen, SaysSeen};
ghost use Rattle.aqe_outputs.specs.Shown.{output_seen, outputs_seen, place_of, next_item, outputs_of};

use crate::building::Building;
use crate::output_names::output_name;
use aqe_base::{AnalysisKind, Listing};
use aqe_rules::{AnalysisFault, Named, Typed, alike, is_of, refused};
use aqe_sources::{FromItem, both_of};
use aqe_trees::{ItemTree, OrTree};
use aqe_typing::{Call, Place, is_column, value_at};
use aqe_values::Text;
use std::alloc::Global;

/// An output column: its name, and its value over the columns of FROM, or over the rows of the groups.
#[derive(Drop)]
pub struct OutputColumn {
    pub name: Text,
    pub value: Typed,
}

/// Output columns, from left to right.
pub type Outputs = Listing<OutputColumn>;

/// What FROM shows, whether there is a FROM, and the aggregate calls that may stand in the select list.
#[derive(Drop)]
pub struct Shown {
    pub has_from: bool,
    pub items: Listing<FromItem>,
    pub columns: Listing<Named>,
    pub calls: Listing<Call>,
}

/// Whether the item has the name.
fn is_named(name: &Text, item: &FromItem) -> bool
    ensures { result ≡ spec.is_named name.now (item_seen item.now) }
{
    match &item.name {
        Some(own) => alike(own, name),
        None => false,
    }
}

/// Whether an item has the name.
fn is_any_named(name: &Text, items: &[FromItem]) -> bool
    ensures { result ≡ list_any (λ item. spec.is_named name.now (item_seen item)) items.now }
{
    items.iter().any(|item| is_named(name, item))
}

/// The column of FROM as an output column.
#[tactic(auto, using(crate::proofs::OutputSteps::column_steps))]
fn column(alloc: Global, building: &Building, column: &Named) -> Result<OutputColumn, AnalysisFault>
    ensures { SaysSeen output_seen result (spec.column_output (built_by building.now) column.now) }
{
    let name = Text::copy_of(alloc, column.name.as_str())?;
    let value = column.value.copy(alloc)?;
    let value = building.built(alloc, value)?;
    Ok(OutputColumn { name, value })
}

/// The output columns with one more, where both are there.
fn pushed(both: Result<(Outputs, OutputColumn), AnalysisFault>) -> Result<Outputs, AnalysisFault>
    ensures { MatchResult both (λ b. Gives result (λ all. all ≡ b.0 ++ b.1 ∷ [])) (λ f. result ≡ Err f) }
{
    let (outputs, column) = both?;
    let mut outputs = outputs;
    outputs.push(column)?;
    Ok(outputs)
}

/// The output columns so far, and one more.
fn with_column(
    so_far: Result<Outputs, AnalysisFault>,
    next: Result<OutputColumn, AnalysisFault>,
) -> Result<Outputs, AnalysisFault>
    ensures { (before : List Output) (os : List (Outcome Output)) (o : Outcome Output)
        → SaysSeen outputs_seen so_far (behind before (each os)) → SaysSeen output_seen next o
        → SaysSeen outputs_seen result (behind before (each (os ++ o ∷ []))) }
{
    pushed(both_of(so_far, next))
}

/// The output columns so far, and the columns of FROM.
fn with_columns(
    alloc: Global,
    building: &Building,
    so_far: Outputs,
    columns: &[Named],
) -> Result<Outputs, AnalysisFault>
    ensures { SaysSeen outputs_seen result
        (behind (outputs_seen so_far) (items.columns_shown (built_by building.now) columns.now)) }
{
    let mut outputs = Ok(so_far);
    'columns: for next in columns {
        outputs = with_column(outputs, column(alloc, building, next));
    }
    outputs
}

/// The output columns so far, and the columns of the items of a name.
fn with_columns_of(
    alloc: Global,
    building: &Building,
    so_far: Outputs,
    name: &Text,
    columns: &[Named],
) -> Result<Outputs, AnalysisFault>
    ensures { SaysSeen outputs_seen result (behind (outputs_seen so_far)
        (items.columns_shown (built_by building.now) (filter (readings.is_of name.now) columns.now))) }
{
    let mut outputs = Ok(so_far);
    'columns: for next in columns {
        if is_of(name, next) {
            outputs = with_column(outputs, column(alloc, building, next));
        }
    }
    outputs
}

/// An expression of the select list, behind so many output columns.
#[tactic(auto, using(crate::proofs::OutputSteps::expression_steps))]
fn expression(
    alloc: Global,
    shown: &Shown,
    building: &Building,
    value: &OrTree,
    alias: &Option<Text>,
    place: usize,
) -> Result<OutputColumn, AnalysisFault>
    ensures { SaysSeen output_seen result
        (items.expression (built_by building.now) (place_of shown.now) place value.now alias.now) }
{
    let columns = shown.columns.slice();
    let meaning = value_at(
        alloc,
        value,
        &Place {
            columns,
            list: &[],
            calls: shown.calls.slice(),
        },
    )?;
    let name = output_name(alloc, alias, is_column(value), place, columns, &meaning)?;
    let value = building.built(alloc, meaning)?;
    Ok(OutputColumn { name, value })
}

/// `*`
#[tactic(auto, using(crate::proofs::OutputSteps::all_steps))]
fn with_all(
    alloc: Global,
    shown: &Shown,
    building: &Building,
    so_far: Outputs,
) -> Result<Outputs, AnalysisFault>
    ensures { SaysSeen outputs_seen result
        (items.with_all (built_by building.now) shown.now.has_from shown.now.columns (outputs_seen so_far)) }
{
    if !shown.has_from {
        return Err(refused(alloc, AnalysisKind::NoSuchColumn, "*"));
    }
    with_columns(alloc, building, so_far, shown.columns.slice())
}

/// `t.*`
fn with_all_of(
    alloc: Global,
    shown: &Shown,
    building: &Building,
    so_far: Outputs,
    name: &Text,
) -> Result<Outputs, AnalysisFault>
    requires { shown.now.columns ≡ columns_of (items_seen shown.now.items) }
    ensures { SaysSeen outputs_seen result
        (items.with_all_of (built_by building.now) name.now (items_seen shown.now.items) (outputs_seen so_far)) }
{
    if !is_any_named(name, shown.items.slice()) {
        return Err(refused(alloc, AnalysisKind::NoSuchTable, name.as_str()));
    }
    with_columns_of(alloc, building, so_far, name, shown.columns.slice())
}

/// The output columns so far, and that of an expression.
#[tactic(auto, using(crate::proofs::OutputSteps::nothing_behind))]
fn with_one(
    alloc: Global,
    shown: &Shown,
    building: &Building,
    so_far: Outputs,
    value: &OrTree,
    alias: &Option<Text>,
) -> Result<Outputs, AnalysisFault>
    ensures { SaysSeen outputs_seen result
        (items.with_one (built_by building.now) (place_of shown.now) value.now alias.now (outputs_seen so_far)) }
{
    let column = expression(alloc, shown, building, value, alias, so_far.len());
    with_column(Ok(so_far), column)
}

/// The output columns so far with those of one item more.
#[tactic(auto, using(crate::proofs::OutputSteps::item_steps))]
fn with_item(
    alloc: Global,
    shown: &Shown,
    building: &Building,
    so_far: Outputs,
    item: &ItemTree,
) -> Result<Outputs, AnalysisFault>
    requires { shown.now.columns ≡ columns_of (items_seen shown.now.items) }
    ensures { SaysSeen outputs_seen result
        (next_item (built_by building.now) shown.now (Ok (outputs_seen so_far)) item.now) }
{
    match item {
        ItemTree::All => with_all(alloc, shown, building, so_far),
        ItemTree::AllOf(name) => with_all_of(alloc, shown, building, so_far, name),
        ItemTree::One { value, alias } => with_one(alloc, shown, building, so_far, value, alias),
    }
}

/// The same, where the output columns so far may be refused.
fn with_next(
    alloc: Global,
    shown: &Shown,
    building: &Building,
    so_far: Result<Outputs, AnalysisFault>,
    item: &ItemTree,
) -> Result<Outputs, AnalysisFault>
    requires { shown.now.columns ≡ columns_of (items_seen shown.now.items) }
    ensures { (outcome : Outcome (List Output)) → SaysSeen outputs_seen so_far outcome
        → SaysSeen outputs_seen result (next_item (built_by building.now) shown.now outcome item.now) }
{
    let outputs = so_far?;
    with_item(alloc, shown, building, outputs, item)
}

/// The output columns of the select list.
pub fn output_columns(
    alloc: Global,
    shown: &Shown,
    building: &Building,
    list: &[ItemTree],
) -> Result<Outputs, AnalysisFault>
    requires { shown.now.columns ≡ columns_of (items_seen shown.now.items) }
    ensures { SaysSeen outputs_seen result (outputs_of (built_by building.now) shown.now list.now) }
{
    let mut so_far = Ok(Listing::new(alloc));
    'items: for item in list {
        so_far = with_next(alloc, shown, building, so_far, item);
    }
    so_far
}
