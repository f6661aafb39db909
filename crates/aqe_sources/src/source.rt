//! What FROM reads: a table, or a query.

ghost use Rattle.std.specs.Prelude.{◌≡◌, [], ◌∷◌, Some, IfOk};
ghost use Rattle.std.specs.Option.{unwrap_or};
ghost use Rattle.aqe_logical.specs.declared.plan.Logical.{Logical, OneRow};
ghost use Rattle.aqe_rules.specs.Outcomes.{Outcome};
ghost use Rattle.aqe_rules.specs.Faults.{Says};
ghost use Rattle.aqe_rules.specs.Sources as spec;
ghost use Rattle.aqe_sources.specs.Catalogs.{seen};
ghost use Rattle.aqe_sources.specs.Given.{Gives};
ghost use Rattle.aqe_sources.specs.Seen.{from_seen, SaysSeen};

use crate::limits::within_limits;
use crate::scope::{FromItem, FromPlan, copy_name};
use aqe_base::{AnalysisKind, Listing};
use aqe_logical::{Logical, copy_schema, schema_of};
use aqe_rules::{AnalysisFault, refused};
use aqe_tables::Catalog;
use aqe_values::{Memory, Schema, Text};
use std::alloc::Global;

/// One row without columns, where there is no FROM.
pub fn one_row(alloc: Global) -> FromPlan
    ensures { from_seen result ≡ spec.from_of OneRow [] }
{
    FromPlan {
        plan: Logical::OneRow,
        items: Listing::new(alloc),
    }
}

/// The plan with its one item.
fn one_item(
    alloc: Global,
    plan: Logical,
    name: Option<Text>,
    columns: Schema,
) -> Result<FromPlan, AnalysisFault>
    ensures { Gives result (λ f. from_seen f ≡ spec.from_of plan (spec.item name columns ∷ [])) }
{
    let mut items = Listing::new(alloc);
    items.push(FromItem { name, columns })?;
    Ok(FromPlan { plan, items })
}

/// The name of a table's item: its alias, else its own name.
fn item_name(alloc: Global, name: &Text, alias: &Option<Text>) -> Result<Text, Memory>
    ensures { IfOk result (λ n. n ≡ unwrap_or alias.now name.now) }
{
    match alias {
        Some(alias) => Text::copy_of(alloc, alias.as_str()),
        None => Text::copy_of(alloc, name.as_str()),
    }
}

/// The scan of a table.
fn scanned(
    alloc: Global,
    name: &Text,
    alias: &Option<Text>,
    table: u32,
    schema: &Schema,
) -> Result<FromPlan, AnalysisFault>
    ensures { SaysSeen from_seen result (spec.scanned name.now alias.now (Some (table, schema.now))) }
{
    let name = item_name(alloc, name, alias)?;
    let columns = copy_schema(alloc, schema)?;
    let schema = copy_schema(alloc, schema)?;
    let plan = within_limits(Logical::Scan { table, schema })?;
    let from = one_item(alloc, plan, Some(name), columns)?;
    Ok(from)
}

/// A table of the catalog.
pub fn table_source(
    alloc: Global,
    name: &Text,
    alias: &Option<Text>,
    catalog: &Catalog,
) -> Result<FromPlan, AnalysisFault>
    ensures { SaysSeen from_seen result (spec.table_source name.now alias.now (seen catalog.now)) }
{
    match catalog.find(name) {
        Some(table) => scanned(alloc, name, alias, table, catalog.schema(table)),
        None => Err(refused(alloc, AnalysisKind::NoSuchTable, name.as_str())),
    }
}

/// A query in FROM, whose plan is known or refused.
pub fn query_source(
    alloc: Global,
    alias: &Option<Text>,
    query: Result<Logical, AnalysisFault>,
) -> Result<FromPlan, AnalysisFault>
    ensures { (outcome : Outcome Logical) → Says query outcome → SaysSeen from_seen result (spec.query_source alias.now outcome) }
{
    let plan = query?;
    let name = copy_name(alloc, alias)?;
    let columns = schema_of(alloc, &plan)?;
    let from = one_item(alloc, plan, name, columns)?;
    Ok(from)
}
