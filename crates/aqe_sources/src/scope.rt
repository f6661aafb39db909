//! FROM: its plan, its items, and the columns that it shows.

ghost use Rattle.std.specs.Prelude.{◌≡◌, ◌++◌, length, IfOk};
ghost use Rattle.aqe_expr.specs.declared.expr.Expr.{Column};
ghost use Rattle.aqe_rules.specs.Operations.{typed};
ghost use Rattle.aqe_rules.specs.Sources as spec;
ghost use Rattle.aqe_sources.specs.Given.{Gives};
ghost use Rattle.aqe_sources.specs.Seen.{items_seen};

use aqe_base::Listing;
use aqe_expr::Expr;
use aqe_logical::Logical;
use aqe_rules::{AnalysisFault, Named, Typed};
use aqe_values::{Field, Memory, Schema, Text};
use std::alloc::Global;

/// An item of FROM: its name, where it has one, and its columns.
#[derive(Drop)]
pub struct FromItem {
    pub name: Option<Text>,
    pub columns: Schema,
}

/// A plan, and the items that its columns belong to, from left to right.
#[derive(Drop)]
pub struct FromPlan {
    pub plan: Logical,
    pub items: Listing<FromItem>,
}

/// A copy of a name, where there is one.
pub fn copy_name(alloc: Global, name: &Option<Text>) -> Result<Option<Text>, Memory>
    ensures { IfOk result (λ n. n ≡ name.now) }
{
    match name {
        Some(name) => {
            let name = Text::copy_of(alloc, name.as_str())?;
            Ok(Some(name))
        }
        None => Ok(None),
    }
}

/// The column at a place, as one of an item. Places above 4,294,967,295 find no memory.
fn column(alloc: Global, item: &Option<Text>, place: usize, field: &Field) -> Result<Named, Memory>
    ensures { IfOk result (λ c. c ≡ record { item = item.now; name = field.now.name; value = typed (Column place) field.now.kind }) }
{
    let Ok(place) = u32::try_from(place) else {
        return Err(Memory);
    };
    let item = copy_name(alloc, item)?;
    let name = Text::copy_of(alloc, field.name.as_str())?;
    let value = Typed {
        expr: Expr::Column(place),
        kind: field.kind,
    };
    Ok(Named { item, name, value })
}

/// Appends the columns of an item, numbered on from those before.
fn append_columns(
    alloc: Global,
    columns: &mut Listing<Named>,
    item: &FromItem,
) -> Result<(), AnalysisFault>
    ensures { Gives result (λ _. columns.new ≡ columns.old ++ spec.numbered item.now.name (length columns.old) item.now.columns) }
{
    'fields: for field in item.columns.slice() {
        let column = column(alloc, &item.name, columns.len(), field)?;
        columns.push(column)?;
    }
    Ok(())
}

/// Appends the columns of items, numbered on from those before.
fn append_items(
    alloc: Global,
    columns: &mut Listing<Named>,
    items: &[FromItem],
) -> Result<(), AnalysisFault>
    ensures { Gives result (λ _. columns.new ≡ columns.old ++ spec.columns_from (length columns.old) (items_seen items.now)) }
{
    'items: for item in items {
        append_columns(alloc, columns, item)?;
    }
    Ok(())
}

/// The columns that FROM shows, from left to right.
pub fn columns_of(alloc: Global, items: &[FromItem]) -> Result<Listing<Named>, AnalysisFault>
    ensures { Gives result (λ all. all ≡ spec.columns_of (items_seen items.now)) }
{
    let mut columns = Listing::new(alloc);
    append_items(alloc, &mut columns, items)?;
    Ok(columns)
}

/// The columns of the items of both sides of a join, from left to right.
#[tactic(auto, using(crate::proofs::ColumnLists::both_sides))]
pub(crate) fn columns_of_both(
    alloc: Global,
    left: &[FromItem],
    right: &[FromItem],
) -> Result<Listing<Named>, AnalysisFault>
    ensures { Gives result (λ all. all ≡ spec.columns_of (items_seen left.now ++ items_seen right.now)) }
{
    let mut columns = Listing::new(alloc);
    append_items(alloc, &mut columns, left)?;
    append_items(alloc, &mut columns, right)?;
    Ok(columns)
}
