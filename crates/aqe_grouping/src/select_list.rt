//! Places in a select list whose stars are spread out.

ghost use Rattle.std.specs.Prelude.{◌≡◌, List, [], ◌∷◌};
ghost use Rattle.aqe_rules.specs.Expressions.{read};
ghost use Rattle.aqe_rules.specs.Sources.{over};
ghost use Rattle.aqe_rules.specs.declared.names.Named.{Named};
ghost use Rattle.aqe_grouping.specs.Places as spec;
ghost use Rattle.aqe_grouping.specs.Places.{IsAt, shown_value, shown_values, item_values, list_values};

use aqe_rules::{Named, is_of};
use aqe_trees::{ItemTree, OrTree};

/// What stands at a place.
#[derive(Clone, Copy, Drop)]
pub(crate) enum Landing<'a> {
    /// A column of FROM.
    Column(&'a Named),
    /// An expression of the list.
    Expression(&'a OrTree),
    /// Nothing: the place is so far behind the last one that has something.
    Behind(usize),
}

/// Whether the column is one of those that the item stands for.
fn is_shown(item: &ItemTree, column: &Named) -> bool
    ensures { result ≡ spec.is_shown item.now column.now }
{
    match item {
        ItemTree::All => true,
        ItemTree::AllOf(name) => is_of(name, column),
        ItemTree::One { .. } => false,
    }
}

/// A place from a column on, which counts where the item stands for it.
#[tactic(auto, using(crate::proofs::PlaceSteps::column_steps))]
fn at_column<'a>(item: &ItemTree, column: &'a Named, place: usize) -> Landing<'a>
    ensures { (columns : List Named) → IsAt columns (shown_value item.now column.now) place result }
{
    if !is_shown(item, column) {
        return Landing::Behind(place);
    }
    match place.checked_sub(1) {
        Some(left) => Landing::Behind(left),
        None => Landing::Column(column),
    }
}

/// A place among the columns that the item stands for.
fn among_columns<'a>(item: &ItemTree, columns: &'a [Named], place: usize) -> Landing<'a>
    ensures { IsAt columns.now (shown_values item.now columns.now) place result }
{
    let mut rest = columns;
    let mut left = place;
    'columns: while let Some((column, more)) = rest.split_first() {
        match at_column(item, column, left) {
            Landing::Behind(less) => left = less,
            found => return found,
        }
        rest = more;
    }
    Landing::Behind(left)
}

/// A place from an expression on.
#[tactic(auto, using(crate::proofs::PlaceSteps::value_steps))]
fn at_expression<'a>(value: &'a OrTree, place: usize) -> Landing<'a>
    ensures { (columns : List Named) → IsAt columns ((read value.now (over columns)).value ∷ []) place result }
{
    match place.checked_sub(1) {
        Some(left) => Landing::Behind(left),
        None => Landing::Expression(value),
    }
}

/// A place from an item on.
#[tactic(auto, using(crate::proofs::PlaceSteps::item_steps))]
fn at_item<'a>(columns: &'a [Named], item: &'a ItemTree, place: usize) -> Landing<'a>
    ensures { IsAt columns.now (item_values columns.now item.now) place result }
{
    match item {
        ItemTree::All => among_columns(item, columns, place),
        ItemTree::AllOf(_) => among_columns(item, columns, place),
        ItemTree::One { value, .. } => at_expression(value, place),
    }
}

/// A place in the list.
pub(crate) fn in_list<'a>(columns: &'a [Named], list: &'a [ItemTree], place: usize) -> Landing<'a>
    ensures { IsAt columns.now (list_values columns.now list.now) place result }
{
    let mut rest = list;
    let mut left = place;
    'items: while let Some((item, more)) = rest.split_first() {
        match at_item(columns, item, left) {
            Landing::Behind(less) => left = less,
            found => return found,
        }
        rest = more;
    }
    Landing::Behind(left)
}
