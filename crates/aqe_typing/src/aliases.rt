//! Names that may be aliases of a select list, where no column has them.

ghost use Rattle.std.specs.Prelude.{◌≡◌, ◌∷◌, [], MatchOption};
ghost use Rattle.std.specs.List.{list_any};
ghost use Rattle.aqe_rules.specs.Readings as readings;
ghost use Rattle.aqe_rules.specs.Selects.{with_aliases};
ghost use Rattle.aqe_rules.specs.Faults.{Says};
ghost use Rattle.aqe_typing.specs.Calls.{calls_seen};
ghost use Rattle.aqe_typing.specs.Aliases.{under_alias, under_aliases, IsFirst};

use crate::calls::Call;
use crate::levels::or;
use crate::names::{Columns, Names};
use aqe_base::AnalysisKind;
use aqe_rules::{AnalysisFault, Named, Typed, alike, column_named, column_of_item, refused};
use aqe_trees::{ItemTree, OrTree};
use aqe_values::Text;
use std::alloc::Global;

/// A place where a name that no column has may be an alias.
#[derive(Drop)]
pub(crate) struct WithAliases<'a> {
    pub(crate) columns: &'a [Named],
    pub(crate) list: &'a [ItemTree],
}

impl<'a> Names for WithAliases<'a> {
    ghost place = { λ names. with_aliases names.columns.now names.list.now [] };

    fn column(&self, alloc: Global, name: &Text, calls: &[Call]) -> Result<Typed, AnalysisFault> {
        if has_column(name, self.columns) {
            column_named(alloc, name, self.columns)
        } else {
            alias(alloc, name, self.columns, self.list, calls)
        }
    }

    fn column_of(&self, alloc: Global, table: &Text, name: &Text) -> Result<Typed, AnalysisFault> {
        column_of_item(alloc, table, name, self.columns)
    }

    fn width(&self) -> usize {
        self.columns.len()
    }
}

/// Whether a column has the name.
fn has_column(name: &Text, columns: &[Named]) -> bool
    ensures { result ≡ list_any (readings.bears name.now) columns.now }
{
    columns.iter().any(|column| alike(&column.name, name))
}

/// What stands under the alias of the item, where it has the name.
fn value_named<'a>(name: &Text, item: &'a ItemTree) -> Option<&'a OrTree>
    ensures { MatchOption result (under_alias name.now item.now ≡ [])
        (λ value. under_alias name.now item.now ≡ value.now ∷ []) }
{
    match item {
        ItemTree::One {
            value,
            alias: Some(own),
        } => { if alike(own, name) { Some(value) } else { None } }
        _ => None,
    }
}

/// What stands under the first alias that has the name, and the items behind it.
fn first_named<'a>(name: &Text, list: &'a [ItemTree]) -> Option<(&'a OrTree, &'a [ItemTree])>
    ensures { MatchOption result (under_aliases name.now list.now ≡ [])
        (λ found. IsFirst name.now list.now found.0.now found.1.now) }
{
    let mut rest = list;
    'items: while let Some((item, more)) = rest.split_first() {
        if let Some(value) = value_named(name, item) {
            return Some((value, more));
        }
        rest = more;
    }
    None
}

/// What an alias means: its expression is read over the columns alone, where these calls may stand.
#[tactic(auto, using(crate::proofs::AliasSteps::alias_steps))]
fn alias(
    alloc: Global,
    name: &Text,
    columns: &[Named],
    list: &[ItemTree],
    calls: &[Call],
) -> Result<Typed, AnalysisFault>
    ensures { Says result (readings.alias_value name.now (with_aliases columns.now list.now (calls_seen calls.now))) }
{
    let Some((value, behind)) = first_named(name, list) else {
        return Err(refused(alloc, AnalysisKind::NoSuchColumn, name.as_str()));
    };
    match first_named(name, behind) {
        Some(_) => Err(refused(alloc, AnalysisKind::Ambiguous, name.as_str())),
        None => or(alloc, value, &Columns { columns }, calls),
    }
}
