//! What names mean among columns.

ghost use Rattle.std.specs.Prelude.{◌≡◌, ◌<◌, ◌≤◌, IfOk, length, filter, option_map, List, [], ◌∷◌, ◌++◌};
ghost use Rattle.aqe_values.specs.Bounds.{text_limit};
ghost use Rattle.aqe_rules.specs.Readings as spec;
ghost use Rattle.aqe_rules.specs.Sources.{over};
ghost use Rattle.aqe_rules.specs.Found as found;
ghost use Rattle.aqe_rules.specs.declared.names.Named.{Named};
ghost use Rattle.aqe_rules.specs.Outcomes as outcomes;
ghost use Rattle.aqe_rules.specs.Faults.{Says, Tells};

use crate::AnalysisFault;
use crate::operations::refused;
use crate::typed::Typed;
use aqe_base::AnalysisKind;
use aqe_values::{Memory, Text};
use std::alloc::Global;

/// A column that names may mean.
///
/// Names stand as they were written. Several columns may have one name: then it means none of them.
#[derive(Drop)]
pub struct Named {
    /// The name of the item of FROM that the column is of; none where that has no name or there is
    /// no such item.
    pub item: Option<Text>,
    /// The column's own name.
    pub name: Text,
    /// What the name stands for.
    pub value: Typed,
}

/// The columns that a name may mean.
#[derive(Drop)]
pub(crate) enum Found<'a> {
    /// No column has the name.
    Nothing,
    /// This column alone has it.
    One(&'a Named),
    /// Two columns or more have it.
    Several,
}

/// Whether two names are the same, where ASCII case does not count. Other letters are compared as
/// they stand.
pub fn alike(a: &Text, b: &Text) -> bool
    ensures { result ≡ spec.alike a.now b.now }
{
    a.as_str().eq_ignore_ascii_case(b.as_str())
}

/// Whether the column has the name.
fn bears(name: &Text, column: &Named) -> bool
    ensures { result ≡ spec.bears name.now column.now }
{
    alike(&column.name, name)
}

/// Whether the column is one of an item with the name. A column of no item is of none.
pub fn is_of(table: &Text, column: &Named) -> bool
    ensures { result ≡ spec.is_of table.now column.now }
{
    match &column.item {
        Some(item) => alike(item, table),
        None => false,
    }
}

/// Whether the column has the name and, where an item is told, is one of that item.
fn fits(table: Option<&Text>, name: &Text, column: &Named) -> bool
    ensures { result ≡ found.fits (option_map (λ t. t.now) table.entry) name.now column.now }
{
    match table {
        Some(table) => is_of(table, column) && bears(name, column),
        None => bears(name, column),
    }
}

/// What was found, and one column more.
fn one_more<'a>(so_far: Found<'a>, column: &'a Named) -> Found<'a>
    ensures { (all : List Named) → found.IsFound so_far.entry all → found.IsFound result (all ++ column.now ∷ []) }
{
    match so_far {
        Found::Nothing => Found::One(column),
        Found::One(_) => Found::Several,
        Found::Several => Found::Several,
    }
}

/// The columns that have the name, of an item where one is told.
fn find<'a>(columns: &'a [Named], table: Option<&Text>, name: &Text) -> Found<'a>
    ensures { found.IsFound result (filter (found.fits (option_map (λ t. t.now) table.entry) name.now) columns.now) }
{
    let mut so_far = Found::Nothing;
    'columns: for column in columns {
        if fits(table, name, column) {
            so_far = one_more(so_far, column);
        }
    }
    so_far
}

/// `table.name`, or the name alone where that is longer than a text may be.
fn told(alloc: Global, table: &Text, name: &Text) -> Result<Text, Memory>
    ensures { IfOk result (λ t. t ≡ spec.told table.now name.now) }
{
    let mut whole = String::new(alloc);
    whole.push_str(table.as_str())?;
    whole.push_str(".")?;
    whole.push_str(name.as_str())?;
    if whole.len() <= 67_108_864 {
        Text::copy_of(alloc, whole.as_str())
    } else {
        Text::copy_of(alloc, name.as_str())
    }
}

/// The refusal of a kind that is about a column of an item.
fn about(alloc: Global, kind: AnalysisKind, table: &Text, name: &Text) -> AnalysisFault
    ensures { Tells result (outcomes.refused kind (spec.told table.now name.now)) }
{
    match told(alloc, table, name) {
        Ok(name) => AnalysisFault::Refused { kind, name },
        Err(_) => AnalysisFault::Memory,
    }
}

/// What `table.name` means among the columns. The value is a copy; a refusal tells the name with
/// its item.
#[tactic(auto, using(crate::proofs::FoundSteps::found_steps))]
pub fn column_of_item(
    alloc: Global,
    table: &Text,
    name: &Text,
    columns: &[Named],
) -> Result<Typed, AnalysisFault>
    ensures { Says result (spec.column_of_item table.now name.now (over columns.now)) }
{
    match find(columns, Some(table), name) {
        Found::One(column) => {
            let value = column.value.copy(alloc)?;
            Ok(value)
        }
        Found::Nothing => Err(about(alloc, AnalysisKind::NoSuchColumn, table, name)),
        Found::Several => Err(about(alloc, AnalysisKind::Ambiguous, table, name)),
    }
}

/// What a name means among the columns, where no alias may be used. The value is a copy.
#[tactic(auto, using(crate::proofs::FoundSteps::found_steps))]
pub fn column_named(alloc: Global, name: &Text, columns: &[Named]) -> Result<Typed, AnalysisFault>
    ensures { Says result (spec.column_named name.now (over columns.now)) }
{
    match find(columns, None, name) {
        Found::One(column) => {
            let value = column.value.copy(alloc)?;
            Ok(value)
        }
        Found::Nothing => Err(refused(alloc, AnalysisKind::NoSuchColumn, name.as_str())),
        Found::Several => Err(refused(alloc, AnalysisKind::Ambiguous, name.as_str())),
    }
}
