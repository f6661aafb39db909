//! Groups, which gather rows as they come.

ghost use Rattle.std.specs.Prelude.{◌≡◌, ◌≤◌, ◌+◌, ◌++◌, All, fold, map, length, unwrap_or, IfOk, OnOk};
ghost use Rattle.std.specs.Map.{lookup};
ghost use Rattle.indexmap.specs.IndexMap.{insert_entry};
ghost use Rattle.aqe_values.specs.Bounds.{row_limit};
ghost use Rattle.aqe_values.specs.Equality.{row_eq};
ghost use Rattle.aqe_operators.specs.Forms.{IsNarrow};
ghost use Rattle.aqe_operators.specs.Lent.{lent_rows};
ghost use Rattle.aqe_operators.specs.Gathering.{IsWhole, started, stepped, with_row, begun, gathered, flat};

use crate::form::Form;
use crate::tally::Tally;
use aqe_logical::AggCall;
use aqe_values::{Memory, Row, Rows};
use indexmap::IndexMap;
use indexmap::map::Entry;
use std::alloc::Global;

/// The groups by their keys, in order of first appearance.
pub(crate) type Groups = IndexMap<Row, Tally>;

/// Adds a row to the group of its key.
fn add_to_group(
    alloc: Global,
    form: &Form<'_>,
    calls: &[AggCall],
    groups: &mut Groups,
    key: Row,
    row: &Row,
) -> Result<(), Memory>
    requires width { IsNarrow form.now calls.now }
    requires calls { length (unwrap_or (lookup (row_eq key) groups.old.entries) (started calls.now)) ≡ length calls.now }
    ensures { OnOk result (groups.new.entries ≡ insert_entry row_eq groups.old.entries key
        (stepped form.now 0 calls.now (unwrap_or (lookup (row_eq key) groups.old.entries) (started calls.now)) row.now)) }
{
    match groups.entry(key)? {
        Entry::Occupied(group) => group.into_mut().add(alloc, form, calls, row),
        Entry::Vacant(place) => {
            place.insert(Tally::of_row(alloc, form, calls, row)?);
            Ok(())
        }
    }
}

/// The groups of no row: without keys there is one.
fn begin(alloc: Global, form: &Form<'_>, calls: &[AggCall]) -> Result<Groups, Memory>
    ensures { IfOk result (λ groups. groups.entries ≡ begun form.now calls.now) }
{
    let mut groups = IndexMap::new(alloc);
    if form.width() == 0 {
        groups.insert(Row::new(alloc), Tally::start(alloc, calls)?)?;
    }
    Ok(groups)
}

/// Adds a row.
fn add_row(
    alloc: Global,
    form: &Form<'_>,
    calls: &[AggCall],
    groups: &mut Groups,
    row: &Row,
) -> Result<(), Memory>
    requires width { IsNarrow form.now calls.now }
    requires groups { All (IsWhole form.now calls.now) groups.old.entries }
    ensures { OnOk result (groups.new.entries ≡ with_row form.now calls.now groups.old.entries row.now) }
{
    let key = form.key_of(alloc, row)?;
    add_to_group(alloc, form, calls, groups, key, row)
}

/// Adds the rows of a piece.
#[tactic(auto, using(crate::proofs::Taken::folded_more))]
fn add_rows(
    alloc: Global,
    form: &Form<'_>,
    calls: &[AggCall],
    groups: &mut Groups,
    rows: &[Row],
) -> Result<(), Memory>
    requires width { IsNarrow form.now calls.now }
    requires groups { All (IsWhole form.now calls.now) groups.old.entries }
    ensures { OnOk result (groups.new.entries ≡ fold (with_row form.now calls.now) groups.old.entries rows.now) }
{
    'rows: for row in rows {
        add_row(alloc, form, calls, groups, row)?;
    }
    Ok(())
}

/// The groups of the lent rows.
#[tactic(auto, using(crate::proofs::Taken::folded_piece))]
pub(crate) fn gather(
    alloc: Global,
    form: &Form<'_>,
    calls: &[AggCall],
    pieces: &[&[Row]],
) -> Result<Groups, Memory>
    requires { IsNarrow form.now calls.now }
    ensures { IfOk result (λ groups. groups.entries ≡ gathered form.now calls.now (lent_rows pieces.now)) }
{
    let mut groups = begin(alloc, form, calls)?;
    'pieces: for piece in pieces {
        add_rows(alloc, form, calls, &mut groups, piece)?;
    }
    Ok(groups)
}

/// A group as a row.
fn group_row(key: Row, tally: Tally) -> Result<Row, Memory>
    requires { length key + length tally ≤ row_limit }
    ensures { IfOk result (λ row. row ≡ key ++ tally) }
{
    let mut row = key;
    'values: for value in tally.values {
        row.push(value)?;
    }
    Ok(row)
}

/// The groups as rows.
pub(crate) fn into_rows(alloc: Global, groups: Groups) -> Result<Rows, Memory>
    requires { All (λ group. length group.0 + length group.1 ≤ row_limit) groups.entries }
    ensures { IfOk result (λ rows. rows ≡ map flat groups.entries) }
{
    let mut rows = Rows::new(alloc);
    'groups: for (key, tally) in groups {
        rows.push(group_row(key, tally)?)?;
    }
    Ok(rows)
}
