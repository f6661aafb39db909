//! The stable sort of rows.

ghost use Rattle.std.specs.Prelude.{◌≡◌, ◌∷◌, ◌++◌, [], map, IfOk, OnOk};
ghost use Rattle.aqe_logical.specs.Order.{before};
ghost use Rattle.aqe_places.specs.Sorting.{stable_sort};
ghost use Rattle.aqe_sorting.specs.Pairs.{keyed, rows_in};

use crate::keys::{compare_keys, key_values};
use aqe_base::Memory;
use aqe_logical::{SortKey, SortKeys};
use aqe_values::{Listing, Row, Rows, Value};
use std::alloc::Global;

/// A row beside the values of the sort keys over it.
#[derive(Drop)]
struct Keyed {
    key: Listing<Value>,
    row: Row,
}

/// The rows in the order of the sort keys. Rows that tie stay in their order.
///
/// Rows move and are not copied, and each key is evaluated once a row.
pub fn sort_rows(alloc: Global, keys: &SortKeys, rows: Rows) -> Result<Rows, Memory>
    ensures { IfOk result (λ sorted. sorted ≡ stable_sort (before keys.now) rows) }
{
    match sorted(alloc, keys, rows) {
        Ok(rows) => Ok(rows),
        Err(_) => Err(Memory),
    }
}

fn sorted(alloc: Global, keys: &SortKeys, rows: Rows) -> Result<Rows, aqe_values::Memory>
    ensures { IfOk result (λ sorted. sorted ≡ stable_sort (before keys.now) rows) }
{
    let mut pairs = with_keys(alloc, keys, rows)?;
    pairs.sort_by(|a, b| compare_keys(keys, a.key.slice(), b.key.slice()))?;
    rows_of(alloc, pairs)
}

/// Each row beside its key row.
fn with_keys(alloc: Global, keys: &SortKeys, rows: Rows) -> Result<Vec<Keyed>, aqe_values::Memory>
    ensures { IfOk result (λ pairs. pairs.items ≡ map (keyed keys.now) rows) }
{
    let mut pairs = Vec::with_capacity(alloc, rows.len())?;
    'rows: for row in rows.into_vec() {
        push_keyed(alloc, &mut pairs, keys.slice(), row)?;
    }
    Ok(pairs)
}

fn push_keyed(
    alloc: Global,
    pairs: &mut Vec<Keyed>,
    keys: &[SortKey],
    row: Row,
) -> Result<(), aqe_values::Memory>
    ensures { OnOk result (pairs.new.items ≡ pairs.old.items ++ keyed keys.now row ∷ []) }
{
    let key = key_values(alloc, keys, &row)?;
    pairs.push(Keyed { key, row })?;
    Ok(())
}

/// The rows without their key rows.
fn rows_of(alloc: Global, pairs: Vec<Keyed>) -> Result<Rows, aqe_values::Memory>
    ensures { IfOk result (λ rows. rows ≡ rows_in pairs.items) }
{
    let mut rows = Vec::with_capacity(alloc, pairs.len())?;
    'pairs: for pair in pairs {
        rows.push(pair.row)?;
    }
    Ok(Rows::from_vec(rows))
}
