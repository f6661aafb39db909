//! The bounds of ranges.

ghost use Rattle.std.specs.Prelude.{◌≡◌, ◌<◌, ◌≤◌, ◌∷◌, ◌++◌, [], length, IfOk, OnOk};
ghost use Rattle.std.specs.List.Sorted.{IsSortedBy};
ghost use Rattle.aqe_places.specs.Samples as spec;
ghost use Rattle.aqe_places.specs.Sorting.{stable_sort};
ghost use Rattle.aqe_ranges.specs.Order.{key_less};
ghost use Rattle.aqe_ranges.specs.Lent.{rows_seen};

use crate::spreading::even_place;
use aqe_base::Memory;
use aqe_logical::SortKeys;
use aqe_sorting::compare_keys;
use aqe_values::{Row, Rows};
use std::alloc::Global;

/// Rows lent one by one.
fn lend<'a>(alloc: Global, rows: &'a [Row]) -> Result<Vec<&'a Row>, Memory>
    ensures { IfOk result (λ lent. rows_seen lent.items ≡ rows.now) }
{
    let mut lent = Vec::with_capacity(alloc, rows.len())?;
    'rows: for row in rows {
        lent.push(row)?;
    }
    Ok(lent)
}

/// Key rows in order, lent and not moved.
fn in_order<'a>(alloc: Global, keys: &SortKeys, rows: &'a [Row]) -> Result<Vec<&'a Row>, Memory>
    ensures { IfOk result (λ sorted. rows_seen sorted.items ≡ stable_sort (key_less keys.now) rows.now) }
{
    let mut lent = lend(alloc, rows)?;
    lent.sort_by(|a, b| compare_keys(keys, a.values(), b.values()))?;
    Ok(lent)
}

/// Puts a copy of a row behind others.
fn push_copy(alloc: Global, row: &Row, made: &mut Rows) -> Result<(), Memory>
    ensures { OnOk result (made.new ≡ made.old ++ row.now ∷ []) }
{
    match row.copy(alloc) {
        Ok(row) => push_row(row, made),
        Err(_) => Err(Memory),
    }
}

fn push_row(row: Row, made: &mut Rows) -> Result<(), Memory>
    ensures { OnOk result (made.new ≡ made.old ++ row ∷ []) }
{
    match made.push(row) {
        Ok(()) => Ok(()),
        Err(_) => Err(Memory),
    }
}

/// The bounds among samples in order.
fn bounds_among(alloc: Global, sorted: &[&Row], n: u32) -> Result<Rows, Memory>
    requires { 1 ≤ n }
    ensures { IfOk result (λ made. made ≡ spec.bounds_of n (rows_seen sorted.now)) }
{
    let mut made = Rows::new(alloc);
    if sorted.is_empty() {
        return Ok(made);
    }
    'bounds: for i in 1..n {
        let sample = sorted[even_place(i as usize, sorted.len(), n as usize)];
        push_copy(alloc, sample, &mut made)?;
    }
    Ok(made)
}

/// The bounds of so many ranges, taken evenly from the samples in their order.
///
/// The clauses on their number and order are what writing rows by these bounds asks.
pub fn bounds(alloc: Global, samples: &Rows, keys: &SortKeys, n: u32) -> Result<Rows, Memory>
    requires { 1 ≤ n }
    ensures value { IfOk result (λ made. made ≡ spec.bounds (key_less keys.now) n samples.now) }
    ensures few { IfOk result (λ made. length made < n) }
    ensures order { IfOk result (λ made. IsSortedBy (key_less keys.now) made) }
{
    let sorted = in_order(alloc, keys, samples.slice())?;
    bounds_among(alloc, sorted.as_slice(), n)
}
