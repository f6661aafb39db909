//! Rows written into the cells of their ranges.

ghost use Rattle.std.specs.Prelude.{◌≡◌, ◌<◌, ◌≤◌, length, IfOk, OnOk};
ghost use Rattle.std.specs.List.Sorted.{IsSortedBy};
ghost use Rattle.aqe_exchange.specs.Parts.{with_row};
ghost use Rattle.aqe_places.specs.Places.{exchanged};
ghost use Rattle.aqe_ranges.specs.Order.{range_place, key_less};
ghost use Rattle.aqe_values.specs.Bounds.{row_limit};

use crate::place::place_by_range;
use aqe_base::Memory;
use aqe_blocks::MapOutput;
use aqe_exchange::Parts;
use aqe_logical::SortKeys;
use aqe_values::{Row, Rows};
use std::alloc::Global;

/// Puts a row into the cell of its range.
fn add_by_range(
    alloc: Global,
    parts: &mut Parts,
    keys: &SortKeys,
    bounds: &[Row],
    n: u32,
    row: Row,
) -> Result<(), Memory>
    requires keys { length keys.now ≤ row_limit }
    requires order { IsSortedBy (key_less keys.now) bounds.now }
    requires parts { length bounds.now < n }
    requires cells { length parts.old ≡ n }
    ensures { OnOk result (parts.new ≡ with_row parts.old (range_place keys.now bounds.now row) row) }
{
    let place = place_by_range(alloc, keys, bounds, n, &row)?;
    parts.add(place, row)
}

/// Puts a copy of a row into the cell of its range.
fn copy_by_range(
    alloc: Global,
    parts: &mut Parts,
    keys: &SortKeys,
    bounds: &[Row],
    n: u32,
    row: &Row,
) -> Result<(), Memory>
    requires keys { length keys.now ≤ row_limit }
    requires order { IsSortedBy (key_less keys.now) bounds.now }
    requires parts { length bounds.now < n }
    requires cells { length parts.old ≡ n }
    ensures { OnOk result (parts.new ≡ with_row parts.old (range_place keys.now bounds.now row.now) row.now) }
{
    match row.copy(alloc) {
        Ok(row) => add_by_range(alloc, parts, keys, bounds, n, row),
        Err(_) => Err(Memory),
    }
}

/// Writes rows into the cells of their ranges. The rows move into them.
#[tactic(auto, using(aqe_exchange::proofs::Placing::none_yet, aqe_exchange::proofs::Placing::so_many, crate::proofs::Placing::placed_more))]
pub fn spread_range(
    alloc: Global,
    rows: Rows,
    keys: &SortKeys,
    bounds: &Rows,
    n: u32,
) -> Result<MapOutput, Memory>
    requires keys { length keys.now ≤ row_limit }
    requires order { IsSortedBy (key_less keys.now) bounds.now }
    requires parts { length bounds.now < n }
    ensures { IfOk result (λ cells. cells ≡ exchanged (range_place keys.now bounds.now) n rows) }
{
    let mut parts = Parts::new(alloc, n)?;
    'rows: for row in rows.into_vec() {
        add_by_range(alloc, &mut parts, keys, bounds.slice(), n, row)?;
    }
    parts.into_output(alloc)
}

/// Writes copies of rows into the cells of their ranges.
#[tactic(auto, using(aqe_exchange::proofs::Placing::none_yet, aqe_exchange::proofs::Placing::so_many, crate::proofs::Placing::placed_next))]
pub fn write_range(
    alloc: Global,
    rows: &Rows,
    keys: &SortKeys,
    bounds: &Rows,
    n: u32,
) -> Result<MapOutput, Memory>
    requires keys { length keys.now ≤ row_limit }
    requires order { IsSortedBy (key_less keys.now) bounds.now }
    requires parts { length bounds.now < n }
    ensures { IfOk result (λ cells. cells ≡ exchanged (range_place keys.now bounds.now) n rows.now) }
{
    let mut parts = Parts::new(alloc, n)?;
    'rows: for row in rows.slice() {
        copy_by_range(alloc, &mut parts, keys, bounds.slice(), n, row)?;
    }
    parts.into_output(alloc)
}
