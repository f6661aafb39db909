//! The calls that write rows into cells.

ghost use Rattle.std.specs.Prelude.{◌≡◌, ◌∷◌, ◌<◌, ◌≤◌, [], length, IfOk, OnOk};
ghost use Rattle.aqe_exchange.specs.Parts.{with_row};
ghost use Rattle.aqe_places.specs.Places.{by_hash, exchanged, single};
ghost use Rattle.aqe_values.specs.Bounds.{row_limit};

use crate::key::place_by_hash;
use crate::parts::Parts;
use aqe_base::Memory;
use aqe_blocks::{Cells, MapOutput, copy_of_rows, measured};
use aqe_expr::Expr;
use aqe_logical::Exprs;
use aqe_values::{Row, Rows};
use std::alloc::Global;

/// Puts a row into the cell of its place.
fn add_by_hash(
    alloc: Global,
    parts: &mut Parts,
    keys: &[Expr],
    n: u32,
    row: Row,
) -> Result<(), Memory>
    requires keys { length keys.now ≤ row_limit }
    requires parts { 1 ≤ n }
    requires cells { length parts.old ≡ n }
    ensures { OnOk result (parts.new ≡ with_row parts.old (by_hash n keys.now row) row) }
{
    let place = place_by_hash(alloc, keys, n, &row)?;
    parts.add(place, row)
}

/// Puts a copy of a row into the cell of its place.
fn copy_by_hash(
    alloc: Global,
    parts: &mut Parts,
    keys: &[Expr],
    n: u32,
    row: &Row,
) -> Result<(), Memory>
    requires keys { length keys.now ≤ row_limit }
    requires parts { 1 ≤ n }
    requires cells { length parts.old ≡ n }
    ensures { OnOk result (parts.new ≡ with_row parts.old (by_hash n keys.now row.now) row.now) }
{
    match row.copy(alloc) {
        Ok(row) => add_by_hash(alloc, parts, keys, n, row),
        Err(_) => Err(Memory),
    }
}

/// Writes rows into the cells of their places by hash. The rows move into them.
#[tactic(auto, using(crate::proofs::Placing::none_yet, crate::proofs::Placing::so_many, crate::proofs::Placing::placed_more))]
pub fn spread_hash(alloc: Global, rows: Rows, keys: &Exprs, n: u32) -> Result<MapOutput, Memory>
    requires keys { length keys.now ≤ row_limit }
    requires parts { 1 ≤ n }
    ensures { IfOk result (λ cells. cells ≡ exchanged (by_hash n keys.now) n rows) }
{
    let mut parts = Parts::new(alloc, n)?;
    'rows: for row in rows.into_vec() {
        add_by_hash(alloc, &mut parts, keys.slice(), n, row)?;
    }
    parts.into_output(alloc)
}

/// Writes copies of rows into the cells of their places by hash.
#[tactic(auto, using(crate::proofs::Placing::none_yet, crate::proofs::Placing::so_many, crate::proofs::Placing::placed_next))]
pub fn write_hash(alloc: Global, rows: &Rows, keys: &Exprs, n: u32) -> Result<MapOutput, Memory>
    requires keys { length keys.now ≤ row_limit }
    requires parts { 1 ≤ n }
    ensures { IfOk result (λ cells. cells ≡ exchanged (by_hash n keys.now) n rows.now) }
{
    let mut parts = Parts::new(alloc, n)?;
    'rows: for row in rows.slice() {
        copy_by_hash(alloc, &mut parts, keys.slice(), n, row)?;
    }
    parts.into_output(alloc)
}

/// Writes rows into one cell. The rows move into it.
pub fn spread_single(alloc: Global, rows: Rows) -> Result<MapOutput, Memory>
    ensures { IfOk result (λ cells. cells ≡ rows ∷ []) }
{
    let mut cells = Cells::new(alloc);
    cells.push(rows)?;
    measured(alloc, cells)
}

/// Writes copies of rows into one cell.
pub fn write_single(alloc: Global, rows: &Rows) -> Result<MapOutput, Memory>
    ensures { IfOk result (λ cells. cells ≡ rows.now ∷ []) }
{
    let copied = copy_of_rows(alloc, rows.slice())?;
    spread_single(alloc, copied)
}
