//! The output of a map.

ghost use Rattle.std.specs.Prelude.{◌≡◌, ◌<◌, ◌^◌, length, IfOk};
ghost use Rattle.aqe_blocks.specs.Cells.{IsMeasured, cell_of, size_of_cell, size_of_cells, rows_of_cells};

use crate::cell::{Sums, copy_of_rows};
use crate::row_ref::RowsIter;
use aqe_base::{Listing, Memory, ReduceId};
use aqe_values::{Row, Rows};
use std::alloc::Global;
use std::marker::Model;

/// Cells in the order of their reducers.
pub type Cells = Listing<Rows>;

/// What a map wrote: a cell of rows for each reducer, which contracts see as the list of these cells.
///
/// The size and the number of rows of all its cells together are below 2^64.
#[derive(Drop)]
pub struct MapOutput {
    cells: Cells,
    sums: Sums,
}

impl Model for MapOutput {
    ghost use Rattle.std.specs.Prelude.{List, ◌<◌, ◌^◌, length};
    ghost use Rattle.aqe_blocks.specs.Cells.{CellData, IsMeasured};

    ghost Value = { List CellData };

    ghost view = { λ o. o.cells };

    ghost invariant = { λ o. IsMeasured o.cells o.sums.sizes.items o.sums.size o.sums.rows × (length o.cells < 2 ^ 32) };
}

impl MapOutput {
    /// The number of cells.
    pub fn reducers(&self) -> u32
        ensures { result ≡ length self.now }
    {
        self.cells.len() as u32
    }

    /// The rows of the cell of a reducer.
    pub fn rows(&self, r: ReduceId) -> RowsIter<'_>
        requires { r.0 < length self.now }
        ensures { result ≡ cell_of self.now r.0 }
    {
        RowsIter::over(self.cells.at(r.0 as usize).slice())
    }

    /// The rows of the cell of a reducer as a list that is lent; none of a reducer that is not there.
    pub fn cell(&self, r: ReduceId) -> &[Row]
        ensures { result.now ≡ cell_of self.now r.0 }
    {
        match self.cells.slice().get(r.0 as usize) {
            Some(rows) => rows.slice(),
            None => &[],
        }
    }

    /// The size of the cell of a reducer in bytes.
    pub fn cell_size(&self, r: ReduceId) -> u128
        requires { r.0 < length self.now }
        ensures { result ≡ size_of_cell (cell_of self.now r.0) }
    {
        self.sums.sizes[r.0 as usize] as u128
    }

    /// The number of rows of the cell of a reducer.
    pub fn cell_rows(&self, r: ReduceId) -> u64
        requires { r.0 < length self.now }
        ensures { result ≡ length (cell_of self.now r.0) }
    {
        self.cells.at(r.0 as usize).len() as u64
    }

    /// The size of all cells together in bytes.
    pub fn size(&self) -> u64
        ensures { result ≡ size_of_cells self.now }
    {
        self.sums.size
    }

    /// The number of rows of all cells together.
    pub fn count(&self) -> u64
        ensures { result ≡ rows_of_cells self.now }
    {
        self.sums.rows
    }
}

/// The sizes of these cells.
#[tactic(auto, using(crate::proofs::Measures::measured_more))]
fn sums_of(alloc: Global, cells: &[Rows]) -> Result<Sums, Memory>
    ensures { IfOk result (λ sums. IsMeasured cells.now sums.sizes.items sums.size sums.rows) }
{
    let mut sums = Sums::new(alloc);
    'cells: for rows in cells {
        sums.add(rows.slice())?;
    }
    Ok(sums)
}

/// The output with these cells, whose rows move into it.
///
/// It is want of memory where their sizes would be 2^64 or more, which no memory holds.
pub fn measured(alloc: Global, cells: Cells) -> Result<MapOutput, Memory>
    requires { length cells < 2 ^ 32 }
    ensures { IfOk result (λ output. output ≡ cells) }
{
    let sums = sums_of(alloc, cells.slice())?;
    Ok(MapOutput { cells, sums })
}

/// The output with copies of these cells.
pub fn encode(alloc: Global, cells: &Cells) -> Result<MapOutput, Memory>
    requires { length cells.now < 2 ^ 32 }
    ensures { IfOk result (λ output. output ≡ cells.now) }
{
    let copied = copy_of_cells(alloc, cells.slice())?;
    let output = measured(alloc, copied)?;
    Ok(output)
}

fn copy_of_cells(alloc: Global, cells: &[Rows]) -> Result<Cells, Memory>
    ensures { IfOk result (λ copy. copy ≡ cells.now) }
{
    let mut copied = Cells::new(alloc);
    'cells: for rows in cells {
        copied.push(copy_of_rows(alloc, rows.slice())?)?;
    }
    Ok(copied)
}
