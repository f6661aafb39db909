//! The sizes of cells, kept as the cells come.

ghost use Rattle.std.specs.Prelude.{◌≡◌, IfSome, IfOk, OnOk, [], ◌∷◌, ◌++◌, ◌+◌, length};
ghost use Rattle.aqe_values.specs.Sizes.{row_size_of};
ghost use Rattle.aqe_blocks.specs.Cells.{size_of_cell};

use aqe_base::Memory;
use aqe_values::{Row, Rows, row_size};
use std::alloc::Global;

/// A size with one row more, if it is below 2^64.
fn with_row(size: u64, row: &Row) -> Option<u64>
    ensures { IfSome result (λ n. n ≡ size + row_size_of row.now) }
{
    size.checked_add(u64::try_from(row_size(row)).ok()?)
}

/// The size of a cell, if it is below 2^64.
fn size_of_rows(rows: &[Row]) -> Option<u64>
    ensures { IfSome result (λ n. n ≡ size_of_cell rows.now) }
{
    let mut size = 0u64;
    'rows: for row in rows {
        match with_row(size, row) {
            Some(more) => size = more,
            None => return None,
        }
    }
    Some(size)
}

/// What is kept of the cells so far: the size of each, the size of all, and the number of rows.
#[derive(Drop)]
pub(crate) struct Sums {
    pub sizes: Vec<u64>,
    pub size: u64,
    pub rows: u64,
}

impl Sums {
    /// The sums of no cell.
    pub fn new(alloc: Global) -> Sums
        ensures sizes { result.sizes.items ≡ [] }
        ensures sums { (result.size ≡ 0) × (result.rows ≡ 0) }
    {
        Sums {
            sizes: Vec::new(alloc),
            size: 0,
            rows: 0,
        }
    }

    /// Adds a cell. It is want of memory where the rows would have 2^64 bytes or more, which no memory holds.
    pub fn add(&mut self, rows: &[Row]) -> Result<(), Memory>
        ensures sizes { OnOk result (self.new.sizes.items
            ≡ self.old.sizes.items ++ size_of_cell rows.now ∷ []) }
        ensures size { OnOk result (self.new.size ≡ self.old.size + size_of_cell rows.now) }
        ensures rows { OnOk result (self.new.rows ≡ self.old.rows + length rows.now) }
    {
        let Some(size) = size_of_rows(rows) else {
            return Err(Memory);
        };
        let Some(all) = self.size.checked_add(size) else {
            return Err(Memory);
        };
        let Some(count) = self.rows.checked_add(rows.len() as u64) else {
            return Err(Memory);
        };
        self.size = all;
        self.rows = count;
        match self.sizes.push(size) {
            Ok(()) => Ok(()),
            Err(_) => Err(Memory),
        }
    }
}

/// Appends a row.
fn push_row(rows: &mut Rows, row: Row) -> Result<(), Memory>
    ensures { OnOk result (rows.new ≡ rows.old ++ row ∷ []) }
{
    match rows.push(row) {
        Ok(()) => Ok(()),
        Err(_) => Err(Memory),
    }
}

/// Rows equal to these.
pub fn copy_of_rows(alloc: Global, rows: &[Row]) -> Result<Rows, Memory>
    ensures { IfOk result (λ copy. copy ≡ rows.now) }
{
    let mut copied = Rows::new(alloc);
    'rows: for row in rows {
        match row.copy(alloc) {
            Ok(row) => push_row(&mut copied, row)?,
            Err(_) => return Err(Memory),
        }
    }
    Ok(copied)
}
