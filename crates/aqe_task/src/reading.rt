//! The rows that tables and kept outputs lend.

ghost use Rattle.std.specs.Prelude.{◌≡◌, ◌≤◌, ◌<◌, ◌++◌, ℕ, [], length, slice_index_or, None, IfOk, OnOk, IsSome};
ghost use Rattle.aqe_blocks.specs.Kept.{output_at};
ghost use Rattle.aqe_operators.specs.Lent.{lent_rows};
ghost use Rattle.aqe_stages.specs.Parts.{file_rows};
ghost use Rattle.aqe_estimates.specs.LoadedTables.{tables_of};
ghost use Rattle.aqe_task.specs.Pieces.{rows_in, AreFirstCells, AreKept, kept_cell, kept_column, kept_rows};

use crate::part_rows::PartRows;
use aqe_base::{MapId, Memory, Rect, ReduceId, StageId};
use aqe_blocks::Outputs;
use aqe_tables::Tables;
use aqe_values::Row;
use std::alloc::Global;

/// The rows of a file of a loaded table.
fn file_of(tables: &Tables, table: u32, file: u32) -> &[Row]
    requires { file < length (slice_index_or (tables_of tables.now) table []) }
    ensures { result.now ≡ file_rows (tables_of tables.now) table file }
{
    tables.rows(table, file).slice()
}

/// The rows of a file of a table of so many files. A table without files has one part, which has no row.
pub(crate) fn scanned<'a>(
    alloc: Global,
    tables: &'a Tables,
    table: u32,
    files: u32,
    k: u32,
) -> Result<PartRows<'a>, Memory>
    requires { files ≡ length (slice_index_or (tables_of tables.now) table []) }
    ensures { IfOk result (λ rows. rows_in rows ≡ file_rows (tables_of tables.now) table k) }
{
    let mut pieces = Vec::new(alloc);
    if k < files {
        pieces.push(file_of(tables, table, k))?;
    }
    Ok(PartRows::Lent(pieces))
}

/// The rows that the map of a stage keeps for a reducer.
fn cell_at(outputs: &Outputs, stage: StageId, m: u32, r: u32) -> &[Row]
    requires { IsSome (output_at outputs.now stage.0 m) }
    ensures { result.now ≡ kept_cell outputs.now stage.0 m r }
{
    outputs.output(stage, MapId(m)).cell(ReduceId(r))
}

/// Appends the cells of a reducer, from one map up to another.
fn lend_column<'a>(
    outputs: &'a Outputs,
    stage: StageId,
    m0: u32,
    m1: u32,
    r: u32,
    pieces: &mut Vec<&'a [Row]>,
) -> Result<(), Memory>
    requires { AreKept outputs.now stage.0 m0 m1 }
    ensures { OnOk result (lent_rows pieces.new.items
        ≡ lent_rows pieces.old.items ++ kept_column outputs.now stage.0 m0 m1 r) }
{
    'maps: for m in m0..m1 {
        pieces.push(cell_at(outputs, stage, m, r))?;
    }
    Ok(())
}

/// The rows of a rectangle of the cells of a stage: by reducer, and those of a reducer by map.
pub(crate) fn read<'a>(
    alloc: Global,
    outputs: &'a Outputs,
    stage: StageId,
    rect: Rect,
) -> Result<PartRows<'a>, Memory>
    requires { AreKept outputs.now stage.0 rect.m0 rect.m1 }
    ensures { IfOk result (λ rows. rows_in rows ≡ kept_rows outputs.now stage.0 rect) }
{
    let mut pieces = Vec::new(alloc);
    'reducers: for r in rect.r0..rect.r1 {
        lend_column(outputs, stage, rect.m0, rect.m1, r, &mut pieces)?;
    }
    Ok(PartRows::Lent(pieces))
}

/// The number of maps in front of the first whose output is not kept.
fn count_maps(outputs: &Outputs, stage: StageId) -> Result<u32, Memory>
    ensures kept { IfOk result (λ n. AreKept outputs.now stage.0 0 n) }
    ensures end { IfOk result (λ n. output_at outputs.now stage.0 n ≡ None) }
{
    'maps: for m in 0..u32::MAX {
        if !outputs.is_kept(stage, MapId(m)) {
            return Ok(m);
        }
    }
    // No memory holds so many outputs.
    Err(Memory)
}

/// All rows of a stage whose maps have one cell each, map by map.
pub(crate) fn read_all<'a>(
    alloc: Global,
    outputs: &'a Outputs,
    stage: StageId,
) -> Result<PartRows<'a>, Memory>
    ensures { IfOk result (λ rows. AreFirstCells outputs.now stage.0 (rows_in rows)) }
{
    let maps = count_maps(outputs, stage)?;
    let mut pieces = Vec::new(alloc);
    lend_column(outputs, stage, 0, maps, 0, &mut pieces)?;
    Ok(PartRows::Lent(pieces))
}
