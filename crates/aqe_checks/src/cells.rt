//! Rows written into cells, read back, and kept as the outputs of stages. Places are those of Spark's Murmur3, from a model in Python.

use crate::rows::{rows_of, text_of};
use aqe_base::{MapId, ReduceId, StageId};
use aqe_blocks::{Cells, MapOutput, Outputs, encode};
use aqe_exchange::{write_hash, write_single};
use aqe_expr::Expr;
use aqe_logical::{Exprs, SortKey, SortKeys};
use aqe_ranges::{bounds, sample, write_range};
use aqe_values::{Row, Rows, SortWay, Value};
use std::alloc::Global;
use std::test::Fail;

/// The rows of the cells, each copied out of what is lent, with a bar behind each cell.
fn cells_text(alloc: Global, output: &MapOutput) -> Result<String, Fail> {
    let mut text = String::new(alloc);
    for r in 0..output.reducers() {
        let mut rows = Rows::new(alloc);
        for row in output.rows(ReduceId(r)) {
            rows.push(row.to_row(alloc)?)?;
        }
        let cell = text_of(alloc, rows.slice())?;
        text.push_str(cell.as_str())?;
        text.push('|')?;
    }
    Ok(text)
}

/// The first column as the keys of an exchange.
fn first_column(alloc: Global) -> Result<Exprs, Fail> {
    let mut keys = Exprs::new(alloc);
    keys.push(Expr::Column(0))?;
    Ok(keys)
}

/// The rows in four cells by the hash of their first column.
fn spread(alloc: Global, rows: &str) -> Result<String, Fail> {
    let keys = first_column(alloc)?;
    if keys.len() > 1000 {
        return Err(Fail::new("many keys"));
    }
    let output = write_hash(alloc, &rows_of(alloc, rows)?, &keys, 4)?;
    cells_text(alloc, &output)
}

/// The first column, upwards, as the key of an order.
fn upwards(alloc: Global) -> Result<SortKeys, Fail> {
    let mut keys = SortKeys::new(alloc);
    keys.push(SortKey {
        expr: Expr::Column(0),
        way: SortWay {
            descending: false,
            nulls_last: false,
        },
    })?;
    Ok(keys)
}

/// The rows in four cells by ranges of the keys, whose bounds are those of a sample of all keys.
fn by_ranges(alloc: Global, keys: &SortKeys, rows: &Rows) -> Result<MapOutput, Fail> {
    if keys.len() > 1000 {
        return Err(Fail::new("many keys"));
    }
    let samples = sample(alloc, rows, keys)?;
    let bounds = bounds(alloc, &samples, keys, 4)?;
    Ok(write_range(alloc, rows, keys, &bounds, 4)?)
}

/// The rows in four cells by ranges of their first column.
fn ranged(alloc: Global, rows: &str) -> Result<String, Fail> {
    let output = by_ranges(alloc, &upwards(alloc)?, &rows_of(alloc, rows)?)?;
    cells_text(alloc, &output)
}

/// Bounds of the five keys NULL, 1, 1, 2, 3 in order are those at 1, 2 and 3: 1, 1 and 2.
#[test]
fn rows_stand_in_the_cells_of_their_places(rt: HostRuntime) -> Result<(), Fail> {
    let alloc = rt.alloc();
    for (rows, by_hash, by_range) in [
        ("", "||||", "||||"),
        (
            "1,a;2,b;1,c;3,d;~,e",
            "||2,b;~,e|1,a;1,c;3,d|",
            "1,a;1,c;~,e||2,b|3,d|",
        ),
    ] {
        assert_eq!(rt; spread(alloc, rows)?.as_str(), by_hash);
        assert_eq!(rt; ranged(alloc, rows)?.as_str(), by_range);
    }
    Ok(())
}

#[test]
fn one_cell_has_all_rows(rt: HostRuntime) -> Result<(), Fail> {
    let alloc = rt.alloc();
    for (rows, cells) in [("", "|"), ("1,a;~,~;1,a", "1,a;~,~;1,a|")] {
        let output = write_single(alloc, &rows_of(alloc, rows)?)?;
        assert_eq!(rt; cells_text(alloc, &output)?.as_str(), cells);
    }
    Ok(())
}

/// A row of so many numbers.
fn wide_row(alloc: Global, width: i32) -> Result<Row, Fail> {
    let mut row = Row::new(alloc);
    for i in 0..width {
        if row.len() < 1024 {
            row.push(Value::Int(i))?;
        }
    }
    Ok(row)
}

/// A row of this width, written into a cell and read back.
fn read_back(alloc: Global, width: i32) -> Result<Row, Fail> {
    let mut rows = Rows::new(alloc);
    rows.push(wide_row(alloc, width)?)?;
    let mut cells = Cells::new(alloc);
    cells.push(rows)?;
    let output = encode(alloc, &cells)?;
    match output.rows(ReduceId(0)).next() {
        Some(row) => Ok(row.to_row(alloc)?),
        None => Err(Fail::new("no row")),
    }
}

#[test]
fn rows_of_any_width_read_back(rt: HostRuntime) -> Result<(), Fail> {
    let alloc = rt.alloc();
    for width in [0, 1, 2, 1023, 1024] {
        assert!(rt; read_back(alloc, width)? == wide_row(alloc, width)?);
    }
    Ok(())
}

/// Whether so many maps of a stage are kept, with so many bytes and rows.
fn is_kept(outputs: &Outputs, stage: u32, maps: usize, size: u128, rows: u128) -> bool {
    let stage = StageId(stage);
    if outputs.maps(stage) == 0 {
        return maps == 0;
    }
    outputs.maps(stage) == maps && outputs.total(stage) == size && outputs.row_count(stage) == rows
}

#[test]
fn outputs_are_kept_and_handed_out(rt: HostRuntime) -> Result<(), Fail> {
    let alloc = rt.alloc();
    let mut outputs = Outputs::new(alloc);
    assert!(rt; is_kept(&outputs, 7, 0, 0, 0));
    let written = write_single(alloc, &rows_of(alloc, "1;2;a")?)?;
    outputs.keep(StageId(7), MapId(2), written)?;
    assert!(rt; is_kept(&outputs, 7, 1, 16, 3));
    assert!(rt; is_kept(&outputs, 2, 0, 0, 0));
    let released = outputs.release(StageId(7), MapId(2));
    assert_eq!(rt; cells_text(alloc, &released)?.as_str(), "1;2;a|");
    assert!(rt; is_kept(&outputs, 7, 0, 0, 0));
    Ok(())
}
