//! Rows that are lent, without a copy of their values.

ghost use Rattle.std.specs.Prelude.{◌≡◌, ◌<◌, length, IfOk, slice_index_or};
ghost use Rattle.std.specs.Iterator.{YieldsFirst, item_count};
ghost use Rattle.aqe_values.specs.declared.value.Value.TheVariants.{Null as NullValue};
ghost use Rattle.aqe_blocks.specs.Lent.{seen};

use aqe_base::Memory;
use aqe_values::{Row, Value};
use std::alloc::Global;
use std::marker::Model;

/// A value that is lent. A text is lent as its UTF-8 bytes.
#[derive(Clone, Copy, Debug, Drop)]
pub enum ValueRef<'a> {
    /// NULL.
    Null,
    /// A BOOLEAN.
    Boolean(bool),
    /// An INT.
    Int(i32),
    /// A BIGINT.
    BigInt(i64),
    /// A STRING.
    Text(&'a [u8]),
}

/// A row that is lent, which contracts see as the list of its values.
#[derive(Drop)]
pub struct RowRef<'a> {
    row: &'a Row,
}

impl<'a> Model for RowRef<'a> {
    ghost use Rattle.std.specs.Prelude.{List};
    ghost use Rattle.aqe_values.specs.declared.value.Value.{Value as ValueData};

    ghost Value = { List ValueData };

    ghost view = { λ r. r.row.now };
}

/// The rows of a cell in turn, which contracts see as the list of the rows that are left.
#[derive(Drop)]
pub struct RowsIter<'a> {
    rows: &'a [Row],
}

impl<'a> Model for RowsIter<'a> {
    ghost use Rattle.std.specs.Prelude.{List};
    ghost use Rattle.aqe_values.specs.declared.value.Value.{Value as ValueData};

    ghost Value = { List (List ValueData) };

    ghost view = { λ i. i.rows.now };
}

fn lent(value: &Value) -> ValueRef<'_>
    ensures { seen result ≡ value.now }
{
    match value {
        Value::Null => ValueRef::Null,
        Value::Boolean(b) => ValueRef::Boolean(*b),
        Value::Int(n) => ValueRef::Int(*n),
        Value::BigInt(n) => ValueRef::BigInt(*n),
        Value::Text(text) => ValueRef::Text(text.as_str().as_bytes()),
    }
}

impl<'a> RowRef<'a> {
    /// The value at a place from 0.
    pub fn value(&self, i: u32) -> ValueRef<'_>
        requires { i < length self.now }
        ensures { seen result ≡ slice_index_or self.now i NullValue }
    {
        lent(self.row.at(i as usize))
    }

    /// The row as one of its own.
    pub fn to_row(&self, alloc: Global) -> Result<Row, Memory>
        ensures { IfOk result (λ row. row ≡ self.now) }
    {
        match self.row.copy(alloc) {
            Ok(row) => Ok(row),
            Err(_) => Err(Memory),
        }
    }
}

impl<'a> RowsIter<'a> {
    /// Lends these rows.
    pub(crate) fn over(rows: &'a [Row]) -> RowsIter<'a>
        ensures { result ≡ rows.now }
    {
        RowsIter { rows }
    }
}

impl<'a> Iterator for RowsIter<'a> {
    type Item = RowRef<'a>;

    ghost next_gives = { YieldsFirst (λ s. s) };

    ghost remaining = { item_count (λ s. s) };

    fn next(&mut self) -> Option<RowRef<'a>> {
        let (row, others) = self.rows.split_first()?;
        self.rows = others;
        Some(RowRef { row })
    }
}
