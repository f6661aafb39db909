//! The sizes of rows, by which plans are chosen.

ghost use Rattle.std.specs.Prelude.{◌≡◌, ◌≤◌, length};
ghost use Rattle.aqe_values.specs.Bounds.{row_limit};
ghost use Rattle.aqe_values.specs.Sizes.{value_size, row_size_of};

use crate::{Row, Value};

/// The size of a row in bytes: exact, uncompressed, and the same as in the bytes that an exchange keeps of it.
pub fn row_size(row: &Row) -> u128
    ensures { result ≡ row_size_of row.now }
{
    size_of_values(row.values())
}

fn size_of_values(values: &[Value]) -> u128
    requires { length values.now ≤ row_limit }
    ensures { result ≡ row_size_of values.now }
{
    let mut size = 0u128;
    'values: for value in values {
        size += size_of_value(value);
    }
    size
}

fn size_of_value(value: &Value) -> u128
    ensures value { result ≡ value_size value.now }
    ensures bound { result ≤ 67108869 }
{
    match value {
        Value::Null => 1,
        Value::Boolean(_) => 2,
        Value::Int(_) => 5,
        Value::BigInt(_) => 9,
        Value::Text(text) => 5 + text.as_str().len() as u128,
    }
}
