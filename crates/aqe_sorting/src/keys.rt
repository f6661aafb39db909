//! Key rows: the values of the sort keys over a row, and their order.

ghost use Rattle.std.specs.Prelude.{◌≡◌, ◌≤◌, length, IfOk};
ghost use Rattle.aqe_logical.specs.Order.{key_of, ways_of};
ghost use Rattle.aqe_values.specs.Bounds.{row_limit};
ghost use Rattle.aqe_values.specs.KeyOrder.{first_column, key_order, other_columns};
ghost use Rattle.aqe_values.specs.Order.{way_cmp};

use aqe_base::Memory;
use aqe_expr::eval;
use aqe_logical::{SortKey, SortKeys};
use aqe_values::{Listing, Row, SortWay, Value, compare};
use std::alloc::Global;
use std::cmp::Ordering;

/// The key row of a row: the values of the sort keys over it, the first key first. Each key is evaluated once.
pub fn key_row(alloc: Global, keys: &SortKeys, row: &Row) -> Result<Row, Memory>
    requires { length keys.now ≤ row_limit }
    ensures { IfOk result (λ key. key ≡ key_of keys.now row.now) }
{
    match row_of_keys(alloc, keys.slice(), row) {
        Ok(key) => Ok(key),
        Err(_) => Err(Memory),
    }
}

fn row_of_keys(alloc: Global, keys: &[SortKey], row: &Row) -> Result<Row, aqe_values::Memory>
    requires { length keys.now ≤ row_limit }
    ensures { IfOk result (λ key. key ≡ key_of keys.now row.now) }
{
    let mut values = Row::new(alloc);
    'keys: for key in keys {
        let value = eval(alloc, &key.expr, row)?;
        values.push(value)?;
    }
    Ok(values)
}

/// The values of a key row, which may be more than a row has room for.
pub(crate) fn key_values(
    alloc: Global,
    keys: &[SortKey],
    row: &Row,
) -> Result<Listing<Value>, aqe_values::Memory>
    ensures { IfOk result (λ values. values ≡ key_of keys.now row.now) }
{
    let mut values = Listing::new(alloc);
    'keys: for key in keys {
        let value = eval(alloc, &key.expr, row)?;
        values.push(value)?;
    }
    Ok(values)
}

/// The first value of a key row, or NULL, against that of another.
fn compare_first(a: &[Value], b: &[Value], way: SortWay) -> Ordering
    ensures { result ≡ way_cmp way (first_column a.now) (first_column b.now) }
{
    let missing = Value::Null;
    compare(
        a.first().unwrap_or(&missing),
        b.first().unwrap_or(&missing),
        way,
    )
}

/// The values behind the first one.
fn behind_first(key: &[Value]) -> &[Value]
    ensures { result.now ≡ other_columns key.now }
{
    match key.split_first() {
        Some((_, rest)) => rest,
        None => key,
    }
}

/// The order of two key rows: the first key by which they differ decides, by its way.
///
/// A key row that is too short goes on in NULLs, so that any two compare.
pub fn compare_keys(keys: &SortKeys, a: &[Value], b: &[Value]) -> Ordering
    ensures { result ≡ key_order (ways_of keys.now) a.now b.now }
{
    let mut left = a;
    let mut right = b;
    'keys: for key in keys.slice() {
        let order = compare_first(left, right, key.way);
        if order != Ordering::Equal {
            return order;
        }
        left = behind_first(left);
        right = behind_first(right);
    }
    Ordering::Equal
}
