//! The order of values under one key of a sort.

ghost use Rattle.std.specs.Prelude.{◌≡◌};
ghost use Rattle.aqe_values.specs.Order.{null_cmp, way_cmp};
ghost use Rattle.aqe_values.specs.KeyOrder.{first_column, key_order, other_columns};

use crate::{Listing, Row, Value};
use std::cmp::Ordering;

/// How one key of a sort orders its values.
#[derive(Clone, Copy, Debug, PartialEq, Eq, Drop)]
pub struct SortWay {
    /// Whether greater values come first. NULLs are not moved by it.
    pub descending: bool,
    /// Whether NULLs come after all other values; else they come before them.
    pub nulls_last: bool,
}

/// The ways of the keys of a sort, in their order.
pub type SortWays = Listing<SortWay>;

/// The order of two values under a way of sorting.
pub fn compare(a: &Value, b: &Value, way: SortWay) -> Ordering
    ensures { result ≡ way_cmp way a.now b.now }
{
    match (a, b) {
        (Value::Null, Value::Null) => Ordering::Equal,
        (Value::Null, _) => null_against_value(way),
        (_, Value::Null) => null_against_value(way).reverse(),
        (a, b) => {
            let order = a.cmp(b);
            if way.descending {
                order.reverse()
            } else {
                order
            }
        }
    }
}

fn null_against_value(way: SortWay) -> Ordering
    ensures { result ≡ null_cmp way }
{
    if way.nulls_last {
        Ordering::Greater
    } else {
        Ordering::Less
    }
}

/// The first value of a row, or NULL, against that of another row.
fn compare_first(a: &[Value], b: &[Value], way: SortWay) -> Ordering
    ensures { result ≡ way_cmp way (first_column a.now) (first_column b.now) }
{
    let missing = Value::Null;
    compare(
        a.first().unwrap_or(&missing),
        b.first().unwrap_or(&missing),
        way,
    )
}

/// The values behind the first one.
fn behind_first(row: &[Value]) -> &[Value]
    ensures { result.now ≡ other_columns row.now }
{
    match row.split_first() {
        Some((_, rest)) => rest,
        None => row,
    }
}

fn compare_columns(a: &[Value], b: &[Value], ways: &[SortWay]) -> Ordering
    ensures { result ≡ key_order ways.now a.now b.now }
{
    let mut left = a;
    let mut right = b;
    'ways: for way in ways {
        let order = compare_first(left, right, *way);
        if order != Ordering::Equal {
            return order;
        }
        left = behind_first(left);
        right = behind_first(right);
    }
    Ordering::Equal
}

/// The order of two key rows under the ways of their columns. A row that is too short goes on in NULLs.
pub fn compare_keys(a: &Row, b: &Row, ways: &[SortWay]) -> Ordering
    ensures { result ≡ key_order ways.now a.now b.now }
{
    compare_columns(a.values(), b.values(), ways)
}
