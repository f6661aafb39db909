//! What a call makes of values, one after the other.
#![tactic(auto, using(std::proofs::lemmas::Int::wraps))]

ghost use Rattle.std.specs.Prelude.{◌≡◌, OnOk};
ghost use Rattle.aqe_expr.specs.Numbers.{number_of};
ghost use Rattle.aqe_values.specs.Order.{way_cmp};
ghost use Rattle.aqe_logical.specs.Groups as spec;

use aqe_logical::AggFun;
use aqe_values::{Memory, SortWay, Value, compare};
use std::alloc::Global;
use std::cmp::Ordering;

const LEAST_FIRST: SortWay = SortWay {
    descending: false,
    nulls_last: true,
};

const GREATEST_FIRST: SortWay = SortWay {
    descending: true,
    nulls_last: true,
};

/// The number that an INT or a BIGINT is.
fn number(value: &Value) -> Option<i64>
    ensures { result ≡ number_of value.now }
{
    match value {
        Value::Int(n) => Some(*n as i64),
        Value::BigInt(n) => Some(*n),
        _ => None,
    }
}

/// A count, or zero where the value is none.
fn number_or_zero(value: &Value) -> i64
    ensures { result ≡ spec.number_or_zero value.now }
{
    match value {
        Value::Int(n) => *n as i64,
        Value::BigInt(n) => *n,
        _ => 0,
    }
}

/// The total of two numbers, each of which may be missing.
fn total(a: Option<i64>, b: Option<i64>) -> Value
    ensures { result ≡ spec.total_of a b }
{
    match (a, b) {
        (None, None) => Value::Null,
        (Some(a), None) => Value::BigInt(a),
        (None, Some(b)) => Value::BigInt(b),
        (Some(a), Some(b)) => Value::BigInt(a.wrapping_add(b)),
    }
}

/// The count of one value: NULL counts for nothing.
fn count(value: &Value) -> i64
    ensures { spec.single AggFun.Count value.now ≡ Value.BigInt result }
{
    match value {
        Value::Null => 0,
        _ => 1,
    }
}

/// What a call makes of no row.
pub(crate) fn nothing(fun: AggFun) -> Value
    ensures { result ≡ spec.nothing fun }
{
    match fun {
        AggFun::Count => Value::BigInt(0),
        AggFun::Sum | AggFun::Min | AggFun::Max => Value::Null,
    }
}

/// What a call makes of one value of its argument.
pub(crate) fn single(fun: AggFun, value: Value) -> Value
    ensures { result ≡ spec.single fun value }
{
    match fun {
        AggFun::Count => Value::BigInt(count(&value)),
        AggFun::Sum => total(number(&value), None),
        AggFun::Min | AggFun::Max => value,
    }
}

/// Whether a value stands behind another under a way of sorting.
fn is_behind(a: &Value, b: &Value, way: SortWay) -> bool
    ensures { result ≡ spec.is_greater (way_cmp way a.now b.now) }
{
    compare(a, b, way) == Ordering::Greater
}

/// The count of both.
fn counted(a: &Value, b: &Value) -> Value
    ensures { result ≡ spec.merged AggFun.Count a.now b.now }
{
    Value::BigInt(number_or_zero(a).wrapping_add(number_or_zero(b)))
}

/// The sum of both.
fn summed(a: &Value, b: &Value) -> Value
    ensures { result ≡ spec.merged AggFun.Sum a.now b.now }
{
    total(number(a), number(b))
}

/// Merges a part into what a call made so far.
pub(crate) fn merge(fun: AggFun, value: &mut Value, part: Value)
    ensures { value.new ≡ spec.merged fun value.old part }
{
    match fun {
        AggFun::Count => *value = counted(value, &part),
        AggFun::Sum => *value = summed(value, &part),
        AggFun::Min => {
            if is_behind(value, &part, LEAST_FIRST) {
                *value = part;
            }
        }
        AggFun::Max => {
            if is_behind(value, &part, GREATEST_FIRST) {
                *value = part;
            }
        }
    }
}

/// Merges a part that is lent, which is copied only where it takes the place of the least or greatest.
pub(crate) fn merge_lent(
    alloc: Global,
    fun: AggFun,
    value: &mut Value,
    part: &Value,
) -> Result<(), Memory>
    ensures { OnOk result (value.new ≡ spec.merged fun value.old part.now) }
{
    match fun {
        AggFun::Count => *value = counted(value, part),
        AggFun::Sum => *value = summed(value, part),
        AggFun::Min => {
            if is_behind(value, part, LEAST_FIRST) {
                *value = part.copy(alloc)?;
            }
        }
        AggFun::Max => {
            if is_behind(value, part, GREATEST_FIRST) {
                *value = part.copy(alloc)?;
            }
        }
    }
    Ok(())
}
