//! Three-valued logic and comparisons.

ghost use Rattle.std.specs.Prelude.{◌≡◌};
ghost use Rattle.aqe_scalar.specs.Truths as spec;

use aqe_values::Value;
use std::cmp::Ordering;

/// True, false, or not known.
pub type Truth = Option<bool>;

/// Whether the value is `Boolean(true)`, which is when a condition holds.
pub fn truth(value: &Value) -> bool
    ensures { result ≡ spec.is_true value.now }
{
    matches!(value, Value::Boolean(true))
}

/// Whether the value is `Boolean(false)`.
pub fn is_false(value: &Value) -> bool
    ensures { result ≡ spec.is_false value.now }
{
    matches!(value, Value::Boolean(false))
}

/// Whether the value is NULL.
pub fn is_null(value: &Value) -> bool
    ensures { result ≡ spec.is_null value.now }
{
    matches!(value, Value::Null)
}

/// What a BOOLEAN says.
pub fn truth_of(value: &Value) -> Truth
    ensures { result ≡ spec.truth_of value.now }
{
    match value {
        Value::Boolean(b) => Some(*b),
        _ => None,
    }
}

/// The value of a truth.
pub fn truth_value(truth: Truth) -> Value
    ensures { result ≡ spec.truth_value truth }
{
    match truth {
        Some(b) => Value::Boolean(b),
        None => Value::Null,
    }
}

/// Whether the truth is known, and is true.
pub fn is_known_true(truth: Truth) -> bool
    ensures { result ≡ spec.is_known_true truth }
{
    matches!(truth, Some(true))
}

/// `a AND b`
pub fn both(a: Truth, b: Truth) -> Truth
    ensures { result ≡ spec.both a b }
{
    match (a, b) {
        (Some(false), _) | (_, Some(false)) => Some(false),
        (Some(true), Some(true)) => Some(true),
        _ => None,
    }
}

/// `a OR b`
pub fn either(a: Truth, b: Truth) -> Truth
    ensures { result ≡ spec.either a b }
{
    match (a, b) {
        (Some(true), _) | (_, Some(true)) => Some(true),
        (Some(false), Some(false)) => Some(false),
        _ => None,
    }
}

/// `NOT a`
pub fn opposite(a: Truth) -> Truth
    ensures { result ≡ spec.opposite a }
{
    a.map(|b| !b)
}

/// How two values of one type compare.
fn compared(a: &Value, b: &Value) -> Option<Ordering>
    ensures { result ≡ spec.compared a.now b.now }
{
    match (a, b) {
        (Value::Boolean(a), Value::Boolean(b)) => Some(a.cmp(b)),
        (Value::Int(a), Value::Int(b)) => Some(a.cmp(b)),
        (Value::BigInt(a), Value::BigInt(b)) => Some(a.cmp(b)),
        (Value::Text(a), Value::Text(b)) => Some(a.as_str().cmp(b.as_str())),
        _ => None,
    }
}

/// `a = b`
pub fn equals(a: &Value, b: &Value) -> Truth
    ensures { result ≡ spec.equals a.now b.now }
{
    compared(a, b).map(|order| order == Ordering::Equal)
}

/// `a <> b`
pub fn differs(a: &Value, b: &Value) -> Truth
    ensures { result ≡ spec.differs a.now b.now }
{
    opposite(equals(a, b))
}

/// `a < b`
pub fn less(a: &Value, b: &Value) -> Truth
    ensures { result ≡ spec.less a.now b.now }
{
    compared(a, b).map(|order| order == Ordering::Less)
}

/// `a > b`
pub fn greater(a: &Value, b: &Value) -> Truth
    ensures { result ≡ spec.greater a.now b.now }
{
    compared(a, b).map(|order| order == Ordering::Greater)
}

/// `a <= b`
pub fn at_most(a: &Value, b: &Value) -> Truth
    ensures { result ≡ spec.at_most a.now b.now }
{
    opposite(greater(a, b))
}

/// `a >= b`
pub fn at_least(a: &Value, b: &Value) -> Truth
    ensures { result ≡ spec.at_least a.now b.now }
{
    opposite(less(a, b))
}

/// `value BETWEEN low AND high`
pub fn between(value: &Value, low: &Value, high: &Value) -> Truth
    ensures { result ≡ spec.between value.now low.now high.now }
{
    both(at_least(value, low), at_most(value, high))
}
