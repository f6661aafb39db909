//! Arithmetic over INT and BIGINT values.
#![tactic(auto, using(std::proofs::lemmas::Int::wraps))]

ghost use Rattle.std.specs.Prelude.{◌≡◌};
ghost use Rattle.aqe_scalar.specs.Numbers.{number_of, arithmetic, whole_quotient, negated, sum_of, difference_of, product_of, remainder_of};

use aqe_values::Value;

/// `a + b`
pub fn sum(a: &Value, b: &Value) -> Value
    ensures { result ≡ arithmetic sum_of a.now b.now }
{
    match (a, b) {
        (Value::Int(a), Value::Int(b)) => Value::Int(a.wrapping_add(*b)),
        _ => match (number(a), number(b)) {
            (Some(a), Some(b)) => Value::BigInt(a.wrapping_add(b)),
            _ => Value::Null,
        },
    }
}

/// `a - b`
pub fn difference(a: &Value, b: &Value) -> Value
    ensures { result ≡ arithmetic difference_of a.now b.now }
{
    match (a, b) {
        (Value::Int(a), Value::Int(b)) => Value::Int(a.wrapping_sub(*b)),
        _ => match (number(a), number(b)) {
            (Some(a), Some(b)) => Value::BigInt(a.wrapping_sub(b)),
            _ => Value::Null,
        },
    }
}

/// `a * b`
pub fn product(a: &Value, b: &Value) -> Value
    ensures { result ≡ arithmetic product_of a.now b.now }
{
    match (a, b) {
        (Value::Int(a), Value::Int(b)) => Value::Int(a.wrapping_mul(*b)),
        _ => match (number(a), number(b)) {
            (Some(a), Some(b)) => Value::BigInt(a.wrapping_mul(b)),
            _ => Value::Null,
        },
    }
}

/// `a % b`
pub fn remainder(a: &Value, b: &Value) -> Value
    ensures { result ≡ arithmetic remainder_of a.now b.now }
{
    match (a, b) {
        (Value::Int(a), Value::Int(b)) if *b != 0 => Value::Int(a.wrapping_rem(*b)),
        (Value::Int(_), Value::Int(_)) => Value::Null,
        _ => match (number(a), number(b)) {
            (Some(a), Some(b)) if b != 0 => Value::BigInt(a.wrapping_rem(b)),
            _ => Value::Null,
        },
    }
}

/// `a DIV b`
#[tactic(auto, using(crate::proofs::Quotients::quotients))]
pub fn quotient(a: &Value, b: &Value) -> Value
    ensures { result ≡ whole_quotient a.now b.now }
{
    match (number(a), number(b)) {
        (Some(a), Some(b)) if b != 0 => Value::BigInt(a.wrapping_div(b)),
        _ => Value::Null,
    }
}

/// `- a`
pub fn negation(a: &Value) -> Value
    ensures { result ≡ negated a.now }
{
    match a {
        Value::Int(n) => Value::Int(n.wrapping_neg()),
        Value::BigInt(n) => Value::BigInt(n.wrapping_neg()),
        _ => Value::Null,
    }
}

/// The number that an INT or a BIGINT is.
fn number(value: &Value) -> Option<i64>
    ensures { result ≡ number_of value.now }
{
    match value {
        Value::Int(n) => Some(*n as i64),
        Value::BigInt(n) => Some(*n),
        _ => None,
    }
}
