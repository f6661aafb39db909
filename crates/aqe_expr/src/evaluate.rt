//! The value of an expression over a row.

ghost use Rattle.std.specs.Prelude.{◌≡◌, IfOk, option_map, slice_index_or};
ghost use Rattle.aqe_scalar.specs.Casts.{as_text};
ghost use Rattle.aqe_expr.specs.Seen.{value_of};
ghost use Rattle.aqe_scalar.specs.Truths as truths;
ghost use Rattle.aqe_expr.specs.Meaning as spec;

use crate::seen::Seen;
use crate::{BinaryOp, CasePairs, Expr, Operands, UnaryOp};
use aqe_boxes::{all_three, both};
use aqe_like::likes;
use aqe_scalar::{
    Truth, as_bigint, as_boolean, as_int, as_text, at_least, at_most, between, character_count,
    difference, differs, either, equals, greater, is_false, is_known_true, is_null, less, negation,
    opposite, product, quotient, remainder, sum, truth, truth_of, truth_value,
};
use aqe_values::{Memory, Row, Value};
use std::alloc::Global;

/// The value of the expression over the row, for any expression and any row.
///
/// A column that the row lacks is NULL, and so is an operand of a type that its operation does not
/// take. Only a text that is part of the answer is copied.
pub fn eval(alloc: Global, expr: &Expr, row: &Row) -> Result<Value, Memory>
    ensures { IfOk result (λ v. v ≡ spec.val row.now expr.now) }
{
    let seen = look(alloc, expr, row)?;
    seen.into_value(alloc)
}

#[cycle(look)]
fn look<'a>(alloc: Global, expr: &'a Expr, row: &'a Row) -> Result<Seen<'a>, Memory>
    ensures { IfOk result (λ s. value_of s ≡ spec.val row.now expr.now) }
{
    match expr {
        Expr::Column(n) => {
            let seen = column(row, *n);
            Ok(seen)
        }
        Expr::Literal(value) => Ok(Seen::Lent(value)),
        Expr::Unary { op, arg } => {
            let a = look(alloc, arg.get(), row)?;
            unary(alloc, *op, a)
        }
        Expr::Binary { op, left, right } => {
            let (a, b) = both(look(alloc, left.get(), row), look(alloc, right.get(), row))?;
            Ok(Seen::Made(binary(*op, a, b)))
        }
        Expr::Between { value, low, high } => {
            let (v, a, b) = all_three(
                look(alloc, value.get(), row),
                look(alloc, low.get(), row),
                look(alloc, high.get(), row),
            )?;
            Ok(Seen::Made(within(v, a, b)))
        }
        Expr::OneOf { value, list } => {
            let v = look(alloc, value.get(), row)?;
            let found = in_list(alloc, v.get(), list, row)?;
            Ok(Seen::Made(truth_value(found)))
        }
        Expr::Case { pairs, otherwise } => match first_true(alloc, pairs, row)? {
            Some(seen) => Ok(seen),
            None => look(alloc, otherwise.get(), row),
        },
        Expr::Switch {
            operand,
            pairs,
            otherwise,
        } => {
            let v = look(alloc, operand.get(), row)?;
            match first_equal(alloc, v.get(), pairs, row)? {
                Some(seen) => Ok(seen),
                None => look(alloc, otherwise.get(), row),
            }
        }
        Expr::Coalesce(list) => first_present(alloc, list, row),
    }
}

/// Whether the value is in the list.
#[cycle(look)]
fn in_list(alloc: Global, value: &Value, list: &Operands, row: &Row) -> Result<Truth, Memory>
    ensures { IfOk result (λ t. t ≡ spec.in_list row.now value.now list.now) }
{
    let mut found = Some(false);
    let mut rest = list;
    'items: while let Operands::More { item, rest: more } = rest {
        let candidate = look(alloc, item.get(), row)?;
        found = either(found, is_equal(value, candidate));
        if is_known_true(found) {
            return Ok(found);
        }
        rest = more.get();
    }
    Ok(found)
}

/// The result of the first pair whose condition is true.
#[cycle(look)]
fn first_true<'a>(
    alloc: Global,
    pairs: &'a CasePairs,
    row: &'a Row,
) -> Result<Option<Seen<'a>>, Memory>
    ensures { IfOk result (λ s. option_map value_of s ≡ spec.first_true row.now pairs.now) }
{
    let mut rest = pairs;
    'pairs: while let CasePairs::More {
        test,
        gives,
        rest: more,
    } = rest
    {
        let condition = look(alloc, test.get(), row)?;
        if is_true(condition) {
            let seen = look(alloc, gives.get(), row)?;
            return Ok(Some(seen));
        }
        rest = more.get();
    }
    Ok(None)
}

/// The result of the first pair whose value equals the value.
#[cycle(look)]
fn first_equal<'a>(
    alloc: Global,
    value: &Value,
    pairs: &'a CasePairs,
    row: &'a Row,
) -> Result<Option<Seen<'a>>, Memory>
    ensures { IfOk result (λ s. option_map value_of s ≡ spec.first_equal row.now value.now pairs.now) }
{
    let mut rest = pairs;
    'pairs: while let CasePairs::More {
        test,
        gives,
        rest: more,
    } = rest
    {
        let candidate = look(alloc, test.get(), row)?;
        if is_known_true(is_equal(value, candidate)) {
            let seen = look(alloc, gives.get(), row)?;
            return Ok(Some(seen));
        }
        rest = more.get();
    }
    Ok(None)
}

/// The first value that is not NULL.
#[cycle(look)]
fn first_present<'a>(alloc: Global, list: &'a Operands, row: &'a Row) -> Result<Seen<'a>, Memory>
    ensures { IfOk result (λ s. value_of s ≡ spec.first_present row.now list.now) }
{
    let mut rest = list;
    'items: while let Operands::More { item, rest: more } = rest {
        let seen = look(alloc, item.get(), row)?;
        if !seen.is_null() {
            return Ok(seen);
        }
        rest = more.get();
    }
    Ok(Seen::Made(Value::Null))
}

/// The value of a column, or NULL where the row has no such column.
fn column(row: &Row, n: u32) -> Seen<'_>
    ensures { value_of result ≡ slice_index_or row.now n Value.Null }
{
    let n = n as usize;
    if n < row.len() {
        Seen::Lent(row.at(n))
    } else {
        Seen::Made(Value::Null)
    }
}

/// The value of an operation on one value.
fn unary<'a>(alloc: Global, op: UnaryOp, a: Seen<'a>) -> Result<Seen<'a>, Memory>
    ensures { IfOk result (λ s. value_of s ≡ spec.unary_value op (value_of a.entry)) }
{
    let value = match op {
        UnaryOp::Neg => negation(a.get()),
        UnaryOp::Not => truth_value(opposite(truth_of(a.get()))),
        UnaryOp::IsNull => Value::Boolean(is_null(a.get())),
        UnaryOp::IsTrue => Value::Boolean(truth(a.get())),
        UnaryOp::IsFalse => Value::Boolean(is_false(a.get())),
        UnaryOp::Length => character_count(a.get()),
        UnaryOp::CastInt => as_int(a.get()),
        UnaryOp::CastBigInt => as_bigint(a.get()),
        UnaryOp::CastText => return text_of(alloc, a),
        UnaryOp::CastBoolean => as_boolean(a.get()),
    };
    Ok(Seen::Made(value))
}

/// CAST AS STRING, which leaves a text as it is.
fn text_of(alloc: Global, a: Seen<'_>) -> Result<Seen<'_>, Memory>
    ensures { IfOk result (λ s. value_of s ≡ as_text (value_of a.entry)) }
{
    if let Value::Text(_) = a.get() {
        return Ok(a);
    }
    let value = as_text(alloc, a.get())?;
    Ok(Seen::Made(value))
}

/// The value of an operation on two values.
fn binary(op: BinaryOp, a: Seen<'_>, b: Seen<'_>) -> Value
    ensures { result ≡ spec.binary_value op (value_of a.entry) (value_of b.entry) }
{
    binary_value(op, a.get(), b.get())
}

/// The value of BETWEEN.
fn within(value: Seen<'_>, low: Seen<'_>, high: Seen<'_>) -> Value
    ensures { result ≡ truths.truth_value (truths.between (value_of value.entry) (value_of low.entry) (value_of high.entry)) }
{
    truth_value(between(value.get(), low.get(), high.get()))
}

/// Whether the two values are equal.
fn is_equal(value: &Value, candidate: Seen<'_>) -> Truth
    ensures { result ≡ truths.equals value.now (value_of candidate.entry) }
{
    equals(value, candidate.get())
}

/// Whether the value is true.
fn is_true(condition: Seen<'_>) -> bool
    ensures { result ≡ truths.is_true (value_of condition.entry) }
{
    truth(condition.get())
}

/// The value of an operation on two values.
fn binary_value(op: BinaryOp, a: &Value, b: &Value) -> Value
    ensures { result ≡ spec.binary_value op a.now b.now }
{
    match op {
        BinaryOp::Add => sum(a, b),
        BinaryOp::Sub => difference(a, b),
        BinaryOp::Mul => product(a, b),
        BinaryOp::Rem => remainder(a, b),
        BinaryOp::Div => quotient(a, b),
        BinaryOp::Eq => truth_value(equals(a, b)),
        BinaryOp::Same => Value::Boolean(*a == *b),
        BinaryOp::Ne => truth_value(differs(a, b)),
        BinaryOp::Lt => truth_value(less(a, b)),
        BinaryOp::Le => truth_value(at_most(a, b)),
        BinaryOp::Gt => truth_value(greater(a, b)),
        BinaryOp::Ge => truth_value(at_least(a, b)),
        BinaryOp::And => truth_value(aqe_scalar::both(truth_of(a), truth_of(b))),
        BinaryOp::Or => truth_value(either(truth_of(a), truth_of(b))),
        BinaryOp::Like => like_value(a, b),
    }
}

/// LIKE between texts; NULL where one of the values is none.
fn like_value(a: &Value, b: &Value) -> Value
    ensures { result ≡ spec.like_value a.now b.now }
{
    match (a, b) {
        (Value::Text(text), Value::Text(pattern)) => Value::Boolean(likes(text, pattern)),
        _ => Value::Null,
    }
}
