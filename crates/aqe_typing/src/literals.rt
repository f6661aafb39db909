//! Literals.

ghost use Rattle.std.specs.Prelude.{◌≡◌, IfOk, Ok};
ghost use Rattle.aqe_rules.specs.Operations as operation;
ghost use Rattle.aqe_rules.specs.Faults.{Says};

use aqe_expr::Expr;
use aqe_rules::{AnalysisFault, Typed};
use aqe_values::{SqlType, Text, Value};
use std::alloc::Global;

/// The BIGINT nearest to a number.
fn nearest(negative: bool, value: u64) -> i64
    ensures { result ≡ operation.nearest negative value }
{
    if !negative {
        return if value > 9_223_372_036_854_775_807 {
            i64::MAX
        } else {
            value as i64
        };
    }
    if value > 9_223_372_036_854_775_807 {
        i64::MIN
    } else {
        -(value as i64)
    }
}

/// A number: INT where its value fits and no letter makes it BIGINT.
pub(crate) fn number(negative: bool, value: u64, long: bool) -> Typed
    ensures { result ≡ operation.number negative value long }
{
    let value = nearest(negative, value);
    if !long && -2_147_483_648 <= value && value <= 2_147_483_647 {
        return Typed {
            expr: Expr::Literal(Value::Int(value as i32)),
            kind: SqlType::Int,
        };
    }
    Typed {
        expr: Expr::Literal(Value::BigInt(value)),
        kind: SqlType::BigInt,
    }
}

/// A text.
pub(crate) fn text(alloc: Global, content: &Text) -> Result<Typed, AnalysisFault>
    ensures { Says result (Ok (operation.text content.now)) }
{
    let content = Text::copy_of(alloc, content.as_str())?;
    Ok(Typed {
        expr: Expr::Literal(Value::Text(content)),
        kind: SqlType::Text,
    })
}

/// TRUE or FALSE.
pub(crate) fn boolean(value: bool) -> Typed
    ensures { result ≡ operation.boolean value }
{
    Typed {
        expr: Expr::Literal(Value::Boolean(value)),
        kind: SqlType::Boolean,
    }
}

/// NULL.
pub(crate) fn null() -> Typed
    ensures { result ≡ operation.null }
{
    Typed {
        expr: Expr::Literal(Value::Null),
        kind: SqlType::NullType,
    }
}
