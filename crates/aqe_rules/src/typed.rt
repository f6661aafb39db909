//! Expressions with their types, and the types that operations ask for.

ghost use Rattle.std.specs.Prelude.{◌≡◌, IfOk};
ghost use Rattle.aqe_rules.specs.Kinds as kinds;
ghost use Rattle.aqe_rules.specs.Operations as operations;

use aqe_expr::Expr;
use aqe_values::{Memory, SqlType};
use std::alloc::Global;

/// An expression over the columns of a row, and the type of its values.
///
/// Nothing ties the two: each call here takes the types of its operands as they are given.
#[derive(Drop)]
pub struct Typed {
    /// The expression, whose columns are numbered from 0.
    pub expr: Expr,
    /// The type of its values; one of its own where NULL is the only one.
    pub kind: SqlType,
}

impl Typed {
    /// An expression and a type equal to these, which share nothing with them.
    pub fn copy(&self, alloc: Global) -> Result<Typed, Memory>
        ensures { IfOk result (λ t. t ≡ self.now) }
    {
        let expr = self.expr.copy(alloc)?;
        Ok(Typed {
            expr,
            kind: self.kind,
        })
    }
}

/// The common type of two, where they have one.
pub(crate) fn common(a: SqlType, b: SqlType) -> Option<SqlType>
    ensures { result ≡ kinds.common a b }
{
    match (a, b) {
        (SqlType::NullType, other) | (other, SqlType::NullType) => Some(other),
        (SqlType::Int, SqlType::BigInt) | (SqlType::BigInt, SqlType::Int) => Some(SqlType::BigInt),
        (a, b) if is_same_kind(a, b) => Some(a),
        _ => None,
    }
}

/// The common type of all.
pub(crate) fn common_of_all(all: &[Typed]) -> Option<SqlType>
    ensures { result ≡ operations.common_of_all all.now }
{
    let mut so_far = Some(SqlType::NullType);
    'all: for a in all {
        so_far = common_with(so_far, a.kind);
    }
    so_far
}

/// The common type of those so far and one more.
pub(crate) fn common_with(so_far: Option<SqlType>, kind: SqlType) -> Option<SqlType>
    ensures { result ≡ kinds.common_with so_far kind }
{
    match so_far {
        Some(a) => common(a, kind),
        None => None,
    }
}

/// Whether two types are the same.
pub(crate) fn is_same_kind(a: SqlType, b: SqlType) -> bool
    ensures { result ≡ kinds.is_same_kind a b }
{
    a == b
}

/// Whether a value of the type may stand where a number is wanted.
pub(crate) fn is_number(kind: SqlType) -> bool
    ensures { result ≡ kinds.is_number kind }
{
    matches!(kind, SqlType::NullType | SqlType::Int | SqlType::BigInt)
}

/// Whether a value of the type may stand where a BOOLEAN is wanted, as NULL may.
pub fn is_truth(kind: SqlType) -> bool
    ensures { result ≡ kinds.is_truth kind }
{
    matches!(kind, SqlType::NullType | SqlType::Boolean)
}

/// Whether a value of the type may stand where a text is wanted.
pub(crate) fn is_text(kind: SqlType) -> bool
    ensures { result ≡ kinds.is_text kind }
{
    matches!(kind, SqlType::NullType | SqlType::Text)
}

/// The type of arithmetic on two numbers.
pub(crate) fn wider(a: SqlType, b: SqlType) -> SqlType
    ensures { result ≡ kinds.wider a b }
{
    if matches!(a, SqlType::BigInt) || matches!(b, SqlType::BigInt) {
        SqlType::BigInt
    } else {
        SqlType::Int
    }
}
