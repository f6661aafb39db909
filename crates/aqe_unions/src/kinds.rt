//! The common types of the columns of two sides.

ghost use Rattle.std.specs.Prelude.{◌≡◌};
ghost use Rattle.aqe_rules.specs.Kinds as kinds;
ghost use Rattle.aqe_rules.specs.Unions as spec;
ghost use Rattle.aqe_rules.specs.Faults.{Says};

use aqe_base::Listing;
use aqe_rules::{AnalysisFault, mismatch};
use aqe_values::{Field, SqlType};
use std::alloc::Global;

/// The types of columns, from left to right.
pub(crate) type Kinds = Listing<SqlType>;

/// The common type of two, where they have one.
fn common(a: SqlType, b: SqlType) -> Option<SqlType>
    ensures { result ≡ kinds.common a b }
{
    match (a, b) {
        (SqlType::NullType, other) | (other, SqlType::NullType) => Some(other),
        (SqlType::Int, SqlType::BigInt) | (SqlType::BigInt, SqlType::Int) => Some(SqlType::BigInt),
        (a, b) if is_same_kind(a, b) => Some(a),
        _ => None,
    }
}

/// Whether two types are the same.
pub(crate) fn is_same_kind(a: SqlType, b: SqlType) -> bool
    ensures { result ≡ kinds.is_same_kind a b }
{
    a == b
}

/// The common type of each column that both sides have.
#[tactic(auto, using(crate::proofs::KindSteps::kind_steps))]
pub(crate) fn common_kinds(
    alloc: Global,
    left: &[Field],
    right: &[Field],
) -> Result<Kinds, AnalysisFault>
    ensures { Says result (spec.common_kinds left.now right.now) }
{
    let mut kinds = Kinds::new(alloc);
    let mut others = right;
    'columns: for field in left {
        let Some((other, behind)) = others.split_first() else {
            return Ok(kinds);
        };
        match common(field.kind, other.kind) {
            Some(kind) => kinds.push(kind)?,
            None => return Err(mismatch(alloc)),
        }
        others = behind;
    }
    Ok(kinds)
}

/// Whether the columns have these types.
pub(crate) fn has_kinds(kinds: &[SqlType], fields: &[Field]) -> bool
    ensures { result ≡ spec.has_kinds kinds.now fields.now }
{
    let mut others = kinds;
    'columns: for field in fields {
        let Some((kind, behind)) = others.split_first() else {
            return true;
        };
        if !is_same_kind(field.kind, *kind) {
            return false;
        }
        others = behind;
    }
    true
}
