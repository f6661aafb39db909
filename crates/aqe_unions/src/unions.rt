//! The union of two sides.

ghost use Rattle.std.specs.Prelude.{◌≡◌, IfOk};
ghost use Rattle.aqe_logical.specs.Columns.{schema_of};
ghost use Rattle.aqe_logical.specs.Shapes as shapes;
ghost use Rattle.aqe_rules.specs.Faults.{Says};
ghost use Rattle.aqe_rules.specs.Plans.{distinct_rows, distinct_if};
ghost use Rattle.aqe_rules.specs.Unions as spec;
ghost use Rattle.aqe_unions.specs.Sides.{kinds_of, union_to};

use crate::columns::distinct_rows;
use crate::kinds::{Kinds, common_kinds};
use crate::sides::cast_side;
use aqe_base::{AnalysisKind, Memory};
use aqe_boxes::both;
use aqe_logical::{Logical, schema_of};
use aqe_rules::{AnalysisFault, refused};
use aqe_sources::within_limits;
use aqe_values::SqlType;
use std::alloc::Global;

/// The common types of the columns of two sides, which must have as many columns.
#[tactic(auto, using(crate::proofs::UnionSteps::width_steps))]
fn kinds_of(alloc: Global, left: &Logical, right: &Logical) -> Result<Kinds, AnalysisFault>
    ensures { Says result (kinds_of left.now right.now) }
{
    let left = schema_of(alloc, left)?;
    let right = schema_of(alloc, right)?;
    let kinds = common_kinds(alloc, left.slice(), right.slice())?;
    if left.len() == right.len() {
        Ok(kinds)
    } else {
        Err(refused(alloc, AnalysisKind::UnionWidth, ""))
    }
}

/// The rows of both sides, equal ones once.
#[tactic(auto, using(crate::proofs::UnionSteps::plan_steps))]
fn distinct_union(alloc: Global, left: Logical, right: Logical) -> Result<Logical, Memory>
    ensures { IfOk result (λ p. p ≡ distinct_rows (schema_of left) (shapes.united left right)) }
{
    let fields = schema_of(alloc, &left);
    let (fields, plan) = both(fields, Logical::union(alloc, left, right))?;
    distinct_rows(alloc, fields, plan)
}

/// The rows of both sides, equal ones once where that is wanted.
#[tactic(auto, using(crate::proofs::UnionSteps::plan_steps))]
fn united(alloc: Global, distinct: bool, left: Logical, right: Logical) -> Result<Logical, Memory>
    ensures { IfOk result (λ p. p ≡ distinct_if distinct (schema_of left) (shapes.united left right)) }
{
    if distinct {
        distinct_union(alloc, left, right)
    } else {
        Logical::union(alloc, left, right)
    }
}

/// The union of two sides whose columns get these types, where its plan keeps the limits.
#[tactic(auto, using(crate::proofs::UnionSteps::union_steps))]
fn union_to(
    alloc: Global,
    distinct: bool,
    kinds: &[SqlType],
    left: Logical,
    right: Logical,
) -> Result<Logical, AnalysisFault>
    ensures { Says result (union_to distinct kinds.now left right) }
{
    let left = cast_side(alloc, kinds, left);
    let right = cast_side(alloc, kinds, right);
    let (left, right) = both(left, right)?;
    let plan = united(alloc, distinct, left, right)?;
    within_limits(plan)
}

/// The union of two sides whose columns get common types, equal rows once where that is wanted.
///
/// A column without a common type is refused before a difference in width, and this before the limits of the plan. The
/// columns have the names of the left side.
#[tactic(auto, using(crate::proofs::UnionSteps::union_steps))]
pub fn union_of(
    alloc: Global,
    distinct: bool,
    left: Logical,
    right: Logical,
) -> Result<Logical, AnalysisFault>
    ensures { Says result (spec.union_of distinct left right) }
{
    match kinds_of(alloc, &left, &right) {
        Ok(kinds) => union_to(alloc, distinct, kinds.slice(), left, right),
        Err(fault) => Err(fault),
    }
}
