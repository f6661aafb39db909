//! The columns of a plan's answers.

ghost use Rattle.std.specs.Prelude.{◌≡◌, ◌++◌, IfOk};
ghost use Rattle.aqe_logical.specs.Columns as spec;

use crate::Logical;
use crate::parts::{append_fields, copy_schema};
use aqe_base::{JoinKind, Memory};
use aqe_values::Schema;
use std::alloc::Global;

/// The columns of the plan's answers, from left to right.
#[tactic(auto, using(crate::proofs::Schemas::schemas))]
pub fn schema_of(alloc: Global, logical: &Logical) -> Result<Schema, Memory>
    ensures { IfOk result (λ s. s ≡ spec.schema_of logical.now) }
{
    match logical {
        Logical::OneRow => Ok(Schema::new(alloc)),
        Logical::Scan { schema, .. }
        | Logical::Project { schema, .. }
        | Logical::Aggregate { schema, .. }
        | Logical::Empty { schema }
        | Logical::Held { schema, .. }
        | Logical::HeldPartial { schema, .. } => {
            let schema = copy_schema(alloc, schema)?;
            Ok(schema)
        }
        Logical::Filter { child, .. }
        | Logical::Sort { child, .. }
        | Logical::Limit { child, .. }
        | Logical::Sampled { child, .. } => {
            let schema = schema_of(alloc, child.get())?;
            Ok(schema)
        }
        Logical::Join {
            kind,
            left,
            right,
            ..
        } => {
            let schema = schema_of(alloc, left.get())?;
            if !shows_right(*kind) {
                return Ok(schema);
            }
            let right = schema_of(alloc, right.get())?;
            let both = joined(alloc, schema, &right)?;
            Ok(both)
        }
        Logical::Union { left, .. } => {
            let schema = schema_of(alloc, left.get())?;
            Ok(schema)
        }
    }
}

/// Whether a join of the kind shows the columns of its right side.
pub fn shows_right(kind: JoinKind) -> bool
    ensures { result ≡ spec.shows_right kind }
{
    !matches!(kind, JoinKind::LeftSemi | JoinKind::LeftAnti)
}

/// The columns of the left side, then those of the right.
fn joined(alloc: Global, left: Schema, right: &Schema) -> Result<Schema, Memory>
    ensures { IfOk result (λ s. s ≡ left ++ right.now) }
{
    let mut both = left;
    match append_fields(alloc, &mut both, right) {
        Ok(()) => Ok(both),
        Err(_) => Err(Memory),
    }
}
