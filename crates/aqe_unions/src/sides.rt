//! A side of a union, cast where its types differ from the common ones.

ghost use Rattle.std.specs.Prelude.{◌≡◌, IfOk};
ghost use Rattle.aqe_expr.specs.declared.expr.Expr.{Column};
ghost use Rattle.aqe_logical.specs.Shapes.{projected};
ghost use Rattle.aqe_rules.specs.Operations.{typed, converted};
ghost use Rattle.aqe_rules.specs.Unions as spec;

use crate::columns::column_at;
use crate::kinds::{has_kinds, is_same_kind};
use aqe_base::Memory;
use aqe_boxes::both;
use aqe_expr::Expr;
use aqe_logical::{Exprs, Logical, schema_of};
use aqe_rules::{Typed, cast};
use aqe_values::{Field, Schema, SqlType, Text};
use std::alloc::Global;

/// The column at a place as a value of a type.
#[tactic(auto, using(crate::proofs::SideSteps::column_steps))]
fn converted_column(
    alloc: Global,
    place: usize,
    own: SqlType,
    wanted: SqlType,
) -> Result<Expr, Memory>
    ensures { IfOk result (λ e. e ≡ converted wanted (typed (Column place) own)) }
{
    let expr = column_at(place)?;
    if is_same_kind(own, wanted) {
        return Ok(expr);
    }
    match cast(alloc, wanted, Typed { expr, kind: own }) {
        Ok(value) => Ok(value.expr),
        Err(_) => Err(Memory),
    }
}

/// The columns of a side as values of these types.
fn cast_columns(alloc: Global, kinds: &[SqlType], fields: &[Field]) -> Result<Exprs, Memory>
    ensures { IfOk result (λ items. items ≡ spec.cast_columns 0 kinds.now fields.now) }
{
    let mut items = Exprs::new(alloc);
    let mut others = kinds;
    'columns: for field in fields {
        let Some((kind, behind)) = others.split_first() else {
            return Ok(items);
        };
        let item = converted_column(alloc, items.len(), field.kind, *kind)?;
        items.push(item)?;
        others = behind;
    }
    Ok(items)
}

/// The fields of a side with these types.
fn cast_fields(
    alloc: Global,
    kinds: &[SqlType],
    fields: &[Field],
) -> Result<Schema, aqe_values::Memory>
    ensures { IfOk result (λ schema. schema ≡ spec.cast_fields kinds.now fields.now) }
{
    let mut schema = Schema::new(alloc);
    let mut others = kinds;
    'columns: for field in fields {
        let Some((kind, behind)) = others.split_first() else {
            return Ok(schema);
        };
        let name = Text::copy_of(alloc, field.name.as_str())?;
        schema.push(Field { name, kind: *kind })?;
        others = behind;
    }
    Ok(schema)
}

/// The expressions and the fields of a side with these types.
fn cast_parts(alloc: Global, kinds: &[SqlType], fields: &[Field]) -> Result<(Exprs, Schema), Memory>
    ensures expressions { IfOk result (λ parts. parts.0 ≡ spec.cast_columns 0 kinds.now fields.now) }
    ensures fields { IfOk result (λ parts. parts.1 ≡ spec.cast_fields kinds.now fields.now) }
{
    match cast_fields(alloc, kinds, fields) {
        Ok(schema) => {
            let items = cast_columns(alloc, kinds, fields)?;
            Ok((items, schema))
        }
        Err(_) => Err(Memory),
    }
}

/// The rows of a side with these fields as values of these types. The names stay.
#[tactic(auto, using(crate::proofs::SideSteps::side_steps))]
fn cast_rows(
    alloc: Global,
    kinds: &[SqlType],
    fields: &[Field],
    plan: Logical,
) -> Result<Logical, Memory>
    ensures { IfOk result (λ p. p ≡ projected (spec.cast_columns 0 kinds.now fields.now) (spec.cast_fields kinds.now fields.now) plan) }
{
    let ((items, schema), plan) = both(cast_parts(alloc, kinds, fields), Ok(plan))?;
    Logical::project(alloc, items, schema, plan)
}

/// The side as one whose columns have these types.
#[tactic(auto, using(crate::proofs::SideSteps::side_steps))]
pub(crate) fn cast_side(alloc: Global, kinds: &[SqlType], plan: Logical) -> Result<Logical, Memory>
    ensures { IfOk result (λ p. p ≡ spec.cast_side kinds.now plan) }
{
    let (fields, plan) = both(schema_of(alloc, &plan), Ok(plan))?;
    if has_kinds(kinds, fields.slice()) {
        Ok(plan)
    } else {
        cast_rows(alloc, kinds, fields.slice(), plan)
    }
}
