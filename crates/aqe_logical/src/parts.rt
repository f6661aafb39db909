//! Copies of the parts of plans.

ghost use Rattle.std.specs.Prelude.{◌≡◌, ◌++◌, IfOk};

use crate::{AggCall, AggCalls, Exprs, Placement, SortKey, SortKeys};
use aqe_base::{Listing, Memory};
use aqe_expr::Expr;
use aqe_values::{Field, Schema, Text};
use std::alloc::Global;

impl Placement {
    /// A placement equal to this one.
    pub fn copy(&self, alloc: Global) -> Result<Placement, Memory>
        ensures { IfOk result (λ p. p ≡ self.now) }
    {
        match self {
            Placement::Any => Ok(Placement::Any),
            Placement::Single => Ok(Placement::Single),
            Placement::Hash(exprs) => {
                let exprs = copy_exprs(alloc, exprs)?;
                Ok(Placement::Hash(exprs))
            }
            Placement::Range(keys) => {
                let keys = copy_sort_keys(alloc, keys)?;
                Ok(Placement::Range(keys))
            }
            Placement::Broadcast => Ok(Placement::Broadcast),
        }
    }
}

/// An expression equal to this one.
pub fn copy_expr(alloc: Global, expr: &Expr) -> Result<Expr, Memory>
    ensures { IfOk result (λ e. e ≡ expr.now) }
{
    match expr.copy(alloc) {
        Ok(copied) => Ok(copied),
        Err(_) => Err(Memory),
    }
}

/// A list of expressions equal to this one.
pub fn copy_exprs(alloc: Global, exprs: &Exprs) -> Result<Exprs, Memory>
    ensures { IfOk result (λ e. e ≡ exprs.now) }
{
    let mut copied = Listing::new(alloc);
    'items: for item in exprs.slice() {
        let item = copy_expr(alloc, item)?;
        copied.push(item)?;
    }
    Ok(copied)
}

/// A list of sort keys equal to this one.
pub fn copy_sort_keys(alloc: Global, keys: &SortKeys) -> Result<SortKeys, Memory>
    ensures { IfOk result (λ k. k ≡ keys.now) }
{
    let mut copied = Listing::new(alloc);
    'items: for item in keys.slice() {
        let expr = copy_expr(alloc, &item.expr)?;
        copied.push(SortKey {
            expr,
            way: item.way,
        })?;
    }
    Ok(copied)
}

/// A list of aggregate calls equal to this one.
pub fn copy_calls(alloc: Global, calls: &AggCalls) -> Result<AggCalls, Memory>
    ensures { IfOk result (λ c. c ≡ calls.now) }
{
    let mut copied = Listing::new(alloc);
    'items: for item in calls.slice() {
        let arg = copy_expr(alloc, &item.arg)?;
        copied.push(AggCall { fun: item.fun, arg })?;
    }
    Ok(copied)
}

/// A schema equal to this one.
pub fn copy_schema(alloc: Global, schema: &Schema) -> Result<Schema, Memory>
    ensures { IfOk result (λ s. s ≡ schema.now) }
{
    let mut copied = Schema::new(alloc);
    match append_fields(alloc, &mut copied, schema) {
        Ok(()) => Ok(copied),
        Err(_) => Err(Memory),
    }
}

/// Appends copies of the fields of `more`.
pub(crate) fn append_fields(
    alloc: Global,
    schema: &mut Schema,
    more: &Schema,
) -> Result<(), aqe_values::Memory>
    ensures { IfOk result (λ u. schema.new ≡ schema.old ++ more.now) }
{
    'items: for field in more.slice() {
        let name = Text::copy_of(alloc, field.name.as_str())?;
        schema.push(Field {
            name,
            kind: field.kind,
        })?;
    }
    Ok(())
}
