//! The columns of a plan, as expressions over its rows.

ghost use Rattle.std.specs.Prelude.{◌≡◌, IfOk};
ghost use Rattle.aqe_expr.specs.declared.expr.Expr.{Column};
ghost use Rattle.aqe_rules.specs.Plans as spec;

use aqe_base::Memory;
use aqe_expr::Expr;
use aqe_logical::{AggCalls, Exprs, Logical};
use aqe_values::{Field, Schema};
use std::alloc::Global;

/// The column at a place. Places above 4,294,967,295 find no memory.
pub fn column_at(place: usize) -> Result<Expr, Memory>
    ensures { IfOk result (λ e. e ≡ Column place) }
{
    match u32::try_from(place) {
        Ok(place) => Ok(Expr::Column(place)),
        Err(_) => Err(Memory),
    }
}

/// The columns of a plan with these fields, from left to right.
pub fn columns_up_to(alloc: Global, fields: &[Field]) -> Result<Exprs, Memory>
    ensures { IfOk result (λ columns. columns ≡ spec.columns_up_to 0 fields.now) }
{
    let mut columns = Exprs::new(alloc);
    'fields: for _ in fields {
        let column = column_at(columns.len())?;
        columns.push(column)?;
    }
    Ok(columns)
}

/// The rows of a plan with these fields, equal ones once.
pub fn distinct_rows(alloc: Global, fields: Schema, plan: Logical) -> Result<Logical, Memory>
    ensures { IfOk result (λ p. p ≡ spec.distinct_rows fields plan) }
{
    let columns = columns_up_to(alloc, fields.slice())?;
    let plan = Logical::aggregate(alloc, columns, AggCalls::new(alloc), fields, plan)?;
    Ok(plan)
}
