//! Rows of the values of expressions.

ghost use Rattle.std.specs.Prelude.{◌≡◌, ◌++◌, ◌≤◌, map, length, IfOk, OnOk};
ghost use Rattle.aqe_values.specs.Bounds.{row_limit};
ghost use Rattle.aqe_logical.specs.Groups as spec;
ghost use Rattle.aqe_operators.specs.Lent.{lent_rows};

use aqe_base::Memory;
use aqe_expr::{Expr, eval};
use aqe_logical::Exprs;
use aqe_values::{Row, Rows};
use std::alloc::Global;

/// For each of the rows the values of the items over it, in their order.
pub fn project_rows(alloc: Global, items: &Exprs, rows: &Rows) -> Result<Rows, Memory>
    requires { length items.now ≤ row_limit }
    ensures { IfOk result (λ made. made ≡ map (spec.row_of items.now) rows.now) }
{
    let mut made = Rows::new(alloc);
    match make_rows(alloc, items.slice(), rows.slice(), &mut made) {
        Ok(()) => Ok(made),
        Err(_) => Err(Memory),
    }
}

/// For each of the lent rows the values of the items over it, in their order.
pub fn project_lent(alloc: Global, items: &Exprs, pieces: &[&[Row]]) -> Result<Rows, Memory>
    requires { length items.now ≤ row_limit }
    ensures { IfOk result (λ made. made ≡ map (spec.row_of items.now) (lent_rows pieces.now)) }
{
    match made_lent(alloc, items.slice(), pieces) {
        Ok(made) => Ok(made),
        Err(_) => Err(Memory),
    }
}

/// The values of the items over the row.
pub(crate) fn row_of(alloc: Global, items: &[Expr], row: &Row) -> Result<Row, aqe_values::Memory>
    requires { length items.now ≤ row_limit }
    ensures { IfOk result (λ made. made ≡ spec.row_of items.now row.now) }
{
    let mut made = Row::new(alloc);
    'items: for item in items {
        let value = eval(alloc, item, row)?;
        made.push(value)?;
    }
    Ok(made)
}

/// Appends for each of the rows the values of the items over it.
#[tactic(auto, using(crate::proofs::Taken::made_more))]
fn make_rows(
    alloc: Global,
    items: &[Expr],
    rows: &[Row],
    made: &mut Rows,
) -> Result<(), aqe_values::Memory>
    requires { length items.now ≤ row_limit }
    ensures { OnOk result (made.new ≡ made.old ++ map (spec.row_of items.now) rows.now) }
{
    'rows: for row in rows {
        made.push(row_of(alloc, items, row)?)?;
    }
    Ok(())
}

#[tactic(auto, using(crate::proofs::Taken::made_piece))]
fn made_lent(alloc: Global, items: &[Expr], pieces: &[&[Row]]) -> Result<Rows, aqe_values::Memory>
    requires { length items.now ≤ row_limit }
    ensures { IfOk result (λ made. made ≡ map (spec.row_of items.now) (lent_rows pieces.now)) }
{
    let mut made = Rows::new(alloc);
    'pieces: for piece in pieces {
        make_rows(alloc, items, piece, &mut made)?;
    }
    Ok(made)
}
