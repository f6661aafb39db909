//! The rows of which a condition holds.

ghost use Rattle.std.specs.Prelude.{◌≡◌, ◌∷◌, ◌++◌, [], filter, IfOk, OnOk};
ghost use Rattle.aqe_expr.specs.Meaning.{holds};
ghost use Rattle.aqe_operators.specs.Lent.{lent_rows};

use aqe_base::Memory;
use aqe_expr::{Expr, eval, truth};
use aqe_values::{Row, Rows};
use std::alloc::Global;

/// The rows of which the condition holds, in their order. They move and are not copied.
pub fn filter_rows(alloc: Global, cond: &Expr, rows: Rows) -> Result<Rows, Memory>
    ensures { IfOk result (λ kept. kept ≡ filter (holds cond.now) rows) }
{
    match kept_owned(alloc, cond, rows) {
        Ok(kept) => Ok(kept),
        Err(_) => Err(Memory),
    }
}

/// Copies of those of the lent rows of which the condition holds, in their order. No other row is copied.
pub fn filter_lent(alloc: Global, cond: &Expr, pieces: &[&[Row]]) -> Result<Rows, Memory>
    ensures { IfOk result (λ kept. kept ≡ filter (holds cond.now) (lent_rows pieces.now)) }
{
    match kept_lent(alloc, cond, pieces) {
        Ok(kept) => Ok(kept),
        Err(_) => Err(Memory),
    }
}

/// Whether the condition holds of the row.
fn is_kept(alloc: Global, cond: &Expr, row: &Row) -> Result<bool, aqe_values::Memory>
    ensures { IfOk result (λ kept. kept ≡ holds cond.now row.now) }
{
    let value = eval(alloc, cond, row)?;
    Ok(truth(&value))
}

/// Appends the row if the condition holds of it.
fn keep_row(alloc: Global, cond: &Expr, row: Row, kept: &mut Rows) -> Result<(), aqe_values::Memory>
    ensures { OnOk result (kept.new ≡ kept.old ++ filter (holds cond.now) (row ∷ [])) }
{
    if is_kept(alloc, cond, &row)? {
        kept.push(row)?;
    }
    Ok(())
}

fn kept_owned(alloc: Global, cond: &Expr, rows: Rows) -> Result<Rows, aqe_values::Memory>
    ensures { IfOk result (λ kept. kept ≡ filter (holds cond.now) rows) }
{
    let mut kept = Rows::new(alloc);
    'rows: for row in rows.into_vec() {
        keep_row(alloc, cond, row, &mut kept)?;
    }
    Ok(kept)
}

/// Appends a copy of the row if the condition holds of it.
fn keep_copy(
    alloc: Global,
    cond: &Expr,
    row: &Row,
    kept: &mut Rows,
) -> Result<(), aqe_values::Memory>
    ensures { OnOk result (kept.new ≡ kept.old ++ filter (holds cond.now) (row.now ∷ [])) }
{
    if is_kept(alloc, cond, row)? {
        kept.push(row.copy(alloc)?)?;
    }
    Ok(())
}

/// Appends copies of those of the rows of which the condition holds.
#[tactic(auto, using(crate::proofs::Taken::kept_more))]
fn keep_copies(
    alloc: Global,
    cond: &Expr,
    rows: &[Row],
    kept: &mut Rows,
) -> Result<(), aqe_values::Memory>
    ensures { OnOk result (kept.new ≡ kept.old ++ filter (holds cond.now) rows.now) }
{
    'rows: for row in rows {
        keep_copy(alloc, cond, row, kept)?;
    }
    Ok(())
}

#[tactic(auto, using(crate::proofs::Taken::kept_piece))]
fn kept_lent(alloc: Global, cond: &Expr, pieces: &[&[Row]]) -> Result<Rows, aqe_values::Memory>
    ensures { IfOk result (λ kept. kept ≡ filter (holds cond.now) (lent_rows pieces.now)) }
{
    let mut kept = Rows::new(alloc);
    'pieces: for piece in pieces {
        keep_copies(alloc, cond, piece, &mut kept)?;
    }
    Ok(kept)
}
