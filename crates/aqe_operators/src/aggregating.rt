//! Groups in two steps.

ghost use Rattle.std.specs.Prelude.{◌≡◌, ◌≤◌, ◌+◌, length, IfOk};
ghost use Rattle.aqe_values.specs.Bounds.{row_limit};
ghost use Rattle.aqe_logical.specs.Groups.{row_of, group_rows, finish_rows};
ghost use Rattle.aqe_operators.specs.Lent.{lent_rows};
ghost use Rattle.aqe_operators.specs.Forms.{IsNarrow};
ghost use Rattle.aqe_operators.specs.Gathering.{grouped_by};

use crate::form::Form;
use crate::gathering::{gather, into_rows};
use aqe_base::Memory;
use aqe_logical::{AggCall, AggCalls, Exprs};
use aqe_values::{Row, Rows};
use std::alloc::Global;

/// A row for each group of the rows: the key, and then what each call makes of the rows that have it.
///
/// Groups come in the order in which their keys first appear. Without keys there is always one.
pub fn partial_rows(
    alloc: Global,
    keys: &Exprs,
    calls: &AggCalls,
    rows: &Rows,
) -> Result<Rows, Memory>
    requires { length keys.now + length calls.now ≤ row_limit }
    ensures { IfOk result (λ made. made ≡ group_rows (length keys.now) (row_of keys.now) calls.now rows.now) }
{
    partial_lent(alloc, keys, calls, &[rows.slice()])
}

/// As `partial_rows`, of rows that are lent.
pub fn partial_lent(
    alloc: Global,
    keys: &Exprs,
    calls: &AggCalls,
    pieces: &[&[Row]],
) -> Result<Rows, Memory>
    requires { length keys.now + length calls.now ≤ row_limit }
    ensures { IfOk result (λ made. made
        ≡ group_rows (length keys.now) (row_of keys.now) calls.now (lent_rows pieces.now)) }
{
    match grouped(alloc, &Form::Plain(keys.slice()), calls.slice(), pieces) {
        Ok(made) => Ok(made),
        Err(_) => Err(Memory),
    }
}

/// A row for each group of partial rows, whose first `keys` values are the key: the key, and then each call over the group.
///
/// Groups come in the order in which their keys first appear. Without keys there is always one. A value that a row lacks
/// is NULL.
pub fn final_rows(alloc: Global, keys: u32, calls: &AggCalls, rows: &Rows) -> Result<Rows, Memory>
    requires { keys + length calls.now ≤ row_limit }
    ensures { IfOk result (λ made. made ≡ finish_rows keys calls.now rows.now) }
{
    final_lent(alloc, keys, calls, &[rows.slice()])
}

/// As `final_rows`, of partial rows that are lent.
pub fn final_lent(
    alloc: Global,
    keys: u32,
    calls: &AggCalls,
    pieces: &[&[Row]],
) -> Result<Rows, Memory>
    requires { keys + length calls.now ≤ row_limit }
    ensures { IfOk result (λ made. made ≡ finish_rows keys calls.now (lent_rows pieces.now)) }
{
    match grouped(alloc, &Form::Partial(keys as usize), calls.slice(), pieces) {
        Ok(made) => Ok(made),
        Err(_) => Err(Memory),
    }
}

/// The groups of the lent rows as rows.
fn grouped(
    alloc: Global,
    form: &Form<'_>,
    calls: &[AggCall],
    pieces: &[&[Row]],
) -> Result<Rows, aqe_values::Memory>
    requires { IsNarrow form.now calls.now }
    ensures { IfOk result (λ made. made ≡ grouped_by form.now calls.now (lent_rows pieces.now)) }
{
    let groups = gather(alloc, form, calls, pieces)?;
    let made = into_rows(alloc, groups)?;
    Ok(made)
}
