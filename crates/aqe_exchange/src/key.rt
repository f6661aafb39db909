//! The place of a row by its key.

ghost use Rattle.std.specs.Prelude.{◌≡◌, ◌<◌, ◌≤◌, length, IfOk};
ghost use Rattle.aqe_logical.specs.Groups.{row_of};
ghost use Rattle.aqe_places.specs.Places.{by_hash};
ghost use Rattle.aqe_values.specs.Bounds.{row_limit};

use aqe_base::Memory;
use aqe_expr::{Expr, eval};
use aqe_values::{Row, place_of};
use std::alloc::Global;

/// The values of the expressions over a row.
fn key_row(alloc: Global, keys: &[Expr], row: &Row) -> Result<Row, aqe_values::Memory>
    requires { length keys.now ≤ row_limit }
    ensures { IfOk result (λ key. key ≡ row_of keys.now row.now) }
{
    let mut key = Row::new(alloc);
    'keys: for expr in keys {
        let value = eval(alloc, expr, row)?;
        key.push(value)?;
    }
    Ok(key)
}

/// The part of `n` that a row belongs to by its keys.
pub(crate) fn place_by_hash(alloc: Global, keys: &[Expr], n: u32, row: &Row) -> Result<u32, Memory>
    requires keys { length keys.now ≤ row_limit }
    requires parts { 1 ≤ n }
    ensures value { IfOk result (λ place. place ≡ by_hash n keys.now row.now) }
    ensures bound { IfOk result (λ place. place < n) }
{
    match key_row(alloc, keys, row) {
        Ok(key) => Ok(place_of(&key, n)),
        Err(_) => Err(Memory),
    }
}
