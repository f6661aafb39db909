//! How the rows of groups come: as they are, or as partial rows.

ghost use Rattle.std.specs.Prelude.{◌≡◌, ◌≤◌, ◌+◌, IfOk, OnOk, take, slice_index_or};
ghost use Rattle.aqe_values.specs.Bounds.{row_limit};
ghost use Rattle.aqe_values.specs.declared.value.Value.TheVariants.{Null};
ghost use Rattle.aqe_logical.specs.Groups.{merged};
ghost use Rattle.aqe_operators.specs.Forms.{key_width, key_by, part_by};

use crate::merging::{merge, merge_lent, single};
use crate::projecting::row_of;
use aqe_expr::{Expr, eval};
use aqe_logical::AggCall;
use aqe_values::{Memory, Row, Value};
use std::alloc::Global;

/// Where the key of a row, and what it adds to a call, are found.
#[derive(Drop)]
pub(crate) enum Form<'a> {
    /// In rows as they are: the key is the values of these expressions, and a call has its argument.
    Plain(&'a [Expr]),
    /// In partial rows: so many values of the key stand first, and then one for each call.
    Partial(usize),
}

impl<'a> Form<'a> {
    /// The number of values of a key.
    pub fn width(&self) -> usize
        ensures { result ≡ key_width self.now }
    {
        match self {
            Form::Plain(keys) => keys.len(),
            Form::Partial(keys) => *keys,
        }
    }

    /// The key of a row.
    pub fn key_of(&self, alloc: Global, row: &Row) -> Result<Row, Memory>
        requires { key_width self.now ≤ row_limit }
        ensures { IfOk result (λ key. key ≡ key_by self.now row.now) }
    {
        match self {
            Form::Plain(keys) => row_of(alloc, keys, row),
            Form::Partial(keys) => front_of(alloc, *keys, row),
        }
    }

    /// Merges what the row adds to the call at place `i`.
    pub fn add_part(
        &self,
        alloc: Global,
        i: usize,
        call: &AggCall,
        value: &mut Value,
        row: &Row,
    ) -> Result<(), Memory>
        requires { key_width self.now + i ≤ row_limit }
        ensures { OnOk result (value.new ≡ merged call.now.fun value.old (part_by self.now i call.now row.now)) }
    {
        match self {
            Form::Plain(_) => {
                let argument = eval(alloc, &call.arg, row)?;
                merge(call.fun, value, single(call.fun, argument));
                Ok(())
            }
            Form::Partial(keys) => merge_at(alloc, call, value, row, *keys + i),
        }
    }
}

/// The first values of a row, at most `n` of them.
fn front_of(alloc: Global, n: usize, row: &Row) -> Result<Row, Memory>
    ensures { IfOk result (λ front. front ≡ take n row.now) }
{
    let mut front = Row::new(alloc);
    let values = row.values();
    let end = n.min(values.len());
    'values: for value in &values[..end] {
        front.push(value.copy(alloc)?)?;
    }
    Ok(front)
}

/// Merges the value at a place of the row, or NULL where the row ends before it.
fn merge_at(
    alloc: Global,
    call: &AggCall,
    value: &mut Value,
    row: &Row,
    i: usize,
) -> Result<(), Memory>
    ensures { OnOk result (value.new ≡ merged call.now.fun value.old (slice_index_or row.now i Null)) }
{
    match row.values().get(i) {
        Some(part) => merge_lent(alloc, call.fun, value, part),
        None => {
            merge(call.fun, value, Value::Null);
            Ok(())
        }
    }
}
