//! Rows of values.

ghost use Rattle.std.specs.Prelude.{◌≡◌, ◌<◌, ◌≤◌, [], ◌∷◌, ◌++◌, length, IfOk, MatchResult, slice_index_or};
ghost use Rattle.aqe_values.specs.Bounds.{row_limit};
ghost use Rattle.aqe_values.specs.Equality.{row_eq, rows_equiv, rows_partial_equiv};
ghost use Rattle.aqe_values.specs.Order.{derived_row_cmp, rows_total, rows_partial_order, rows_tie};
ghost use Rattle.aqe_values.specs.RowHash.{row_writes, rows_alike};
ghost use Rattle.std.specs.Ordering.{as_partial_cmp};
ghost use Rattle.std.specs.Prelude.{refl};

use crate::{Listing, Memory, Value};
use std::alloc::Global;
use std::cmp::Ordering;
use std::hash::{Hash, Hasher};
use std::marker::Model;

/// A row of at most 1,024 values, which contracts see as the list of its values.
#[derive(Debug, Drop)]
pub struct Row {
    values: Vec<Value>,
}

/// Rows in order.
pub type Rows = Listing<Row>;

impl Model for Row {
    ghost use Rattle.std.specs.Prelude.{List, ◌≤◌, length};
    ghost use Rattle.aqe_values.specs.declared.value.Value.{Value as ValueData};
    ghost use Rattle.aqe_values.specs.Bounds.{row_limit};

    ghost Value = { List ValueData };

    ghost view = { λ r. r.values.items };

    ghost invariant = { λ r. length r.values.items ≤ row_limit };
}

impl Row {
    /// The row without values. It takes no memory until the first `push`.
    pub fn new(alloc: Global) -> Row
        ensures { result ≡ [] }
    {
        Row {
            values: Vec::new(alloc),
        }
    }

    /// Appends the value.
    pub fn push(&mut self, value: Value) -> Result<(), Memory>
        requires { length self.old < row_limit }
        ensures { MatchResult result (λ _. self.new ≡ self.old ++ value ∷ []) (λ _. self.new ≡ self.old) }
    {
        match self.values.push(value) {
            Ok(()) => Ok(()),
            Err(_) => Err(Memory),
        }
    }

    /// The number of values.
    pub fn len(&self) -> usize
        ensures value { result ≡ length self.now }
        ensures bound { length self.now ≤ row_limit }
    {
        self.values.len()
    }

    /// The value at a place from 0.
    pub fn at(&self, i: usize) -> &Value
        requires { i < length self.now }
        ensures { result.now ≡ slice_index_or self.now i result.now }
    {
        &self.values[i]
    }

    /// A row equal to this one.
    pub fn copy(&self, alloc: Global) -> Result<Row, Memory>
        ensures { IfOk result (λ r. r ≡ self.now) }
    {
        let values = copied(alloc, self.values.as_slice())?;
        Ok(Row { values })
    }

    /// The values as a slice.
    pub fn values(&self) -> &[Value]
        ensures value { result.now ≡ self.now }
        ensures bound { length self.now ≤ row_limit }
    {
        self.values.as_slice()
    }
}

impl PartialEq for Row {
    ghost eq = { row_eq };

    ghost laws = { rows_partial_equiv };

    fn eq(&self, other: &Row) -> bool {
        self.values == other.values
    }
}

impl Eq for Row {
    ghost laws = { rows_equiv };
}

impl Ord for Row {
    ghost cmp = { derived_row_cmp };

    ghost total = { rows_total };

    ghost matches_partial_cmp = { λ a b. refl };

    ghost matches_eq = { rows_tie };

    fn cmp(&self, other: &Row) -> Ordering {
        self.values.cmp(&other.values)
    }
}

impl PartialOrd for Row {
    ghost partial_cmp = { as_partial_cmp derived_row_cmp };

    ghost laws = { rows_partial_order };

    fn partial_cmp(&self, other: &Row) -> Option<Ordering> {
        Some(self.cmp(other))
    }
}

impl Hash for Row {
    ghost hash_input = { row_writes };

    ghost respects_eq = { rows_alike };

    fn hash<H: Hasher>(&self, state: &mut H) {
        self.values.hash(state);
    }
}

fn copied(alloc: Global, values: &[Value]) -> Result<Vec<Value>, Memory>
    ensures { IfOk result (λ v. v.items ≡ values.now) }
{
    let mut copied = Vec::with_capacity(alloc, values.len())?;
    'values: for value in values {
        copied.push(value.copy(alloc)?)?;
    }
    Ok(copied)
}
