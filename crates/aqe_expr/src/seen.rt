//! Values on the way through an expression, of which texts are not copied.

ghost use Rattle.std.specs.Prelude.{◌≡◌, IfOk};
ghost use Rattle.aqe_scalar.specs.Truths as truths;
ghost use Rattle.aqe_expr.specs.Seen.{value_of};

use aqe_scalar::is_null;
use aqe_values::{Memory, Value};
use std::alloc::Global;

/// A value that the expression or the row lends, or that was made.
#[derive(Drop)]
pub(crate) enum Seen<'a> {
    Lent(&'a Value),
    Made(Value),
}

impl<'a> Seen<'a> {
    /// The value.
    pub(crate) fn get(&self) -> &Value
        ensures { result.now ≡ value_of self.now }
    {
        match self {
            Seen::Lent(value) => value,
            Seen::Made(value) => value,
        }
    }

    /// Whether the value is NULL.
    pub(crate) fn is_null(&self) -> bool
        ensures { result ≡ truths.is_null (value_of self.now) }
    {
        is_null(self.get())
    }

    /// The value as one of its own; what was lent is copied.
    pub(crate) fn into_value(self, alloc: Global) -> Result<Value, Memory>
        ensures { IfOk result (λ v. v ≡ value_of self.entry) }
    {
        match self {
            Seen::Lent(value) => value.copy(alloc),
            Seen::Made(value) => Ok(value),
        }
    }
}
