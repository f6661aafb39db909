//! The values of SQL.

ghost use Rattle.std.specs.Prelude.{◌≡◌, IfOk};

use crate::{Memory, Text};
use std::alloc::Global;

/// A value of a column or an expression.
///
/// Equality is that of the data: NULL equals NULL. The order is by type, as the variants stand here, and then by
/// content: false before true, numbers by value, texts by their bytes.
#[derive(Debug, PartialEq, Eq, PartialOrd, Ord, Hash, Drop)]
pub enum Value {
    /// NULL, of each type.
    Null,
    /// A BOOLEAN.
    Boolean(bool),
    /// An INT.
    Int(i32),
    /// A BIGINT.
    BigInt(i64),
    /// A STRING.
    Text(Text),
}

impl Value {
    /// A value equal to this one. Only a text takes memory.
    pub fn copy(&self, alloc: Global) -> Result<Value, Memory>
        ensures { IfOk result (λ v. v ≡ self.now) }
    {
        match self {
            Value::Null => Ok(Value::Null),
            Value::Boolean(b) => Ok(Value::Boolean(*b)),
            Value::Int(n) => Ok(Value::Int(*n)),
            Value::BigInt(n) => Ok(Value::BigInt(*n)),
            Value::Text(text) => {
                let text = Text::copy_of(alloc, text.as_str())?;
                Ok(Value::Text(text))
            }
        }
    }
}
