//! The columns of a table or of a query's answer.

use crate::{Listing, SqlType, Text};

/// A column: its name as it is printed, and the type of its values.
#[derive(Debug, Drop)]
pub struct Field {
    /// The name.
    pub name: Text,
    /// The type.
    pub kind: SqlType,
}

/// The columns from left to right.
pub type Schema = Listing<Field>;
