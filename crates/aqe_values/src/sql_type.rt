//! The types of columns and expressions.

/// The type of a column or an expression.
#[derive(Clone, Copy, Debug, PartialEq, Eq, Drop)]
pub enum SqlType {
    /// The type of the literal NULL. No table has a column of it.
    NullType,
    /// BOOLEAN: true or false.
    Boolean,
    /// INT: -2^31 to 2^31 - 1.
    Int,
    /// BIGINT: -2^63 to 2^63 - 1.
    BigInt,
    /// STRING: a text of Unicode characters.
    Text,
}
