//! The statements of a script.

use crate::QueryTree;
use aqe_base::Listing;
use aqe_values::{SqlType, Text};

/// The statements in the order in which they stand.
pub type Script = Listing<Stmt>;

/// A statement.
#[derive(Drop)]
pub enum Stmt {
    /// `CREATE TABLE ..`
    CreateTable(TableForm),
    /// `SET ..`
    Set(SetForm),
    /// A query.
    Query(QueryTree),
}

/// The columns of a table, by name and type.
pub type ColumnForms = Listing<(Text, SqlType)>;

/// The options of a table, by key and value. TRUE and FALSE are the texts `true` and `false`.
pub type OptionForms = Listing<(Text, Text)>;

/// `CREATE TABLE name ( column {, column} ) USING csv`, with OPTIONS at most once and LOCATION once.
#[derive(Drop)]
pub struct TableForm {
    pub name: Text,
    pub columns: ColumnForms,
    /// Empty where there is no OPTIONS.
    pub options: OptionForms,
    pub location: Text,
}

/// `SET key = value`
#[derive(Drop)]
pub struct SetForm {
    /// The words with a point between each two.
    pub key: Text,
    /// The content where the value is one string, else the source's text from its first token to its last.
    pub value: Text,
}
