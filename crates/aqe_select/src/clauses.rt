//! The clauses of a SELECT.

use aqe_trees::{ItemTree, OrTree, SortTree};

/// The clauses of a SELECT, and the ORDER BY above it.
#[derive(Drop)]
pub struct Clauses<'a> {
    /// Whether equal rows count once.
    pub distinct: bool,
    /// The select list.
    pub list: &'a [ItemTree],
    /// Whether there is a FROM.
    pub has_from: bool,
    /// WHERE.
    pub filter: &'a Option<OrTree>,
    /// GROUP BY.
    pub group: &'a [OrTree],
    /// HAVING.
    pub having: &'a Option<OrTree>,
    /// The ORDER BY above it.
    pub sorts: &'a [SortTree],
}
