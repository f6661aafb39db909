//! Where the expressions of a grouped query stand.

use aqe_rules::Named;
use aqe_trees::ItemTree;

/// The columns that an expression is read over, and the select list whose aliases it may use.
#[derive(Drop)]
pub(crate) struct Scope<'a> {
    /// The columns of FROM.
    pub(crate) columns: &'a [Named],
    /// The items whose aliases stand for what no column has as its name; empty where no alias may be used.
    pub(crate) list: &'a [ItemTree],
}
