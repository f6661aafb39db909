//! Where expressions stand.

use crate::calls::Call;
use aqe_rules::Named;
use aqe_trees::ItemTree;

/// Where an expression stands.
#[derive(Drop)]
pub struct Place<'a> {
    /// The columns of the rows that it is read over.
    pub columns: &'a [Named],
    /// The select list whose aliases it may use where no column has the name; empty where it may use none.
    pub list: &'a [ItemTree],
    /// The aggregate calls that may stand in it. Their values follow the columns, in this order.
    pub calls: &'a [Call],
}
