//! ORDER BY, LIMIT and OFFSET: the keys of an order, and the plans that have it.
#![tactic(auto)]

mod hiding;
mod limit;
mod order;
mod positions;
mod sorted;
mod sorting;

pub use hiding::{Hiding, ShownAlone};
pub use limit::cut;
pub use order::{Order, order_of};
pub use positions::bad_position;
pub use sorted::{ordered, shown_columns, sorted_by, without_hidden};
