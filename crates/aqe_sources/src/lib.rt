//! FROM: what it reads, its plan, and the columns that it shows; and WHERE.
#![tactic(auto)]

mod conditions;
mod joins;
mod limits;
mod pairs;
mod scope;
mod source;

pub use conditions::{condition, kept};
pub use joins::{cross_next, join_next};
pub use limits::within_limits;
pub use pairs::both_of;
pub use scope::{FromItem, FromPlan, columns_of, copy_name};
pub use source::{one_row, query_source, table_source};
