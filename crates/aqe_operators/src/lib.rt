//! The operators of a task over lists of rows: filter, project, limit, and groups in two steps.
#![tactic(auto)]

mod aggregating;
mod filtering;
mod form;
mod gathering;
mod limiting;
mod merging;
mod projecting;
mod tally;

pub use aggregating::{final_lent, final_rows, partial_lent, partial_rows};
pub use filtering::{filter_lent, filter_rows};
pub use limiting::{limit_lent, limit_rows};
pub use projecting::{project_lent, project_rows};
