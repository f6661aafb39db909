//! Logical plans, what rows a query may answer, and the laws of that meaning.
#![tactic(auto)]

mod copying;
mod laws;
mod parts;
mod plan;
mod scanning;
mod schema;

pub use copying::copy;
pub use laws::{answers_agree, answers_have_the_width, closed_plans_read_no_stage};
pub use parts::{copy_calls, copy_expr, copy_exprs, copy_schema, copy_sort_keys};
pub use plan::{AggCall, AggCalls, AggFun, Exprs, Logical, Placement, SortKey, SortKeys};
pub use scanning::scans;
pub use schema::{schema_of, shows_right};
