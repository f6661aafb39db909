//! UNION: one plan of two sides, whose columns get common types.
#![tactic(auto)]

mod columns;
mod kinds;
mod sides;
mod unions;

pub use columns::{column_at, columns_up_to, distinct_rows};
pub use unions::union_of;
