//! Expressions read at their place: from a tree to a typed expression over the columns of a row.
#![tactic(auto)]

mod aliases;
mod calls;
mod cases;
mod column;
mod levels;
mod literals;
mod names;
mod place;
mod steps;
mod value;

pub use calls::{Call, aggregate_named, call_of, counted, takes};
pub use place::Place;
pub use value::{is_column, value_at, value_over, value_with_aliases};
