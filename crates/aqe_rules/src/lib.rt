//! The rules of names, types and grouping: which plan a query has, and the operations on typed
//! expressions.
#![tactic(auto)]

mod cases;
mod fault;
mod limits;
mod names;
mod operations;
mod typed;

pub use cases::{case_of, switch};
pub use fault::AnalysisFault;
pub use limits::room_behind;
pub use names::{Named, alike, column_named, column_of_item, is_of};
pub use operations::{
    between, cast, coalesce, comparison, in_list, is_operation, length_of, like, logical, mismatch,
    negation, product_operation, refused, signed_operation, sum_operation,
};
pub use typed::{Typed, is_truth};
