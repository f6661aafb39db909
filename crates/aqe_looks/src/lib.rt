//! What can be seen of an expression before its names are known.
#![tactic(auto)]

mod aggregates;
mod missing;
mod numbers;

pub use aggregates::has_aggregate;
pub use missing::{Mention, first_missing};
pub use numbers::number_alone;
