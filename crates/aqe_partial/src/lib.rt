//! Groups of rows that stand in parts: each part's partial rows, finished, are the groups of the whole.
#![tactic(auto)]

mod laws;

pub use laws::{finishing_parts_is_grouping, held_partial_answers_as_the_aggregate};
