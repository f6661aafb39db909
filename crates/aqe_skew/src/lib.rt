//! Skewed partitions of a join, read in parts.
#![tactic(auto)]

mod laws;
mod measures;
mod rule;

pub use laws::one_list_of_pairs;
pub use measures::{is_skewed, median, split_target};
pub use rule::{Pairs, SkewRule, Starts};
