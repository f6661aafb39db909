//! The keys that the condition of a join has.
#![tactic(auto)]

mod cutting;
mod laws;
mod pairs;

pub use cutting::join_keys;
pub use laws::{
    keys_are_over_their_sides, keys_are_pairs, keys_mean_the_condition, left_keys_read_the_left_row,
};
