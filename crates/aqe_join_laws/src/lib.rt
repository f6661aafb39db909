//! Laws of joined rows: in the order of each way of joining, and part by part, they are the rows of the join.
#![tactic(auto)]

mod laws;

pub use laws::{
    joined_sides_are_the_join, joined_sides_over_a_place, joins_of_placed_parts,
    joins_with_a_whole_left, joins_with_a_whole_right, matching_rows_have_equal_keys,
    matching_rows_have_one_place, merged_rows_are_the_join, rows_from_the_right_are_the_join,
    rows_of_each_way_are_the_join, same_matches_give_the_same_rows,
};
