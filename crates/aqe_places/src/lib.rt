//! Where rows stand: the place of a row, the parts that an exchange makes, sorted lists, samples and bounds.
#![tactic(auto)]

mod laws;

pub use laws::{
    bounds_are_fewer, bounds_are_in_order, bounds_are_samples, exchanges_keep_the_rows,
    exchanges_place_the_rows, hash_places_are_parts, one_part_has_the_rows,
    range_parts_are_in_order, range_places_are_parts, sampled_ranges_are_the_sort,
    samples_are_keys, sort_keys_decide_in_turn, sort_keys_order, sorted_and_stable_is_the_sort,
    sorted_parts_are_sorted, sorted_ranges_are_the_sort, sorts_are_stable, sorts_keep_the_rows,
    sorts_order_the_rows,
};
