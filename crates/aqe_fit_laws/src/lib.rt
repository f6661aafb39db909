//! Laws of planning: what a plan that the table of planning gives has as its rows.
#![tactic(auto)]

mod laws;

pub use laws::{
    finished_exchanges_stand, fitting_plans_serve, fitting_plans_stand, groups_move_places,
    groups_of_moved_parts, groups_of_placed_parts, groups_over_a_place, joins_by_parts_move_places,
    joins_keep_the_left_place, joins_move_the_right_place, limits_of_one_part,
    limits_of_parts_are_the_limit, nodes_within_parts_keep_places, parts_without_exchange_run,
    plain_reads_serve, plans_of_queries_stand, plans_serve, projects_move_places,
    sorts_of_moved_parts, sorts_over_a_place, unions_of_parts,
};
