//! How stages are made of a plan, one by one.
#![tactic(auto)]

mod laws;

pub use laws::{
    at_most_one_is_next, bodies_fit, columns_stay, made_one_by_one, makings_are_ready,
    makings_stand_in_the_plan, next_is_made, not_ready_after, parts_still_fit,
    queries_made_one_by_one, ready_has_no_other, stages_are_made,
};
