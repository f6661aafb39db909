//! Which physical plan fits a logical plan.
#![tactic(auto)]

mod laws;

pub use laws::{
    one_plan_fits, planned_at_one_place, planned_by_more_ways,
    planned_with_sides_that_may_be_built, plans_without_reads_fit,
};
