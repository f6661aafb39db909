//! The laws of the analysis: what holds of the plan of every query.
#![tactic(auto)]

mod laws;

pub use laws::{
    one_plan, plan_or_check, plans_are_bounded, plans_are_closed, plans_are_well_formed,
    same_is_equal, scans_are_of_the_catalog,
};
