//! Analysis of queries: the one plan of a query over a catalog, or the first check that fails.
#![tactic(auto)]

mod analysis;
mod steps;

pub use analysis::analyse;
pub use aqe_laws::{
    one_plan, plan_or_check, plans_are_bounded, plans_are_closed, plans_are_well_formed,
    scans_are_of_the_catalog,
};
pub use aqe_rules::AnalysisFault;
